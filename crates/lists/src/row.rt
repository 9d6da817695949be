// A row: `symbol longest | mode | tokens`, and what is found after that.
use std::alloc::{AllocError, Global};
use swc_context::context::{Context, Syntax};

/// What the lists of a row are read as.
#[derive(Clone, Copy)]
pub(crate) enum Symbol {
    /// An expression.
    Whole,
    /// A binding pattern.
    Pattern,
    /// Formal parameters, and the `)` after them.
    Parameters,
    /// What the head of a `for` begins with, and the token after it.
    ForHead,
    /// The same of a `for await`.
    ForAwaitHead,
}

/// In which code the lists of a row are read, and by which syntax.
#[derive(Clone, Copy)]
pub(crate) struct Mode {
    pub(crate) context: Context,
    pub(crate) syntax: Syntax,
}

/// Which lists are read, and how.
#[derive(Drop)]
pub(crate) struct Row {
    pub(crate) symbol: Symbol,
    /// How many tokens the longest lists have.
    pub(crate) longest: usize,
    pub(crate) mode: Mode,
    /// The tokens of which the lists are made, as the row writes them.
    pub(crate) tokens: Vec<String>,
}

/// The row that the line has, if it has one: `Whole 4 | script | a + ( )`, and what may be after another bar.
pub(crate) fn row_of(alloc: Global, line: &str) -> Result<Option<Row>, AllocError> {
    let mut parts = line.split(" | ");
    let call = parts.next().unwrap_or("");
    let mode = mode_of(parts.next().unwrap_or(""));
    let tokens = tokens_of(alloc, parts.next().unwrap_or(""))?;
    let (symbol, longest) = call.split_once(' ').unwrap_or((call, ""));
    match (symbol_of(symbol), longest.parse(), mode) {
        (Some(symbol), Ok(longest), Some(mode)) if !tokens.is_empty() => Ok(Some(Row {
            symbol,
            longest,
            mode,
            tokens,
        })),
        _ => Ok(None),
    }
}

/// The tokens, with blanks between them.
fn tokens_of(alloc: Global, text: &str) -> Result<Vec<String>, AllocError> {
    let mut tokens = Vec::new(alloc);
    for token in text.split_whitespace() {
        tokens.push(String::from_str(alloc, token)?)?;
    }
    Ok(tokens)
}

fn symbol_of(name: &str) -> Option<Symbol> {
    match name {
        "Whole" => Some(Symbol::Whole),
        "Pattern" => Some(Symbol::Pattern),
        "Parameters" => Some(Symbol::Parameters),
        "ForHead" => Some(Symbol::ForHead),
        "ForAwaitHead" => Some(Symbol::ForAwaitHead),
        _ => None,
    }
}

/// The mode that the words say, with blanks between them.
fn mode_of(words: &str) -> Option<Mode> {
    let mut mode = Mode {
        context: Context {
            include_in_expr: true,
            ..Context::default()
        },
        syntax: Syntax::default(),
    };
    for word in words.split(' ') {
        if !set(&mut mode, word) {
            return None;
        }
    }
    Some(mode)
}

/// Changes what the word says. Answers whether it is one that says something.
fn set(mode: &mut Mode, word: &str) -> bool {
    let Mode { context, syntax } = mode;
    match word {
        "script" => {}
        "strict" => context.strict = true,
        "module" => {
            context.module = true;
            context.can_be_module = true;
            context.strict = true;
        }
        "generator" => {
            context.in_generator = true;
            enter_function(context);
        }
        "async" => {
            context.in_async = true;
            enter_function(context);
        }
        "static_block" => context.in_static_block = true,
        "class_field" => context.in_class_field = true,
        "without_in" => context.include_in_expr = false,
        "pedantic" => syntax.pedantic = true,
        "attributes" => syntax.import_attributes = true,
        _ => return false,
    }
    true
}

/// Sets the flags of the body of a function that is no arrow function.
fn enter_function(context: &mut Context) {
    context.in_function = true;
    context.inside_non_arrow_function_scope = true;
}
