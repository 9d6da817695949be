// Commands and their options.
use layout_document::style::Style;
use statement_trees::tree::Goal;

/// What is done with each text.
#[derive(Clone, Copy, PartialEq, Eq, Debug)]
pub enum Command {
    Check,
    Estree,
    Expr,
    Format,
    Lint,
    Lsp,
    Outline,
    Pat,
    Scopes,
    Template,
    Tokens,
}

impl Command {
    /// The command that the word names, one of those that the program has.
    pub fn named(word: &str) -> Command {
        match word {
            "estree" => Command::Estree,
            "expr" => Command::Expr,
            "format" => Command::Format,
            "lint" => Command::Lint,
            "lsp" => Command::Lsp,
            "outline" => Command::Outline,
            "pat" => Command::Pat,
            "scopes" => Command::Scopes,
            "template" => Command::Template,
            "tokens" => Command::Tokens,
            _ => Command::Check,
        }
    }

    /// Whether what is found is what the command writes: then it goes to standard output.
    pub fn finds(self) -> bool {
        matches!(self, Command::Check | Command::Lint)
    }

    /// Whether the command writes lines of a file that don't have its name.
    pub fn lists(self) -> bool {
        matches!(
            self,
            Command::Expr
                | Command::Outline
                | Command::Pat
                | Command::Scopes
                | Command::Template
                | Command::Tokens
        )
    }
}

/// What trees have beside their nodes.
#[derive(Clone, Copy)]
pub struct Trees {
    pub loc: bool,
    pub range: bool,
    pub comments: bool,
    pub tokens: bool,
    /// Whether they are laid out over lines.
    pub pretty: bool,
}

/// What is asked for beside the files.
#[derive(Clone, Copy)]
pub struct Options {
    pub command: Command,
    /// What each text is read as; none: by its name.
    pub goal: Option<Goal>,
    pub json: bool,
    /// How many findings of a file are told.
    pub max: usize,
    pub trees: Trees,
    pub check: bool,
    pub write: bool,
    pub expr: bool,
    /// Where an expression or a pattern is read: in strict code, in a generator, in an async function.
    pub strict: bool,
    pub generator: bool,
    pub asynchronous: bool,
    pub pedantic: bool,
    pub style: Style,
}

impl Options {
    /// What the command does without options.
    pub fn new(command: Command) -> Options {
        Options {
            command,
            goal: None,
            json: false,
            max: 20,
            trees: Trees {
                loc: false,
                range: false,
                comments: false,
                tokens: false,
                pretty: false,
            },
            check: false,
            write: false,
            expr: false,
            strict: false,
            generator: false,
            asynchronous: false,
            pedantic: false,
            style: Style::usual(),
        }
    }
}
