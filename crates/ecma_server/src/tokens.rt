// Semantic tokens: what the words of a document are that no grammar of an editor tells.
use crate::documents::Document;
use crate::kinds::{Kind, Kinds};
use crate::lines::LineIndex;
use crate::settings::Settings;
use program_names::names::{Name, Use, names};
use program_tokens::texts::tokens_of;
use serde_json::Value;
use statement_trees::tree::{Program, VariableKind};
use std::alloc::{AllocError, Global};
use swc_ecma_parser::context::span::Span;
use swc_ecma_parser::context::word::Word;
use swc_ecma_parser::input::token::{Token, TokenAndSpan};

/// The types of tokens, in the order of their numbers.
pub(crate) const TYPES: [&str; 6] = [
    "variable",
    "parameter",
    "function",
    "class",
    "property",
    "keyword",
];

/// What tokens are beside their types: a bit each.
pub(crate) const MODIFIERS: [&str; 3] = ["declaration", "readonly", "defaultLibrary"];

/// Words that are keywords in some places.
const CONTEXTUAL: [&str; 7] = ["async", "of", "get", "set", "static", "as", "from"];

/// A word: its place, its type, and its bits.
#[derive(Clone, Copy)]
struct Marked {
    span: Span,
    kind: u64,
    bits: u64,
}

/// The tokens of a document as the protocol has them: five numbers each.
pub(crate) fn semantic_tokens(
    alloc: Global,
    document: &Document,
    program: &Program,
    settings: Settings,
) -> Result<Value, AllocError> {
    let kinds = Kinds::new(alloc, program)?;
    let names = names(alloc, program)?;
    let tokens = tokens_of(alloc, document.text.as_str(), program.goal.is_module())?;
    let lines = document.lines(alloc, settings.units)?;
    let mut data = Data {
        numbers: Vec::new(alloc),
        line: 0,
        character: 0,
    };
    for (number, token) in tokens.iter().enumerate() {
        if let Token::Word(Word::Ident(text)) = &token.token
            && let Some(marked) = mark_of(&names, &kinds, &tokens, number, text.as_str())
        {
            data.put(&lines, marked)?;
        }
    }
    Ok(Value::Array(data.numbers))
}

/// What a word is.
fn mark_of(
    names: &[Name<'_>],
    kinds: &Kinds,
    tokens: &[TokenAndSpan],
    number: usize,
    text: &str,
) -> Option<Marked> {
    let token = tokens.get(number)?;
    let at = names.partition_point(|name| name.span.lo.0 < token.span.lo.0);
    if let Some(name) = names.get(at)
        && name.span == token.span
    {
        return Some(of_name(name, kinds));
    }
    let before = number.checked_sub(1).and_then(|before| tokens.get(before));
    let is_member = match before {
        Some(before) => matches!(before.token, Token::Dot | Token::Hash),
        None => false,
    };
    let after = tokens
        .get(number.saturating_add(1))
        .map(|after| &after.token);
    let is_key = matches!(
        after,
        None | Some(
            Token::Colon
                | Token::LParen
                | Token::Comma
                | Token::RBrace
                | Token::Semi
                | Token::AssignOp(_)
        )
    );
    let is_keyword = !is_member && !is_key && CONTEXTUAL.contains(&text);
    Some(Marked {
        span: token.span,
        kind: if is_keyword { 5 } else { 4 },
        bits: 0,
    })
}

/// What a name is.
fn of_name(name: &Name<'_>, kinds: &Kinds) -> Marked {
    use statement_trees::tree::VariableKind;
    let declaration = if name.how == Use::Bound { 1 } else { 0 };
    let kind = name.declaration().and_then(|place| kinds.of(place));
    let (kind, bits) = match (name.declaration(), kind) {
        (None, _) => (0, 4),
        (_, Some(Kind::Parameter | Kind::Caught)) => (1, 0),
        (_, Some(Kind::Function)) => (2, 0),
        (_, Some(Kind::Class)) => (3, 0),
        (_, Some(Kind::Variable(VariableKind::Const) | Kind::Import)) => (0, 2),
        _ => (0, 0),
    };
    Marked {
        span: name.span,
        kind,
        bits: bits | declaration,
    }
}

/// The numbers, and where the token before is.
#[derive(Drop)]
struct Data {
    numbers: Vec<Value>,
    line: usize,
    character: usize,
}

impl Data {
    fn put(&mut self, lines: &LineIndex<'_>, marked: Marked) -> Result<(), AllocError> {
        let at = lines.position(marked.span.lo.0 as usize);
        let down = at.line.saturating_sub(self.line);
        let right = if down == 0 {
            at.character.saturating_sub(self.character)
        } else {
            at.character
        };
        self.line = at.line;
        self.character = at.character;
        let width = lines.width(marked.span);
        for number in [
            down as u64,
            right as u64,
            width as u64,
            marked.kind,
            marked.bits,
        ] {
            self.numbers.push(Value::from(number))?;
        }
        Ok(())
    }
}
