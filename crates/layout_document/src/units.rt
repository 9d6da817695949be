// The units of a layout: tokens, and functions, classes and blocks as a whole.
use std::alloc::{AllocError, Global};
use swc_context::span::Span;
use swc_input::token::{Token, TokenAndSpan};

/// What a unit is, as far as that matters by itself.
#[derive(Clone, Copy, PartialEq, Eq)]
pub enum Kind {
    /// `(`
    OpenParen,
    /// `[`
    OpenSquare,
    /// `{`
    OpenBrace,
    /// `{` around statements, members of a class or clauses of a `switch`, which are units of a program.
    OpenBody,
    /// `${`
    OpenHole,
    /// `)`, `]` or `}`
    Close,
    /// `,`
    Comma,
    /// A number: a dot right after it would be read as a part of it.
    Number,
    /// `;`
    Semicolon,
    /// `;` that ends a statement, or a comma before a closing bracket: it is left out of the units, and written where the
    /// layout has it.
    Ending,
    /// Anything else.
    Other,
}

/// A part of the text that is written as it is. Places are in bytes.
#[derive(Clone, Copy)]
pub struct Unit {
    pub lo: usize,
    pub hi: usize,
    pub kind: Kind,
    /// A line break is between the unit before and this.
    pub is_at_line: bool,
}

impl Kind {
    /// Whether it is an opening bracket.
    pub fn opens(self) -> bool {
        matches!(
            self,
            Kind::OpenParen | Kind::OpenSquare | Kind::OpenBrace | Kind::OpenHole | Kind::OpenBody
        )
    }
}

/// The units of a text that has these tokens, and these bodies, each with a token at least.
pub fn units_of(
    alloc: Global,
    tokens: &[TokenAndSpan],
    bodies: &[Span],
) -> Result<Vec<Unit>, AllocError> {
    let mut units = Vec::new(alloc);
    let mut next = 0usize;
    for token in tokens {
        if is_after(token.span, bodies.get(next)) {
            next = next.saturating_add(1);
        }
        match bodies.get(next) {
            Some(body) if body.lo == token.span.lo => {
                units.push(unit_at(*body, Kind::Other, token.had_line_break))?
            }
            Some(body) if body.lo < token.span.lo => {}
            _ => {
                let kind = kind_of(&token.token);
                units.push(unit_at(token.span, kind, token.had_line_break))?
            }
        }
    }
    Ok(units)
}

/// Whether the place is after a body, if there is one.
fn is_after(place: Span, body: Option<&Span>) -> bool {
    match body {
        Some(body) => body.hi <= place.lo,
        None => false,
    }
}

fn unit_at(span: Span, kind: Kind, is_at_line: bool) -> Unit {
    Unit {
        lo: span.lo.0 as usize,
        hi: span.hi.0 as usize,
        kind,
        is_at_line,
    }
}

/// Shapes the commas before closing brackets as endings, but for those of holes of arrays, which mean something.
pub fn shape_commas(units: &mut Vec<Unit>) {
    for number in 2..units.len() {
        let kinds = (
            kind_at(units, number.saturating_sub(2)),
            kind_at(units, number.saturating_sub(1)),
        );
        let is_hole = matches!(kinds.0, Kind::Comma | Kind::OpenSquare);
        if kinds.1 == Kind::Comma && !is_hole && kind_at(units, number) == Kind::Close {
            if let Some(unit) = units.get_mut(number.saturating_sub(1)) {
                unit.kind = Kind::Ending;
            }
        }
    }
}

fn kind_at(units: &Vec<Unit>, number: usize) -> Kind {
    match units.get(number) {
        Some(unit) => unit.kind,
        None => Kind::Other,
    }
}

/// The units but for the endings.
pub fn without_endings(alloc: Global, units: &[Unit]) -> Result<Vec<Unit>, AllocError> {
    let mut kept = Vec::new(alloc);
    for unit in units {
        if unit.kind != Kind::Ending {
            kept.push(*unit)?;
        }
    }
    Ok(kept)
}

fn kind_of(token: &Token) -> Kind {
    match token {
        Token::LParen => Kind::OpenParen,
        Token::LBracket => Kind::OpenSquare,
        Token::LBrace => Kind::OpenBrace,
        Token::DollarLBrace => Kind::OpenHole,
        Token::RParen | Token::RBracket | Token::RBrace => Kind::Close,
        Token::Comma => Kind::Comma,
        Token::Semi => Kind::Semicolon,
        Token::Num { .. } => Kind::Number,
        _ => Kind::Other,
    }
}
