//! The token that is next in a text.
ghost use Rattle.std.specs.Prelude.{◌≡◌, ◌+◌, ◌≤◌, ◌<◌, length, IfSome};
ghost use Rattle.swc_lexical.specs.Blanks.{blanks_len};
ghost use Rattle.swc_lexical.specs.Scans as scans;
ghost use Rattle.swc_lexical.specs.Templates as templates;
ghost use Rattle.swc_lexical.specs.declared.scan.Goal.TheVariants as goals;

use crate::bytes::is_at;
use crate::lexeme::{Kind, lexeme};
use crate::template::{is_end, text_len};

/// The goals of the lexical grammar (ECMA-262, 12), of which two are a template's.
#[derive(Clone, Copy, PartialEq, Eq, Debug)]
pub enum Goal {
    /// A slash divides.
    Div,
    /// A slash begins a regular expression.
    RegExp,
    /// The text of a template.
    Text,
    /// What ends such a text.
    Delimiter,
}

/// A token.
#[derive(Clone, Copy, PartialEq, Eq, Debug)]
pub struct Piece {
    /// How many bytes of blanks are before it.
    pub blanks: usize,
    pub len: usize,
    pub goal: Goal,
    pub kind: Kind,
}

/// The token after so many bytes of blanks.
fn in_code(goal: Goal, wants: bool, blanks: usize, rest: &[u8]) -> Option<Piece>
    requires within { blanks ≤ length rest.now }
    requires blanks { blanks ≡ blanks_len rest.now }
    ensures value { result ≡ scans.in_code goal wants rest.now }
    ensures within { IfSome result (λ p. p.blanks + p.len ≤ length rest.now) }
    ensures goal { IfSome result (λ p. p.goal ≡ goal) }
{
    match lexeme(wants, &rest[blanks..]) {
        None => None,
        Some((kind, len)) => Some(Piece {
            goal,
            blanks,
            kind,
            len,
        }),
    }
}

/// The text of a template.
fn text(rest: &[u8]) -> Option<Piece>
    ensures value { result ≡ scans.text_of (templates.text_len rest.now) }
    ensures within { IfSome result (λ p. p.blanks + p.len ≤ length rest.now) }
    ensures goal { IfSome result (λ p. p.goal ≡ goals.Text) }
{
    match text_len(rest) {
        None => None,
        Some(len) => Some(Piece {
            goal: Goal::Text,
            blanks: 0,
            kind: Kind::Text,
            len,
        }),
    }
}

/// What ends the text of a template.
fn delimiter(rest: &[u8]) -> Option<Piece>
    ensures value { result ≡ scans.delimiter rest.now }
    ensures within { IfSome result (λ p. p.blanks + p.len ≤ length rest.now) }
    ensures goal { IfSome result (λ p. p.goal ≡ goals.Delimiter) }
{
    if !is_end(rest) {
        return None;
    }
    let len = if is_at(rest, 0, b'`') { 1 } else { 2 };
    Some(Piece {
        goal: Goal::Delimiter,
        blanks: 0,
        kind: Kind::Sign,
        len,
    })
}

/// The token that is here, by the goal, where so many bytes of blanks are.
pub fn piece_after(goal: Goal, blanks: usize, rest: &[u8]) -> Option<Piece>
    requires within { blanks ≤ length rest.now }
    requires blanks { blanks ≡ blanks_len rest.now }
    ensures value { result ≡ scans.piece_at goal rest.now }
    ensures within { IfSome result (λ p. p.blanks + p.len ≤ length rest.now) }
    ensures goal { IfSome result (λ p. p.goal ≡ goal) }
{
    match goal {
        Goal::Text => text(rest),
        Goal::Delimiter => delimiter(rest),
        Goal::Div | Goal::RegExp => in_code(goal, matches!(goal, Goal::RegExp), blanks, rest),
    }
}
