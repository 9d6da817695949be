// How the tokens of a text end, and what isn't closed there.
use crate::{Refusal, is_failure};
use std::alloc::{AllocError, Global};
use swc_ecma_parser::context::error::{Error, SyntaxError};
use swc_ecma_parser::context::operator::BinOpToken;
use swc_ecma_parser::context::span::{BytePos, Span};
use swc_ecma_parser::context::word::{Keyword, Word};
use swc_ecma_parser::input::token::{Token, TokenAndSpan};
use swc_lexer::legacy::legacy_fault;

/// How the tokens of a text end.
#[derive(Drop)]
pub struct Ending {
    /// The fault of the lexer that is the last token.
    lexical: Option<Error>,
    /// Where the bracket or the template opens that isn't closed, and where that shows: at the last token, or at the
    /// bracket of another kind that comes in place of its own.
    open: Option<(Span, BytePos)>,
    /// Where the last token begins; with no token, where the text does.
    last: BytePos,
    /// The place of the last token, if it is a sign or a word before an operand, as `-` or `typeof`.
    prefix: Option<Span>,
    /// In strict code the first number or escape of old scripts, as `010`.
    legacy: Option<Error>,
}

/// What opens.
#[derive(Clone, Copy, PartialEq, Eq)]
enum What {
    /// `(`
    Paren,
    /// `[`
    Square,
    /// `{` or `${`
    Brace,
    /// The first backquote of a template.
    Template,
}

impl Ending {
    /// The ending of a text that begins at the position, has these tokens, and is strict code or not. The only error is
    /// out of memory.
    pub fn new(
        alloc: Global,
        tokens: &[TokenAndSpan],
        start: BytePos,
        is_strict: bool,
    ) -> Result<Ending, AllocError> {
        let lexical = match tokens.last() {
            Some(
                TokenAndSpan {
                    token: Token::Error(fault),
                    ..
                },
            ) => Some(fault.try_clone()?),
            _ => None,
        };
        let last = tokens.last().map_or(start, |last| last.span.lo);
        Ok(Ending {
            lexical,
            open: not_closed(alloc, tokens, last)?,
            last,
            prefix: last_prefix(tokens),
            legacy: if is_strict { legacy_in(tokens) } else { None },
        })
    }

    /// The fault of a text in which the parser has none.
    pub fn legacy(self) -> Option<Error> {
        self.legacy
    }

    /// The refusal for a fault of the parser: `TooDeep` if it `is_too_deep`. Where the lexer has a fault at the same
    /// place, that fault is told instead, and where the operand is missing after the last token, the end of the text is
    /// the fault. Where the fault is at the place where it shows that what opens elsewhere isn't closed, or after it, the
    /// refusal tells of that too.
    pub fn refusal(self, fault: Error, is_too_deep: bool) -> Refusal {
        if is_too_deep {
            return Refusal::TooDeep(fault.span());
        }
        let Ending {
            lexical,
            open,
            last,
            prefix,
            legacy: _,
        } = self;
        let is_after_prefix = prefix == Some(fault.span());
        let fault = end_for(
            fault,
            prefix.filter(|_| is_after_prefix).map(|span| span.hi),
        );
        let (place, is_failure) = (fault.span().lo, is_failure(fault.kind()));
        let fault = if !is_failure && last == place {
            lexical.unwrap_or(fault)
        } else {
            fault
        };
        match open {
            Some((opener, shown)) if !is_failure && shown <= place && opener.lo != place => {
                Refusal::Unclosed { fault, opener }
            }
            _ => Refusal::Fault(fault),
        }
    }
}

/// The fault of the first number or escape of old scripts.
fn legacy_in(tokens: &[TokenAndSpan]) -> Option<Error> {
    for token in tokens {
        if let Some(fault) = legacy_fault(token) {
            return Some(fault);
        }
    }
    None
}

/// Where what isn't closed opens, and where that shows: a bracket in whose place one of another kind closes, or else the
/// innermost one that is open after the last token, which begins there. If that token is a fault of the lexer, it is
/// where the template opens whose text the fault is in, if it is in one.
fn not_closed(
    alloc: Global,
    tokens: &[TokenAndSpan],
    last: BytePos,
) -> Result<Option<(Span, BytePos)>, AllocError> {
    let mut open: Vec<(What, Span)> = Vec::new(alloc);
    let mut has_fault = false;
    for TokenAndSpan { token, span, .. } in tokens {
        has_fault = matches!(token, Token::Error(_));
        match (opened_by(token), closed_by(token)) {
            (Some(What::Template), _) if is_in_template(&open) => {
                open.pop();
            }
            (Some(what), _) => open.push((what, *span))?,
            (None, Some(what)) => {
                if let Some((_, opener)) = open.pop().filter(|top| top.0 != what) {
                    return Ok(Some((opener, span.lo)));
                }
            }
            (None, None) => {}
        }
    }
    match open.pop() {
        Some((what, span)) if has_fault == (what == What::Template) => Ok(Some((span, last))),
        _ => Ok(None),
    }
}

/// The place of the last token, if it is a sign or a word before an operand, and no operator between two.
fn last_prefix(tokens: &[TokenAndSpan]) -> Option<Span> {
    let (last, rest) = tokens.split_last()?;
    (is_prefix(&last.token)
        && rest
            .last()
            .is_none_or(|before| is_before_operand(&before.token)))
        .then_some(last.span)
}

/// Whether the token may be a sign or a word before an operand.
fn is_prefix(token: &Token) -> bool {
    matches!(
        token,
        Token::Bang
            | Token::Tilde
            | Token::BinOp(BinOpToken::Add | BinOpToken::Sub)
            | Token::Word(Word::Keyword(Keyword::TypeOf | Keyword::Void | Keyword::Delete))
    )
}

/// Whether an operand is after the token, wherever it is: so a sign after it is no operator between two.
fn is_before_operand(token: &Token) -> bool {
    match token {
        Token::BinOp(_) | Token::AssignOp(_) | Token::Bang | Token::Tilde => true,
        Token::LParen | Token::LBracket | Token::LBrace | Token::DollarLBrace => true,
        Token::Comma | Token::Semi | Token::Colon | Token::QuestionMark | Token::Arrow => true,
        Token::Word(Word::Keyword(word)) => matches!(
            word,
            Keyword::Return
                | Keyword::Throw
                | Keyword::Case
                | Keyword::In
                | Keyword::InstanceOf
                | Keyword::TypeOf
                | Keyword::Void
                | Keyword::Delete
        ),
        _ => false,
    }
}

/// What the token opens. A backquote does unless a template is open.
fn opened_by(token: &Token) -> Option<What> {
    match token {
        Token::LParen => Some(What::Paren),
        Token::LBracket => Some(What::Square),
        Token::LBrace | Token::DollarLBrace => Some(What::Brace),
        Token::BackQuote => Some(What::Template),
        _ => None,
    }
}

/// What the token closes, if it is a bracket.
fn closed_by(token: &Token) -> Option<What> {
    match token {
        Token::RParen => Some(What::Paren),
        Token::RBracket => Some(What::Square),
        Token::RBrace => Some(What::Brace),
        _ => None,
    }
}

/// Whether a template is the innermost that is open.
fn is_in_template(open: &[(What, Span)]) -> bool {
    matches!(open.last(), Some((What::Template, _)))
}

/// The fault of a parser whose text ends there, if it does. Where an expression is wanted then, the parser has the place
/// of the last token, and the fault that is answered is the end.
pub fn end_for(fault: Error, end: Option<BytePos>) -> Error {
    match (fault.kind(), end) {
        (SyntaxError::TS1109, Some(end)) => {
            Error::new(Span { lo: end, hi: end }, SyntaxError::Eof)
        }
        _ => fault,
    }
}
