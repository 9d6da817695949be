//! The comments of a text (ECMA-262, 12.4 and 12.5).
ghost use Rattle.std.specs.Prelude.{◌≡◌, ◌+◌, ◌++◌, ◌≤◌, ◌<◌, ◌^◌, length, Err, IfErr, IfOk, OnOk, MatchOption, [], ◌∷◌};
ghost use Rattle.swc_lexer.specs.Comments as grammar;
ghost use Rattle.swc_lexer.specs.Readings as readings;
ghost use Rattle.swc_lexer.specs.Reads as reads;

use crate::place::Kind;
use crate::read::{out_of_memory, read_text};
use crate::reader::{End, MAX_LEN, rest_from};
use crate::stack::Start;
use std::alloc::{AllocError, Global};
use swc_context::error::PResult;
use swc_context::span::{BytePos, Span};
use swc_input::token::TokenAndSpan;
use swc_lexical::blank::{blank_len, comment_len, hashbang_len};
use swc_lexical::bytes::is_at;

/// What a comment is.
#[derive(Clone, Copy, PartialEq, Eq, Debug)]
pub enum CommentKind {
    /// `//` and its line.
    Line,
    /// From `/*` to its `*/`.
    Block,
    /// `#!` and its line, at the beginning of a text.
    Hashbang,
    /// `<!--` or `-->` and its line, in a script (ECMA-262, B.1.1). The functions of this module find none.
    Html,
}

/// A comment, and where it is, in bytes: with its signs, and without the line terminator after it.
#[derive(Clone, Copy, PartialEq, Eq, Debug)]
pub struct Comment {
    pub kind: CommentKind,
    pub span: Span,
}

/// A comment between two places.
fn made(kind: CommentKind, lo: usize, hi: usize) -> Comment
    requires lo { lo < 2 ^ 32 }
    requires hi { hi < 2 ^ 32 }
    ensures { result ≡ grammar.comment kind lo hi }
{
    Comment {
        kind,
        span: Span {
            lo: BytePos(lo as u32),
            hi: BytePos(hi as u32),
        },
    }
}

/// The comment that is here, at this place of a text.
fn comment_here(at: usize, rest: &[u8]) -> Option<Comment>
    requires { at + length rest.now < 2 ^ 32 }
    ensures { MatchOption result ([] ≡ grammar.comment_here at rest.now)
        (λ c. c ∷ [] ≡ grammar.comment_here at rest.now) }
{
    let len = comment_len(rest);
    if len == 0 {
        return None;
    }
    let kind = if is_at(rest, 1, b'*') {
        CommentKind::Block
    } else {
        CommentKind::Line
    };
    Some(made(kind, at, at + len))
}

/// Adds the comment that is here, if there is one.
fn push_here(comments: &mut Vec<Comment>, at: usize, rest: &[u8]) -> Result<(), AllocError>
    requires { at + length rest.now < 2 ^ 32 }
    ensures { OnOk result (comments.new.items ≡ comments.old.items ++ grammar.comment_here at rest.now) }
{
    match comment_here(at, rest) {
        Some(comment) => comments.push(comment)?,
        None => {}
    }
    Ok(())
}

/// Adds the comments among the blanks that are here, at this place of a text.
#[tactic(auto, using(crate::proofs::Gathering::ReadsTo_begin))]
fn push_comments(comments: &mut Vec<Comment>, lo: usize, blanks: &[u8]) -> Result<(), AllocError>
    requires { lo + length blanks.now < 2 ^ 32 }
    ensures { OnOk result (comments.new.items ≡ comments.old.items ++ grammar.comments_from lo 0 blanks.now) }
{
    let mut at = 0;
    while at < blanks.len() {
        let rest = rest_from(blanks, at);
        let len = blank_len(rest);
        if len == 0 {
            return Ok(());
        }
        push_here(comments, lo + at, rest)?;
        at += len;
    }
    Ok(())
}

/// Adds the comments among the blanks between two places.
fn push_between(
    comments: &mut Vec<Comment>,
    text: &[u8],
    lo: usize,
    hi: usize,
) -> Result<(), AllocError>
    requires { length text.now < 2 ^ 32 }
    ensures { OnOk result (comments.new.items ≡ comments.old.items ++ grammar.comments_between text.now lo hi) }
{
    if lo <= hi && hi <= text.len() {
        push_comments(comments, lo, &text[lo..hi])?;
    }
    Ok(())
}

/// Adds the comments before the tokens, and after the last.
#[tactic(auto, using(crate::proofs::Gathering::GoesTo_begin))]
fn push_among(
    comments: &mut Vec<Comment>,
    text: &[u8],
    begin: usize,
    tokens: &[TokenAndSpan],
) -> Result<(), AllocError>
    requires { length text.now < 2 ^ 32 }
    ensures { OnOk result
        (comments.new.items ≡ comments.old.items ++ grammar.comments_among text.now begin tokens.now) }
{
    let mut at = begin;
    for token in tokens {
        push_between(comments, text, at, token.span.lo.0 as usize)?;
        at = token.span.hi.0 as usize;
    }
    push_between(comments, text, at, text.len())?;
    Ok(())
}

/// Adds `#!` and its line, if the text begins so.
fn push_hashbang(comments: &mut Vec<Comment>, text: &[u8]) -> Result<(), AllocError>
    requires { length text.now < 2 ^ 32 }
    ensures { OnOk result (comments.new.items ≡ comments.old.items ++ grammar.hashbang text.now) }
{
    let len = hashbang_len(text);
    if 0 < len {
        comments.push(made(CommentKind::Hashbang, 0, len))?;
    }
    Ok(())
}

/// The comments of a text that has these tokens, in the order of their places: those in the blanks before each token,
/// and after the last. None of a text of 4 GB or more. The only error is out of memory.
pub fn comments_of(
    alloc: Global,
    text: &str,
    tokens: &[TokenAndSpan],
) -> Result<Vec<Comment>, AllocError>
    ensures { IfOk result (λ v. length text.now < 2 ^ 32 → v.items ≡ grammar.comments_of text.now tokens.now) }
{
    let mut comments = Vec::new(alloc);
    let bytes = text.as_bytes();
    if bytes.len() <= MAX_LEN {
        push_hashbang(&mut comments, bytes)?;
        push_among(&mut comments, bytes, hashbang_len(bytes), tokens)?;
    }
    Ok(comments)
}

/// The comments among the blanks between two places of a text, in bytes, as between two tokens. None where the places
/// aren't in the text, or it has 4 GB or more. The only error is out of memory.
pub fn comments_between(
    alloc: Global,
    text: &str,
    lo: usize,
    hi: usize,
) -> Result<Vec<Comment>, AllocError>
    ensures { IfOk result (λ v. length text.now < 2 ^ 32 → v.items ≡ grammar.comments_between text.now lo hi) }
{
    let mut comments = Vec::new(alloc);
    let bytes = text.as_bytes();
    if bytes.len() <= MAX_LEN {
        push_between(&mut comments, bytes, lo, hi)?;
    }
    Ok(comments)
}

/// The comments of a text (ECMA-262, 12.4 and 12.5), of a program or an expression, in a function of the kind, in the
/// order of their places. The errors are those of `read_text`.
pub fn read_comments(
    alloc: Global,
    text: &str,
    start: Start,
    end: End,
    kind: Kind,
) -> PResult<Vec<Comment>>
    ensures read { IfOk result (λ v. length text.now < 2 ^ 32
        → v.items ≡ grammar.comments_of text.now (readings.tokens_of end 0 start kind text.now)) }
    ensures refused { IfErr result (λ e. reads.Answers (Err e) (readings.tokens_of end 0 start kind text.now)) }
{
    let tokens = read_text(alloc, text, start, end, kind)?;
    match comments_of(alloc, text, tokens.as_slice()) {
        Ok(comments) => Ok(comments),
        Err(AllocError) => Err(out_of_memory()),
    }
}
