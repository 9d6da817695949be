//! The tokens and the comments of the text of a program.
//!
//! They are those of `swc_lexer`, but for two things that only programs tell. In scripts `<!--` and `-->` begin comments
//! (ECMA-262, B.1.1). And a word that is written with escapes and means a keyword is a name (12.7): names of properties
//! may be such words, while other names must not (13.1), which is an early error.
ghost use Rattle.std.specs.Prelude.{◌≡◌, ◌+◌, ◌≤◌, length};

use std::alloc::{AllocError, Global};
use swc_context::atom::Atom;
use swc_context::error::SyntaxError;
use swc_context::span::{BytePos, Span};
use swc_context::word::Word;
use swc_input::token::{Token, TokenAndSpan};
use swc_lexer::comments::{Comment, CommentKind, comments_between, comments_of};
use swc_lexer::place::Kind;
use swc_lexer::reader::{End, MAX_LEN, Reader};
use swc_lexer::stack::Start;
use swc_lexical::blank::{blanks_len, has_break, hashbang_len};
use swc_lexical::comment::line_len;
use swc_lexical::meaning::meaning;

/// The tokens of the text of a module, or of a script, as the body of a CommonJS module is. The first fault of the text
/// is an error token, the last one. The only error is out of memory.
pub fn tokens_of(
    alloc: Global,
    text: &str,
    is_module: bool,
) -> Result<Vec<TokenAndSpan>, AllocError> {
    tokens_from(alloc, text, 0, Start::Statements, is_module)
}

/// The tokens of the text from a byte on, as `tokens_of` answers those of all of it: statements begin there, or an
/// operand does. A byte after the text's end counts as the end.
pub fn tokens_from(
    alloc: Global,
    text: &str,
    at: usize,
    start: Start,
    is_module: bool,
) -> Result<Vec<TokenAndSpan>, AllocError> {
    let kind = Kind {
        awaits: is_module,
        yields: false,
    };
    let has_html = !is_module && may_have_html(text);
    let mut tokens = Vec::new(alloc);
    let mut reader = Reader::new(alloc, text.as_bytes(), at.min(text.len()), start, kind);
    // Each token but the text of a template takes a byte at least.
    for _ in 0..u64::MAX {
        if has_html {
            let is_first = at == 0 && tokens.is_empty();
            skip_html(&mut reader, text.as_bytes(), is_first);
        }
        if reader.at() > text.len() {
            break;
        }
        match reader.next(alloc, End::Whole, text)? {
            Some(found) => tokens.push(named(alloc, &mut reader, text, found)?)?,
            None => break,
        }
    }
    Ok(tokens)
}

/// Whether the text may have an HTML-like comment.
fn may_have_html(text: &str) -> bool {
    text.contains("<!--") || text.contains("-->")
}

/// The token, or if it is the fault of a word that is written with escapes and means a keyword, the name.
fn named(
    alloc: Global,
    reader: &mut Reader,
    text: &str,
    found: TokenAndSpan,
) -> Result<TokenAndSpan, AllocError> {
    let (lo, hi) = (found.span.lo.0 as usize, found.span.hi.0 as usize);
    let is_word = match &found.token {
        Token::Error(fault) => matches!(fault.kind(), SyntaxError::EscapeInReservedWord),
        _ => false,
    };
    if !is_word || lo < reader.at() || hi < lo || text.len() < hi || text.len() > MAX_LEN {
        return Ok(found);
    }
    let name = meaning(alloc, true, &text.as_bytes()[lo..hi])?;
    let word = Token::Word(Word::Ident(Atom::new(alloc, name.as_str())?));
    reader.pass_word(text.as_bytes(), word, lo, hi)
}

/// How many bytes the HTML-like comment takes that is here: `<!--` and its line, or `-->` and its line, if nothing but
/// blanks is before it on the line; 0 if none is here.
fn html_len(rest: &[u8], begins_line: bool) -> usize
    ensures { result ≤ length rest.now }
{
    if rest.starts_with(b"<!--") || begins_line && rest.starts_with(b"-->") {
        line_len(rest)
    } else {
        0
    }
}

/// Goes on after HTML-like comments that are here, before a token.
fn skip_html(reader: &mut Reader, text: &[u8], is_first: bool) {
    if reader.is_in_template() {
        return;
    }
    // Each turn skips a comment.
    for _ in 0..u64::MAX {
        let at = reader.at();
        if at > text.len() {
            break;
        }
        let rest = &text[at..];
        let blanks = blanks_len(rest);
        let len = html_len(&rest[blanks..], is_first || has_break(rest, blanks));
        if len == 0 {
            break;
        }
        reader.skip_to(text, at + blanks + len);
    }
}

/// The comments of the text of a program that has these tokens, in the order of their places, as `comments_of` of
/// `swc_lexer` has them, and HTML-like ones. None of a text of 4 GB or more. The only error is out of memory.
pub fn program_comments(
    alloc: Global,
    text: &str,
    tokens: &[TokenAndSpan],
) -> Result<Vec<Comment>, AllocError> {
    if !may_have_html(text) || text.len() > MAX_LEN {
        return comments_of(alloc, text, tokens);
    }
    let mut comments = Vec::new(alloc);
    let begin = hashbang_len(text.as_bytes());
    if begin > 0 {
        comments.push(comment(CommentKind::Hashbang, 0, begin))?;
    }
    let mut at = begin;
    for token in tokens {
        push_between(alloc, text, at, token.span.lo.0 as usize, &mut comments)?;
        at = token.span.hi.0 as usize;
    }
    push_between(alloc, text, at, text.len(), &mut comments)?;
    Ok(comments)
}

/// A comment between two places.
fn comment(kind: CommentKind, lo: usize, hi: usize) -> Comment {
    Comment {
        kind,
        span: Span {
            lo: BytePos(u32::try_from(lo).unwrap_or(u32::MAX)),
            hi: BytePos(u32::try_from(hi).unwrap_or(u32::MAX)),
        },
    }
}

/// Adds the comments between two places, as between two tokens.
fn push_between(
    alloc: Global,
    text: &str,
    lo: usize,
    hi: usize,
    comments: &mut Vec<Comment>,
) -> Result<(), AllocError> {
    let mut at = lo;
    // Each turn adds the comments up to the next HTML-like one, and this one.
    for _ in 0..u64::MAX {
        for found in comments_between(alloc, text, at, hi)? {
            comments.push(found)?;
        }
        let rest = text.as_bytes().get(at..hi).unwrap_or(&[]);
        let blanks = blanks_len(rest);
        let len = html_len(&rest[blanks..], true);
        if len == 0 {
            break;
        }
        let start = at.saturating_add(blanks);
        at = start.saturating_add(len);
        comments.push(comment(CommentKind::Html, start, at))?;
    }
    Ok(())
}
