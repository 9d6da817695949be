// Tokens, as ESLint's parser lists them.
use crate::writer::TreeWriter;
use swc_context::span::Span;
use swc_context::word::{Keyword, Word};
use swc_input::token::{Token, TokenAndSpan};

/// A token of that list: its type, and how many tokens of the parser it is.
#[derive(Clone, Copy)]
struct Listed {
    kind: &'static str,
    count: usize,
}

impl TreeWriter<'_> {
    /// Writes the tokens, if they are asked for.
    pub(crate) fn write_tokens(&mut self) {
        if !self.extras.tokens {
            return;
        }
        self.out.put(",\"tokens\":[");
        let mut at = 0usize;
        for _ in 0..self.tokens.len() {
            let Some((listed, span)) = listed_at(&self.tokens, at) else {
                break;
            };
            if at > 0 {
                self.out.put(",");
            }
            self.write_token(at, listed.kind, span);
            at = at.saturating_add(listed.count);
        }
        self.out.put("]");
    }

    /// Writes a token.
    fn write_token(&mut self, at: usize, kind: &str, span: Span) {
        let text = self
            .pieces
            .source
            .get(span.lo.0 as usize..span.hi.0 as usize)
            .unwrap_or("");
        let (start, end) = (self.positions.at(span.lo), self.positions.at(span.hi));
        self.out.put("{\"type\":\"");
        self.out.put(kind);
        self.out.put("\",\"value\":");
        self.out.put_string(name_at(&self.tokens, at).unwrap_or(
            text.strip_prefix('#').unwrap_or(text),
        ));
        self.out.put(",\"start\":");
        self.out.put_position(start);
        self.out.put(",\"end\":");
        self.out.put_position(end);
        self.write_extras(span, start, end);
        if let Some(
            TokenAndSpan {
                token: Token::Regex(pattern, flags),
                ..
            },
        ) = self.tokens.get(at)
        {
            self.out.put(",\"regex\":{\"flags\":");
            self.out.put_string(flags.as_str());
            self.out.put(",\"pattern\":");
            self.out.put_string(pattern.as_str());
            self.out.put("}");
        }
        self.out.put("}");
    }
}

/// The token of the list that begins with the parser's token of the number, and its place.
fn listed_at(tokens: &[TokenAndSpan], at: usize) -> Option<(Listed, Span)> {
    let first = tokens.get(at)?;
    let listed = kind_and_count(tokens, at, &first.token);
    let last = tokens.get(at.saturating_add(listed.count).saturating_sub(1))?;
    let span = Span {
        lo: first.span.lo,
        hi: last.span.hi,
    };
    Some((listed, span))
}

/// What the token of the number is in the list: a part of a template has what encloses it, and `?.` and `#a` are one
/// token each.
fn kind_and_count(tokens: &[TokenAndSpan], at: usize, token: &Token) -> Listed {
    match token {
        Token::Word(word) => one(kind_of(word)),
        Token::Str { .. } => one("String"),
        Token::Num { .. } | Token::BigInt { .. } => one("Numeric"),
        Token::Regex(..) => one("RegularExpression"),
        Token::Hash => Listed {
            kind: "PrivateIdentifier",
            count: 2,
        },
        Token::BackQuote => template(tokens, at),
        Token::RBrace if is_template(tokens, at) => template(tokens, at),
        Token::QuestionMark if is_link(tokens, at) => Listed {
            kind: "Punctuator",
            count: 2,
        },
        _ => one("Punctuator"),
    }
}

/// The name that the token of the number is, also one after `#`, with its escapes read.
fn name_at(tokens: &[TokenAndSpan], at: usize) -> Option<&str> {
    let first = tokens.get(at)?;
    let word = match &first.token {
        Token::Hash => tokens.get(at.saturating_add(1))?,
        _ => first,
    };
    match &word.token {
        Token::Word(Word::Ident(name)) => Some(name.as_str()),
        _ => None,
    }
}

fn one(kind: &'static str) -> Listed {
    Listed { kind, count: 1 }
}

/// What a word is.
fn kind_of(word: &Word) -> &'static str {
    match word {
        Word::Null => "Null",
        Word::True | Word::False => "Boolean",
        Word::Keyword(Keyword::Await) => "Identifier",
        Word::Keyword(_) => "Keyword",
        Word::Ident(name) if name.as_str() == "static" => "Keyword",
        Word::Ident(_) => "Identifier",
    }
}

/// Whether a text of a template is after the token of the number.
fn is_template(tokens: &[TokenAndSpan], at: usize) -> bool {
    matches!(
        tokens.get(at.saturating_add(1)),
        Some(TokenAndSpan {
            token: Token::Template { .. },
            ..
        })
    )
}

/// The part of a template that begins with the token of the number: to `${` or the last backquote.
fn template(tokens: &[TokenAndSpan], at: usize) -> Listed {
    let count = if is_template(tokens, at) { 3 } else { 2 };
    Listed {
        kind: "Template",
        count,
    }
}

/// Whether `.` is right after the token of the number.
fn is_link(tokens: &[TokenAndSpan], at: usize) -> bool {
    match (tokens.get(at), tokens.get(at.saturating_add(1))) {
        (Some(sign), Some(next)) => {
            matches!(next.token, Token::Dot) && next.span.lo.0 == sign.span.hi.0
        }
        _ => false,
    }
}
