// Which brackets of a list of tokens close which, and which braces are those of functions and classes.
ghost use Rattle.std.specs.Prelude.{◌≡◌, ◌<◌, length, IfSome, IsSome};

use std::alloc::{AllocError, Global};
use swc_context::operator::BinOpToken;
use swc_context::span::Span;
use swc_context::word::{Keyword, Word};
use swc_input::token::{Token, TokenAndSpan};

/// The tokens of a text, and what its brackets close.
#[derive(Drop)]
pub struct Bracketed {
    tokens: Vec<TokenAndSpan>,
    /// Of each token that opens a bracket, the number of the one that closes it; of each `function` and `class`, the
    /// number of its `{`; of each other token, 0.
    partners: Vec<usize>,
}

/// What a token is to the brackets of a text.
#[derive(Clone, Copy, PartialEq, Eq)]
enum Part {
    /// `function` or `class`, whose brace is to come.
    Head,
    /// `.` or `#`, after which a word is a name.
    Sign,
    /// `extends` or `new`, after which a brace is an object's.
    Before,
    /// A bracket that opens, and no brace.
    Open,
    /// `{`
    Brace,
    /// A bracket that closes.
    Close,
    /// Any other token.
    Other,
}

/// What the token is to the brackets of a text.
fn part_of(token: &Token) -> Part {
    match token {
        Token::Dot | Token::Hash => Part::Sign,
        Token::Word(Word::Keyword(Keyword::Class | Keyword::Function)) => Part::Head,
        Token::Word(Word::Keyword(Keyword::Extends | Keyword::New)) => Part::Before,
        Token::LParen | Token::LBracket | Token::DollarLBrace => Part::Open,
        Token::LBrace => Part::Brace,
        Token::RParen | Token::RBracket | Token::RBrace => Part::Close,
        _ => Part::Other,
    }
}

/// What the token is after a token that was `last`: after `.` and `#` a word is a name.
fn part_after(last: Part, token: &Token) -> Part {
    match part_of(token) {
        Part::Head | Part::Before if last == Part::Sign => Part::Other,
        part => part,
    }
}

/// Whether the word means a keyword. The lexer makes a name of one only if it is written with an escape, but for
/// `await`.
fn is_keyword(word: &str) -> bool {
    match Keyword::from_text(word) {
        Some(Keyword::Await) | None => matches!(word, "null" | "true" | "false"),
        Some(_) => true,
    }
}

/// Whether the token is `static`.
fn is_static(token: &Token) -> bool {
    matches!(token, Token::Word(Word::Ident(name)) if name.as_str() == "static")
}

/// What is open where a token begins.
#[derive(Clone, Copy)]
struct Open {
    what: What,
    count: Count,
}

/// What opens.
#[derive(Clone, Copy)]
enum What {
    /// The bracket that has the number.
    Bracket(usize),
    /// The function or the class whose first word has the number, and whose brace is to come.
    Head(usize),
}

/// How many brackets of each kind are open.
#[derive(Clone, Copy)]
struct Count {
    /// Those that are open within the innermost brace.
    parens: usize,
    squares: usize,
    braces: usize,
}

/// How many brackets are open.
fn count_of(open: &[Open]) -> Count {
    let nothing = Count {
        parens: 0,
        squares: 0,
        braces: 0,
    };
    open.last().map_or(nothing, |last| last.count)
}

impl Count {
    /// How many are open where a bracket opens, too.
    fn with(self, opener: &Token) -> Count {
        match opener {
            Token::LParen => Count {
                parens: self.parens.saturating_add(1),
                ..self
            },
            Token::LBracket => Count {
                squares: self.squares.saturating_add(1),
                ..self
            },
            _ => Count {
                parens: 0,
                squares: 0,
                braces: self.braces.saturating_add(1),
            },
        }
    }

    /// Whether a bracket is open that the token closes: a brace may close one around others that are open.
    fn has(self, closer: &Token) -> bool {
        match closer {
            Token::RParen => self.parens > 0,
            Token::RBracket => self.squares > 0,
            _ => self.braces > 0,
        }
    }
}

/// Whether the tokens are brackets of one kind.
fn fits(opener: &Token, closer: &Token) -> bool {
    match closer {
        Token::RParen => matches!(opener, Token::LParen),
        Token::RBracket => matches!(opener, Token::LBracket),
        _ => matches!(opener, Token::LBrace | Token::DollarLBrace),
    }
}

/// Notes which token another one leads to.
fn note(partners: &mut Vec<usize>, from: usize, to: usize) {
    if from < partners.len() {
        partners[from] = to;
    }
}

/// Notes the brace of the function or the class that is open there, if one is.
fn take_brace(partners: &mut Vec<usize>, open: &mut Vec<Open>, at: usize) {
    if let Some(
        Open {
            what: What::Head(head),
            ..
        },
    ) = open.last()
    {
        note(partners, *head, at);
        let _ = open.pop();
    }
}

/// Closes the last bracket of the token's kind, with all that is open in it: a brace closes the last brace, other
/// brackets only what is open within that. A function or a class that begins within it and has had no brace yet gets
/// none.
fn close(tokens: &[TokenAndSpan], partners: &mut Vec<usize>, open: &mut Vec<Open>, at: usize) {
    let Some(closer) = tokens.get(at) else {
        return;
    };
    if !count_of(open).has(&closer.token) {
        return;
    }
    while let Some(inner) = open.pop() {
        if let What::Bracket(number) = inner.what {
            if matches!(tokens.get(number), Some(opener) if fits(&opener.token, &closer.token)) {
                note(partners, number, at);
                break;
            }
        }
    }
}

/// Whether each bracket closes the one that opened last and isn't closed yet, of the same kind, and none is left.
fn are_paired(alloc: Global, tokens: &[TokenAndSpan]) -> Result<bool, AllocError> {
    let mut open: Vec<&Token> = Vec::new(alloc);
    for found in tokens {
        match part_of(&found.token) {
            Part::Open | Part::Brace => open.push(&found.token)?,
            Part::Close => match open.pop() {
                Some(opener) if fits(opener, &found.token) => {}
                _ => return Ok(false),
            },
            _ => {}
        }
    }
    Ok(open.is_empty())
}

/// What opens at a token, within what is open.
fn opened(open: &[Open], what: What, token: &Token) -> Open {
    let count = count_of(open);
    match what {
        What::Bracket(_) => Open {
            what,
            count: count.with(token),
        },
        What::Head(_) => Open { what, count },
    }
}

/// What tokens lead to: a bracket that opens, to the one of its kind that closes it; `function` and `class`, to
/// their brace.
fn partners_of(alloc: Global, tokens: &[TokenAndSpan]) -> Result<Vec<usize>, AllocError> {
    let mut partners = Vec::new(alloc);
    let mut open = Vec::new(alloc);
    let mut last = Part::Other;
    for (at, found) in tokens.iter().enumerate() {
        partners.push(0)?;
        let part = part_after(last, &found.token);
        match part {
            Part::Head => open.push(opened(&open, What::Head(at), &found.token))?,
            Part::Open => open.push(opened(&open, What::Bracket(at), &found.token))?,
            Part::Brace => {
                if last != Part::Before {
                    take_brace(&mut partners, &mut open, at);
                }
                open.push(opened(&open, What::Bracket(at), &found.token))?;
            }
            Part::Close => close(tokens, &mut partners, &mut open, at),
            _ => {}
        }
        last = part;
    }
    Ok(partners)
}

impl Bracketed {
    /// The tokens, and their brackets. The only error is out of memory.
    pub fn new(alloc: Global, tokens: Vec<TokenAndSpan>) -> Result<Bracketed, AllocError> {
        let partners = partners_of(alloc, tokens.as_slice())?;
        Ok(Bracketed { tokens, partners })
    }

    /// Whether each bracket closes the last one that is open, of the same kind, and none is left open. The only error is
    /// out of memory.
    pub fn are_paired(&self, alloc: Global) -> Result<bool, AllocError> {
        are_paired(alloc, self.tokens.as_slice())
    }

    /// No tokens.
    pub fn empty(alloc: Global) -> Bracketed {
        Bracketed {
            tokens: Vec::new(alloc),
            partners: Vec::new(alloc),
        }
    }

    /// How many tokens there are.
    pub fn len(&self) -> usize
        ensures { result ≡ length self.now.tokens.items }
    {
        self.tokens.len()
    }

    /// Whether there are none.
    pub fn is_empty(&self) -> bool {
        self.tokens.is_empty()
    }

    /// The token that has the number.
    pub fn get(&self, at: usize) -> Option<&TokenAndSpan>
        ensures within { IsSome result → at < length self.now.tokens.items }
    {
        self.tokens.get(at)
    }

    /// The number of the first token that begins there, a position in bytes, or after it.
    pub fn index_of(&self, start: u32) -> usize {
        self.tokens.partition_point(|found| found.span.lo.0 < start)
    }

    /// Whether the token before the one that has the number is `static`.
    pub fn is_after_static(&self, at: usize) -> bool {
        let Some(before) = at.checked_sub(1) else {
            return false;
        };
        match self.get(before) {
            Some(found) => is_static(&found.token),
            None => false,
        }
    }

    /// Whether the token before the one that has the number is `await`.
    pub fn is_after_await(&self, at: usize) -> bool {
        let Some(before) = at.checked_sub(1) else {
            return false;
        };
        match self.get(before) {
            Some(found) => matches!(found.token, Token::Word(Word::Keyword(Keyword::Await))),
            None => false,
        }
    }

    /// The place of the token before the one that has the number, if that is a word that means a keyword, and is a name
    /// because it is written with an escape.
    pub fn escaped_before(&self, at: usize) -> Option<Span> {
        let before = self.get(at.checked_sub(1)?)?;
        match &before.token {
            Token::Word(Word::Ident(name)) if is_keyword(name.as_str()) => Some(before.span),
            _ => None,
        }
    }

    /// The number of the token that this one leads to, if it is after it.
    fn partner(&self, at: usize) -> Option<usize>
        ensures after { IfSome result (λ next. at < next) }
    {
        let next = *self.partners.get(at)?;
        (next > at).then_some(next)
    }

    /// The number of `function` or `class`, with which the body begins, or which is after its `async`.
    fn keyword(&self, first: usize) -> Option<usize> {
        match &self.get(first)?.token {
            Token::Word(Word::Keyword(Keyword::Class | Keyword::Function)) => Some(first),
            _ => first.checked_add(1),
        }
    }

    /// The number of the `{` of the body that begins with the token, a function, a class or a block.
    fn brace(&self, first: usize) -> Option<usize> {
        match &self.get(first)?.token {
            Token::LBrace => Some(first),
            _ => self.partner(self.keyword(first)?),
        }
    }

    /// The place of the token that is where the name would be of the function or the class that begins with the token;
    /// `None` if it has a name.
    pub fn missing_name(&self, first: usize) -> Option<Span> {
        let after = self.keyword(first)?.checked_add(1)?;
        let name = match &self.get(after)?.token {
            Token::BinOp(BinOpToken::Mul) => after.checked_add(1)?,
            _ => after,
        };
        let found = self.get(name)?;
        let is_missing = matches!(
            &found.token,
            Token::LParen | Token::LBrace | Token::Word(Word::Keyword(Keyword::Extends))
        );
        is_missing.then_some(found.span)
    }

    /// The numbers of the braces of the body that begins with the token: a function, from `function` or from `async`; a
    /// class; or a block.
    pub fn braces(&self, first: usize) -> Option<(usize, usize)>
        ensures order { IfSome result (λ braces. braces.0 < braces.1) }
    {
        let open = self.brace(first)?;
        let close = self.partner(open)?;
        Some((open, close))
    }
}
