//! Tokens, as far as they tell whether a slash after them divides.
ghost use Rattle.std.specs.Prelude.{◌≡◌};
ghost use Rattle.swc_lexer.specs.Marks as marks;

use swc_context::operator::BinOpToken;
use swc_context::word::{Keyword, Word};
use swc_input::token::Token;

/// A token, as far as it matters here.
#[derive(Clone, Copy)]
pub enum Mark {
    /// `(`
    LParen,
    /// `)`
    RParen,
    /// `[`
    LBracket,
    /// `]`
    RBracket,
    /// `{`
    LBrace,
    /// `}`
    RBrace,
    /// `${`
    Dollar,
    /// A backquote.
    BackQuote,
    /// `?`
    Question,
    /// `=>`
    Arrow,
    /// `++` or `--`
    Twice,
    /// `;`
    Semi,
    /// `,`
    Comma,
    /// `:`
    Colon,
    /// `.`
    Dot,
    /// `#` or `@`
    Hash,
    /// `*`
    Star,
    /// `!` or `~`
    Prefix,
    /// A string.
    Text,
    /// A number.
    Number,
    /// A regular expression.
    Regexp,
    /// A word.
    Word(Name),
    /// The text of a template.
    Chars,
    /// Any other sign.
    Sign,
}

/// A word, as far as it matters here.
#[derive(Clone, Copy)]
pub enum Name {
    /// A name, or any other word.
    Plain,
    /// `async`
    Async,
    /// `of`
    Of,
    /// `this` or `super`
    Value,
    /// `debugger`
    Debugger,
    /// `if`, `while`, `with`, `switch` or `catch`
    Head,
    /// `for`
    For,
    /// `function`
    Function,
    /// `class`
    Class,
    /// `else`, `do`, `try` or `finally`
    Else,
    /// `let`
    Let,
    /// `await`
    Await,
    /// `yield`
    Yield,
    /// `var` or `const`
    Var,
    /// `return`
    Return,
    /// `break` or `continue`
    Break,
    /// `export`
    Export,
    /// `default`
    Default,
    /// `import`
    Import,
    /// `in` or `instanceof`
    In,
    /// `typeof`, `case` and others, after which an operand comes.
    Operator,
}

/// The mark of a keyword.
fn keyword_name(keyword: Keyword) -> Name
    ensures { result ≡ marks.keyword_name keyword }
{
    match keyword {
        Keyword::This | Keyword::Super => Name::Value,
        Keyword::Debugger => Name::Debugger,
        Keyword::If | Keyword::While | Keyword::With | Keyword::Switch | Keyword::Catch => {
            Name::Head
        }
        Keyword::For => Name::For,
        Keyword::Function => Name::Function,
        Keyword::Class => Name::Class,
        Keyword::Else | Keyword::Do | Keyword::Try | Keyword::Finally => Name::Else,
        Keyword::Let => Name::Let,
        Keyword::Await => Name::Await,
        Keyword::Yield => Name::Yield,
        Keyword::Var | Keyword::Const => Name::Var,
        Keyword::Return => Name::Return,
        Keyword::Break | Keyword::Continue => Name::Break,
        Keyword::Export => Name::Export,
        Keyword::Default_ => Name::Default,
        Keyword::Import => Name::Import,
        Keyword::In | Keyword::InstanceOf => Name::In,
        _ => Name::Operator,
    }
}

/// The mark of a word that is no keyword.
fn ident_name(text: &str) -> Name
    ensures { result ≡ marks.ident_name text.now }
{
    if text == "async" {
        Name::Async
    } else if text == "of" {
        Name::Of
    } else {
        Name::Plain
    }
}

/// The mark of a word.
fn word_name(word: &Word) -> Name
    ensures { result ≡ marks.word_name word.now }
{
    match word {
        Word::Keyword(keyword) => keyword_name(*keyword),
        Word::Ident(name) => ident_name(name.as_str()),
        _ => Name::Plain,
    }
}

/// The mark of a token.
pub fn mark_of(token: &Token) -> Mark
    ensures { result ≡ marks.mark_of token.now }
{
    match token {
        Token::Word(word) => Mark::Word(word_name(word)),
        Token::LParen => Mark::LParen,
        Token::RParen => Mark::RParen,
        Token::LBracket => Mark::LBracket,
        Token::RBracket => Mark::RBracket,
        Token::LBrace => Mark::LBrace,
        Token::RBrace => Mark::RBrace,
        Token::DollarLBrace => Mark::Dollar,
        Token::BackQuote => Mark::BackQuote,
        Token::QuestionMark => Mark::Question,
        Token::Arrow => Mark::Arrow,
        Token::PlusPlus | Token::MinusMinus => Mark::Twice,
        Token::Semi => Mark::Semi,
        Token::Comma => Mark::Comma,
        Token::Colon => Mark::Colon,
        Token::Dot => Mark::Dot,
        Token::Hash | Token::At => Mark::Hash,
        Token::BinOp(BinOpToken::Mul) => Mark::Star,
        Token::Bang | Token::Tilde => Mark::Prefix,
        Token::Str { .. } => Mark::Text,
        Token::Num { .. } | Token::BigInt { .. } => Mark::Number,
        Token::Regex(_, _) => Mark::Regexp,
        Token::Template { .. } => Mark::Chars,
        _ => Mark::Sign,
    }
}
