//! Signs and operators (ECMA-262, 12.8).
ghost use Rattle.std.specs.Prelude.{◌≡◌, ◌∷◌, [], IfSome};
ghost use Rattle.swc_lexer.specs.Signs as signs;
ghost use Rattle.swc_lexer.specs.Signs.{sign_text};

use swc_context::operator::{AssignOp, BinOpToken};
use swc_input::token::Token;

/// The sign that is this byte.
fn one(a: u8) -> Option<Token>
    ensures value { result ≡ signs.one a }
    ensures spells { IfSome result (λ t. sign_text t ≡ a ∷ []) }
{
    match a {
        b'=' => Some(Token::AssignOp(AssignOp::Assign)),
        b'?' => Some(Token::QuestionMark),
        b'!' => Some(Token::Bang),
        b'~' => Some(Token::Tilde),
        b'<' => Some(Token::BinOp(BinOpToken::Lt)),
        b'>' => Some(Token::BinOp(BinOpToken::Gt)),
        b'+' => Some(Token::BinOp(BinOpToken::Add)),
        b'-' => Some(Token::BinOp(BinOpToken::Sub)),
        b'*' => Some(Token::BinOp(BinOpToken::Mul)),
        b'/' => Some(Token::BinOp(BinOpToken::Div)),
        b'%' => Some(Token::BinOp(BinOpToken::Mod)),
        b'|' => Some(Token::BinOp(BinOpToken::BitOr)),
        b'^' => Some(Token::BinOp(BinOpToken::BitXor)),
        b'&' => Some(Token::BinOp(BinOpToken::BitAnd)),
        b'(' => Some(Token::LParen),
        b')' => Some(Token::RParen),
        b'[' => Some(Token::LBracket),
        b']' => Some(Token::RBracket),
        b'{' => Some(Token::LBrace),
        b'}' => Some(Token::RBrace),
        b';' => Some(Token::Semi),
        b',' => Some(Token::Comma),
        b':' => Some(Token::Colon),
        b'.' => Some(Token::Dot),
        b'`' => Some(Token::BackQuote),
        b'#' => Some(Token::Hash),
        b'@' => Some(Token::At),
        _ => None,
    }
}

/// The sign that is this byte and `=`.
fn with_equal(a: u8) -> Option<Token>
    ensures value { result ≡ signs.with_equal a }
    ensures spells { IfSome result (λ t. sign_text t ≡ a ∷ 61 ∷ []) }
{
    match a {
        b'=' => Some(Token::BinOp(BinOpToken::EqEq)),
        b'!' => Some(Token::BinOp(BinOpToken::NotEq)),
        b'<' => Some(Token::BinOp(BinOpToken::LtEq)),
        b'>' => Some(Token::BinOp(BinOpToken::GtEq)),
        b'+' => Some(Token::AssignOp(AssignOp::AddAssign)),
        b'-' => Some(Token::AssignOp(AssignOp::SubAssign)),
        b'*' => Some(Token::AssignOp(AssignOp::MulAssign)),
        b'/' => Some(Token::AssignOp(AssignOp::DivAssign)),
        b'%' => Some(Token::AssignOp(AssignOp::ModAssign)),
        b'|' => Some(Token::AssignOp(AssignOp::BitOrAssign)),
        b'^' => Some(Token::AssignOp(AssignOp::BitXorAssign)),
        b'&' => Some(Token::AssignOp(AssignOp::BitAndAssign)),
        _ => None,
    }
}

/// The sign that is this byte twice, which is no `=`.
fn twice(a: u8) -> Option<Token>
    ensures value { result ≡ signs.twice a }
    ensures spells { IfSome result (λ t. sign_text t ≡ a ∷ a ∷ []) }
{
    match a {
        b'+' => Some(Token::PlusPlus),
        b'-' => Some(Token::MinusMinus),
        b'<' => Some(Token::BinOp(BinOpToken::LShift)),
        b'>' => Some(Token::BinOp(BinOpToken::RShift)),
        b'|' => Some(Token::BinOp(BinOpToken::LogicalOr)),
        b'&' => Some(Token::BinOp(BinOpToken::LogicalAnd)),
        b'*' => Some(Token::BinOp(BinOpToken::Exp)),
        b'?' => Some(Token::BinOp(BinOpToken::NullishCoalescing)),
        _ => None,
    }
}

/// The sign of these two bytes.
fn two(a: u8, b: u8) -> Option<Token>
    ensures value { result ≡ signs.two a b }
    ensures spells { IfSome result (λ t. sign_text t ≡ a ∷ b ∷ []) }
{
    if b == b'=' {
        with_equal(a)
    } else if a == b {
        twice(a)
    } else if a == b'=' && b == b'>' {
        Some(Token::Arrow)
    } else if a == b'$' && b == b'{' {
        Some(Token::DollarLBrace)
    } else {
        None
    }
}

/// The sign that is this byte twice and `=`.
fn twice_with_equal(a: u8) -> Option<Token>
    ensures value { result ≡ signs.twice_with_equal a }
    ensures spells { IfSome result (λ t. sign_text t ≡ a ∷ a ∷ 61 ∷ []) }
{
    match a {
        b'=' => Some(Token::BinOp(BinOpToken::EqEqEq)),
        b'<' => Some(Token::AssignOp(AssignOp::LShiftAssign)),
        b'>' => Some(Token::AssignOp(AssignOp::RShiftAssign)),
        b'*' => Some(Token::AssignOp(AssignOp::ExpAssign)),
        b'&' => Some(Token::AssignOp(AssignOp::AndAssign)),
        b'|' => Some(Token::AssignOp(AssignOp::OrAssign)),
        b'?' => Some(Token::AssignOp(AssignOp::NullishAssign)),
        _ => None,
    }
}

/// The sign of these three bytes.
fn three(a: u8, b: u8, c: u8) -> Option<Token>
    ensures value { result ≡ signs.three a b c }
    ensures spells { IfSome result (λ t. sign_text t ≡ a ∷ b ∷ c ∷ []) }
{
    if a == b && c == b'=' {
        twice_with_equal(a)
    } else if a == b'!' && b == b'=' && c == b'=' {
        Some(Token::BinOp(BinOpToken::NotEqEq))
    } else if a == b'.' && b == b'.' && c == b'.' {
        Some(Token::DotDotDot)
    } else if a == b'>' && b == b'>' && c == b'>' {
        Some(Token::BinOp(BinOpToken::ZeroFillRShift))
    } else {
        None
    }
}

/// The sign of these four bytes.
fn four(a: u8, b: u8, c: u8, d: u8) -> Option<Token>
    ensures value { result ≡ signs.four a b c d }
    ensures spells { IfSome result (λ t. sign_text t ≡ a ∷ b ∷ c ∷ d ∷ []) }
{
    if a == b'>' && b == b'>' && c == b'>' && d == b'=' {
        Some(Token::AssignOp(AssignOp::ZeroFillRShiftAssign))
    } else {
        None
    }
}

/// The sign that is written so.
pub fn sign(text: &[u8]) -> Option<Token>
    ensures value { result ≡ signs.sign_of text.now }
    ensures spells { IfSome result (λ t. sign_text t ≡ text.now) }
{
    match text {
        [a] => one(*a),
        [a, b] => two(*a, *b),
        [a, b, c] => three(*a, *b, *c),
        [a, b, c, d] => four(*a, *b, *c, *d),
        _ => None,
    }
}
