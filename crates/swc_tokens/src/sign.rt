// Signs and operators (ECMA-262, 12.8).
ghost use Rattle.std.specs.Prelude.{◌≡◌, ◌∷◌, [], IsTrue, IsFalse, IfSome};
ghost use Rattle.swc_tokens.specs.{Found.sign_token, Order.is_free, Signs.has_text, Signs.sign_text};

use crate::found::Sign;
use swc_context::operator::{AssignOp, BinOpToken};

/// The sign that is this byte. Where one may be longer it is read only if none goes on here.
#[tactic(auto, unfolding(crate::specs::Order::is_free, crate::specs::Signs::sign_text, crate::specs::Signs::has_text))]
pub(crate) fn lone_sign(byte: u8, goes_on: bool) -> Option<Sign>
    ensures free { IfSome result (λ s. IsTrue (is_free (sign_token s))) }
    ensures no_text { IfSome result (λ s. IsFalse (has_text (sign_token s))) }
    ensures spells { IfSome result (λ s. sign_text (sign_token s) ≡ byte ∷ []) }
{
    Some(match byte {
        b'(' => Sign::LParen,
        b')' => Sign::RParen,
        b'[' => Sign::LBracket,
        b']' => Sign::RBracket,
        b'{' => Sign::LBrace,
        b'}' => Sign::RBrace,
        b',' => Sign::Comma,
        b';' => Sign::Semi,
        b':' => Sign::Colon,
        b'`' => Sign::BackQuote,
        b'~' => Sign::Tilde,
        b'#' => Sign::Hash,
        b'@' => Sign::At,
        _ if goes_on => return None,
        b'=' => Sign::AssignOp(AssignOp::Assign),
        b'.' => Sign::Dot,
        b'!' => Sign::Bang,
        b'?' => Sign::QuestionMark,
        b'<' => Sign::BinOp(BinOpToken::Lt),
        b'>' => Sign::BinOp(BinOpToken::Gt),
        b'+' => Sign::BinOp(BinOpToken::Add),
        b'-' => Sign::BinOp(BinOpToken::Sub),
        b'*' => Sign::BinOp(BinOpToken::Mul),
        b'%' => Sign::BinOp(BinOpToken::Mod),
        b'|' => Sign::BinOp(BinOpToken::BitOr),
        b'^' => Sign::BinOp(BinOpToken::BitXor),
        b'&' => Sign::BinOp(BinOpToken::BitAnd),
        _ => return None,
    })
}

/// The sign that is written so, but for `${`. There is no token for `?.`.
#[tactic(auto, unfolding(crate::specs::Order::is_free, crate::specs::Signs::sign_text, crate::specs::Signs::has_text))]
pub(crate) fn sign_of(text: &[u8]) -> Option<Sign>
    ensures free { IfSome result (λ s. IsTrue (is_free (sign_token s))) }
    ensures no_text { IfSome result (λ s. IsFalse (has_text (sign_token s))) }
    ensures spells { IfSome result (λ s. sign_text (sign_token s) ≡ text.now) }
{
    Some(match text {
        b"=>" => Sign::Arrow,
        b"#" => Sign::Hash,
        b"@" => Sign::At,
        b"." => Sign::Dot,
        b"..." => Sign::DotDotDot,
        b"!" => Sign::Bang,
        b"(" => Sign::LParen,
        b")" => Sign::RParen,
        b"[" => Sign::LBracket,
        b"]" => Sign::RBracket,
        b"{" => Sign::LBrace,
        b"}" => Sign::RBrace,
        b";" => Sign::Semi,
        b"," => Sign::Comma,
        b"`" => Sign::BackQuote,
        b":" => Sign::Colon,
        b"?" => Sign::QuestionMark,
        b"++" => Sign::PlusPlus,
        b"--" => Sign::MinusMinus,
        b"~" => Sign::Tilde,
        b"==" => Sign::BinOp(BinOpToken::EqEq),
        b"!=" => Sign::BinOp(BinOpToken::NotEq),
        b"===" => Sign::BinOp(BinOpToken::EqEqEq),
        b"!==" => Sign::BinOp(BinOpToken::NotEqEq),
        b"<" => Sign::BinOp(BinOpToken::Lt),
        b"<=" => Sign::BinOp(BinOpToken::LtEq),
        b">" => Sign::BinOp(BinOpToken::Gt),
        b">=" => Sign::BinOp(BinOpToken::GtEq),
        b"<<" => Sign::BinOp(BinOpToken::LShift),
        b">>" => Sign::BinOp(BinOpToken::RShift),
        b">>>" => Sign::BinOp(BinOpToken::ZeroFillRShift),
        b"+" => Sign::BinOp(BinOpToken::Add),
        b"-" => Sign::BinOp(BinOpToken::Sub),
        b"*" => Sign::BinOp(BinOpToken::Mul),
        b"/" => Sign::BinOp(BinOpToken::Div),
        b"%" => Sign::BinOp(BinOpToken::Mod),
        b"|" => Sign::BinOp(BinOpToken::BitOr),
        b"^" => Sign::BinOp(BinOpToken::BitXor),
        b"&" => Sign::BinOp(BinOpToken::BitAnd),
        b"||" => Sign::BinOp(BinOpToken::LogicalOr),
        b"&&" => Sign::BinOp(BinOpToken::LogicalAnd),
        b"**" => Sign::BinOp(BinOpToken::Exp),
        b"??" => Sign::BinOp(BinOpToken::NullishCoalescing),
        b"=" => Sign::AssignOp(AssignOp::Assign),
        b"+=" => Sign::AssignOp(AssignOp::AddAssign),
        b"-=" => Sign::AssignOp(AssignOp::SubAssign),
        b"*=" => Sign::AssignOp(AssignOp::MulAssign),
        b"/=" => Sign::AssignOp(AssignOp::DivAssign),
        b"%=" => Sign::AssignOp(AssignOp::ModAssign),
        b"<<=" => Sign::AssignOp(AssignOp::LShiftAssign),
        b">>=" => Sign::AssignOp(AssignOp::RShiftAssign),
        b">>>=" => Sign::AssignOp(AssignOp::ZeroFillRShiftAssign),
        b"|=" => Sign::AssignOp(AssignOp::BitOrAssign),
        b"^=" => Sign::AssignOp(AssignOp::BitXorAssign),
        b"&=" => Sign::AssignOp(AssignOp::BitAndAssign),
        b"**=" => Sign::AssignOp(AssignOp::ExpAssign),
        b"&&=" => Sign::AssignOp(AssignOp::AndAssign),
        b"||=" => Sign::AssignOp(AssignOp::OrAssign),
        b"??=" => Sign::AssignOp(AssignOp::NullishAssign),
        _ => return None,
    })
}
