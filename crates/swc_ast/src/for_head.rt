// What heads of `for` begin with.
use crate::expr::Expr;
use crate::pat::Pat;

/// What is in the head of a `for` before `of`, `in` or the first `;` (ECMA-262, 14.7.4 and 14.7.5), where that is
/// no declaration.
#[derive(Drop)]
pub enum ForHead<F, C, K> {
    /// Before `of` or `in`: what each turn assigns to.
    Target(Box<Pat<F, C, K>>),
    /// Before anything else: an expression.
    Expr(Box<Expr<F, C, K>>),
}
