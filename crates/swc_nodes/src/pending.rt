// Binary operators whose right operands are being read (ECMA-262, 13.6 to 13.13).
ghost use Rattle.std.specs.Prelude.{◌≡◌, ◌<◌, ◌++◌, ◌∷◌, [], true, None, MatchResult, MatchOption, option_to_list};
ghost use Rattle.swc_context.specs.Operators.{precedence_of};
ghost use Rattle.swc_ast.specs.Trees.{min_right};
ghost use Rattle.swc_nodes.specs.Rising.{waiting, least_above, rises};

use crate::node::ExprId;
use std::alloc::{AllocError, Global};
use swc_context::operator::BinaryOp;

/// A binary operator and its left operand, of which the right one is being read.
#[derive(Clone, Copy)]
pub struct PendingOperator {
    /// The left operand.
    pub left: ExprId,
    pub op: BinaryOp,
}

/// Operators that wait for their right operands, each one for what the operators above it join.
///
/// From bottom to top their precedences rise, and only `**` is on an operator of its own precedence, on `**`: so of
/// all others there are never more than ten. They are one list, so however many `**` follow one another, no recursion
/// is needed. The one on top is beside that list: so most expressions take no memory for it.
pub struct PendingOperators {
    below: Vec<PendingOperator>,
    top: Option<PendingOperator>,
    ghost rising: { rises 0 (below.items ++ option_to_list top) ≡ true },
    ghost empty: { top ≡ None → below.items ≡ [] },
}

// Not derived: so dropping the operators is a call, and is proved here alone.
impl Drop for PendingOperators {
    fn drop(self) {
        let PendingOperators { below: _, top: _ } = self;
    }
}

impl PendingOperators {
    ghost use Rattle.swc_nodes.specs.Pending.{all_pending};

    /// Nothing is pending. Takes no memory.
    pub fn new(alloc: Global) -> PendingOperators
        ensures { all_pending result ≡ [] }
    {
        PendingOperators {
            below: Vec::new(alloc),
            top: None,
        }
    }

    /// The precedence above which an operator belongs to the right operand of the one on top: that one's own, or one
    /// less for `**`, which groups to the right. 0, below any operator, where nothing is pending.
    #[tactic(auto, using(crate::proofs::Waiting::least_more))]
    pub fn min_prec(&self) -> u8
        ensures { result ≡ least_above 0 (all_pending self.now) }
    {
        match self.top {
            Some(operator) => right_min_prec(operator.op),
            None => 0,
        }
    }

    /// Puts an operator and its left operand on top: one of a precedence above `min_prec`. Refused only when out of
    /// memory.
    pub fn push(&mut self, left: ExprId, op: BinaryOp) -> Result<(), AllocError>
        requires { least_above 0 (all_pending self.old) < precedence_of op }
        ensures { MatchResult result
            (λ u. all_pending self.new ≡ all_pending self.old ++ waiting left op ∷ [])
            (λ e. all_pending self.new ≡ all_pending self.old) }
    {
        put_below(&mut self.below, self.top)?;
        self.top = Some(PendingOperator { left, op });
        Ok(())
    }

    /// Takes out the operator on top, the right operand of which was read; or answers nothing, where nothing is
    /// pending.
    pub fn pop(&mut self) -> Option<PendingOperator>
        ensures { MatchOption result
            ((all_pending self.old ≡ []) × (all_pending self.new ≡ []))
            (λ operator. all_pending self.old ≡ all_pending self.new ++ operator ∷ []) }
    {
        let top = self.top;
        self.top = self.below.pop();
        top
    }
}

/// The precedence above which operators belong to the right operand.
fn right_min_prec(op: BinaryOp) -> u8
    ensures { result ≡ min_right op }
{
    match op {
        // groups to the right
        BinaryOp::Exp => op.precedence() - 1,
        _ => op.precedence(),
    }
}

/// Puts the operator that was on top, if one was, on those below it. Refused only when out of memory.
fn put_below(
    below: &mut Vec<PendingOperator>,
    top: Option<PendingOperator>,
) -> Result<(), AllocError>
    ensures { MatchResult result
        (λ u. below.new.items ≡ below.old.items ++ option_to_list top)
        (λ e. below.new.items ≡ below.old.items) }
{
    match top {
        Some(top) => Ok(below.push(top)?),
        None => Ok(()),
    }
}
