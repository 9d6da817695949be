// The tokens that are kept, beside those that were kept before.
ghost use Rattle.std.specs.Prelude.{◌≡◌, ◌-◌, ◌≤◌, ◌++◌, ◌∷◌, [], false, OnOk, OnErr, length, slice_get, vec_len, vec_capacity};
ghost use Rattle.swc_input.specs.Kept.{is_late, cleared, kept};

use crate::token::TokenAndSpan;
use std::alloc::AllocError;
use swc_context::span::BytePos;

/// Drops a token. It is a function of its own, so that callers' proofs don't have a case for each kind.
fn let_go(_token: Option<TokenAndSpan>) {}

/// Whether the last token ends after the position.
fn ends_late(tokens: &Vec<TokenAndSpan>, at: BytePos) -> bool
    ensures { result ≡ is_late at (slice_get tokens.now.items (length tokens.now.items - 1)) }
{
    match tokens.last() {
        Some(last) => last.span.hi.0 > at.0,
        None => false,
    }
}

/// Lets go of the tokens at the end that end after the position.
fn clear(tokens: &mut Vec<TokenAndSpan>, at: BytePos)
    ensures cleared { tokens.new.items ≡ cleared at tokens.old.items }
    ensures room { vec_capacity tokens.new ≡ vec_capacity tokens.old }
    ensures fewer { vec_len tokens.new ≤ vec_len tokens.old }
{
    while ends_late(tokens, at) {
        let_go(tokens.pop());
    }
}

/// Keeps a token after the others: those at the end that end after its start, in bytes, are dropped first, and so none
/// where the last one ends at that start or before. Refused only when out of memory, and then nothing changes.
#[tactic(auto, using(crate::proofs::Kept::all_kept))]
pub fn keep(tokens: &mut Vec<TokenAndSpan>, token: TokenAndSpan) -> Result<(), AllocError>
    ensures kept { OnOk result (tokens.new.items ≡ kept tokens.old.items token) }
    ensures all { is_late token.span.lo (slice_get tokens.old.items (length tokens.old.items - 1)) ≡ false
        → OnOk result (tokens.new.items ≡ tokens.old.items ++ token ∷ []) }
    ensures unchanged { OnErr result (tokens.new.items ≡ tokens.old.items) }
{
    tokens.reserve(1)?;
    clear(tokens, token.span.lo);
    tokens.push(token)?;
    Ok(())
}
