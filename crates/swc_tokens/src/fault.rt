// What the reader refuses.
ghost use Rattle.std.specs.Prelude.{◌≡◌, ◌<◌, ◌^◌};
ghost use Rattle.swc_tokens.specs.Faults as faults;

use swc_context::error::{Error, SyntaxError};
use swc_context::span::{BytePos, Span};

/// The span from one position to before another.
pub(crate) fn span(lo: usize, hi: usize) -> Span
    requires lo { lo < 2 ^ 32 }
    requires hi { hi < 2 ^ 32 }
    ensures { result ≡ faults.between lo hi }
{
    Span {
        lo: BytePos(lo as u32),
        hi: BytePos(hi as u32),
    }
}

/// The fault of a byte that doesn't fit.
pub(crate) fn lex_fault(lo: usize, hi: usize) -> Error
    requires lo { lo < 2 ^ 32 }
    requires hi { hi < 2 ^ 32 }
    ensures { result ≡ faults.lex_fault (faults.between lo hi) }
{
    Error::new(span(lo, hi), SyntaxError::Lex)
}

/// Out of memory.
pub(crate) fn out_of_memory() -> Error
    ensures { result ≡ faults.out_of_memory }
{
    Error::new(span(0, 0), SyntaxError::OutOfMemory)
}
