// What becomes of parts that may have been refused. Only here is a part dropped, where another was refused.
ghost use Rattle.std.specs.Prelude.{◌≡◌, IfOk};

use std::alloc::{AllocError, Global};

/// A value in a box, where it was not refused.
pub(crate) fn boxed<T: Drop>(
    alloc: Global,
    value: Result<T, AllocError>,
) -> Result<Box<T>, AllocError>
    ensures { IfOk result (λ b. value ≡ Ok b.value) }
{
    Ok(Box::new(alloc, value?)?)
}
