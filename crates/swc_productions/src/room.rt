// How deeply productions are nested.
ghost use Rattle.std.specs.Prelude.{◌≡◌, ◌+◌, true, IfErr, IfOk};
ghost use Rattle.swc_input.specs.Buffer.{last_position};
ghost use Rattle.swc_input.specs.Recording.{no_memory};

use swc_context::error::PResult;
use swc_input::buffer::Buffer;
use swc_input::tokens::Tokens;

/// How many levels may still open within one that opens here. Where none may open, that is refused as out of memory,
/// since what is missing is the machine's stack, and `too_deep` says so.
pub fn deeper<I: Tokens>(input: &Buffer<I>, too_deep: &mut bool, room: usize) -> PResult<usize>
    ensures less { IfOk result (λ less. less + 1 ≡ room) }
    ensures unchanged { IfOk result (λ less. too_deep.new ≡ too_deep.old) }
    ensures refused { IfErr result (λ e. e ≡ no_memory (last_position input.now)) }
    ensures none_left { IfErr result (λ e. room ≡ 0) }
    ensures told { IfErr result (λ e. too_deep.new ≡ true) }
{
    match room.checked_sub(1) {
        Some(less) => Ok(less),
        None => {
            *too_deep = true;
            Err(input.out_of_memory())
        }
    }
}
