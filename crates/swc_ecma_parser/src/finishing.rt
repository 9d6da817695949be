// What is looked for in an answer before a call hands it out.
ghost use Rattle.std.specs.Prelude.{◌≡◌, true, IfOk, OnOk};
ghost use Rattle.swc_nodes.specs.GrowingNodes.{tree_at, Apart};
ghost use Rattle.swc_steps.specs.Parsing.{scope};
ghost use Rattle.swc_ecma_parser.specs.{CoverNames.parts_covers_left, Finishing.parts_done, Finishing.ChecksAnswer, Finishing.ChecksItem, Faults.cover_faults};
ghost use Rattle.swc_input.specs.{Calls.Loud, Recordings.RecordsAll};

use crate::taking::Covers;
use crate::verifier::record_cover_names;
use swc_ast::spanned::Spanned;
use swc_context::error::PResult;
use swc_input::buffer::Buffer;
use swc_input::tokens::Tokens;
use swc_nodes::nodes::Nodes;

/// Where the syntax is pedantic, records the cover names that are left in an answer (ECMA-262, 13.2.5.1), each as
/// `AssignProperty`, in the order of the source. Beside the answer's own refusal it is refused only when out of memory.
pub(crate) fn check_answer<
    I: Tokens,
    F: Spanned + Drop,
    C: Spanned + Drop,
    K: Spanned + Drop,
    T: Covers<F, C, K> + Drop,
>(input: &mut Buffer<I>, nodes: &Nodes<F, C, K>, answer: PResult<T>) -> PResult<T>
    requires { IfOk answer (λ x. Apart 0 nodes.now (T.parts x)) }
    ensures checks { ChecksAnswer I.model (λ x. parts_done (scope I.model input.old) (tree_at nodes.now) (T.parts x))
        input.old answer result input.new }
    ensures records { (scope I.model input.old).syntax.pedantic ≡ true → Loud I.model input.old → IfOk answer (λ x.
        OnOk result (RecordsAll I.model (cover_faults (parts_covers_left (tree_at nodes.now) (T.parts x)))
        input.old input.new)) }
{
    match answer {
        Ok(item) => {
            check_covers(input, nodes, &item)?;
            Ok(item)
        }
        Err(error) => Err(error),
    }
}

/// Where the syntax is pedantic, records the cover names that are left in an item. It is refused only when out of
/// memory.
fn check_covers<
    I: Tokens,
    F: Spanned + Drop,
    C: Spanned + Drop,
    K: Spanned + Drop,
    T: Covers<F, C, K>,
>(input: &mut Buffer<I>, nodes: &Nodes<F, C, K>, item: &T) -> PResult<()>
    requires { Apart 0 nodes.now (T.parts item.now) }
    ensures checks { ChecksItem I.model (parts_done (scope I.model input.old) (tree_at nodes.now) (T.parts item.now))
        input.old result input.new }
    ensures records { (scope I.model input.old).syntax.pedantic ≡ true → Loud I.model input.old → OnOk result
        (RecordsAll I.model (cover_faults (parts_covers_left (tree_at nodes.now) (T.parts item.now)))
        input.old input.new) }
{
    let syntax = input.syntax();
    if !syntax.pedantic {
        return Ok(());
    }
    match item.covers_left(nodes) {
        Ok(names) => record_cover_names(input, &names),
        Err(_) => Err(input.out_of_memory()),
    }
}
