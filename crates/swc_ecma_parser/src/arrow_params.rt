// The parameters of an arrow function by themselves, from their parenthesis on.
ghost use Rattle.swc_nodes.specs.GrowingNodes.{count};
ghost use Rattle.swc_steps.specs.Parsing.{Produces};
ghost use Rattle.swc_ecma_parser.specs.ArrowParams.{params_items, arrow_params_of, arrow_params_at};

use swc_bodies::bodies::Bodies;
use swc_context::error::PResult;
use swc_cover::refining::parse_paren_items_as_params;
use swc_input::tokens::Tokens;
use swc_nodes::node::PatId;
use swc_productions::args::parse_arguments;
use swc_steps::productions::Productions;

/// The parameters of an arrow function (ECMA-262, 13.2.9 and 15.3), with their parentheses: a list that is read as
/// arguments are, and then made parameters of.
pub(crate) fn parse_arrow_params<I: Tokens, B: Bodies<I>>(
    p: &mut Productions<I, B>,
    room: usize,
) -> PResult<Vec<PatId>>
    ensures { Produces I.model B.is_faithful arrow_params_of arrow_params_at (params_items B.forms) (count p.old.nodes)
        p.old result p.new }
{
    let list = parse_arguments(p, room, false)?;
    parse_paren_items_as_params(p, &list.items, list.trailing_comma)
}
