// The layout of an expression as a text.
use crate::inner_bodies::bodies_of;
use crate::operators::mark_nodes;
use layout_document::brackets::mark_brackets;
use layout_document::gaps::parts_of;
use layout_document::marks::{Marks, Whole};
use layout_document::print::print;
use layout_document::style::Style;
use layout_document::units::{shape_commas, units_of, without_endings};
use std::alloc::{AllocError, Global};
use swc_bodies::token_bodies::TokenBodies;
use swc_input::token::TokenAndSpan;
use swc_nodes::node::ExprId;
use swc_nodes::nodes::NodesOf;

/// The nodes of a text. Functions, classes and blocks in it are kept as their tokens.
pub type Nodes = NodesOf<TokenBodies>;

/// The layout of the expression of a text, which has these tokens, and whose tree has the number among the nodes.
///
/// All tokens and comments are written as they are in the text, in their order, and so are functions, classes and
/// blocks as a whole. Between them only blanks and line breaks change, and the comma after the last item in brackets: so
/// the layout, read again, gives the same tree, but for places, and is its own layout. It is much like that of Prettier.
///
/// **Blanks.** One is on each side of an operator of two or three operands and of `=>`, after a comma, after the colon
/// of a property, within braces, before a block, and where two words meet. One is on each side of a comment, but none
/// after an opening bracket, before a closing one or before a comma.
///
/// **Groups.** A group is on one line if it goes there with what follows it up to the next place for a line break;
/// otherwise it is broken, and each of its places is a line. A line break that is always there breaks the groups around
/// it: that of a comment, of a template, of a function, class or block, and that after the `{` of an object which is
/// broken there in the text. Lines are indented by one step more than that on which their group begins. Groups are:
///
/// - what brackets hold, with a place before each item and before the closing bracket. In an array of numbers as many
///   are on a line as go there;
/// - arguments of which the last is an object, an array or a function, as in `f(a, {..})`, or the first is a function,
///   as in `f(() => {..}, 10)`: where what is before the place in this one at which it can be broken goes on the line, the
///   others stay with it;
/// - operands of operators of the same precedence, as in `a + b - c`, after each operator;
/// - `a ? b : c`, before `?` and `:`; such an expression as `b` or `c` is broken with it, indented more;
/// - a chain in which two members or more are called, as in `a.b().c()`, before each of these, or all but the first
///   after a short name. Three calls or more are always broken if one has an argument that isn't simple, as a function
///   without a block; where the last call alone has line breaks, the chain may stay on its line;
/// - the value after `=`, or after the colon of a property, that begins a line if it doesn't go on that of what is
///   before it; one that can be broken itself begins a line only if what is before the first place in it doesn't go there;
/// - the expression after `=>`;
/// - a list of expressions that is the whole text, after each comma, indented as its first.
///
/// **Commas.** Where the closing bracket of a list begins a line, a comma is after the last item, if one may be there and
/// the style has it; elsewhere none is, but for those that mean a hole of an array.
///
/// **Empty lines.** One is kept between items in brackets where the text has one or more.
///
/// No line is indented by more than 64 columns. What is in `${` and `}` of a template is on one line, unless the text
/// has a line break there.
///
/// **Comments.** A line break next to a comment stays. Where a comment shares its line with tokens on both sides, the
/// line of a broken group begins before it, and before a closing bracket after it. Where each further line of a block
/// comment begins with `*`, these lines are indented as its first.
///
/// Takes time in proportion to the text. The only error is out of memory.
pub fn layout(
    alloc: Global,
    text: &str,
    tokens: &[TokenAndSpan],
    nodes: &Nodes,
    expr: ExprId,
    style: Style,
) -> Result<String, AllocError> {
    let bodies = bodies_of(alloc, nodes, expr)?;
    let mut units = units_of(alloc, tokens, &bodies)?;
    shape_commas(&mut units);
    let units = without_endings(alloc, &units)?;
    let mut marks = Marks::new(alloc, Whole::Expr, style, units, nodes.len())?;
    mark_nodes(alloc, &mut marks, nodes, expr)?;
    mark_brackets(alloc, text, &mut marks)?;
    let parts = parts_of(alloc, text, &marks)?;
    print(alloc, text, &parts, style)
}
