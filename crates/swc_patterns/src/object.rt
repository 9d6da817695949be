// Object patterns (ECMA-262, 14.3.3): what is after a key, and where rests may be.
ghost use Rattle.std.specs.Option.{is_some};
ghost use Rattle.std.specs.Prelude.{ℕ, ◌≡◌, ◌≤◌, false, not, IfOk, IfSome, OnOk};
ghost use Rattle.swc_context.specs.Reserved.{is_reserved_word};
ghost use Rattle.swc_input.specs.{Buffer.context, Buffer.to_come, Recordings.Judges, Recordings.NotesAll};
ghost use Rattle.swc_ast.specs.{Patterns.holds_ident, Trees.items_of};
ghost use Rattle.swc_nodes.specs.{GrowingNodes.Apart, Lists.pat_props_parts, NodeParts.pat_prop_parts};
ghost use Rattle.swc_input.specs.Calls.{Checked};
ghost use Rattle.swc_steps.specs.Parsing.{ContinuesAlone, GoesOn};
ghost use Rattle.swc_steps.specs.Params.{pat_at};
ghost use Rattle.swc_patterns.specs.Answers.{pat_itself, pat_prop_at, pat_props_at};
ghost use Rattle.swc_patterns.specs.Objects.{after_pat_key, after_name, bound, object_pat_from, is_rest, props_stage, is_value, key_or, rests_checked, last_stage};
ghost use Rattle.swc_patterns.specs.RestFaults.{earlier_faults, last_faults, last_refused};

use crate::pat::made;
use swc_ast::ident::{BindingIdent, Ident, IdentName};
use swc_ast::prop::PropName;
use swc_bodies::bodies::Bodies;
use swc_context::error::{PResult, SyntaxError, Wanted};
use swc_context::span::{BytePos, Span};
use swc_input::buffer::Buffer;
use swc_input::tokens::Tokens;
use swc_nodes::node::{ExprId, PatId, PatPropNode};
use swc_nodes::nodes::NodesOf;
use swc_steps::productions::Productions;
use swc_steps::tokens::{Listed, Sign, eat};

/// What is after the key of a property of an object pattern.
#[derive(Drop)]
pub enum AfterPatKey {
    /// A colon, after which an element comes.
    Value(PropName<ExprId>),
    /// `=`, after which the initialiser of the name comes.
    Default(BindingIdent),
    /// Nothing: the name is bound.
    Name(BindingIdent),
}

/// What is after the key of a property of an object pattern (ECMA-262, 14.3.3): a colon, or `=` after a name,
/// which are consumed, or nothing. A name alone that is reserved there is recorded as
/// `ReservedWordInObjShorthandOrPat`, at the name. After another key than a name, another token is refused as
/// `Unexpected`, at that token, and the end as `Eof`.
pub fn after_pat_key<I: Tokens>(
    input: &mut Buffer<I>,
    key: PropName<ExprId>,
) -> PResult<AfterPatKey>
    ensures after { ContinuesAlone I.model (λ a. a) (after_pat_key key) input.old result input.new }
    ensures kept { IfOk result (λ a. key_or key a ≡ key) }
    ensures falls { OnOk result (to_come I.model input.new ≤ to_come I.model input.old) }
{
    match eat(input, Sign::Colon)? {
        Some(_) => Ok(AfterPatKey::Value(key)),
        None => match key {
            PropName::Ident(name) => after_name(input, name),
            _ => {
                let kind = SyntaxError::Unexpected(Wanted::PatIdent);
                Err(input.unexpected(kind))
            }
        },
    }
}

/// What is after a name: `=`, which is consumed, or nothing, where the name isn't reserved.
fn after_name<I: Tokens>(input: &mut Buffer<I>, name: IdentName) -> PResult<AfterPatKey>
    ensures after { ContinuesAlone I.model (λ a. a) (after_name name) input.old result input.new }
    ensures bare { IfOk result (λ a. is_value a ≡ false) }
    ensures falls { OnOk result (to_come I.model input.new ≤ to_come I.model input.old) }
{
    match eat(input, Sign::Assign)? {
        Some(_) => Ok(AfterPatKey::Default(bound(name))),
        None => {
            check_name(input, &name)?;
            Ok(AfterPatKey::Name(bound(name)))
        }
    }
}

/// The name, as one that is bound.
fn bound(name: IdentName) -> BindingIdent
    ensures { result ≡ bound name }
{
    BindingIdent {
        id: Ident {
            span: name.span,
            sym: name.sym,
        },
    }
}

/// Records a name that is reserved where it is.
fn check_name<I: Tokens>(input: &mut Buffer<I>, name: &IdentName) -> PResult<()>
    ensures checks { Checked I.model
        (not (is_reserved_word (context I.model input.old) name.now.sym)) input.old result input.new }
    ensures falls { OnOk result (to_come I.model input.new ≤ to_come I.model input.old) }
{
    if input.get_ctx().is_reserved_word(&name.sym) {
        let kind = SyntaxError::ReservedWordInObjShorthandOrPat;
        return input.emit_err(name.span, kind);
    }
    Ok(())
}

/// The object pattern (ECMA-262, 14.3.3) whose brace is at `start`, after its properties and its closing brace. A rest
/// that isn't the last property is recorded as `NonLastRestParam`, at the rest; a last one over no name is refused as
/// `DotsWithoutIdentifier`, at the rest; the comma after one over a name is recorded as `CommaAfterRestElement`.
pub fn object_pat<I: Tokens, B: Bodies<I>>(
    p: &mut Productions<I, B>,
    start: BytePos,
    list: Listed<PatPropNode>,
) -> PResult<PatId>
    requires apart { Apart 0 p.old.nodes (pat_props_parts list.items) }
    ensures { (k : ℕ) → Apart k p.old.nodes (pat_props_parts list.items) → GoesOn I.model B.is_faithful pat_itself
        pat_at (object_pat_from start (pat_props_at p.old.nodes list)) k p.old result p.new }
{
    check_rests::<I, B>(&mut p.input, &p.nodes, &list)?;
    let end = list.end.hi;
    let node = p.nodes.object_pat(start, end, list.items);
    made(&p.input, node)
}

/// A rest among properties: its place, and whether it is over a name.
#[derive(Clone, Copy)]
pub struct RestProp {
    /// Its place.
    pub span: Span,
    /// Whether it is over a name.
    pub is_name: bool,
}

/// Records and refuses the rests that don't come last, over a name, with no comma after them, in their order.
fn check_rests<I: Tokens, B: Bodies<I>>(
    input: &mut Buffer<I>,
    nodes: &NodesOf<B>,
    list: &Listed<PatPropNode>,
) -> PResult<()>
    requires { Apart 0 nodes.now (pat_props_parts list.now.items) }
    ensures checks { ContinuesAlone I.model (λ u. u)
        (rests_checked (props_stage (items_of (pat_props_at nodes.now list.now)) list.now.trailing_comma))
        input.old result input.new }
    ensures falls { OnOk result (to_come I.model input.new ≤ to_come I.model input.old) }
{
    let mut last = None;
    for prop in &list.items {
        check_earlier_rest(input, last)?;
        last = rest_of::<I, B>(nodes, prop);
    }
    check_last_rest(input, last, list.trailing_comma)
}

/// The rest that a property is.
fn rest_of<I: Tokens, B: Bodies<I>>(nodes: &NodesOf<B>, prop: &PatPropNode) -> Option<RestProp>
    requires { Apart 0 nodes.now (pat_prop_parts prop.now) }
    ensures rest { is_some result ≡ is_rest (pat_prop_at nodes.now prop.now) }
    ensures name { IfSome result (λ r. r.is_name ≡ holds_ident (pat_prop_at nodes.now prop.now)) }
{
    match prop {
        PatPropNode::Rest { span, arg, .. } => Some(RestProp {
            span: *span,
            is_name: nodes.is_ident_part(*arg),
        }),
        _ => None,
    }
}

/// Records a rest that another property is after, at its place.
pub fn check_earlier_rest<I: Tokens>(input: &mut Buffer<I>, rest: Option<RestProp>) -> PResult<()>
    ensures checks { Checked I.model (not (is_some rest)) input.old result input.new }
    ensures notes { OnOk result (NotesAll I.model (earlier_faults rest) input.old input.new) }
    ensures falls { OnOk result (to_come I.model input.new ≤ to_come I.model input.old) }
{
    match rest {
        Some(rest) => input.emit_err(rest.span.in_order(), SyntaxError::NonLastRestParam),
        None => Ok(()),
    }
}

/// Refuses a last rest that is over no name, at its place, and records the comma after another.
pub fn check_last_rest<I: Tokens>(
    input: &mut Buffer<I>,
    rest: Option<RestProp>,
    comma: Option<Span>,
) -> PResult<()>
    ensures checks { ContinuesAlone I.model (λ u. u) (rests_checked (last_stage rest comma))
        input.old result input.new }
    ensures judges { Judges I.model (last_faults rest comma) (last_refused rest) input.old result input.new }
    ensures falls { OnOk result (to_come I.model input.new ≤ to_come I.model input.old) }
{
    let Some(rest) = rest else {
        return Ok(());
    };
    if !rest.is_name {
        let kind = SyntaxError::DotsWithoutIdentifier;
        return Err(input.syntax_error(rest.span.in_order(), kind));
    }
    match comma {
        Some(comma) => input.emit_err(comma, SyntaxError::CommaAfterRestElement),
        None => Ok(()),
    }
}
