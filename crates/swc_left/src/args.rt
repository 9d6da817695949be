// Arguments (ECMA-262, 13.3.8), and those of `import` (13.3.10).
ghost use Rattle.std.specs.Prelude.{◌≡◌, ◌≤◌, OnOk};
ghost use Rattle.swc_input.specs.Buffer.{to_come};
ghost use Rattle.swc_grammar.specs.Tokens.{import_comma_ok};
ghost use Rattle.swc_steps.specs.Args.{last_comma, separated_args};
ghost use Rattle.swc_input.specs.Calls.{Checked};
ghost use Rattle.swc_steps.specs.Parsing.{scope, ContinuesAlone};
ghost use Rattle.swc_left.specs.Counted.{few_items, counted_ok};

use swc_ast::expr::ExprOrSpread;
use swc_context::error::{PResult, SyntaxError};
use swc_context::span::{BytePos, Span};
use swc_input::buffer::Buffer;
use swc_input::tokens::Tokens;
use swc_nodes::node::ExprId;
use swc_steps::tokens::{Listed, Sign, is_sign, look, separate};

/// Consumes what is after an argument: a comma, whose place is answered, or nothing where the parenthesis that
/// closes the list is current. After the last argument of `import` a comma may be refused.
#[inline(never)]
pub fn separate_args<I: Tokens>(
    input: &mut Buffer<I>,
    start: Span,
    is_dynamic_import: bool,
) -> PResult<Option<Span>>
    ensures separates { ContinuesAlone I.model (λ s. s) (separated_args is_dynamic_import) input.old result input.new }
    ensures falls { OnOk result (to_come I.model input.new ≤ to_come I.model input.old) }
{
    let comma = separate(input, Sign::RParen)?;
    if !is_dynamic_import {
        return Ok(comma);
    }
    match comma {
        Some(span) => {
            refuse_last_comma(input, start, span)?;
            Ok(Some(span))
        }
        None => Ok(None),
    }
}

/// Refuses the comma at `comma` where the parenthesis that closes the list is current, as `TrailingCommaInsideImport`,
/// from `start`, where the list is opened, through the comma; unless one may be there.
fn refuse_last_comma<I: Tokens>(input: &mut Buffer<I>, start: Span, comma: Span) -> PResult<()>
    ensures passes { ContinuesAlone I.model (λ u. u) last_comma input.old result input.new }
    ensures falls { OnOk result (to_come I.model input.new ≤ to_come I.model input.old) }
{
    look(input)?;
    if !is_sign(input, Sign::RParen) {
        return Ok(());
    }
    if import_comma_allowed(input) {
        return Ok(());
    }
    let span = Span::new(start.lo, comma.hi);
    let kind = SyntaxError::TrailingCommaInsideImport;
    Err(input.syntax_error(span, kind))
}

/// Whether a comma may come after the last argument of `import`.
fn import_comma_allowed<I: Tokens>(input: &Buffer<I>) -> bool
    ensures { result ≡ import_comma_ok (scope I.model input.now) }
{
    let syntax = input.syntax();
    syntax.import_attributes
}

/// Records arguments of `import` that are none, too many, or a spread, as `ImportArguments`, from `open`, where their
/// parenthesis opens, through the one that closes them; where the syntax is pedantic, and of `import` alone. There may
/// be one, and with import attributes two.
#[inline(never)]
pub fn check_import_args<I: Tokens>(
    input: &mut Buffer<I>,
    open: BytePos,
    list: &Listed<ExprOrSpread<ExprId>>,
    is_dynamic_import: bool,
) -> PResult<()>
    ensures checks { Checked I.model (counted_ok (scope I.model input.old) is_dynamic_import list.now.items.items)
        input.old result input.new }
    ensures falls { OnOk result (to_come I.model input.new ≤ to_come I.model input.old) }
{
    if import_args_allowed(input, &list.items, is_dynamic_import) {
        return Ok(());
    }
    let span = Span::new(open, list.end.hi);
    input.emit_err(span, SyntaxError::ImportArguments)
}

/// Whether these may be the arguments, of `import` or of another callee.
fn import_args_allowed<I: Tokens>(
    input: &Buffer<I>,
    items: &Vec<ExprOrSpread<ExprId>>,
    is_dynamic_import: bool,
) -> bool
    ensures { result ≡ counted_ok (scope I.model input.now) is_dynamic_import items.now.items }
{
    let syntax = input.syntax();
    if !is_dynamic_import || !syntax.pedantic {
        return true;
    }
    is_few_items(items, syntax.import_attributes)
}

/// Whether there is one item, or where `two` may be also two, and none after dots.
fn is_few_items(items: &Vec<ExprOrSpread<ExprId>>, two: bool) -> bool
    ensures { result ≡ few_items two items.now.items }
{
    match items.len() {
        1 => items[0].spread.is_none(),
        2 => two && items[0].spread.is_none() && items[1].spread.is_none(),
        _ => false,
    }
}
