// Calls of a source that keeps its tokens, and of a parser over it.
use lower_rows::hooks::TestBodies;
use lower_rows::kept::call_keeping;
use lower_rows::row::{Row, show_unread};
use lower_rows::settings::input_of;
use lower_rows::shown::{begin_part, show_refusal};
use lower_rows::trees::show_id;
use std::alloc::{AllocError, Global};
use swc_ecma_parser::parser::Parser;
use swc_input::capturing::Capturing;

/// Writes what the row's calls answer: those of the source, and `parse_expr`.
pub(crate) fn show_kept(alloc: Global, out: &mut String, row: Row<'_>) -> Result<(), AllocError> {
    let Some(source) = input_of(alloc, row, false) else {
        return show_unread(out, "no such setting, or no tokens");
    };
    let hook = TestBodies::of_setting(alloc, row.setting);
    let mut parser = Parser::new_from(alloc, Capturing::new(alloc, source), hook);
    for (at, call) in row.calls.split("; ").enumerate() {
        begin_part(out, at, "; ")?;
        if call == "parse_expr" {
            match parser.parse_expr_id() {
                Ok(id) => show_id(out, parser.nodes(), id)?,
                Err(fault) => show_refusal(out, fault)?,
            }
        } else {
            call_keeping(parser.input(), out, call)?;
        }
    }
    Ok(())
}
