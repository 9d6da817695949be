// All nodes that are reached from an answer, as rows.
use lower_rows::shown::show_refusal;
use lower_rows::trees::TestNodes;
use std::alloc::AllocError;
use swc_context::error::PResult;
use swc_nodes::apart::{PartId, Parts};
use swc_nodes::reached::reached;

/// Writes the numbers of all that is reached from the answer, or its refusal; and how many nodes there are.
pub(crate) fn show_all<T: Parts + Drop>(
    out: &mut String,
    nodes: &TestNodes,
    answer: PResult<T>,
) -> Result<(), AllocError> {
    match answer {
        Ok(item) => show_numbers(out, &reached(nodes, &item)?)?,
        Err(fault) => {
            show_refusal(out, fault)?;
            out.push_str(" ")?;
        }
    }
    write!(out, "of {}", nodes.len())
}

/// Writes the numbers of the parts.
fn show_numbers(out: &mut String, parts: &[PartId]) -> Result<(), AllocError> {
    for part in parts {
        write!(out, "{} ", part.number())?;
    }
    Ok(())
}
