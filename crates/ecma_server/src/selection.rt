// What is selected around a position, step by step.
use crate::documents::Document;
use crate::json;
use crate::places::Position;
use crate::settings::Settings;
use serde_json::{Value, json};
use statement_trees::tree::Program;
use std::alloc::{AllocError, Global};
use swc_ecma_parser::context::span::Span;
use swc_ecma_parser::nodes::node::ExprId;

/// Ranges are nested so deeply at most.
const DEPTH: usize = 60;

/// The ranges around a position, from the innermost on, each with the one around it.
pub(crate) fn selection(
    alloc: Global,
    document: &Document,
    program: &Program,
    position: Position,
    settings: Settings,
) -> Result<Value, AllocError> {
    let lines = document.lines(alloc, settings.units)?;
    let at = (document
        .place(position, settings.units)
        .min(u32::MAX as usize)) as u32;
    let mut around = Vec::new(alloc);
    for statement in &program.statements {
        add(&mut around, statement.span, at)?;
    }
    for place in &program.bodies {
        add(&mut around, *place, at)?;
    }
    for number in 0..program.nodes.len() {
        if let Some(span) = program.nodes.span_of(ExprId(number)) {
            add(&mut around, span, at)?;
        }
    }
    add(&mut around, program.span, at)?;
    around.sort_by_key(|span: &Span| (span.hi.0.saturating_sub(span.lo.0), span.lo.0))?;
    around.dedup();
    let first = around.len().min(DEPTH);
    let mut value = Value::Null;
    for span in around.get(..first).unwrap_or(&[]).iter().rev() {
        let range = json::range_json(alloc, lines.range(*span))?;
        value = match value {
            Value::Null => json!(in alloc; {"range": range})?,
            parent => json!(in alloc; {"range": range, "parent": parent})?,
        };
    }
    Ok(value)
}

fn add(around: &mut Vec<Span>, span: Span, at: u32) -> Result<(), AllocError> {
    if span.lo.0 <= at && at <= span.hi.0 {
        around.push(span)?;
    }
    Ok(())
}
