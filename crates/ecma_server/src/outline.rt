// The symbols of a document, one in another, and what of it can be folded.
use crate::documents::Document;
use crate::json;
use crate::lines::LineIndex;
use crate::settings::Settings;
use program_tokens::texts::{program_comments, tokens_of};
use serde_json::{Value, json};
use statement_trees::tree::{Member, MemberKey, MemberKind, MethodKind, Program, StatementKind};
use std::alloc::{AllocError, Global};
use swc_ecma_parser::ast::prop::PropName;
use swc_ecma_parser::context::span::Span;
use swc_ecma_parser::nodes::node::{ExprId, Node};

/// Symbols are nested so deeply at most; deeper ones are where those are. JSON isn't read that is nested more than this.
const DEPTH: usize = 40;

/// A symbol: its place, its name, and what it is by the protocol's numbers.
#[derive(Drop)]
struct Symbol {
    span: Span,
    name: Span,
    kind: u64,
}

/// The symbols of a program: functions, classes and their members, and the variables outside of functions.
pub(crate) fn symbols(
    alloc: Global,
    document: &Document,
    program: &Program,
    settings: Settings,
) -> Result<Value, AllocError> {
    let mut found = Vec::new(alloc);
    for place in &program.bodies {
        add_body(program, *place, &mut found)?;
    }
    for id in &program.body {
        if let Some(statement) = program.statement(*id) {
            add_variables(program, &statement.kind, &mut found)?;
        }
    }
    found.sort_by_key(|symbol: &Symbol| (symbol.span.lo.0, u32::MAX - symbol.span.hi.0))?;
    nested(alloc, document, &found, settings)
}

fn add_body(program: &Program, place: Span, found: &mut Vec<Symbol>) -> Result<(), AllocError> {
    if let Some(function) = program.function(place)
        && let Some(name) = &function.name
    {
        add(found, place, name.span, 12)?;
    }
    if let Some(class) = program.class(place) {
        if let Some(name) = &class.name {
            add(found, place, name.span, 5)?;
        }
        for member in &class.members {
            add_member(program, member, found)?;
        }
    }
    Ok(())
}

fn add_member(
    program: &Program,
    member: &Member,
    found: &mut Vec<Symbol>,
) -> Result<(), AllocError> {
    let (key, kind) = match &member.kind {
        MemberKind::Method { kind, key, .. } => (
            key,
            match kind {
                MethodKind::Constructor => 9,
                MethodKind::Method => 6,
                MethodKind::Get | MethodKind::Set => 7,
            },
        ),
        MemberKind::Field { key, .. } => (key, 8),
        MemberKind::StaticBlock(_) => return Ok(()),
    };
    match place_of_key(program, key) {
        Some(name) => add(found, member.span, name, kind),
        None => Ok(()),
    }
}

fn place_of_key(program: &Program, key: &MemberKey) -> Option<Span> {
    match key {
        MemberKey::Private(name) => Some(name.span),
        MemberKey::Prop(PropName::Ident(name)) => Some(name.span),
        MemberKey::Prop(PropName::Str(text)) => Some(text.span),
        MemberKey::Prop(PropName::Num(number)) => Some(number.span),
        MemberKey::Prop(PropName::BigInt(number)) => Some(number.span),
        MemberKey::Prop(PropName::Computed(key)) => program.nodes.span_of(key.expr),
    }
}

/// Adds the variables that a statement declares, itself or for an export.
fn add_variables(
    program: &Program,
    kind: &StatementKind,
    found: &mut Vec<Symbol>,
) -> Result<(), AllocError> {
    let declared = match kind {
        StatementKind::ExportDeclaration(inner) => {
            program.statement(*inner).map(|inner| &inner.kind)
        }
        other => Some(other),
    };
    if let Some(StatementKind::Variables(variables)) = declared {
        for declarator in &variables.declarators {
            if let Some(name) = program.nodes.span_of(declarator.id) {
                add(found, declarator.span, name, 13)?;
            }
        }
    }
    Ok(())
}

fn add(found: &mut Vec<Symbol>, span: Span, name: Span, kind: u64) -> Result<(), AllocError> {
    found.push(Symbol { span, name, kind })?;
    Ok(())
}

/// Symbols that are read, the innermost last: each with its end and with those in it.
#[derive(Drop)]
struct Open {
    end: u32,
    value: Value,
    inner: Vec<Value>,
}

/// Puts symbols that are sorted by their places into those around them.
fn nested(
    alloc: Global,
    document: &Document,
    symbols: &[Symbol],
    settings: Settings,
) -> Result<Value, AllocError> {
    let lines = document.lines(alloc, settings.units)?;
    let mut top = Vec::new(alloc);
    let mut open: Vec<Open> = Vec::new(alloc);
    for symbol in symbols {
        close(alloc, &mut open, &mut top, symbol.span.lo.0)?;
        let value = symbol_json(alloc, document, symbol, &lines)?;
        if open.len() < DEPTH {
            open.push(Open {
                end: symbol.span.hi.0,
                value,
                inner: Vec::new(alloc),
            })?;
        } else if let Some(around) = open.last_mut() {
            around.inner.push(value)?;
        }
    }
    close(alloc, &mut open, &mut top, u32::MAX)?;
    Ok(Value::Array(top))
}

/// Ends the symbols that end before a place.
fn close(
    alloc: Global,
    open: &mut Vec<Open>,
    top: &mut Vec<Value>,
    at: u32,
) -> Result<(), AllocError> {
    for _ in 0..open.len() {
        let is_over = match open.last() {
            Some(last) => last.end <= at,
            None => false,
        };
        if !is_over {
            break;
        }
        if let Some(ended) = open.pop() {
            let value = whole(alloc, ended)?;
            match open.last_mut() {
                Some(around) => around.inner.push(value)?,
                None => top.push(value)?,
            }
        }
    }
    Ok(())
}

/// A symbol with those that are in it.
fn whole(alloc: Global, ended: Open) -> Result<Value, AllocError> {
    let Open {
        end: _,
        mut value,
        inner,
    } = ended;
    if let Value::Object(members) = &mut value {
        let _ = members.insert(String::from_str(alloc, "children")?, Value::Array(inner))?;
    }
    Ok(value)
}

fn symbol_json(
    alloc: Global,
    document: &Document,
    symbol: &Symbol,
    lines: &LineIndex<'_>,
) -> Result<Value, AllocError> {
    let text = document.text.as_str();
    let name = text
        .get(symbol.name.lo.0 as usize..symbol.name.hi.0 as usize)
        .unwrap_or("");
    let first = name.split('\n').next().unwrap_or("").trim_end();
    let name = if first.is_empty() { "?" } else { first };
    let kind = symbol.kind;
    let range = json::range_json(alloc, lines.range(symbol.span))?;
    let selected = json::range_json(alloc, lines.range(symbol.name))?;
    json!(in alloc; {"name": name, "kind": kind, "range": range, "selectionRange": selected})
}

/// What can be folded: functions, classes, blocks, objects, arrays, and comments, over several lines.
pub(crate) fn folds(
    alloc: Global,
    document: &Document,
    program: &Program,
    settings: Settings,
) -> Result<Value, AllocError> {
    let lines = document.lines(alloc, settings.units)?;
    let mut found = Vec::new(alloc);
    for place in &program.bodies {
        add_fold(&mut found, &lines, *place, false)?;
    }
    for statement in &program.statements {
        if let StatementKind::Block(_) | StatementKind::Switch { .. } = &statement.kind {
            add_fold(&mut found, &lines, statement.span, false)?;
        }
    }
    for number in 0..program.nodes.len() {
        let expr = ExprId(number);
        if let Some(Node::Object { .. } | Node::Array { .. }) = program.nodes.node(expr)
            && let Some(span) = program.nodes.span_of(expr)
        {
            add_fold(&mut found, &lines, span, false)?;
        }
    }
    let text = document.text.as_str();
    let tokens = tokens_of(alloc, text, program.goal.is_module())?;
    for comment in &program_comments(alloc, text, &tokens)? {
        add_fold(&mut found, &lines, comment.span, true)?;
    }
    found.sort_by_key(|fold: &Fold| (fold.first, fold.last))?;
    found.dedup();
    let mut told = Vec::new(alloc);
    for Fold {
        first,
        last,
        is_comment,
    } in found {
        let kind = if is_comment { "comment" } else { "region" };
        json::add(
            &mut told,
            json!(in alloc; {"startLine": first, "endLine": last, "kind": kind})?,
        )?;
    }
    Ok(Value::Array(told))
}

/// Lines that can be folded.
#[derive(Clone, Copy, PartialEq, Eq)]
struct Fold {
    first: u64,
    last: u64,
    is_comment: bool,
}

fn add_fold(
    found: &mut Vec<Fold>,
    lines: &LineIndex<'_>,
    span: Span,
    is_comment: bool,
) -> Result<(), AllocError> {
    let first = lines.position(span.lo.0 as usize).line as u64;
    let last = lines.position(span.hi.0 as usize).line as u64;
    if first < last {
        found.push(Fold {
            first,
            last,
            is_comment,
        })?;
    }
    Ok(())
}
