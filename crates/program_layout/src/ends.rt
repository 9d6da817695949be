// Semicolons that end statements, which are no units, and braces that are bodies.
use layout_document::marks::Marks;
use layout_document::units::{Kind, shape_commas, without_endings};
use std::alloc::{AllocError, Global};
use swc_context::span::{BytePos, Span};
use tree_types::tree::{
    Class, DefaultExport, MemberKind, Program, Statement, StatementKind, SwitchCase,
};

/// Whether a semicolon ends such a statement.
pub(crate) fn is_ended(kind: &StatementKind) -> bool {
    matches!(
        kind,
        StatementKind::Expr(_)
            | StatementKind::Directive(_)
            | StatementKind::Debugger
            | StatementKind::DoWhile { .. }
            | StatementKind::Continue(_)
            | StatementKind::Break(_)
            | StatementKind::Return(_)
            | StatementKind::Throw(_)
            | StatementKind::Variables(_)
            | StatementKind::Import(_)
            | StatementKind::ExportNamed(_)
            | StatementKind::ExportAll(_)
            | StatementKind::ExportDefault(DefaultExport::Expr(_))
    )
}

/// The units of a program, of which nothing is noted yet: braces around statements, members and clauses are bodies;
/// semicolons that end statements or fields, or are between members, and commas before closing brackets are left out.
pub(crate) fn without_ends(
    alloc: Global,
    mut marks: Marks,
    program: &Program,
) -> Result<Marks, AllocError> {
    shape_all(&mut marks, program);
    shape_commas(&mut marks.units);
    let units = without_endings(alloc, &marks.units)?;
    Marks::new(alloc, marks.whole, marks.style, units, program.nodes.len())
}

/// Shapes the braces and the semicolons of a program.
fn shape_all(marks: &mut Marks, program: &Program) {
    for statement in &program.statements {
        shape_statement(marks, statement);
    }
    for place in &program.bodies {
        shape_body(marks, program, *place);
    }
}

/// Shapes the braces of the class or the block at the place, and the semicolons of a class.
fn shape_body(marks: &mut Marks, program: &Program, place: Span) {
    if let Some(class) = program.class(place) {
        shape_class(marks, class);
    } else if let Some(block) = program.block(place) {
        shape_brace(marks, block.span.lo);
    }
}

fn shape_statement(marks: &mut Marks, statement: &Statement) {
    let place = statement.span;
    match &statement.kind {
        StatementKind::Block(_) => shape_brace(marks, place.lo),
        StatementKind::Switch { cases, .. } => {
            let number = switch_brace(marks, place, cases);
            set_kind(marks, number, Kind::OpenBody);
        }
        kind if is_ended(kind) => shape_end(marks, place),
        _ => {}
    }
}

/// The number of the `{` of a `switch`.
pub(crate) fn switch_brace(marks: &Marks, place: Span, cases: &[SwitchCase]) -> usize {
    match cases.first() {
        Some(case) => marks.at(case.span.lo).saturating_sub(1),
        None => marks.at(place.hi).saturating_sub(2),
    }
}

/// Shapes the braces of a class, and the semicolons of its fields and between its members.
fn shape_class(marks: &mut Marks, class: &Class) {
    shape_brace(marks, class.body_span.lo);
    let mut before = class.body_span.lo;
    for member in &class.members {
        shape_between(marks, before, member.span.lo);
        if matches!(member.kind, MemberKind::Field { .. }) {
            shape_end(marks, member.span);
        }
        before = member.span.hi;
    }
    shape_between(marks, before, class.body_span.hi);
}

fn shape_brace(marks: &mut Marks, place: BytePos) {
    let number = marks.at(place);
    set_kind(marks, number, Kind::OpenBody);
}

/// Shapes the semicolon that is the last unit of a statement or a field, if it is one.
fn shape_end(marks: &mut Marks, place: Span) {
    let last = marks.at(place.hi).saturating_sub(1);
    shape_semicolon(marks, last);
}

/// Shapes the semicolons between two places.
fn shape_between(marks: &mut Marks, from: BytePos, end: BytePos) {
    for number in marks.at(from)..marks.at(end) {
        shape_semicolon(marks, number);
    }
}

fn shape_semicolon(marks: &mut Marks, number: usize) {
    if marks.kind(number) == Kind::Semicolon {
        set_kind(marks, number, Kind::Ending);
    }
}

fn set_kind(marks: &mut Marks, number: usize, kind: Kind) {
    if let Some(unit) = marks.units.get_mut(number) {
        unit.kind = kind;
    }
}
