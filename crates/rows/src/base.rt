// What builders of programs ask: parts of texts, what names mean, walks, and values of literals.
use literal_values::integer::{big_int_text, integer};
use literal_values::number::{number, number_text};
use literal_values::string::{string_text, string_units, template_text};
use lower_rows::shown::begin_part;
use parser_rows::texts::show_refused;
use program_names::scopes::{Conflict, Scopes};
use program_walk::functions::{Body, functions_of};
use program_walk::walk::{Part, Step, Walk};
use reporting::{LEVELS, Refusal};
use statement_outline::outline_of;
use statement_trees::tree::{Goal, Program};
use statement_trees::{read_expression, read_program};
use std::alloc::{AllocError, Global};
use swc_ecma_parser::bodies::token_bodies::TokenBodies;
use swc_ecma_parser::context::context::{Context, EsVersion, Syntax};
use swc_ecma_parser::context::span::{BytePos, Span};
use swc_ecma_parser::printing::print::PrintNodes;
use swc_ecma_parser::text::{TextPart, parse_text_expr_at};
use swc_ecma_parser::whole::Whole;
use text_edits::edit::{Edit, edited};

/// Writes what is asked of a text by the words of a client's name; `None` where there is no such client.
pub(crate) fn show_base(
    alloc: Global,
    out: &mut String,
    client: &str,
    text: &str,
    context: Context,
) -> Result<Option<()>, AllocError> {
    let mut words = client.split(' ');
    let name = words.next().unwrap_or("");
    let (first, second) = (words.next().unwrap_or(""), words.next().unwrap_or(""));
    let (at, end) = (
        first.parse().unwrap_or(0),
        second.parse().unwrap_or(text.len()),
    );
    match name {
        "part" => show_part(alloc, out, text, at, end, context)?,
        "expression" => show_expression(alloc, out, text, at, end)?,
        "meaning" => show_meaning(alloc, out, text, first, end)?,
        "rename" => show_renamed(alloc, out, text, first, second)?,
        "walk" => show_walk(alloc, out, text)?,
        "functions" => show_functions(alloc, out, text)?,
        "values" => show_values(alloc, out, text)?,
        _ => return Ok(None),
    }
    Ok(Some(()))
}

/// Writes the tree of an expression in a part of the text, whether a token is left, and where it stopped.
fn show_part(
    alloc: Global,
    out: &mut String,
    text: &str,
    at: usize,
    end: usize,
    context: Context,
) -> Result<(), AllocError> {
    let (syntax, target) = (Syntax::default(), EsVersion::default());
    let bodies = TokenBodies::new(alloc);
    let Some(part) = parse_text_expr_at(
        alloc, text, at, end, context, syntax, target, bodies, LEVELS,
    ) else {
        return out.push_str("no part");
    };
    let TextPart { whole, stop } = part;
    let Whole {
        read,
        nodes,
        recorded: _,
        too_deep: _,
    } = whole;
    match read {
        Ok((expr, is_left)) => {
            let Ok(tree) = nodes.print_expr(expr) else {
                return Err(AllocError);
            };
            let left = if is_left { "more" } else { "over" };
            write!(out, "{tree} {left} {stop}")
        }
        Err(fault) => {
            show_refused(out, &Refusal::Fault(fault))?;
            write!(out, " {stop}")
        }
    }
}

/// Writes the outline of the program that an expression is read as.
fn show_expression(
    alloc: Global,
    out: &mut String,
    text: &str,
    at: usize,
    end: usize,
) -> Result<(), AllocError> {
    match read_expression(alloc, text, at, end, Goal::Script, LEVELS) {
        Some(Ok(program)) => show_lines(out, outline_of(alloc, &program)?.as_str()),
        Some(Err(refusal)) => show_refused(out, &refusal),
        None => out.push_str("no part"),
    }
}

/// Writes a text, with `\n` for a line break.
fn show_lines(out: &mut String, text: &str) -> Result<(), AllocError> {
    for letter in text.chars() {
        match letter {
            '\n' => out.push_str("\\n")?,
            _ => out.push(letter)?,
        }
    }
    Ok(())
}

/// The program of a text; where it is refused, that is written.
fn program_of(alloc: Global, out: &mut String, text: &str) -> Result<Option<Program>, AllocError> {
    match read_program(alloc, text, Goal::Script, LEVELS) {
        Ok(program) => Ok(Some(program)),
        Err(refusal) => {
            show_refused(out, &refusal)?;
            Ok(None)
        }
    }
}

/// Writes what a name means at a byte: the place of its declaration, and its scope.
fn show_meaning(
    alloc: Global,
    out: &mut String,
    text: &str,
    name: &str,
    at: usize,
) -> Result<(), AllocError> {
    let Some(program) = program_of(alloc, out, text)? else {
        return Ok(());
    };
    let scopes = Scopes::new(alloc, &program)?;
    match scopes.meaning(name, BytePos(u32::try_from(at).unwrap_or(u32::MAX))) {
        Some(meaning) => write!(out, "{} in {}", meaning.place, meaning.scope),
        None => out.push_str("free"),
    }
}

/// Writes the text in which the first name of a text that is declared has another one, or why there is none.
fn show_renamed(
    alloc: Global,
    out: &mut String,
    text: &str,
    old: &str,
    new: &str,
) -> Result<(), AllocError> {
    let Some(program) = program_of(alloc, out, text)? else {
        return Ok(());
    };
    let scopes = Scopes::new(alloc, &program)?;
    let mut names = scopes.names().iter();
    let Some(place) = names.find_map(|name| name.declaration().filter(|_| name.text == old)) else {
        return out.push_str("undeclared");
    };
    match scopes.conflict(place, new) {
        None => show_edited(alloc, out, text, &scopes, place, new),
        Some(Conflict::Declared(other)) => write!(out, "declared {other}"),
        Some(Conflict::Captured { name, by }) => write!(out, "captured {name} by {by}"),
        Some(Conflict::Captures(name)) => write!(out, "captures {name}"),
    }
}

fn show_edited(
    alloc: Global,
    out: &mut String,
    text: &str,
    scopes: &Scopes<'_>,
    place: Span,
    new: &str,
) -> Result<(), AllocError> {
    let mut edits = Vec::new(alloc);
    for name in scopes.references(alloc, place)? {
        let (start, end) = (name.span.lo.0 as usize, name.span.hi.0 as usize);
        edits.push(Edit::new(start, end, name.renamed(alloc, new)?))?;
    }
    match edited(alloc, text, &edits) {
        Ok(text) => show_lines(out, text.as_str()),
        Err(_) => out.push_str("no edits"),
    }
}

/// Writes each part that is entered, with how many parts are around it, and its place.
fn show_walk(alloc: Global, out: &mut String, text: &str) -> Result<(), AllocError> {
    let Some(program) = program_of(alloc, out, text)? else {
        return Ok(());
    };
    let mut walk = Walk::new(alloc, &program)?;
    let mut count: usize = 0;
    // Each part is visited twice.
    for _ in 0..u64::MAX {
        let Some(visit) = walk.next()? else {
            break;
        };
        if visit.step == Step::Enter {
            begin_part(out, count, ", ")?;
            let kind = kind_of(visit.part);
            write!(out, "{} {kind} {}", walk.around().len(), visit.span)?;
            count = count.saturating_add(1);
        }
    }
    Ok(())
}

fn kind_of(part: Part) -> &'static str {
    match part {
        Part::Statement(_) => "statement",
        Part::Expr(_) => "expr",
        Part::Pat(_) => "pat",
        Part::Function(_) => "function",
        Part::Class(_) => "class",
        Part::Member { .. } => "member",
        Part::Block(_) => "block",
    }
}

/// Writes all functions, with how many parameters each has.
fn show_functions(alloc: Global, out: &mut String, text: &str) -> Result<(), AllocError> {
    let Some(program) = program_of(alloc, out, text)? else {
        return Ok(());
    };
    for (at, function) in functions_of(alloc, &program)?.iter().enumerate() {
        begin_part(out, at, ", ")?;
        let (kind, count) = (function.kind, function.params.len());
        write!(out, "{kind:?} {} {count}", function.span)?;
        if function.is_async {
            out.push_str(" async")?;
        }
        if function.is_generator {
            out.push_str(" generator")?;
        }
        match function.body {
            Body::Block(place) => write!(out, " block {place}")?,
            Body::Expr(_) => out.push_str(" expr")?,
        }
    }
    Ok(())
}

/// Writes what a literal means, as far as it means something: as a number, as an integer, as a big integer, as a string,
/// and as a text of a template.
fn show_values(alloc: Global, out: &mut String, raw: &str) -> Result<(), AllocError> {
    if let Some(value) = number(alloc, raw)? {
        write!(out, "number {} ", number_text(alloc, value)?)?;
    }
    if let Some(value) = integer(raw) {
        write!(out, "integer {value} ")?;
    }
    if let Some(digits) = big_int_text(alloc, raw)? {
        write!(out, "big {digits} ")?;
    }
    if let Some(units) = string_units(alloc, raw)? {
        write!(out, "{} units ", units.len())?;
    }
    if let Some(value) = string_text(alloc, raw)? {
        write!(out, "string {value:?} ")?;
    }
    match template_text(alloc, raw)? {
        Some(value) => write!(out, "template {value:?}"),
        None => out.push_str("no template"),
    }
}
