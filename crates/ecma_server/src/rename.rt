// Another name in the place of one, wherever it is meant.
use crate::documents::Document;
use crate::json;
use crate::lines::LineIndex;
use crate::names::{name_at, program_of};
use crate::places::Position;
use crate::settings::Settings;
use ecma_commands::faults::{Job, faults_in};
use ecma_commands::findings::Place;
use ecma_commands::goals::{NoProgram, read_program};
use program_names::names::{Name, names};
use serde_json::{Value, json};
use statement_trees::tree::{Program, StatementKind};
use std::alloc::{AllocError, Global};
use swc_ecma_parser::context::span::Span;
use text_edits::edit::{Edit, edited};

/// What comes of a wish to rename.
#[derive(Drop)]
pub(crate) enum Renamed {
    /// The edits.
    Edits(Vec<Value>),
    /// Why it can't be.
    Refused(String),
}

/// The range and the text of the name at a position; null where there is none that can be renamed.
pub(crate) fn prepare(
    alloc: Global,
    document: &Document,
    position: Position,
    settings: Settings,
) -> Result<Value, NoProgram> {
    let program = program_of(alloc, document, settings)?;
    let names = names(alloc, &program)?;
    let lines = document.lines(alloc, settings.units)?;
    match name_at(&names, document.place(position, settings.units)).and_then(|number| names.get(
        number,
    )) {
        Some(name) if name.declaration().is_some() => {
            let range = json::range_json(alloc, lines.range(name.span))?;
            let text = name.text;
            Ok(json!(in alloc; {"range": range, "placeholder": text})?)
        }
        _ => Ok(Value::Null),
    }
}

/// Renames what is named at a position. It is refused where the new name is none, would be captured or capture, or would
/// make an early error: that is seen by reading the new text.
pub(crate) fn rename(
    alloc: Global,
    document: &Document,
    position: Position,
    new: &str,
    settings: Settings,
) -> Result<Renamed, NoProgram> {
    let program = program_of(alloc, document, settings)?;
    let names = names(alloc, &program)?;
    let lines = document.lines(alloc, settings.units)?;
    let Some(number) = name_at(&names, document.place(position, settings.units)) else {
        return refused(alloc, "there is no name here");
    };
    let Some(name) = names.get(number) else {
        return refused(alloc, "there is no name here");
    };
    if name.declaration().is_none() {
        return refused(alloc, "the name is bound nowhere in this file");
    }
    if is_exported(&program, name) {
        return refused(alloc, "the name is exported by its declaration");
    }
    let changed = Changed::new(alloc, document.text.as_str(), &names, name, new)?;
    if let Some(why) = changed.fault(alloc, document, &program, &names, &lines, settings)? {
        return Ok(Renamed::Refused(why));
    }
    let mut edits = Vec::new(alloc);
    for edit in &changed.edits {
        let range = lines.between(edit.start, edit.end);
        json::add(&mut edits, json::edit(alloc, range, edit.text.as_str())?)?;
    }
    Ok(Renamed::Edits(edits))
}

/// Whether the declaration of a name is exported, so that others import it by this name.
fn is_exported(program: &Program, name: &Name<'_>) -> bool {
    let Some(place) = name.declaration() else {
        return false;
    };
    for statement in &program.statements {
        if let StatementKind::ExportDeclaration(inner) = &statement.kind
            && let Some(inner) = program.statement(*inner)
            && declares(program, &inner.kind, place)
        {
            return true;
        }
    }
    false
}

/// Whether a statement declares the name that is there.
fn declares(program: &Program, kind: &StatementKind, place: Span) -> bool {
    match kind {
        StatementKind::Variables(variables) => {
            variables.declarators.iter().any(|declarator| {
                match program.nodes.span_of(declarator.id) {
                    Some(span) => span.lo.0 <= place.lo.0 && place.hi.0 <= span.hi.0,
                    None => false,
                }
            })
        }
        StatementKind::Function(body) => match program.function(*body) {
            Some(function) => matches!(&function.name, Some(name) if name.span == place),
            None => false,
        },
        StatementKind::Class(body) => match program.class(*body) {
            Some(class) => matches!(&class.name, Some(name) if name.span == place),
            None => false,
        },
        _ => false,
    }
}

fn refused(alloc: Global, why: &str) -> Result<Renamed, NoProgram> {
    Ok(Renamed::Refused(String::from_str(alloc, why)?))
}

/// The text in which names were replaced.
#[derive(Drop)]
struct Changed {
    text: String,
    edits: Vec<Edit>,
}

impl Changed {
    /// The only error is out of memory, as names lie apart.
    fn new(
        alloc: Global,
        text: &str,
        names: &[Name<'_>],
        name: &Name<'_>,
        new: &str,
    ) -> Result<Changed, AllocError> {
        let mut edits = Vec::new(alloc);
        let mut past = 0;
        for other in names {
            let (start, end) = (other.span.lo.0 as usize, other.span.hi.0 as usize);
            if name.is_same(other) && past <= start {
                let text = other.renamed(alloc, new)?;
                edits.push(Edit { start, end, text })?;
                past = end;
            }
        }
        match edited(alloc, text, &edits) {
            Ok(text) => Ok(Changed { text, edits }),
            Err(_) => Err(AllocError),
        }
    }

    /// Why the change can't be made, if it can't: the new text has to have the same names, each bound as before, and no
    /// more faults.
    fn fault(
        &self,
        alloc: Global,
        document: &Document,
        program: &Program,
        names: &[Name<'_>],
        lines: &LineIndex<'_>,
        settings: Settings,
    ) -> Result<Option<String>, NoProgram> {
        let text = self.text.as_str();
        let Ok(after) = read_program(alloc, text, Some(program.goal), settings.levels) else {
            return Ok(Some(String::from_str(alloc, "this can't be a name here")?));
        };
        let renamed = program_names::names::names(alloc, &after)?;
        if let Some(place) = other_binding(alloc, names, &renamed)? {
            let at = lines.position(place.lo.0 as usize);
            let mut why = String::from_str(alloc, "another name is in the way at ")?;
            let (line, column) = (at.line.saturating_add(1), at.character.saturating_add(1));
            write!(why, "{line}:{column}")?;
            return Ok(Some(why));
        }
        let job = Job {
            goal: Some(program.goal),
            levels: settings.levels,
        };
        let before = count_of_faults(alloc, document.text.as_str(), job)?;
        if count_of_faults(alloc, text, job)? > before {
            return Ok(Some(String::from_str(alloc, "this makes an early error")?));
        }
        Ok(None)
    }
}

/// How many faults a text has.
fn count_of_faults(alloc: Global, text: &str, job: Job) -> Result<usize, NoProgram> {
    let place = Place::new(alloc, "", text.as_bytes())?;
    Ok(faults_in(alloc, &place, text, job)?.found.len())
}

/// The first name that is bound elsewhere after a change, if there is one: names and their declarations are counted in
/// the order of the text.
fn other_binding(
    alloc: Global,
    before: &[Name<'_>],
    after: &[Name<'_>],
) -> Result<Option<Span>, AllocError> {
    if before.len() != after.len() {
        return Ok(before.first().map(|name| name.span));
    }
    for (was, is) in before.iter().zip(after) {
        let (old, new) = (was.declaration(), is.declaration());
        if number_of(before, old) != number_of(after, new) || was.how != is.how {
            return Ok(Some(was.span));
        }
    }
    Ok(None)
}

/// The number of the name that is declared there.
fn number_of(names: &[Name<'_>], place: Option<Span>) -> Option<usize> {
    let at = place?.lo.0;
    Some(names.partition_point(|name| name.span.lo.0 < at))
}
