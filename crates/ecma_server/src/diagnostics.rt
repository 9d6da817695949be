// The faults of a document, as the protocol has them.
use crate::documents::Document;
use crate::json;
use crate::lines::LineIndex;
use crate::settings::Settings;
use ecma_commands::faults::{Faults, Job, faults_in};
use ecma_commands::findings::{Finding, Place, fault_of};
use ecma_commands::lint::add_findings;
use serde_json::{Value, json};
use std::alloc::{AllocError, Global};

/// So many faults of a document are told.
const MOST: usize = 1000;

/// The faults of a document, in the order of its text.
pub(crate) fn diagnostics(
    alloc: Global,
    document: &Document,
    settings: Settings,
) -> Result<Vec<Value>, AllocError> {
    let text = document.text.as_str();
    let place = Place::new(alloc, "", text.as_bytes())?;
    let job = Job {
        goal: document.goal,
        levels: settings.levels,
    };
    let found = match faults_in(alloc, &place, text, job) {
        Ok(Faults { program, mut found }) => {
            if settings.lint
                && let Some(program) = &program
            {
                add_findings(alloc, program, text, &mut found)?;
            }
            found
        }
        Err(refusal) => vec![in alloc; fault_of(alloc, &place, &refusal, settings.levels, "")?]?,
    };
    let lines = document.lines(alloc, settings.units)?;
    let mut told = Vec::new(alloc);
    for finding in found.iter().take(MOST) {
        told.push(diagnostic(alloc, document, finding, &lines)?)?;
    }
    Ok(told)
}

/// A fault, or what a rule finds, as a warning.
fn diagnostic(
    alloc: Global,
    document: &Document,
    finding: &Finding,
    lines: &LineIndex<'_>,
) -> Result<Value, AllocError> {
    let range = json::range_json(alloc, lines.range(finding.span))?;
    let severity: u64 = if finding.rule.is_empty() { 1 } else { 2 };
    let message = finding.message.as_str();
    let mut told = json!(in alloc; {
        "range": range,
        "severity": severity,
        "source": "ecma",
        "message": message
    })?;
    if !finding.rule.is_empty() {
        put(
            alloc,
            &mut told,
            "code",
            Value::try_from_str(alloc, finding.rule)?,
        )?;
    }
    if let Some((said, span)) = finding.first {
        let range = json::range_json(alloc, lines.range(span))?;
        let uri = document.uri.as_str();
        let said = said.trim_end_matches(" at");
        let related =
            json!(in alloc; [{"location": {"uri": uri, "range": range}, "message": said}])?;
        put(alloc, &mut told, "relatedInformation", related)?;
    }
    Ok(told)
}

/// Adds a member to an object.
fn put(alloc: Global, object: &mut Value, key: &str, value: Value) -> Result<(), AllocError> {
    if let Value::Object(members) = object {
        let _ = members.insert(String::from_str(alloc, key)?, value)?;
    }
    Ok(())
}
