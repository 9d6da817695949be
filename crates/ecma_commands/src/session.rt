// A run over files.
use crate::colour::{Colours, PLAIN, colours_for};
use crate::command::{Command, Options};
use crate::estree::write_tree;
use crate::faults::{Faults, Job, faults_in};
use crate::files::{files_below, is_folder, read_file, read_stream, replace};
use crate::findings::{Finding, Place, early_fault_of, fault_of, put_json, put_more, put_words};
use crate::format::{formatted, is_settled};
use crate::goals::{NoProgram, goal_of, read_program};
use crate::hints::hint_at;
use crate::lint::add_findings;
use crate::listing::{put_names, put_template, put_tokens};
use crate::output::{Output, report_failure};
use crate::parts::put_part;
use crate::source::{text_of, without_mark};
use crate::{DONE, FAILED, FOUND};
use early_errors::early_errors;
use reporting::Refusal;
use show::levels::levels;
use statement_outline::outline_of;
use statement_trees::tree::{Goal, Program};
use std::alloc::AllocError;
use std::io;
use std::io::IsTerminal;

/// So many files are read without a word of how far the run is.
const SILENT: usize = 200;

/// What lasts from one file to the next.
#[derive(Drop)]
struct Session {
    options: Options,
    /// How deeply expressions may be nested.
    levels: usize,
    output: Output,
    /// The highest status so far.
    status: u8,
    /// Whether each file's part of the output begins with its name.
    has_names: bool,
    /// Whether standard error shows how far the run is.
    is_shown: bool,
    /// The colours of findings.
    colours: Colours,
}

/// Does what is asked for with the files, or with standard input where there are none. Answers the status. What fails
/// is of no file: out of memory.
pub fn run_all(rt: &HostRuntime, options: Options, paths: &[String]) -> io::Result<u8> {
    let mut session = Session {
        options,
        levels: levels(rt),
        output: Output::new(rt.alloc()),
        status: DONE,
        has_names: false,
        is_shown: false,
        colours: if options.json {
            PLAIN
        } else {
            colours_for(rt, options.command.finds())
        },
    };
    let files = session.files_of(rt, paths)?;
    session.has_names = files.len() > 1 && options.command.lists();
    session.is_shown = files.len() > SILENT && rt.stderr().is_terminal();
    for (number, file) in files.iter().enumerate() {
        session.show(rt, number, files.len());
        session.do_file(rt, file.as_str())?;
        if !session.output.pass(rt) {
            break;
        }
    }
    session.clear(rt);
    let Session { output, status, .. } = session;
    Ok(status.max(output.finish(rt)))
}

impl Session {
    /// The files that the paths name; `-` where there is no path.
    fn files_of(&mut self, rt: &HostRuntime, paths: &[String]) -> io::Result<Vec<String>> {
        let alloc = rt.alloc();
        let mut files = Vec::new(alloc);
        for path in paths {
            if is_folder(rt, path.as_str()) {
                let (found, failed) = files_below(rt, path.as_str())?;
                for (folder, failure) in &failed {
                    self.status = self
                        .status
                        .max(report_failure(rt, folder.as_str(), failure));
                }
                for file in found {
                    files.push(file)?;
                }
            } else {
                files.push(String::from_str(alloc, path.as_str())?)?;
            }
        }
        Ok(files)
    }

    /// Shows on a terminal how far the run is.
    fn show(&self, rt: &HostRuntime, number: usize, count: usize) {
        if self.is_shown && number % 16 == 0 {
            let _ = eprint!(rt; "\r{number} of {count} files");
        }
    }

    /// Clears that line, and writes what was kept of standard output, before anything is said on standard error.
    fn clear(&mut self, rt: &HostRuntime) {
        if self.is_shown {
            let _ = eprint!(rt; "\r\u{1b}[K");
        }
        self.output.flush(rt);
    }

    /// Reads a file, or standard input, and does what is asked for.
    fn do_file(&mut self, rt: &HostRuntime, path: &str) -> io::Result<()> {
        let (name, bytes) = if path == "-" {
            ("<stdin>", read_stream(rt.alloc(), rt.reader()))
        } else {
            (path, read_file(rt, path))
        };
        match bytes {
            Ok(bytes) => self.do_bytes(rt, name, &bytes),
            Err(failure) => {
                self.clear(rt);
                self.status = self.status.max(report_failure(rt, name, &failure));
                Ok(())
            }
        }
    }

    /// Does it with the bytes of a file.
    fn do_bytes(&mut self, rt: &HostRuntime, name: &str, bytes: &[u8]) -> io::Result<()> {
        let text = match text_of(bytes) {
            Ok(text) => text,
            Err(none) => {
                let mut finding = Finding::new(rt.alloc(), none.span, "", none.message)?;
                finding.is_shown = none.is_shown;
                return Ok(self.tell(rt, &Place::new(rt.alloc(), name, bytes)?, &finding)?);
            }
        };
        if self.has_names {
            self.output.put(name);
            self.output.put(":\n");
        }
        match self.do_text(rt, name, text) {
            Ok(()) => Ok(()),
            Err(refusal) => Ok(self.refuse(rt, name, text, &refusal, "")?),
        }
    }

    /// How a text is read.
    fn job(&self, name: &str) -> Job {
        Job {
            goal: self.options.goal.or(goal_of(name)),
            levels: self.levels,
        }
    }

    /// Does it with a text.
    fn do_text(&mut self, rt: &HostRuntime, name: &str, text: &str) -> Result<(), Refusal> {
        let job = self.job(name);
        match self.options.command {
            // An editor is served, and no file read.
            Command::Lsp => Ok(()),
            Command::Check | Command::Lint => self.do_check(rt, name, text, job),
            Command::Format => self.do_format(rt, name, text, job),
            Command::Template => self.do_template(rt, name, text, job),
            Command::Expr | Command::Pat => self.do_part(rt, name, text),
            Command::Tokens => {
                let place = Place::new(rt.alloc(), name, text.as_bytes())?;
                put_tokens(rt, &place, text, job.goal, &mut self.output)
            }
            Command::Estree | Command::Outline | Command::Scopes => {
                match read_program(rt.alloc(), text, job.goal, job.levels) {
                    Ok(program) => Ok(self.do_program(rt, name, text, &program)?),
                    Err(none) => Ok(self.refuse_program(rt, name, text, &none)?),
                }
            }
        }
    }

    /// Does it with a program.
    fn do_program(
        &mut self,
        rt: &HostRuntime,
        name: &str,
        text: &str,
        program: &Program,
    ) -> Result<(), AllocError> {
        match self.options.command {
            Command::Outline => {
                self.output.put(outline_of(rt.alloc(), program)?.as_str());
                Ok(())
            }
            Command::Scopes => {
                let place = Place::new(rt.alloc(), name, text.as_bytes())?;
                put_names(rt, &place, program, &mut self.output)
            }
            _ => self.do_estree(rt, name, text, program),
        }
    }

    /// Tells all that is wrong with a text, or what `lint` finds, too, and how many more there are than are told.
    fn do_check<'x>(
        &mut self,
        rt: &HostRuntime,
        name: &'x str,
        text: &'x str,
        job: Job,
    ) -> Result<(), Refusal> {
        let place = Place::new(rt.alloc(), name, text.as_bytes())?;
        let Faults { program, mut found } = faults_in(rt.alloc(), &place, text, job)?;
        if let (Command::Lint, Some(program)) = (self.options.command, &program) {
            add_findings(rt.alloc(), program, text, &mut found)?;
        }
        Ok(self.tell_all(rt, &place, &found)?)
    }

    /// Tells as many findings of a text as are wanted, and how many more there are.
    fn tell_all(
        &mut self,
        rt: &HostRuntime,
        place: &Place<'_>,
        found: &[Finding],
    ) -> Result<(), AllocError> {
        for finding in found.iter().take(self.options.max) {
            self.found(rt, place, finding)?;
        }
        let more = found.len().saturating_sub(self.options.max);
        if more > 0 {
            put_more(&mut self.output.text, place.name, more, self.options.json)?;
        }
        Ok(())
    }

    /// Writes the tree of a program, or tells its first early error.
    fn do_estree(
        &mut self,
        rt: &HostRuntime,
        name: &str,
        text: &str,
        program: &Program,
    ) -> Result<(), AllocError> {
        match early_errors(rt.alloc(), program, text)?.first() {
            Some(error) => {
                let place = Place::new(rt.alloc(), name, text.as_bytes())?;
                let finding = early_fault_of(rt.alloc(), text, error)?;
                self.tell(rt, &place, &finding)
            }
            None => write_tree(rt, self.options, text, program, &mut self.output),
        }
    }

    /// Writes the tree of an expression or a pattern, and tells the faults that were recorded beside it.
    fn do_part(&mut self, rt: &HostRuntime, name: &str, text: &str) -> Result<(), Refusal> {
        let faults = put_part(
            rt.alloc(),
            text,
            self.options,
            self.levels,
            &mut self.output,
        )?;
        for fault in faults {
            if self
                .refuse(rt, name, text, &Refusal::Fault(fault), "")
                .is_err()
            {
                return Err(Refusal::from(AllocError));
            }
        }
        Ok(())
    }

    /// Formats a text: writes it, lists its name, or writes the file anew.
    fn do_format(
        &mut self,
        rt: &HostRuntime,
        name: &str,
        text: &str,
        job: Job,
    ) -> Result<(), Refusal> {
        let laid_out = match formatted(rt.alloc(), text, self.options, job) {
            Ok(laid_out) => laid_out,
            Err(none) => return Ok(self.refuse_program(rt, name, text, &none)?),
        };
        let is_same = laid_out.as_str() == text;
        if self.options.check {
            if !is_same {
                self.output.put(name);
                self.output.put("\n");
                self.status = self.status.max(FOUND);
            }
        } else if !self.options.write {
            self.output.put(laid_out.as_str());
        } else if !is_same {
            self.write_anew(rt, name, text, laid_out.as_str(), job);
        }
        Ok(())
    }

    /// Writes a file anew, once its layout was read again.
    fn write_anew(&mut self, rt: &HostRuntime, name: &str, text: &str, laid_out: &str, job: Job) {
        let written = if is_settled(rt.alloc(), laid_out, self.options, job) {
            replace(rt, name, text, laid_out)
        } else {
            Err(io::Error::other("its layout doesn't stay as it is, so it isn't written"))
        };
        match written {
            Ok(()) => {
                self.output.put(name);
                self.output.put("\n");
            }
            Err(failure) => {
                self.clear(rt);
                self.status = self.status.max(report_failure(rt, name, &failure));
            }
        }
    }

    /// Takes a template apart.
    fn do_template(
        &mut self,
        rt: &HostRuntime,
        name: &str,
        text: &str,
        job: Job,
    ) -> Result<(), Refusal> {
        let faults = put_template(rt.alloc(), text, job.goal, job.levels, &mut self.output)?;
        for fault in &faults {
            if self.refuse(rt, name, text, fault, "").is_err() {
                return Err(Refusal::from(AllocError));
            }
        }
        Ok(())
    }

    /// Tells why a text is no program.
    fn refuse_program(
        &mut self,
        rt: &HostRuntime,
        name: &str,
        text: &str,
        none: &NoProgram,
    ) -> Result<(), AllocError> {
        let hint = hint_at(text, none.refusal.span(), none.goal);
        self.refuse(rt, name, text, &none.refusal, hint)
    }

    /// Tells what is wrong with a text.
    fn refuse(
        &mut self,
        rt: &HostRuntime,
        name: &str,
        text: &str,
        refusal: &Refusal,
        hint: &'static str,
    ) -> Result<(), AllocError> {
        if refusal.is_failure() {
            self.clear(rt);
            let failure = io::Error::from(io::ErrorKind::OutOfMemory);
            self.status = self.status.max(report_failure(rt, name, &failure));
            return Ok(());
        }
        let place = Place::new(rt.alloc(), name, text.as_bytes())?;
        let finding = fault_of(rt.alloc(), &place, refusal, self.levels, hint)?;
        self.tell(rt, &place, &finding)
    }

    /// Tells a fault: on standard output, if faults are what the command writes, and else on standard error.
    fn tell(
        &mut self,
        rt: &HostRuntime,
        place: &Place<'_>,
        finding: &Finding,
    ) -> Result<(), AllocError> {
        if self.options.command.finds() {
            return self.found(rt, place, finding);
        }
        self.status = self.status.max(FOUND);
        let mut message = String::new(rt.alloc());
        put(&mut message, self.options, self.colours, place, finding)?;
        self.clear(rt);
        let _ = eprint!(rt; "{message}");
        Ok(())
    }

    /// Writes a finding to standard output.
    fn found(
        &mut self,
        rt: &HostRuntime,
        place: &Place<'_>,
        finding: &Finding,
    ) -> Result<(), AllocError> {
        self.status = self.status.max(FOUND);
        let (options, colours) = (self.options, self.colours);
        put(&mut self.output.text, options, colours, place, finding)?;
        if self.is_shown {
            self.clear(rt);
        }
        self.output.pass(rt);
        Ok(())
    }
}

/// Writes a finding, in words or as JSON. The only error is out of memory.
fn put(
    out: &mut String,
    options: Options,
    colours: Colours,
    place: &Place<'_>,
    finding: &Finding,
) -> Result<(), AllocError> {
    if options.json {
        put_json(out, place, finding)
    } else {
        put_words(out, place, finding, colours)
    }
}
