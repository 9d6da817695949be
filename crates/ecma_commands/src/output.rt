// What is written: to standard output, in blocks, and to standard error.
use crate::{DONE, FAILED};
use std::alloc::Global;
use std::io;
use std::io::{ErrorKind, Write};

/// A block has about so many bytes.
const BLOCK: usize = 1 << 16;

/// Standard output. What is written is kept, up to a block.
///
/// The first failure is remembered: so nothing that is written can be refused.
#[derive(Drop)]
pub struct Output {
    pub text: String,
    failure: Option<io::Error>,
}

impl Output {
    pub fn new(alloc: Global) -> Output {
        Output {
            text: String::new(alloc),
            failure: None,
        }
    }

    /// Writes a text.
    pub fn put(&mut self, text: &str) {
        if let Err(failure) = self.text.push_str(text) {
            self.fail(io::Error::from(failure));
        }
    }

    /// Remembers a failure.
    pub fn fail(&mut self, failure: io::Error) {
        if self.failure.is_none() {
            self.failure = Some(failure);
        }
    }

    /// Writes a block, if that much was kept. Says whether more can be written.
    pub fn pass(&mut self, rt: &HostRuntime) -> bool {
        if self.text.len() >= BLOCK {
            self.flush(rt);
        }
        self.failure.is_none()
    }

    /// Writes all that was kept.
    pub fn flush(&mut self, rt: &HostRuntime) {
        if self.failure.is_none() {
            if let Err(failure) = io::writer(rt).write_all(self.text.as_bytes()) {
                self.fail(failure);
            }
        }
        self.text.clear();
    }

    /// Writes the rest, and answers the status: a failure is told. A reader that has gone, as `head`, is none.
    pub fn finish(mut self, rt: &HostRuntime) -> u8 {
        self.flush(rt);
        match self.failure {
            None => DONE,
            Some(failure) => match failure.kind() {
                ErrorKind::BrokenPipe => DONE,
                _ => report_failure(rt, "standard output", &failure),
            },
        }
    }
}

/// Writes a text and a line break to standard output. Answers the status.
pub fn say(rt: &HostRuntime, text: &str) -> io::Result<u8> {
    let mut output = Output::new(rt.alloc());
    output.put(text);
    output.put("\n");
    Ok(output.finish(rt))
}

/// Says on standard error what failed, and where. Answers the status.
pub fn report_failure(rt: &HostRuntime, name: &str, failure: &io::Error) -> u8 {
    let _ = match failure.kind() {
        ErrorKind::OutOfMemory => eprintln!(rt; "{name}: out of memory"),
        _ => eprintln!(rt; "{name}: {failure}"),
    };
    FAILED
}
