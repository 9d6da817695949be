// Where a text comes from, and where its answer goes.
ghost use Rattle.std.specs.Prelude.{ℕ, List, Option};

use crate::answer::Answer;
use std::alloc::Global;
use std::io;
use std::io::{Read, Write};

/// The error of an input that can't be read, and of an output that can't be written.
#[derive(Drop, Debug)]
pub struct Failed;

/// An input. Nothing is known of it but what it states itself: so what is proved for any input also holds for one that
/// never fails.
pub trait Input {
    ghost use Rattle.std.specs.Prelude.{◌≡◌, ℕ, List, Option, IfOk, IfSome, OnErr};

    /// The bytes that it gives, where they are known.
    ghost given: { Self → Option (List ℕ) };

    /// It can't be read.
    ghost fails: { Self → Type 0 };

    /// Its bytes, to the end.
    fn read_all(&mut self, alloc: Global) -> Result<Vec<u8>, Failed>
        ensures bytes { IfOk result (λ text. IfSome (given self.old) (λ bytes. text.items ≡ bytes)) }
        ensures fails { OnErr result (fails self.old) };
}

impl<R: Read> Input for R {
    ghost given = { λ r. R.remaining r };

    ghost fails = { λ r. Unit {0} };

    /// Its bytes, to the end; refused when out of memory too.
    fn read_all(&mut self, alloc: Global) -> Result<Vec<u8>, Failed> {
        let mut text = Vec::new(alloc);
        match self.read_to_end(&mut text) {
            Ok(_) => Ok(text),
            Err(_) => Err(Failed),
        }
    }
}

/// An output. As with `Input`, nothing is known of it but what it states itself.
pub trait Output {
    ghost use Rattle.std.specs.Prelude.{OnErr};

    /// It can't be written.
    ghost fails: { Self → Type 0 };

    /// Writes the answer: the tree, or `refused: ` and the fault; then `unread` where tokens are left after the tree;
    /// then each recorded fault on a line of its own.
    fn write_answer(&mut self, answer: &Answer) -> Result<(), Failed>
        ensures fails { OnErr result (fails self.old) };
}

impl<W: Write> Output for W {
    ghost fails = { λ w. Unit {0} };

    fn write_answer(&mut self, answer: &Answer) -> Result<(), Failed> {
        match write_lines(self, answer) {
            Ok(()) => Ok(()),
            Err(_) => Err(Failed),
        }
    }
}

/// Writes the lines of the answer.
fn write_lines<W: Write>(output: &mut W, answer: &Answer) -> io::Result<()> {
    match &answer.shown {
        Ok(shown) => {
            let tree = shown.tree.as_str();
            writeln!(output, "{tree}")?;
            if shown.unread {
                writeln!(output, "unread")?;
            }
        }
        Err(refusal) => writeln!(output, "refused: {}", refusal.brief())?,
    }
    for error in &answer.recorded {
        writeln!(output, "{}", error.brief())?;
    }
    output.flush()
}
