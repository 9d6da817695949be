// The program.
ghost use Rattle.std.specs.Prelude.{◌≡◌, ◌≢◌, ◌≤◌, map, IfSome};
ghost use Rattle.show.specs.Answers.{symbol_of};
ghost use Rattle.show.specs.Calls.{Asks, asked_by, Runs};

use crate::answer::answer_to;
use crate::arguments::asked_by;
use crate::streams::{Input, Output};
use std::alloc::Global;
use std::io::Write;

const BAD_CALL: u8 = 3;

const USAGE: &str = "usage: show_expr expr|pat script|module|strict|generator|async [pedantic]";

const UNREADABLE: &str = "cannot read standard input";

/// Reads the input as the arguments say, and writes on `output` the tree, or `refused: ` and the
/// fault; then `unread` where tokens are left after the tree; then each recorded fault on a line
/// of its own.
///
/// Answers the program's status: 0 where nothing was recorded, 1 where something was, 2 for a
/// refusal, and 3 for bad arguments (the usage is written on `complaints`, and nothing is read),
/// for input that can't be read (also when out of memory), and for a write that fails, and only
/// then. The text of the tree is built before anything is written.
pub fn run<R: Input, W: Output, C: Write>(
    alloc: Global,
    arguments: &[&str],
    levels: usize,
    input: &mut R,
    output: &mut W,
    complaints: &mut C,
) -> u8
    ensures status { IfSome (asked_by (map (λ a. a.now) arguments.now))
        (λ a. Runs (symbol_of a.what) a.context a.syntax (R.given input.old) (R.fails input.old) (W.fails output.old)
        result) }
    ensures bad_call { ¬ Asks (map (λ a. a.now) arguments.now) → result ≡ 3 }
    ensures unread { ¬ Asks (map (λ a. a.now) arguments.now) → input.new ≡ input.old }
    ensures unwritten { ¬ Asks (map (λ a. a.now) arguments.now) → output.new ≡ output.old }
{
    let Some(asked) = asked_by(arguments) else {
        let _ = writeln!(complaints, "{USAGE}");
        return BAD_CALL;
    };
    let Ok(text) = input.read_all(alloc) else {
        let _ = writeln!(complaints, "{UNREADABLE}");
        return BAD_CALL;
    };
    let answer = answer_to(alloc, text, asked, levels);
    match output.write_answer(&answer) {
        Ok(()) => answer.status(),
        Err(_) => BAD_CALL,
    }
}
