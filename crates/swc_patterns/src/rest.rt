// Rests in lists of patterns (ECMA-262, 14.3.3 and 15.1), after which nothing may be.
ghost use Rattle.std.specs.Option.{is_some};
ghost use Rattle.std.specs.Prelude.{◌≡◌, ◌≢◌, ◌≤◌, true, not, OnOk};
ghost use Rattle.swc_context.specs.declared.error.SyntaxError.TheVariants.{OutOfMemory};
ghost use Rattle.swc_input.specs.{Buffer.current, Buffer.to_come, Kinds.at_token};
ghost use Rattle.swc_grammar.specs.Clean.{no_error};
ghost use Rattle.swc_steps.specs.Lists.{is_sign_token};
ghost use Rattle.swc_input.specs.Calls.{Checked};
ghost use Rattle.swc_steps.specs.Parsing.{seen, ContinuesAlone};
ghost use Rattle.swc_patterns.specs.Rests.{passed, comma_behind, has_comma, has_rest, stage_of, separated_item};

use swc_context::error::{PResult, SyntaxError};
use swc_context::span::Span;
use swc_input::buffer::Buffer;
use swc_input::tokens::Tokens;
use swc_steps::tokens::{Sign, separate};

/// Whether a rest was read in a list of patterns, and what is after it.
#[derive(Clone, Copy)]
pub enum SeenRest {
    /// None was.
    No,
    /// The item read last is one, at `rest`, with the comma after it, where there is one.
    Last { rest: Span, comma: Option<Span> },
    /// One was, at the place, and other items after it.
    Earlier(Span),
}

impl SeenRest {
    /// The same after another item, which is no rest.
    pub fn passed(self) -> SeenRest
        ensures { result ≡ passed self }
    {
        match self {
            SeenRest::No => SeenRest::No,
            SeenRest::Last { rest, .. } | SeenRest::Earlier(rest) => SeenRest::Earlier(rest),
        }
    }
}

/// Records the comma between a rest and the sign that closes its list, at the comma. A current token that is no error
/// stays.
pub(crate) fn check_comma<I: Tokens>(input: &mut Buffer<I>, rest: SeenRest) -> PResult<()>
    ensures checks { Checked I.model (not (has_comma rest)) input.old result input.new }
    ensures kept { at_token no_error (seen input.old) ≡ true → current input.new ≡ current input.old }
    ensures falls { to_come I.model input.new ≤ to_come I.model input.old }
{
    match comma_behind(rest) {
        Some(comma) => input.emit_err(comma, SyntaxError::CommaAfterRestElement),
        None => Ok(()),
    }
}

/// The comma after a rest that was read last.
fn comma_behind(rest: SeenRest) -> Option<Span>
    ensures { result ≡ comma_behind rest }
{
    match rest {
        SeenRest::Last { comma, .. } => comma,
        _ => None,
    }
}

/// Records a rest that another item is after, by the kind, at the rest.
pub(crate) fn check_last<I: Tokens>(
    input: &mut Buffer<I>,
    rest: SeenRest,
    kind: SyntaxError,
) -> PResult<()>
    requires { kind ≢ OutOfMemory }
    ensures checks { Checked I.model (not (has_rest rest)) input.old result input.new }
    ensures falls { OnOk result (to_come I.model input.new ≤ to_come I.model input.old) }
{
    match rest {
        SeenRest::No => Ok(()),
        SeenRest::Last { rest, .. } | SeenRest::Earlier(rest) => {
            input.emit_err(rest.in_order(), kind)
        }
    }
}

/// Consumes what is after an item of a list that `close` closes, a comma or nothing; after the `dots` of a rest
/// it is one. Answers what was seen of rests then.
pub fn separate_item<I: Tokens>(
    input: &mut Buffer<I>,
    close: Sign,
    dots: Option<Span>,
    rest: SeenRest,
) -> PResult<SeenRest>
    ensures separates { ContinuesAlone I.model stage_of
        (separated_item (is_sign_token close) (is_some dots) (stage_of rest)) input.old result input.new }
    ensures falls { OnOk result (to_come I.model input.new ≤ to_come I.model input.old) }
{
    let end = input.last_pos();
    let comma = separate(input, close)?;
    match dots {
        Some(dots) => {
            let rest = Span {
                lo: dots.lo,
                hi: end,
            };
            Ok(SeenRest::Last { rest, comma })
        }
        None => Ok(rest.passed()),
    }
}
