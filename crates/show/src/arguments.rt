// What the program is asked to do.
ghost use Rattle.std.specs.Prelude.{◌≡◌, true, false, map, IfSome};
ghost use Rattle.show.specs.Calls as calls;
ghost use Rattle.swc_ecma_parser.specs.WholeList.{IsHeeded};

use crate::answer::{Asked, What};
use swc_context::context::{Context, Syntax};

/// What the arguments ask for, or `None` where they are bad. The good ones are `expr` or `pat`, and a mode, after
/// which `pedantic` may come.
pub(crate) fn asked_by(arguments: &[&str]) -> Option<Asked>
    ensures value { result ≡ calls.asked_by (map (λ a. a.now) arguments.now) }
    ensures heeded { IfSome result (λ a. IsHeeded a.context a.syntax) }
{
    match arguments {
        [what, mode] => asked_by_words(what, mode, Syntax::default()),
        [what, mode, flag] => asked_by_words(what, mode, syntax_of_flag(flag)?),
        _ => None,
    }
}

/// The syntax of a flag.
fn syntax_of_flag(flag: &str) -> Option<Syntax>
    ensures value { result ≡ calls.syntax_of_flag flag.now }
    ensures heeded { IfSome result (λ x. x.early_errors ≡ true) }
{
    match flag {
        "pedantic" => Some(Syntax {
            pedantic: true,
            ..Syntax::default()
        }),
        _ => None,
    }
}

/// What two words ask for, by a syntax.
fn asked_by_words(what: &str, mode: &str, syntax: Syntax) -> Option<Asked>
    requires heeded { syntax.early_errors ≡ true }
    ensures value { result ≡ calls.asked_by_words what.now mode.now syntax }
    ensures heeded { IfSome result (λ a. IsHeeded a.context a.syntax) }
{
    match what {
        "expr" => asked_in(What::Expr, mode, syntax),
        "pat" => asked_in(What::Pat, mode, syntax),
        _ => None,
    }
}

/// What is asked for in a mode, by a syntax.
fn asked_in(what: What, mode: &str, syntax: Syntax) -> Option<Asked>
    requires heeded { syntax.early_errors ≡ true }
    ensures value { result ≡ calls.asked_in what mode.now syntax }
    ensures heeded { IfSome result (λ a. IsHeeded a.context a.syntax) }
{
    match context_of_mode(mode) {
        Some(context) => Some(Asked {
            what,
            context,
            syntax,
        }),
        None => None,
    }
}

/// The context of a mode.
fn context_of_mode(mode: &str) -> Option<Context>
    ensures value { result ≡ calls.context_of_mode mode.now }
    ensures heeded { IfSome result (λ c. c.ignore_error ≡ false) }
{
    match mode {
        "script" => Some(Context::script()),
        "module" => Some(Context::module()),
        "strict" => Some(Context::strict()),
        "generator" => Some(Context::generator()),
        "async" => Some(Context::asynchronous()),
        _ => None,
    }
}
