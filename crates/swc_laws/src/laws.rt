//! Laws of the grammar, as contracts of calls that do nothing.
ghost use Rattle.swc_grammar.specs.Symbols.{Expr};
ghost use Rattle.swc_laws.specs.{Converse.Converse, Covering.Covering, Replay.Replay, Replay.ReplayWanted};

use swc_bodies::bodies::{BodyForms, ReplayBodies};

/// The cover law: in a script or a strict module, where the grammar derives patterns from what
/// is in parentheses before `=>`, from tokens as a reader spells them, and in a static block
/// they bind no `await`, it derives the same patterns, but for places, as parameters, from the same
/// tokens without the `(`.
pub fn cover<B: BodyForms>()
    ensures { Covering B.forms }
{}

/// The converse of the cover law: where the grammar derives parameters, and no name that they bind
/// is a word that some mode reserves, `await`, `yield`, `eval` or `arguments`, it derives the same
/// patterns, but for places, as what is in parentheses before `=>`, from the same tokens with a
/// `(` before them.
pub fn converse<B: BodyForms>()
    ensures { Converse B.forms }
{}

/// Replay: where the grammar derives an expression from a whole list of tokens in the order of the text, and reads each
/// regular expression that was found at a slash after that slash, it derives the same tree from the tokens that are
/// kept of the list, in the same context. That they are read so may be known of the reading (`joined`), or be seen of
/// the list (`wanted`): an operand is wanted where each such slash is.
pub fn replay<B: ReplayBodies>()
    ensures joined { Replay B.forms Expr }
    ensures wanted { ReplayWanted B.forms Expr }
{}
