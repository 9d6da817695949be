//! What was read so far, as far as it tells whether a slash that comes next divides (ECMA-262, 12 and 12.10).
ghost use Rattle.std.specs.Prelude.{◌≡◌, not};
ghost use Rattle.swc_lexer.specs.Places as places;

use crate::mark::{Mark, Name};
use swc_lexical::scan::Goal;

/// Which words are operators in a function.
#[derive(Clone, Copy)]
pub struct Kind {
    /// `await` is.
    pub awaits: bool,
    /// `yield` is.
    pub yields: bool,
}

/// What comes after the body of a function or a class.
#[derive(Clone, Copy)]
pub enum Then {
    /// It was a declaration, and a statement may begin.
    Statement,
    /// It was an operand.
    Operand,
    /// It was a method, or a block of a class.
    Member,
    /// It was the body of an arrow function, after which no operator comes.
    Arrow,
}

/// What is open.
#[derive(Clone, Copy)]
pub enum Open {
    /// `(`
    Paren,
    /// `(` after `async`: a call, or the parameters of an arrow function.
    AsyncParen,
    /// `(` after `if`, `while`, `with`, `switch` or `catch`.
    Head,
    /// `(` after `for`, or `for await`.
    For(bool),
    /// `(` of the parameters of a function whose body is of this kind.
    Params(Kind, Then),
    /// `[`
    Square,
    /// `[` of a name in a class or an object: of a method whose body is of this kind.
    Key(Kind),
    /// `{` of statements.
    Block,
    /// `{` of a function's body.
    Body(Then),
    /// `{` of an object or a pattern.
    Object,
    /// `{` of names after `import` and `export`.
    Names,
    /// `class`, up to its `{`.
    ClassHead(Then),
    /// `{` of a class.
    Class(Then),
    /// A template.
    Template,
    /// `${`
    Substitution,
    /// `?`, up to its `:`.
    Question,
    /// The expression after `=>`.
    Arrow,
    /// What `var`, `let` or `const` declares.
    Declaration,
}

/// One thing that is open.
#[derive(Clone, Copy)]
pub struct Frame {
    /// What it is.
    pub what: Open,
    /// The kind outside.
    pub outer: Kind,
}

/// What the token before was.
#[derive(Clone, Copy)]
pub enum Before {
    /// A statement begins.
    Statement,
    /// An operand is wanted.
    Wanted,
    /// An operand may come, on this line: `return`, `yield`.
    WantedHere,
    /// An operand may end.
    Operand,
    /// `}` of an arrow function's body.
    ArrowEnd,
    /// `break` or `continue`.
    Jump,
    /// A word after which parentheses, or a block, come: `if`.
    Head,
    /// `for`, or `for await`.
    For(bool),
    /// `)` of a function's parameters.
    Params(Kind, Then),
    /// `)` that may be that of an async arrow function's parameters, or such a parameter.
    AsyncParams,
    /// `function`, with `*` or a name or not.
    Function(Kind, Then),
    /// `async`, at the beginning of a statement or in an operand.
    Async(Then),
    /// `=>` of an arrow function that awaits or not.
    Arrow(bool),
    /// `.` or `#`, after which a name comes.
    Dot,
    /// `export`
    Export,
    /// `export default`
    Default,
    /// `import`, at the beginning of a statement.
    Import,
    /// `let`
    Let,
    /// `var` or `const`, or `,` between names that they declare.
    Binding,
    /// A name that is declared.
    Bound,
    /// `?`
    Question,
    /// A name begins, in a class or an object: with `async` and `*` before it or not.
    Name(bool, bool),
    /// A name was read, of such a kind.
    Named(bool, bool),
    /// `async` was read where a name begins.
    NamedAsync,
}

/// What was read so far, but for what is open.
#[derive(Clone, Copy)]
pub struct Place {
    pub before: Before,
    pub kind: Kind,
    /// The token before is the text of a template.
    pub has_text: bool,
    /// In an import or export with names.
    pub in_names: bool,
}

/// What a token does to what is open, and the place after it.
#[derive(Clone, Copy)]
pub struct Move {
    /// The innermost is closed.
    pub closes: bool,
    /// Then this is opened.
    pub opens: Option<Frame>,
    pub place: Place,
}

/// What begins before a token comes, and the place then.
#[derive(Clone, Copy)]
pub struct Entry {
    pub opens: Option<Frame>,
    pub place: Place,
}

/// In which neither `await` nor `yield` is an operator.
pub(crate) fn plain_kind() -> Kind
    ensures { result ≡ places.plain_kind }
{
    Kind {
        awaits: false,
        yields: false,
    }
}

fn is_class_head(top: Option<Frame>) -> bool
    ensures { result ≡ places.is_class_head top }
{
    matches!(
        top,
        Some(Frame {
            what: Open::ClassHead(_),
            ..
        })
    )
}

pub(crate) fn is_for(top: Option<Frame>) -> bool
    ensures { result ≡ places.is_for top }
{
    matches!(
        top,
        Some(Frame {
            what: Open::For(_),
            ..
        })
    )
}

/// Whether `for await (` is open.
pub(crate) fn is_for_await(top: Option<Frame>) -> bool
    ensures { result ≡ places.is_for_await top }
{
    matches!(
        top,
        Some(Frame {
            what: Open::For(true),
            ..
        })
    )
}

pub(crate) fn is_names(top: Option<Frame>) -> bool
    ensures { result ≡ places.is_names top }
{
    matches!(
        top,
        Some(Frame {
            what: Open::Names,
            ..
        })
    )
}

pub(crate) fn is_template(top: Option<Frame>) -> bool
    ensures { result ≡ places.is_template top }
{
    matches!(
        top,
        Some(Frame {
            what: Open::Template,
            ..
        })
    )
}

pub(crate) fn is_question(top: Option<Frame>) -> bool
    ensures { result ≡ places.is_question top }
{
    matches!(
        top,
        Some(Frame {
            what: Open::Question,
            ..
        })
    )
}

/// Whether `(` or `[` is open.
fn is_in_parens(top: Option<Frame>) -> bool
    ensures { result ≡ places.is_in_parens top }
{
    matches!(
        top,
        Some(Frame {
            what: Open::Paren | Open::Square,
            ..
        })
    )
}

/// Whether the token before is a `?`.
pub(crate) fn is_asking(place: Place) -> bool
    ensures { result ≡ places.is_asking place }
{
    matches!(place.before, Before::Question)
}

/// Whether a name comes, after `.` or `#`.
pub(crate) fn is_dot(place: Place) -> bool
    ensures { result ≡ places.is_dot place }
{
    matches!(place.before, Before::Dot)
}

/// Whether this is a brace.
pub(crate) fn is_brace(what: Open) -> bool
    ensures { result ≡ places.is_brace what }
{
    matches!(
        what,
        Open::Block
            | Open::Body(_)
            | Open::Object
            | Open::Names
            | Open::Class(_)
            | Open::Substitution
    )
}

/// Whether statements come here, where this is open.
pub(crate) fn is_in_statements(what: Option<Open>) -> bool
    ensures { result ≡ places.is_in_statements what }
{
    matches!(what, None | Some(Open::Block | Open::Body(_)))
}

/// What a frame opens.
pub(crate) fn opened_by(top: Option<Frame>) -> Option<Open>
    ensures { result ≡ places.opened_by top }
{
    match top {
        Some(frame) => Some(frame.what),
        None => None,
    }
}

/// Whether the token before may end an operand.
pub(crate) fn ends_operand(before: Before) -> bool
    ensures { result ≡ places.ends_operand before }
{
    matches!(
        before,
        Before::Operand | Before::ArrowEnd | Before::Bound | Before::Async(_) | Before::AsyncParams
    )
}

/// Whether a statement may begin with the token, after an operand and a line break.
fn begins_operand(mark: Mark) -> bool
    ensures { result ≡ places.begins_operand mark }
{
    match mark {
        Mark::Word(Name::In) => false,
        Mark::Word(_) => true,
        Mark::Text | Mark::Number | Mark::LBrace | Mark::Twice | Mark::Hash | Mark::Prefix => true,
        _ => false,
    }
}

/// Whether the token ends all that has no bracket of its own.
pub(crate) fn ends_all(mark: Mark) -> bool
    ensures { result ≡ places.ends_all mark }
{
    matches!(
        mark,
        Mark::RParen | Mark::RBracket | Mark::RBrace | Mark::Semi
    )
}

/// Whether the token closes this, which has no bracket of its own.
fn closes(mark: Mark, what: Open) -> bool
    ensures { result ≡ places.closes mark what }
{
    match what {
        Open::Arrow => ends_all(mark) || matches!(mark, Mark::Comma | Mark::Colon),
        Open::Declaration | Open::Question => ends_all(mark),
        _ => false,
    }
}

/// Whether the token leaves this open, as far as it has no bracket of its own.
pub(crate) fn keeps(mark: Mark, what: Open) -> bool
    ensures { result ≡ not (places.closes mark what) }
{
    !closes(mark, what)
}

/// Whether this is neither the expression after `=>` nor what is declared.
pub(crate) fn lasts(what: Open) -> bool
    ensures { result ≡ not (places.is_passed what) }
{
    !matches!(what, Open::Arrow | Open::Declaration)
}

/// Whether a slash begins a regular expression, after a line break or not.
fn wants_regexp(before: Before, breaks: bool) -> bool
    ensures { result ≡ places.wants_regexp before breaks }
{
    match before {
        Before::Statement | Before::Wanted | Before::WantedHere | Before::Jump => true,
        Before::Head | Before::For(_) | Before::Arrow(_) | Before::Export => true,
        Before::Default | Before::Question => true,
        Before::ArrowEnd | Before::Bound => breaks,
        _ => false,
    }
}

/// What a line break does before a token that comes here.
#[derive(Clone, Copy)]
pub enum Break {
    /// Nothing.
    Nothing,
    /// The token before counts as this one.
    Changes(Before),
    /// What this token would close is closed, and the token before counts as this one.
    Closes(Mark, Before),
}

/// What a line break does between an operand and a token with which another may begin, where this is open.
fn break_within(below: Option<Open>, mark: Mark) -> Break
    ensures { result ≡ places.break_within below mark }
{
    if is_in_statements(below) {
        return Break::Closes(Mark::Semi, Before::Statement);
    }
    match (below, mark) {
        (Some(Open::Class(_)), Mark::Twice) => Break::Nothing,
        (Some(Open::Class(_)), _) => Break::Closes(Mark::Comma, Before::Name(false, false)),
        _ => Break::Nothing,
    }
}

/// What a line break does before the token. `below` is the innermost that is open but for arrow functions and
/// declarations.
pub(crate) fn at_break(before: Before, top: Option<Frame>, below: Option<Open>, mark: Mark) -> Break
    ensures { result ≡ places.at_break before top below mark }
{
    match before {
        Before::WantedHere | Before::Jump => {
            if is_in_parens(top) {
                Break::Nothing
            } else {
                Break::Changes(Before::Statement)
            }
        }
        Before::NamedAsync => Break::Changes(Before::Named(false, false)),
        _ => {
            if ends_operand(before) && begins_operand(mark) && !is_class_head(top) {
                break_within(below, mark)
            } else {
                Break::Nothing
            }
        }
    }
}

/// Which goal of the lexical grammar comes next, after a line break or not.
pub(crate) fn goal_at(place: Place, top: Option<Frame>, breaks: bool) -> Goal
    ensures { result ≡ places.goal_at place top breaks }
{
    if is_template(top) {
        if place.has_text {
            Goal::Delimiter
        } else {
            Goal::Text
        }
    } else if wants_regexp(place.before, breaks) {
        Goal::RegExp
    } else {
        Goal::Div
    }
}
