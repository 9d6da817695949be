// The place after a token, and what begins before one.
ghost use Rattle.std.specs.Prelude.{◌≡◌};
ghost use Rattle.swc_lexer.specs.Places as places;

use crate::after_word::after_word;
use crate::mark::Mark;
use crate::place::{
    Before, Entry, Frame, Kind, Move, Open, Place, Then, ends_all, ends_operand, is_for,
    is_in_statements, is_names, is_question, is_template, opened_by, plain_kind,
};

/// A token that opens and closes nothing.
pub(crate) fn stays(place: Place, before: Before) -> Move
    ensures { result ≡ places.stays place before }
{
    Move {
        closes: false,
        opens: None,
        place: Place { before, ..place },
    }
}

/// A token that opens something of the kind.
pub(crate) fn opens(place: Place, what: Open, kind: Kind, before: Before) -> Move
    ensures { result ≡ places.opens place what kind before }
{
    Move {
        closes: false,
        opens: Some(Frame {
            what,
            outer: place.kind,
        }),
        place: Place {
            before,
            kind,
            ..place
        },
    }
}

/// The kind outside of this.
fn kind_outside(kind: Kind, top: Option<Frame>) -> Kind
    ensures { result ≡ places.kind_outside kind top }
{
    match top {
        Some(frame) => frame.outer,
        None => kind,
    }
}

/// A token that closes the innermost.
fn closing(place: Place, top: Option<Frame>, before: Before) -> Move
    ensures { result ≡ places.closing place top before }
{
    Move {
        closes: true,
        opens: None,
        place: Place {
            before,
            kind: kind_outside(place.kind, top),
            ..place
        },
    }
}

/// What `(` opens, and of which kind that is.
fn paren_of(before: Before, kind: Kind) -> (Open, Kind)
    ensures { result ≡ places.paren_of before kind }
{
    match before {
        Before::Head => (Open::Head, kind),
        Before::For(awaits) => (Open::For(awaits), kind),
        Before::Function(kind, then) => (Open::Params(kind, then), kind),
        Before::Name(awaits, yields) | Before::Named(awaits, yields) => {
            let kind = Kind { awaits, yields };
            (Open::Params(kind, Then::Member), kind)
        }
        Before::NamedAsync => (Open::Params(plain_kind(), Then::Member), plain_kind()),
        Before::Async(_) => (Open::AsyncParen, kind),
        _ => (Open::Paren, kind),
    }
}

fn after_paren(place: Place) -> Move
    ensures { result ≡ places.after_paren place }
{
    let (what, kind) = paren_of(place.before, place.kind);
    opens(place, what, kind, Before::Wanted)
}

/// After `{` of an object, of names, or of a class.
fn after_other_brace(place: Place, top: Option<Frame>) -> Move
    ensures { result ≡ places.after_other_brace place top }
{
    if place.in_names {
        return opens(place, Open::Names, place.kind, Before::Wanted);
    }
    match top {
        Some(
            Frame {
                what: Open::ClassHead(then),
                outer,
            },
        ) if ends_operand(place.before) => Move {
            closes: true,
            opens: Some(Frame {
                what: Open::Class(then),
                outer,
            }),
            place: Place {
                before: Before::Name(false, false),
                kind: plain_kind(),
                ..place
            },
        },
        _ => opens(place, Open::Object, place.kind, Before::Name(false, false)),
    }
}

/// After `{` of statements, where names aren't wanted.
fn after_block_brace(place: Place, top: Option<Frame>) -> Move
    ensures { result ≡ places.after_block_brace place top }
{
    if place.in_names {
        return after_other_brace(place, top);
    }
    opens(place, Open::Block, place.kind, Before::Statement)
}

fn after_brace(place: Place, top: Option<Frame>) -> Move
    ensures { result ≡ places.after_brace place top }
{
    match place.before {
        Before::Arrow(awaits) => {
            let kind = Kind {
                awaits,
                yields: false,
            };
            opens(place, Open::Body(Then::Arrow), kind, Before::Statement)
        }
        Before::Params(kind, then) => opens(place, Open::Body(then), kind, Before::Statement),
        Before::Named(_, _) => {
            let kind = Kind {
                awaits: true,
                yields: false,
            };
            opens(place, Open::Body(Then::Member), kind, Before::Statement)
        }
        Before::Export | Before::Import => {
            let named = Place {
                in_names: true,
                ..place
            };
            opens(named, Open::Names, place.kind, Before::Wanted)
        }
        Before::Statement | Before::Head => after_block_brace(place, top),
        Before::Jump => opens(place, Open::Block, place.kind, Before::Statement),
        Before::Let => opens(place, Open::Object, place.kind, Before::Name(false, false)),
        _ => after_other_brace(place, top),
    }
}

/// The kind of a method's body, whose name this is.
fn member_kind(before: Before) -> Kind
    ensures { result ≡ places.member_kind before }
{
    match before {
        Before::Name(awaits, yields) => Kind { awaits, yields },
        Before::NamedAsync => Kind {
            awaits: true,
            yields: false,
        },
        _ => plain_kind(),
    }
}

/// The kind in which a computed name is: that outside of a class.
fn key_kind(kind: Kind, top: Option<Frame>) -> Kind
    ensures { result ≡ places.key_kind kind top }
{
    match top {
        Some(
            Frame {
                what: Open::Class(_),
                outer,
            },
        ) => outer,
        _ => kind,
    }
}

fn after_bracket(place: Place, top: Option<Frame>) -> Move
    ensures { result ≡ places.after_bracket place top }
{
    match place.before {
        Before::Name(_, _) | Before::Named(_, _) | Before::NamedAsync => {
            let key = Open::Key(member_kind(place.before));
            opens(place, key, key_kind(place.kind, top), Before::Wanted)
        }
        _ => opens(place, Open::Square, place.kind, Before::Wanted),
    }
}

fn after_back_quote(place: Place, top: Option<Frame>) -> Move
    ensures { result ≡ places.after_back_quote place top }
{
    if is_template(top) {
        closing(place, top, Before::Operand)
    } else {
        opens(place, Open::Template, place.kind, Before::Wanted)
    }
}

fn after_close_paren(what: Option<Open>) -> Before
    ensures { result ≡ places.after_close_paren what }
{
    match what {
        Some(Open::Head | Open::For(_)) => Before::Statement,
        Some(Open::Params(kind, then)) => Before::Params(kind, then),
        Some(Open::AsyncParen) => Before::AsyncParams,
        _ => Before::Operand,
    }
}

fn after_close_bracket(what: Option<Open>) -> Before
    ensures { result ≡ places.after_close_bracket what }
{
    match what {
        Some(Open::Key(kind)) => Before::Named(kind.awaits, kind.yields),
        _ => Before::Operand,
    }
}

/// After the body of a function or a class.
fn after_body(then: Then) -> Before
    ensures { result ≡ places.after_body then }
{
    match then {
        Then::Statement => Before::Statement,
        Then::Operand => Before::Operand,
        Then::Member => Before::Name(false, false),
        Then::Arrow => Before::ArrowEnd,
    }
}

fn after_close_brace(what: Option<Open>) -> Before
    ensures { result ≡ places.after_close_brace what }
{
    match what {
        Some(Open::Body(then) | Open::Class(then)) => after_body(then),
        Some(Open::Object | Open::Substitution) => Before::Operand,
        _ => Before::Statement,
    }
}

fn after_twice(before: Before, breaks: bool) -> Before
    ensures { result ≡ places.after_twice before breaks }
{
    match before {
        Before::Let => Before::Operand,
        _ => {
            if ends_operand(before) && !breaks {
                Before::Operand
            } else {
                Before::Wanted
            }
        }
    }
}

fn after_semi(place: Place, what: Option<Open>) -> Move
    ensures { result ≡ places.after_semi place what }
{
    let before = match what {
        Some(Open::Class(_)) => Before::Name(false, false),
        Some(Open::For(_)) => Before::Wanted,
        _ => Before::Statement,
    };
    let unnamed = Place {
        in_names: false,
        ..place
    };
    stays(unnamed, before)
}

fn after_comma(what: Option<Open>) -> Before
    ensures { result ≡ places.after_comma what }
{
    match what {
        Some(Open::Class(_) | Open::Object) => Before::Name(false, false),
        Some(Open::Declaration) => Before::Binding,
        _ => Before::Wanted,
    }
}

fn after_colon(place: Place, top: Option<Frame>) -> Move
    ensures { result ≡ places.after_colon place top }
{
    if is_question(top) {
        closing(place, top, Before::Wanted)
    } else if is_in_statements(opened_by(top)) {
        stays(place, Before::Statement)
    } else {
        stays(place, Before::Wanted)
    }
}

/// After `.`, which is one with the `?` right before it.
fn after_dot(place: Place, top: Option<Frame>, adjoins: bool) -> Move
    ensures { result ≡ places.after_dot place top adjoins }
{
    match place.before {
        Before::Question if adjoins => closing(place, top, Before::Dot),
        _ => stays(place, Before::Dot),
    }
}

fn after_hash(before: Before) -> Before
    ensures { result ≡ places.after_hash before }
{
    match before {
        Before::Name(_, _) => before,
        Before::NamedAsync => Before::Name(true, false),
        Before::Named(_, _) => Before::Name(false, false),
        _ => Before::Dot,
    }
}

fn after_star(place: Place) -> Move
    ensures { result ≡ places.after_star place }
{
    match place.before {
        Before::Function(kind, then) => {
            let kind = Kind {
                awaits: kind.awaits,
                yields: true,
            };
            stays(place, Before::Function(kind, then))
        }
        Before::Name(awaits, _) => stays(place, Before::Name(awaits, true)),
        Before::NamedAsync => stays(place, Before::Name(true, true)),
        Before::Named(_, _) => stays(place, Before::Name(false, true)),
        Before::Export | Before::Import => {
            let named = Place {
                in_names: true,
                ..place
            };
            stays(named, Before::Operand)
        }
        _ => stays(place, Before::Wanted),
    }
}

/// After a number, or a string that may be a name.
fn after_literal(before: Before) -> Before
    ensures { result ≡ places.after_literal before }
{
    match before {
        Before::Name(awaits, yields) | Before::Named(awaits, yields) => Before::Named(
            awaits, yields,
        ),
        Before::NamedAsync => Before::Named(true, false),
        _ => Before::Operand,
    }
}

fn after_text(place: Place, top: Option<Frame>) -> Move
    ensures { result ≡ places.after_text place top }
{
    if place.in_names && !is_names(top) {
        let unnamed = Place {
            in_names: false,
            ..place
        };
        return stays(unnamed, Before::Statement);
    }
    match place.before {
        Before::Import => stays(place, Before::Statement),
        _ => stays(place, after_literal(place.before)),
    }
}

/// After `=>`.
fn after_arrow(before: Before) -> Before
    ensures { result ≡ places.after_arrow before }
{
    match before {
        Before::AsyncParams => Before::Arrow(true),
        _ => Before::Arrow(false),
    }
}

/// After a bracket.
fn after_brackets(place: Place, top: Option<Frame>, mark: Mark) -> Move
    ensures { result ≡ places.after_brackets place top mark }
{
    match mark {
        Mark::LParen => after_paren(place),
        Mark::LBrace => after_brace(place, top),
        Mark::LBracket => after_bracket(place, top),
        Mark::Dollar => opens(place, Open::Substitution, place.kind, Before::Wanted),
        Mark::BackQuote => after_back_quote(place, top),
        Mark::RParen => closing(place, top, after_close_paren(opened_by(top))),
        Mark::RBracket => closing(place, top, after_close_bracket(opened_by(top))),
        _ => closing(place, top, after_close_brace(opened_by(top))),
    }
}

/// After a token: what it does to what is open, of which `top` is the innermost. `adjoins` says that no blank is
/// before it, and `breaks` that a line break is.
pub(crate) fn after(
    place: Place,
    top: Option<Frame>,
    mark: Mark,
    adjoins: bool,
    breaks: bool,
) -> Move
    ensures { result ≡ places.after place top mark adjoins breaks }
{
    match mark {
        Mark::Word(name) => after_word(place, top, name, breaks),
        Mark::LParen | Mark::LBrace | Mark::LBracket | Mark::Dollar | Mark::BackQuote => {
            after_brackets(place, top, mark)
        }
        Mark::RParen | Mark::RBracket | Mark::RBrace => after_brackets(place, top, mark),
        Mark::Question => opens(place, Open::Question, place.kind, Before::Question),
        Mark::Arrow => stays(place, after_arrow(place.before)),
        Mark::Twice => stays(place, after_twice(place.before, breaks)),
        Mark::Semi => after_semi(place, opened_by(top)),
        Mark::Comma => stays(place, after_comma(opened_by(top))),
        Mark::Colon => after_colon(place, top),
        Mark::Dot => after_dot(place, top, adjoins),
        Mark::Hash => stays(place, after_hash(place.before)),
        Mark::Star => after_star(place),
        Mark::Text => after_text(place, top),
        Mark::Number => stays(place, after_literal(place.before)),
        Mark::Regexp => stays(place, Before::Operand),
        Mark::Chars | Mark::Prefix | Mark::Sign => stays(place, Before::Wanted),
    }
}

/// Where nothing begins but what the token itself does.
fn goes_on(place: Place) -> Entry
    ensures { result ≡ places.goes_on place }
{
    Entry { opens: None, place }
}

/// The expression after `=>` begins.
fn enters_arrow(place: Place, awaits: bool) -> Entry
    ensures { result ≡ places.enters_arrow place awaits }
{
    Entry {
        opens: Some(Frame {
            what: Open::Arrow,
            outer: place.kind,
        }),
        place: Place {
            before: Before::Wanted,
            kind: Kind {
                awaits,
                yields: false,
            },
            ..place
        },
    }
}

/// `let` declares what the `{` begins that comes after it.
fn enters_let(place: Place, top: Option<Frame>) -> Entry
    ensures { result ≡ places.enters_let place top }
{
    if is_for(top) {
        return goes_on(place);
    }
    Entry {
        opens: Some(Frame {
            what: Open::Declaration,
            outer: place.kind,
        }),
        place,
    }
}

/// Whether the expression after `=>` begins with the token.
fn begins_arrow(mark: Mark) -> bool
    ensures { result ≡ places.begins_arrow mark }
{
    match mark {
        Mark::LBrace | Mark::Comma | Mark::Colon => false,
        _ => !ends_all(mark),
    }
}

/// What begins before the token comes, of which no bracket tells: the expression after `=>`, or what `let` declares.
pub(crate) fn enters(place: Place, top: Option<Frame>, mark: Mark) -> Entry
    ensures { result ≡ places.enters place top mark }
{
    match (place.before, mark) {
        (Before::Arrow(awaits), _) if begins_arrow(mark) => enters_arrow(place, awaits),
        (Before::Let, Mark::LBrace) => enters_let(place, top),
        _ => goes_on(place),
    }
}
