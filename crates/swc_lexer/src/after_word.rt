// The place after a word.
ghost use Rattle.std.specs.Prelude.{◌≡◌};
ghost use Rattle.swc_lexer.specs.Places as places;

use crate::after::{opens, stays};
use crate::mark::Name;
use crate::place::{
    Before, Frame, Kind, Move, Open, Place, Then, is_for, is_for_await, is_names, plain_kind,
};

/// Whether what begins here is a declaration, or an operand.
fn here(before: Before) -> Then
    ensures { result ≡ places.here before }
{
    match before {
        Before::Statement | Before::Export | Before::Default => Then::Statement,
        _ => Then::Operand,
    }
}

/// After `function`.
fn after_function(before: Before, breaks: bool) -> Before
    ensures { result ≡ places.after_function before breaks }
{
    match before {
        Before::Async(then) if !breaks => {
            let kind = Kind {
                awaits: true,
                yields: false,
            };
            Before::Function(kind, then)
        }
        _ => Before::Function(plain_kind(), here(before)),
    }
}

/// After a name that follows `async` on its line.
fn after_async(name: Name, top: Option<Frame>) -> Before
    ensures { result ≡ places.after_async name top }
{
    match name {
        Name::Of => {
            if is_for_await(top) {
                Before::Wanted
            } else {
                Before::AsyncParams
            }
        }
        _ => Before::AsyncParams,
    }
}

/// After a name that follows an operand.
fn after_second(name: Name, top: Option<Frame>) -> Before
    ensures { result ≡ places.after_second name top }
{
    match name {
        Name::Of => {
            if is_for(top) {
                Before::Wanted
            } else {
                Before::Operand
            }
        }
        _ => Before::Operand,
    }
}

/// After a name where an operand may begin.
fn after_first(name: Name, before: Before) -> Before
    ensures { result ≡ places.after_first name before }
{
    match name {
        Name::Async => Before::Async(here(before)),
        _ => Before::Operand,
    }
}

/// After a name, `async` or `of`.
fn after_name(place: Place, top: Option<Frame>, name: Name, breaks: bool) -> Move
    ensures { result ≡ places.after_name place top name breaks }
{
    match place.before {
        Before::Import => {
            let named = Place {
                in_names: true,
                ..place
            };
            stays(named, Before::Operand)
        }
        Before::Async(_) if !breaks => stays(place, after_async(name, top)),
        Before::Operand | Before::ArrowEnd | Before::Bound => stays(place, after_second(name, top)),
        _ => stays(place, after_first(name, place.before)),
    }
}

/// After `let`.
fn after_let(before: Before) -> Before
    ensures { result ≡ places.after_let before }
{
    match before {
        Before::Statement | Before::Export | Before::Wanted => Before::Let,
        _ => Before::Operand,
    }
}

/// After `await` or `yield` where it is no operator.
fn after_no_operator(before: Before, breaks: bool) -> Before
    ensures { result ≡ places.after_no_operator before breaks }
{
    match before {
        Before::Async(_) if !breaks => Before::AsyncParams,
        _ => Before::Operand,
    }
}

fn after_await(before: Before, kind: Kind, breaks: bool) -> Before
    ensures { result ≡ places.after_await before kind breaks }
{
    match before {
        Before::For(_) => Before::For(true),
        _ => {
            if kind.awaits {
                Before::Wanted
            } else {
                after_no_operator(before, breaks)
            }
        }
    }
}

fn after_yield(before: Before, kind: Kind, breaks: bool) -> Before
    ensures { result ≡ places.after_yield before kind breaks }
{
    if kind.yields {
        Before::WantedHere
    } else {
        after_no_operator(before, breaks)
    }
}

fn after_default(before: Before) -> Before
    ensures { result ≡ places.after_default before }
{
    match before {
        Before::Export => Before::Default,
        _ => Before::Operand,
    }
}

fn after_import(before: Before) -> Before
    ensures { result ≡ places.after_import before }
{
    match before {
        Before::Statement => Before::Import,
        _ => Before::Operand,
    }
}

/// After a word by which names are declared, or the first of them.
fn declares(place: Place, top: Option<Frame>, before: Before) -> Move
    ensures { result ≡ places.declares place top before }
{
    if is_for(top) {
        stays(place, before)
    } else {
        opens(place, Open::Declaration, place.kind, before)
    }
}

/// After a word of a statement or an expression.
fn after_word_in_code(place: Place, top: Option<Frame>, name: Name, breaks: bool) -> Move
    ensures { result ≡ places.after_word_in_code place top name breaks }
{
    let before = place.before;
    match name {
        Name::Plain | Name::Async | Name::Of => after_name(place, top, name, breaks),
        Name::Value => stays(place, Before::Operand),
        Name::Debugger | Name::Break => stays(place, Before::Jump),
        Name::Head => stays(place, Before::Head),
        Name::For => stays(place, Before::For(false)),
        Name::Function => stays(place, after_function(before, breaks)),
        Name::Class => opens(
            place,
            Open::ClassHead(here(before)),
            place.kind,
            Before::Operand,
        ),
        Name::Else => stays(place, Before::Statement),
        Name::Let => stays(place, after_let(before)),
        Name::Await => stays(place, after_await(before, place.kind, breaks)),
        Name::Yield => stays(place, after_yield(before, place.kind, breaks)),
        Name::Var => declares(place, top, Before::Binding),
        Name::Return => stays(place, Before::WantedHere),
        Name::Export => stays(place, Before::Export),
        Name::Default => stays(place, after_default(before)),
        Name::Import => stays(place, after_import(before)),
        Name::In | Name::Operator => stays(place, Before::Wanted),
    }
}

/// After a word where a name of a class or an object begins.
fn after_member_word(place: Place, name: Name, awaits: bool, yields: bool) -> Move
    ensures { result ≡ places.after_member_word place name awaits yields }
{
    match name {
        Name::Async if !yields => stays(place, Before::NamedAsync),
        _ => stays(place, Before::Named(awaits, yields)),
    }
}

/// After a word that follows another one where a name of a class or an object begins.
fn after_second_member_word(place: Place, name: Name, awaits: bool, yields: bool) -> Move
    ensures { result ≡ places.after_second_member_word place name awaits yields }
{
    match name {
        Name::Async => stays(place, Before::NamedAsync),
        _ => stays(place, Before::Named(awaits, yields)),
    }
}

/// After a word that is no name of a class or an object.
fn after_plain_word(place: Place, top: Option<Frame>, name: Name, breaks: bool) -> Move
    ensures { result ≡ places.after_plain_word place top name breaks }
{
    if is_names(top) {
        stays(place, Before::Operand)
    } else {
        after_word_in_code(place, top, name, breaks)
    }
}

pub(crate) fn after_word(place: Place, top: Option<Frame>, name: Name, breaks: bool) -> Move
    ensures { result ≡ places.after_word place top name breaks }
{
    match place.before {
        Before::Dot => stays(place, Before::Operand),
        Before::Function(_, _) => stays(place, place.before),
        Before::Name(awaits, yields) => after_member_word(place, name, awaits, yields),
        Before::Named(awaits, yields) => after_second_member_word(place, name, awaits, yields),
        Before::NamedAsync => stays(place, Before::Named(true, false)),
        Before::Jump => stays(place, Before::Statement),
        Before::Binding => stays(place, Before::Bound),
        Before::Let => match name {
            Name::In => after_plain_word(place, top, name, breaks),
            _ => declares(place, top, Before::Bound),
        },
        _ => after_plain_word(place, top, name, breaks),
    }
}
