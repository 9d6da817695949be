//! The stack of what is open in a text.
ghost use Rattle.std.specs.Prelude.{◌≡◌, ◌+◌, ◌<◌, ◌≤◌, length, reverse, OnOk, OnErr, vec_len, vec_capacity};
ghost use Rattle.swc_lexer.specs.Places as places;
ghost use Rattle.swc_lexer.specs.Stacks as stacks;

use crate::after::{after, enters};
use crate::mark::Mark;
use crate::place::{
    Before, Break, Frame, Kind, Open, Place, at_break, goal_at, is_brace, keeps, lasts,
};
use std::alloc::{AllocError, Global};
use swc_lexical::scan::Goal;

/// Where a text begins.
#[derive(Clone, Copy)]
pub enum Start {
    /// With statements.
    Statements,
    /// With an expression or a pattern.
    Operand,
}

/// What was read of a text so far, as far as it tells whether a slash that comes next divides.
#[derive(Drop)]
pub struct Stack {
    /// What is open, the innermost last.
    frames: Vec<Frame>,
    place: Place,
}

/// The outermost frames of a stack, and a place.
#[derive(Clone, Copy)]
struct Part {
    depth: usize,
    place: Place,
}

/// What a token changes: how many of the outermost frames stay, what is opened then, and the place.
#[derive(Clone, Copy)]
pub struct Change {
    depth: usize,
    first: Option<Frame>,
    second: Option<Frame>,
    place: Place,
}

/// Whether the token is the text of a template.
fn is_chars(mark: Mark) -> bool
    ensures { result ≡ stacks.is_chars mark }
{
    matches!(mark, Mark::Chars)
}

/// The place where a text begins.
fn first_place(start: Start, kind: Kind) -> Place
    ensures { result ≡ stacks.first_place start kind }
{
    let before = match start {
        Start::Statements => Before::Statement,
        Start::Operand => Before::Wanted,
    };
    Place {
        before,
        kind,
        has_text: false,
        in_names: false,
    }
}

/// The innermost of the outermost frames.
#[tactic(auto, using(crate::proofs::Stacks::inner_none, crate::proofs::Stacks::inner_at))]
fn frame_at(frames: &[Frame], depth: usize) -> Option<Frame>
    requires { depth ≤ length frames.now }
    ensures { result ≡ stacks.innermost (stacks.inner frames.now depth) }
{
    if depth == 0 {
        return None;
    }
    Some(frames[depth - 1])
}

/// What is left of a part once the token has closed what it ends.
fn closed(frames: &[Frame], part: Part, mark: Mark) -> Part
    requires { part.depth ≤ length frames.now }
    ensures state { stacks.state_at frames.now result.depth result.place
        ≡ stacks.closed mark (stacks.state_at frames.now part.depth part.place) }
    ensures within { result.depth ≤ length frames.now }
{
    let mut depth = part.depth;
    let mut kind = part.place.kind;
    while 0 < depth {
        match frame_at(frames, depth) {
            None => {
                return Part {
                    depth,
                    place: Place { kind, ..part.place },
                };
            }
            Some(frame) => {
                let kept = keeps(mark, frame.what);
                if kept {
                    return Part {
                        depth,
                        place: Place { kind, ..part.place },
                    };
                }
                kind = frame.outer;
                depth -= 1;
            }
        }
    }
    Part {
        depth,
        place: Place { kind, ..part.place },
    }
}

/// The innermost that is open but for the expressions after `=>` and declarations.
#[tactic(auto, using(crate::proofs::Stacks::PassedTo_begin))]
fn below(frames: &[Frame]) -> Option<Open>
    ensures { result ≡ stacks.below (reverse frames.now) }
{
    let mut depth = frames.len();
    while 0 < depth {
        match frame_at(frames, depth) {
            None => return None,
            Some(frame) => {
                let found = lasts(frame.what);
                if found {
                    return Some(frame.what);
                }
                depth -= 1;
            }
        }
    }
    None
}

/// Whether a brace is open.
#[tactic(auto, using(crate::proofs::Stacks::BracelessTo_begin))]
fn has_brace(frames: &[Frame]) -> bool
    ensures { result ≡ stacks.has_brace (reverse frames.now) }
{
    let mut depth = frames.len();
    while 0 < depth {
        match frame_at(frames, depth) {
            None => return false,
            Some(frame) => {
                let found = is_brace(frame.what);
                if found {
                    return true;
                }
                depth -= 1;
            }
        }
    }
    false
}

/// The same place after another token.
fn counting_as(place: Place, before: Before) -> Place
    ensures { result ≡ stacks.counting_as before place }
{
    Place { before, ..place }
}

/// All frames.
#[tactic(auto, using(crate::proofs::Stacks::inner_all))]
fn all_of(frames: &[Frame], place: Place) -> Part
    ensures state { stacks.state_at frames.now result.depth result.place
        ≡ stacks.with_frames place (reverse frames.now) }
    ensures within { result.depth ≤ length frames.now }
{
    Part {
        depth: frames.len(),
        place,
    }
}

/// The innermost of all frames.
#[tactic(auto, using(crate::proofs::Stacks::inner_all))]
fn top_of_all(frames: &[Frame]) -> Option<Frame>
    ensures { result ≡ stacks.innermost (reverse frames.now) }
{
    frame_at(frames, frames.len())
}

/// What is left of a part, in a place after another token.
fn counted(part: Part, before: Before) -> Part
    ensures depth { result.depth ≡ part.depth }
    ensures place { result.place ≡ stacks.counting_as before part.place }
{
    Part {
        depth: part.depth,
        place: counting_as(part.place, before),
    }
}

/// What is left of all frames at a line break before the token.
fn broken(frames: &[Frame], place: Place, mark: Mark) -> Part
    ensures state { stacks.state_at frames.now result.depth result.place
        ≡ stacks.broken mark (stacks.with_frames place (reverse frames.now)) }
    ensures within { result.depth ≤ length frames.now }
{
    let all = all_of(frames, place);
    let top = top_of_all(frames);
    let under = below(frames);
    match at_break(place.before, top, under, mark) {
        Break::Nothing => all,
        Break::Changes(before) => counted(all, before),
        Break::Closes(ender, before) => {
            let part = closed(frames, all, ender);
            counted(part, before)
        }
    }
}

/// What is left of all frames before the token, after a line break or not.
fn started(frames: &[Frame], place: Place, mark: Mark, breaks: bool) -> Part
    ensures state { stacks.state_at frames.now result.depth result.place
        ≡ stacks.break_if breaks mark (stacks.with_frames place (reverse frames.now)) }
    ensures within { result.depth ≤ length frames.now }
{
    if breaks {
        broken(frames, place, mark)
    } else {
        all_of(frames, place)
    }
}

/// Opens a frame, or none, where there is room for it.
#[tactic(auto, using(crate::proofs::Stacks::pushed_is))]
fn push_some(frames: &mut Vec<Frame>, frame: Option<Frame>)
    requires { vec_len frames.old < vec_capacity frames.old }
    ensures items { reverse frames.new.items ≡ stacks.opened frame (reverse frames.old.items) }
    ensures len { vec_len frames.new ≤ vec_len frames.old + 1 }
    ensures capacity { vec_capacity frames.new ≡ vec_capacity frames.old }
{
    match frame {
        Some(frame) => frames.push_reserved(frame),
        None => {}
    }
}

/// Closes all but the outermost frames, and opens one or two then. The only error is out of memory, and then nothing
/// changes.
fn apply(frames: &mut Vec<Frame>, change: Change) -> Result<(), AllocError>
    requires { change.depth ≤ vec_len frames.old }
    ensures changed { OnOk result (reverse frames.new.items ≡ stacks.frames_after frames.old.items change) }
    ensures unchanged { OnErr result (frames.new.items ≡ frames.old.items) }
{
    match (change.first, change.second) {
        (None, None) => frames.truncate(change.depth),
        (first, second) => {
            frames.reserve(2)?;
            frames.truncate(change.depth);
            push_some(frames, first);
            push_some(frames, second);
        }
    }
    Ok(())
}

/// The innermost, where a frame was opened or not.
fn top_of(opens: Option<Frame>, top: Option<Frame>) -> Option<Frame>
    ensures { result ≡ stacks.top_of opens top }
{
    match opens {
        Some(frame) => Some(frame),
        None => top,
    }
}

/// How many of the outermost frames stay, where the innermost is closed or not, which an entry may have opened.
fn depth_after(closes: bool, opens: Option<Frame>, depth: usize) -> usize
    ensures { result ≡ stacks.depth_after closes opens depth }
{
    match opens {
        None if closes => depth.saturating_sub(1),
        _ => depth,
    }
}

/// What an entry opened, unless it is closed.
fn kept(closes: bool, opens: Option<Frame>) -> Option<Frame>
    ensures { result ≡ stacks.kept closes opens }
{
    if closes { None } else { opens }
}

/// What a token changes. `adjoins` says that no blank is before it, and `breaks` that a line break is.
fn change_at(frames: &[Frame], place: Place, mark: Mark, adjoins: bool, breaks: bool) -> Change
    ensures state { stacks.state_after frames.now result
        ≡ stacks.passed mark adjoins breaks (stacks.with_frames place (reverse frames.now)) }
    ensures within { result.depth ≤ length frames.now }
{
    let start = started(frames, place, mark, breaks);
    let part = closed(frames, start, mark);
    let top = frame_at(frames, part.depth);
    let entry = enters(part.place, top, mark);
    let inner = top_of(entry.opens, top);
    let step = after(entry.place, inner, mark, adjoins, breaks);
    let depth = depth_after(step.closes, entry.opens, part.depth);
    let first = kept(step.closes, entry.opens);
    let has_text = is_chars(mark);
    Change {
        depth,
        first,
        second: step.opens,
        place: Place {
            has_text,
            ..step.place
        },
    }
}

impl Stack {
    /// The stack at the beginning of a text, in a function of the kind. Takes no memory.
    pub fn new(alloc: Global, start: Start, kind: Kind) -> Stack
        ensures { stacks.state_of result ≡ stacks.first_state start kind }
    {
        Stack {
            frames: Vec::new(alloc),
            place: first_place(start, kind),
        }
    }

    /// What was read so far, but for what is open.
    pub fn place(&self) -> Place
        ensures { result ≡ (stacks.state_of self.now).place }
    {
        self.place
    }

    /// Whether a brace is open.
    pub fn has_brace(&self) -> bool
        ensures { result ≡ stacks.has_brace (stacks.state_of self.now).frames }
    {
        has_brace(self.frames.as_slice())
    }

    /// Which goal of the lexical grammar comes next, after a line break or not.
    pub fn goal(&self, breaks: bool) -> Goal
        ensures { result ≡ stacks.goal (stacks.state_of self.now) breaks }
    {
        goal_at(self.place, top_of_all(self.frames.as_slice()), breaks)
    }

    /// Goes on after a token. `adjoins` says that no blank is before it, and `breaks` that a line break is. The only
    /// error is out of memory, and then nothing changes.
    pub fn pass(&mut self, mark: Mark, adjoins: bool, breaks: bool) -> Result<(), AllocError>
        ensures passed { OnOk result
            (stacks.state_of self.new ≡ stacks.passed mark adjoins breaks (stacks.state_of self.old)) }
        ensures unchanged { OnErr result (stacks.state_of self.new ≡ stacks.state_of self.old) }
    {
        let change = change_at(self.frames.as_slice(), self.place, mark, adjoins, breaks);
        apply(&mut self.frames, change)?;
        self.place = change.place;
        Ok(())
    }
}
