// What is noted at the units of a layout: what comes before them, and which groups begin and end with them.
use crate::roles::Role;
use crate::style::{Commas, Style};
use crate::units::{Kind, Unit};
use std::alloc::{AllocError, Global};
use swc_context::span::{BytePos, Span};
use swc_nodes::node::ExprId;

/// What comes before a unit.
#[derive(Clone, Copy, PartialEq, Eq)]
pub enum Gap {
    /// Nothing, unless two words would meet.
    Nothing,
    /// A blank.
    Blank,
    /// A place for a line.
    Line(LineGap),
    /// A line, indented as the line before.
    Break,
    /// A blank, before a `{` of statements or a word that goes on with one: lines of comments before it are indented as
    /// the line before.
    Word,
    /// A line before a statement, a member or a clause, and an empty line before it if the text has one or more there.
    Statement {
        /// The line is indented more than the first of the group.
        is_deeper: bool,
    },
    /// A line before the `}` of a body, or the end of a program.
    End,
}

/// A place for a line: without a line it is a blank or nothing.
#[derive(Clone, Copy, PartialEq, Eq)]
pub struct LineGap {
    /// A blank is there if no line is.
    pub is_blank: bool,
    /// The line is indented more than the first of the group.
    pub is_deeper: bool,
    pub when: When,
    /// An empty line is before the line, if the text has one or more there.
    pub keeps_empty: bool,
    /// It is before the closing bracket of arguments that may be held together.
    pub is_tail: bool,
}

/// Where a place for a line is one.
#[derive(Clone, Copy, PartialEq, Eq)]
pub enum When {
    /// Where its group is broken.
    Broken,
    /// Where its group is broken, and what follows up to the next place doesn't go on the line.
    Needed,
    /// Everywhere. So the groups around it are broken.
    Always,
}

/// A blank, or a line that is indented more.
pub const LINE: Gap = Gap::Line(LineGap {
    is_blank: true,
    is_deeper: true,
    when: When::Broken,
    keeps_empty: false,
    is_tail: false,
});

/// Nothing, or a line that is indented more.
pub const DOT: Gap = Gap::Line(LineGap {
    is_blank: false,
    is_deeper: true,
    when: When::Broken,
    keeps_empty: false,
    is_tail: false,
});

impl Gap {
    /// A place for a line where its group is broken.
    pub fn line(is_blank: bool, is_deeper: bool) -> Gap {
        Gap::line_when(is_blank, is_deeper, When::Broken)
    }

    /// A place for a line.
    pub fn line_when(is_blank: bool, is_deeper: bool, when: When) -> Gap {
        Gap::Line(LineGap {
            is_blank,
            is_deeper,
            when,
            keeps_empty: false,
            is_tail: false,
        })
    }
}

/// How lines in a group are. A group is on one line if it goes there with what follows up to the next place for a line,
/// and no line is in it that is always one; otherwise it is broken.
#[derive(Clone, Copy, PartialEq, Eq)]
pub enum Group {
    /// The places in it are lines where it is broken.
    Parts,
    /// The same, and what is in it is indented more, as after `? `.
    Operand,
    /// It is broken where the group around it is.
    Nested,
    /// The same, and what is in it is indented more, as the first of several declarators.
    Deeper,
    /// It is broken where the group around it is broken, and else by itself, as what arrow functions return that return
    /// one another.
    Returned,
    /// Always on one line.
    Flat,
    /// What is in `${` and `}` of a template, where that has a line break: indented as the line of the template.
    Hole,
    /// Arguments. Where one of them can be broken after a place in it, and what is before that place goes on the line,
    /// the group is held together: only its last place is a line, and that if the line is indented more.
    Arguments,
    /// A chain of calls. Where the arguments of its last call alone have line breaks, and what is before the first of
    /// these goes on the line, it is held together.
    Chain {
        /// It is never on one line.
        is_broken: bool,
        /// It is never held together.
        is_loose: bool,
    },
}

/// What is noted at an opening bracket.
#[derive(Clone, Copy)]
pub struct Shape {
    /// It is no group.
    pub is_bare: bool,
    /// It is broken.
    pub is_broken: bool,
    /// As many items are on a line as go there.
    pub is_filled: bool,
    /// A comma is after the last item, where the bracket after that begins a line.
    pub has_comma: bool,
    /// One of the items can be broken while the others stay on the line: see `Group::Arguments`.
    pub hugs: bool,
    /// A blank is before the closing bracket, as in `for (;a; )`.
    pub ends_blank: bool,
    /// What is in `${` and `}` begins a line where that is broken.
    pub has_lines: bool,
}

/// Nothing is noted.
pub const PLAIN: Shape = Shape {
    is_bare: false,
    is_broken: false,
    is_filled: false,
    has_comma: false,
    hugs: false,
    ends_blank: false,
    has_lines: false,
};

/// It is no group.
pub const BARE: Shape = Shape {
    is_bare: true,
    is_broken: false,
    is_filled: false,
    has_comma: false,
    hugs: false,
    ends_blank: false,
    has_lines: false,
};

/// Where a group around a unit may begin to be broken.
#[derive(Clone, Copy, PartialEq, Eq)]
pub enum Place {
    None,
    /// Before the unit.
    Before,
    /// After the unit.
    After,
}

/// What the units of a text are.
#[derive(Clone, Copy, PartialEq, Eq)]
pub enum Whole {
    /// An expression.
    Expr,
    /// A program.
    Program,
}

/// What is noted at a unit.
#[derive(Clone, Copy)]
pub struct Mark {
    pub gap: Gap,
    /// The group that begins with the unit before all others.
    pub outer: Option<Group>,
    /// How many `Parts` begin with the unit, in the group before.
    pub opens: usize,
    /// The chain that begins with the unit, in these.
    pub chain: Option<Group>,
    /// The group of a bracket, in these.
    pub bracket: Option<Group>,
    /// How many groups end with the unit.
    pub closes: usize,
    pub shape: Shape,
    pub place: Place,
    /// A comma is before the unit, a closing bracket, if that begins a line.
    pub has_comma: bool,
    /// A semicolon is after the unit, which is no unit of its own.
    pub ends_statement: bool,
    /// The text stays as it is written from the unit on, up to the one before this number.
    pub kept_to: usize,
}

/// The units of a text, and what is noted at each.
#[derive(Drop)]
pub struct Marks {
    pub whole: Whole,
    pub style: Style,
    pub units: Vec<Unit>,
    pub marks: Vec<Mark>,
    /// What each expression is to what it is a part of.
    roles: Vec<Role>,
}

impl Marks {
    /// The units, with nothing noted at any of them, nor at any of so many nodes. The only error is out of memory.
    pub fn new(
        alloc: Global,
        whole: Whole,
        style: Style,
        units: Vec<Unit>,
        count: usize,
    ) -> Result<Marks, AllocError> {
        let nothing = Mark {
            gap: Gap::Nothing,
            outer: None,
            opens: 0,
            chain: None,
            bracket: None,
            closes: 0,
            shape: PLAIN,
            place: Place::None,
            has_comma: false,
            ends_statement: false,
            kept_to: 0,
        };
        let mut marks = Vec::new(alloc);
        marks.resize(units.len(), nothing)?;
        let mut roles = Vec::new(alloc);
        roles.resize(count, Role::Plain)?;
        Ok(Marks {
            whole,
            style,
            units,
            marks,
            roles,
        })
    }

    /// What an expression is to what it is a part of.
    pub fn role(&self, expr: ExprId) -> Role {
        self.roles.get(expr.0).copied().unwrap_or(Role::Plain)
    }

    /// Notes what an expression is to what it is a part of.
    pub fn set_role(&mut self, expr: ExprId, role: Role) {
        if let Some(known) = self.roles.get_mut(expr.0) {
            *known = role;
        }
    }

    /// What is after the last unit.
    pub fn end(&self) -> Gap {
        match self.whole {
            Whole::Expr => Gap::Nothing,
            Whole::Program => Gap::End,
        }
    }

    /// Whether a comma may be after the last item of a list.
    pub fn takes_commas(&self) -> bool {
        self.style.commas != Commas::None
    }

    /// Whether a comma may be after the last argument or parameter.
    pub fn takes_all_commas(&self) -> bool {
        self.style.commas == Commas::All
    }

    /// The kind of the unit of the number.
    pub fn kind(&self, number: usize) -> Kind {
        match self.units.get(number) {
            Some(unit) => unit.kind,
            None => Kind::Other,
        }
    }

    /// Whether a line break is before the unit of the number, after the unit before.
    pub fn is_at_line(&self, number: usize) -> bool {
        match self.units.get(number) {
            Some(unit) => unit.is_at_line,
            None => false,
        }
    }

    /// How many units there are.
    pub fn len(&self) -> usize {
        self.units.len()
    }

    /// The number of the first unit that begins at the position or after it.
    pub fn at(&self, place: BytePos) -> usize {
        let place = place.0 as usize;
        self.units.partition_point(|unit| unit.lo < place)
    }

    /// The number of the unit before the position.
    pub fn before(&self, place: BytePos) -> usize {
        self.at(place).saturating_sub(1)
    }

    /// Notes what comes before the unit of the number.
    pub fn set(&mut self, number: usize, gap: Gap) {
        if let Some(mark) = self.marks.get_mut(number) {
            mark.gap = gap;
        }
    }

    /// Notes a blank before the unit of the number, if nothing is noted there.
    pub fn set_blank(&mut self, number: usize) {
        if let Some(mark) = self.marks.get_mut(number) {
            if mark.gap == Gap::Nothing {
                mark.gap = Gap::Blank;
            }
        }
    }

    /// Notes what comes before the unit at the position.
    pub fn set_at(&mut self, place: BytePos, gap: Gap) {
        self.set(self.at(place), gap);
    }

    /// Notes what comes before an operator, and after it, where its right operand begins.
    pub fn set_operator(&mut self, operand: BytePos, before: Gap, after: Gap) {
        let number = self.at(operand);
        self.set(number, after);
        self.set(number.saturating_sub(1), before);
    }

    /// Notes what a bracket is.
    pub fn shape(&mut self, number: usize, shape: Shape) {
        if let Some(mark) = self.marks.get_mut(number) {
            mark.shape = shape;
        }
    }

    /// What is noted of the bracket of the number.
    pub fn shape_of(&self, number: usize) -> Shape {
        match self.marks.get(number) {
            Some(mark) => mark.shape,
            None => PLAIN,
        }
    }

    /// Notes a place at the unit of the number.
    pub fn set_place(&mut self, number: usize, place: Place) {
        if let Some(mark) = self.marks.get_mut(number) {
            mark.place = place;
        }
    }

    /// Notes that a comma may be before the unit of the number.
    pub fn set_comma(&mut self, number: usize) {
        if let Some(mark) = self.marks.get_mut(number) {
            mark.has_comma = true;
        }
    }

    /// Notes that a group begins with the unit of the number, and ends with another.
    pub fn add_group(&mut self, first: usize, last: usize) {
        if let Some(mark) = self.marks.get_mut(first) {
            mark.opens = mark.opens.saturating_add(1);
            self.end_group(last);
        }
    }

    /// Notes that a group is at the place, which holds a unit at least.
    pub fn add_group_at(&mut self, place: Span) {
        self.add_group(self.at(place.lo), self.before(place.hi));
    }

    /// Notes that a group is at the place, around all others that begin there.
    pub fn add_outer_at(&mut self, place: Span, group: Group) {
        let first = self.at(place.lo);
        let last = self.before(place.hi);
        if let Some(mark) = self.marks.get_mut(first) {
            mark.outer = Some(group);
            self.end_group(last);
        }
    }

    /// Notes a group of what is at the place and the sign before it, around all others that begin with the sign.
    pub fn add_signed(&mut self, place: Span, group: Group) {
        let sign = self.before(place.lo);
        let last = self.before(place.hi);
        if let Some(mark) = self.marks.get_mut(sign) {
            mark.outer = Some(group);
            self.end_group(last);
        }
    }

    /// Notes that a chain begins with the unit of the number, and ends with another.
    pub fn add_chain(&mut self, first: usize, last: usize, group: Group) {
        if let Some(mark) = self.marks.get_mut(first) {
            mark.chain = Some(group);
            self.end_group(last);
        }
    }

    /// Notes that a pair of brackets is a group.
    pub fn add_bracket(&mut self, first: usize, last: usize, group: Group) {
        if let Some(mark) = self.marks.get_mut(first) {
            mark.bracket = Some(group);
            self.end_group(last);
        }
    }

    /// Notes that the text stays as it is written from the unit of the number on, to another.
    pub fn keep(&mut self, first: usize, last: usize) {
        if let Some(mark) = self.marks.get_mut(first) {
            mark.kept_to = last.saturating_add(1);
        }
    }

    /// Notes that a semicolon is after the unit of the number.
    pub fn end_statement(&mut self, number: usize) {
        if let Some(mark) = self.marks.get_mut(number) {
            mark.ends_statement = true;
        }
    }

    /// Notes that a group ends with the unit of the number.
    fn end_group(&mut self, last: usize) {
        if let Some(mark) = self.marks.get_mut(last) {
            mark.closes = mark.closes.saturating_add(1);
        }
    }
}
