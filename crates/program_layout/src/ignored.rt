// Statements, members and properties that stay as they are written, after a comment `prettier-ignore`.
use crate::layout::ProgramMarks;
use swc_context::span::Span;
use swc_nodes::node::{ExprId, Node, PropNode};

/// The word of the comment.
const WORD: &str = "prettier-ignore";

impl ProgramMarks<'_> {
    /// Notes all statements, all members of classes, and all properties of object literals that stay as they are
    /// written.
    pub(crate) fn mark_ignored(&mut self, text: &str) {
        if !text.contains(WORD) {
            return;
        }
        let program = self.program;
        for statement in &program.statements {
            self.mark_after_comment(text, statement.span);
        }
        for place in &program.bodies {
            if let Some(class) = program.class(*place) {
                for member in &class.members {
                    self.mark_after_comment(text, member.span);
                }
            }
        }
        self.mark_properties(text);
    }

    /// Notes the properties that stay as they are written.
    fn mark_properties(&mut self, text: &str) {
        let program = self.program;
        for number in 0..program.nodes.len() {
            if let Some(Node::Object { props, .. }) = program.nodes.node(ExprId(number)) {
                for prop in props {
                    self.mark_after_comment(text, place_of(prop));
                }
            }
        }
    }

    /// Notes that what is at the place stays as it is written, if the comment is before it.
    fn mark_after_comment(&mut self, text: &str, place: Span) {
        let first = self.marks.at(place.lo);
        let units = &self.marks.units;
        let lo = match first.checked_sub(1) {
            Some(before) => units.get(before).map_or(0, |unit| unit.hi),
            None => 0,
        };
        let hi = units.get(first).map_or(0, |unit| unit.lo);
        if ends_with_comment(text.get(lo..hi).unwrap_or("")) {
            let last = self.marks.before(place.hi);
            self.marks.keep(first, last);
        }
    }
}

/// Where a property is.
fn place_of(prop: &PropNode<Span>) -> Span {
    match prop {
        PropNode::Spread(item) => item.span,
        PropNode::Shorthand(name) => name.span,
        PropNode::Assign(prop) => prop.span,
        PropNode::Method { function, .. } => function.span,
        PropNode::KeyValue { span, .. }
        | PropNode::Getter { span, .. }
        | PropNode::Setter { span, .. } => *span,
    }
}

/// Whether the text before a token ends with the comment.
fn ends_with_comment(gap: &str) -> bool {
    let gap = gap.trim_end();
    let (gap, sign) = match gap.strip_suffix("*/") {
        Some(gap) => (gap, "/*"),
        None => (gap, "//"),
    };
    match gap.trim_end().strip_suffix(WORD) {
        Some(before) => before.trim_end().ends_with(sign),
        None => false,
    }
}
