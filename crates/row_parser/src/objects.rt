// Calls that read properties, and make objects of them.
use crate::parser::TestParser;
use lower_rows::shown::{NO_MEMORY, show, show_refusal};
use lower_rows::tokens::span_of;
use lower_rows::trees::{TestExpr, TestPat, push_prop};
use std::alloc::{AllocError, Global};
use swc_ast::prop::PropOrSpread;
use swc_bodies::token_body::TokenBody;
use swc_context::span::{BytePos, Span};
use swc_ecma_parser::parser::object::ParseObject;

type Prop = PropOrSpread<TokenBody, TokenBody, TokenBody>;

/// Where an object is made.
const START: Span = Span {
    lo: BytePos(0),
    hi: BytePos(0),
};

impl TestParser {
    /// Reads a property of an object literal.
    pub(crate) fn parse_object_prop(&mut self, out: &mut String) -> Result<(), AllocError> {
        show(
            out,
            ParseObject::<Box<TestExpr>>::parse_object_prop(&mut self.inner),
        )
    }

    /// Reads a property of an object pattern.
    pub(crate) fn parse_object_pat_prop(&mut self, out: &mut String) -> Result<(), AllocError> {
        show(
            out,
            ParseObject::<TestPat>::parse_object_prop(&mut self.inner),
        )
    }

    /// Makes an object literal of no properties at the start of the text, with a comma at the place, or none.
    pub(crate) fn make_object(
        &mut self,
        out: &mut String,
        trailing_comma: Option<Span>,
    ) -> Result<(), AllocError> {
        let none = Vec::new(*out.allocator());
        show(
            out,
            ParseObject::<Box<TestExpr>>::make_object(&mut self.inner, START, none, trailing_comma),
        )
    }

    /// Reads a property of an object literal, and makes the literal of it alone at the start of the text.
    pub(crate) fn make_literal(&mut self, out: &mut String) -> Result<(), AllocError> {
        match ParseObject::<Box<TestExpr>>::parse_object_prop(&mut self.inner) {
            Ok(prop) => match only_prop(*out.allocator(), prop) {
                Some(props) => show(
                    out,
                    ParseObject::<Box<TestExpr>>::make_object(&mut self.inner, START, props, None),
                ),
                None => out.push_str(NO_MEMORY),
            },
            Err(fault) => show_refusal(out, fault),
        }
    }

    /// Makes an object pattern at the start of the text, of as many properties as are said, which the parser reads one
    /// after the other, with a comma at the place that is said after the number, or none.
    pub(crate) fn make_pattern(&mut self, out: &mut String, said: &str) -> Result<(), AllocError> {
        let (count, at) = said.split_once(' ').unwrap_or((said, ""));
        let mut props = Vec::new(*out.allocator());
        for _ in 0..count.parse::<u32>().unwrap_or(0) {
            match ParseObject::<TestPat>::parse_object_prop(&mut self.inner) {
                Ok(prop) => {
                    if !push_prop(&mut props, prop) {
                        return out.push_str(NO_MEMORY);
                    }
                }
                Err(fault) => {
                    return show_refusal(out, fault);
                }
            }
        }
        show(
            out,
            ParseObject::<TestPat>::make_object(&mut self.inner, START, props, span_of(at)),
        )
    }
}

/// A list of the property alone, or nothing if there is no memory.
fn only_prop(alloc: Global, prop: Prop) -> Option<Vec<Prop>> {
    let mut props = Vec::new(alloc);
    match props.push(prop) {
        Ok(()) => Some(props),
        Err(_) => None,
    }
}
