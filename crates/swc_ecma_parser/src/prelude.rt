//! What most programs that use the parser need, in one import: `use swc_ecma_parser::prelude::*;`.

pub use crate::parser::Parser;
pub use crate::places::operator_span;
pub use crate::text::{parse_text_expr, parse_text_pat};
pub use crate::whole::{Whole, parse_whole_expr, parse_whole_pat};
pub use swc_ast::expr::Callee;
pub use swc_bodies::none::NoBodies;
pub use swc_bodies::token_bodies::TokenBodies;
pub use swc_context::context::{Context, EsVersion, Syntax};
pub use swc_context::error::{Error, PResult, SyntaxError};
pub use swc_context::operator::{AssignOp, BinaryOp, UnaryOp, UpdateOp};
pub use swc_context::span::{BytePos, LineColumn, Span};
pub use swc_nodes::apart::PartId;
pub use swc_nodes::node::{ExprId, Node, PatId, TargetNode};
pub use swc_nodes::nodes::{Nodes, NodesOf};
pub use swc_nodes::walk::{Step, Visit, walk};
pub use swc_print::print::PrintNodes;
