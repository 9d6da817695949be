// The parser of rows.
ghost use Rattle.std.specs.Prelude.{◌≡◌};
ghost use Rattle.swc_ecma_parser.specs.Calls.{nodes_of};

use lower_rows::hooks::TestBodies;
use lower_rows::source::TestInput;
use lower_rows::trees::TestNodes;
use std::alloc::Global;
use swc_ast::ident::PrivateName;
use swc_context::context::Context;
use swc_context::error::{Error, PResult};
use swc_ecma_parser::parser::Parser;
use swc_input::buffer::Buffer;
use swc_input::tokens::Tokens;
use swc_nodes::node::{ExprId, PatId};

/// The parser of all rows.
pub struct TestParser {
    pub(crate) inner: Parser<TestInput, TestBodies>,
}

// Not derived: so dropping a parser is a call, and is proved here alone.
impl Drop for TestParser {
    fn drop(self) {
        let TestParser { inner: _ } = self;
    }
}

impl TestParser {
    pub fn new(alloc: Global, source: TestInput, hook: TestBodies) -> TestParser {
        TestParser::of(Parser::new_from(alloc, source, hook))
    }

    /// The parser, which has read something already.
    pub fn of(inner: Parser<TestInput, TestBodies>) -> TestParser {
        TestParser { inner }
    }

    /// How many nodes it has, and another parser over its buffer and its hook.
    pub fn next_parser(self, alloc: Global) -> (usize, TestParser) {
        let TestParser { inner } = self;
        let (buffer, nodes, hook) = inner.into_parts();
        (
            nodes.len(),
            TestParser::of(Parser::over(alloc, buffer, hook)),
        )
    }

    /// Its buffer.
    pub fn buffer(&mut self) -> &mut Buffer<TestInput> {
        self.inner.buffer()
    }

    /// Its source.
    pub fn source(&mut self) -> &mut TestInput {
        self.inner.input()
    }

    /// The context of its source.
    pub fn context(&mut self) -> Context {
        self.inner.input().ctx()
    }

    /// Its nodes.
    pub fn nodes(&self) -> &TestNodes
        ensures { result.now ≡ nodes_of self.now.inner }
    {
        self.inner.nodes()
    }

    /// As `Parser::take_errors`.
    pub fn take_errors(&mut self) -> Vec<Error> {
        self.inner.take_errors()
    }

    /// As `Parser::at_end`.
    pub fn at_end(&mut self) -> PResult<bool> {
        self.inner.at_end()
    }

    /// As `Parser::limit_nesting`.
    pub fn limit_nesting(&mut self, levels: usize) {
        self.inner.limit_nesting(levels);
    }

    /// As `Parser::is_too_deep`.
    pub fn is_too_deep(&self) -> bool {
        self.inner.is_too_deep()
    }

    /// As `Parser::parse_expr_id`.
    pub fn parse_expr_id(&mut self) -> PResult<ExprId> {
        self.inner.parse_expr_id()
    }

    /// As `Parser::parse_pat_id`.
    pub fn parse_pat_id(&mut self) -> PResult<PatId> {
        self.inner.parse_pat_id()
    }

    /// As `Parser::parse_private_name`.
    pub fn parse_private_name(&mut self) -> PResult<PrivateName> {
        self.inner.parse_private_name()
    }
}
