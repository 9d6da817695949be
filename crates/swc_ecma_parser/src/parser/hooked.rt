// Functions, classes and blocks where a statement is, which the hook reads, as calls of a parser.
ghost use Rattle.swc_ecma_parser.specs.{Calls.Called, Promise.HookReads};

use crate::parser::Parser;
use swc_bodies::bodies::Bodies;
use swc_context::error::PResult;
use swc_input::tokens::Tokens;
use swc_primary::methods::parse_block;
use swc_primary::primary::{parse_class, parse_function};

impl<I: Tokens, B: Bodies<I>> Parser<I, B> {
    /// A function declaration (ECMA-262, 15.2, 15.5, 15.6 and 15.8), from `function`, or `async` and `function` on its
    /// line: what the hook makes of it, in the context of the parser.
    ///
    /// Any other token is refused as `Expected`, at that token, and the end as `Eof`, where the token consumed last
    /// ends. What the hook refuses is refused; where the source has failed, out of memory is.
    pub fn read_fun(&mut self) -> PResult<B::Fun>
        ensures { Called (HookReads I.model B.is_faithful B.forms.fun) self.old result self.new }
    {
        self.begin()?;
        let answer = parse_function(&mut self.productions);
        self.finish(answer)
    }

    /// A class declaration (ECMA-262, 15.7), from `class`: what the hook makes of it, in the context of the parser.
    ///
    /// Refused as `read_fun`.
    pub fn read_class(&mut self) -> PResult<B::Class>
        ensures { Called (HookReads I.model B.is_faithful B.forms.class) self.old result self.new }
    {
        self.begin()?;
        let answer = parse_class(&mut self.productions);
        self.finish(answer)
    }

    /// A block (ECMA-262, 15.2.1), from `{`: what the hook makes of it, in the context of the parser.
    ///
    /// Refused as `read_fun`.
    pub fn read_block(&mut self) -> PResult<B::Block>
        ensures { Called (HookReads I.model B.is_faithful B.forms.block) self.old result self.new }
    {
        self.begin()?;
        let answer = parse_block(&mut self.productions);
        self.finish(answer)
    }
}
