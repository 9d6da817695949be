// What all productions are on: the buffer, the nodes and the hook.
ghost use Rattle.std.specs.Prelude.{◌≡◌, ◌++◌, ◌∷◌, [], true, false, None, Some, Ok, IfOk, IfErr, OnOk, IsSome, MatchOption};
ghost use Rattle.std.specs.Borrow.{sem, follows};
ghost use Rattle.swc_input.specs.Buffer.{current, context, state_of, previous, last_position, Looked, source as source_of, with_source};
ghost use Rattle.swc_input.specs.{Recording.no_memory, Kinds.at_token, contracts.buffer.Buffer.the_row as buffer_row};
ghost use Rattle.swc_grammar.specs.Tokens.{is_ref};
ghost use Rattle.swc_input.specs.Calls.{Looks};
ghost use Rattle.swc_steps.specs.Parsing.{is_strict, is_strict_in, seen};
ghost use Rattle.swc_steps.specs.{Keys.is_key_lit, contracts.productions.Productions.the_row};

use std::alloc::{AllocError, Global};
use swc_bodies::bodies::Bodies;
use swc_context::context::Context;
use swc_context::error::PResult;
use swc_context::span::{BytePos, Span};
use swc_context::word::{Keyword, Word};
use swc_input::buffer::Buffer;
use swc_input::token::Token;
use swc_input::tokens::Tokens;
use swc_nodes::node::ExprId;
use swc_nodes::nodes::NodesOf;

/// The productions of the grammar, as methods: each reads its symbol from the buffer, from the
/// current token on, and keeps the context.
///
/// `Parser` of swc_ecma_parser is over them, and says of its calls what the productions of the
/// same names record and refuse, and where. A production doesn't ask whether an earlier one ran
/// out of memory: that is left to its caller.
pub struct Productions<I: Tokens, B: Bodies<I>> {
    /// Where names are put.
    pub alloc: Global,
    /// The tokens, and the faults that were recorded.
    pub input: Buffer<I>,
    /// The nodes of the trees that were read.
    pub nodes: NodesOf<B>,
    /// Reads functions, classes and blocks.
    pub bodies: B,
    /// Whether `import.` was read.
    pub found_module_item: bool,
    /// Whether a production was refused because it would have been nested too deeply.
    pub too_deep: bool,
}

impl<I: Tokens, B: Bodies<I>> Drop for Productions<I, B> {
    fn drop(self) {
        let Productions {
            alloc: _,
            input: _,
            nodes: _,
            bodies: _,
            found_module_item: _,
            too_deep: _,
        } = self;
    }
}

impl<I: Tokens, B: Bodies<I>> Productions<I, B> {
    /// The nodes. The rest is dropped.
    pub fn into_nodes(self) -> NodesOf<B>
        ensures { result ≡ self.nodes }
    {
        let Productions {
            alloc: _,
            input: _,
            nodes,
            bodies: _,
            found_module_item: _,
            too_deep: _,
        } = self;
        nodes
    }

    /// The buffer, the nodes and the hook.
    pub fn into_parts(self) -> (Buffer<I>, NodesOf<B>, B)
        ensures { result ≡ (self.input, self.nodes, self.bodies) }
    {
        let Productions {
            alloc: _,
            input,
            nodes,
            bodies,
            found_module_item: _,
            too_deep: _,
        } = self;
        (input, nodes, bodies)
    }

    /// Whether no token is left. Consumes nothing, and is refused only where the source has failed, as out of memory.
    pub fn is_end(&mut self) -> PResult<bool>
        ensures looks { Looks I.model self.old.input result self.new.input }
        ensures end { IfOk result
            (λ r. r ≡ true → (current self.new.input ≡ None) × ((state_of I.model self.new.input).ended ≡ true)) }
        ensures token { IfOk result (λ r. r ≡ false → IsSome (current self.new.input)) }
        ensures refused { IfErr result (λ e. (e ≡ no_memory (last_position self.new.input))
            × Looked I.model self.old.input self.new.input × ((state_of I.model self.new.input).failed ≡ true)) }
        ensures nodes { self.new.nodes ≡ self.old.nodes }
    {
        Ok(!self.input.has_cur()?)
    }

    /// The source. What is written to it through the answer, and that alone, changes the productions.
    pub fn source(&mut self) -> &mut I
        ensures* lent { sem 𝓛 (follows (the_row I.row B.row B.Fun.row B.Class.row B.Block.row B.Fun.Spanned
            B.Class.Spanned B.Block.Spanned) I.row self.entry.ghost_name result.ghost_name
            (λ s. record self.old { input = with_source s self.old.input })) }
        ensures value { result.now ≡ source_of self.old.input }
    {
        self.input.input()
    }

    /// The buffer. What is done to it through the answer, and that alone, changes the productions.
    pub fn buffer(&mut self) -> &mut Buffer<I>
        ensures* lent { sem 𝓛 (follows (the_row I.row B.row B.Fun.row B.Class.row B.Block.row B.Fun.Spanned
            B.Class.Spanned B.Block.Spanned) (buffer_row I.row) self.entry.ghost_name result.ghost_name
            (λ b. record self.old { input = b })) }
        ensures value { result.now ≡ self.old.input }
    {
        &mut self.input
    }

    /// The hook. What is done to it through the answer, and that alone, changes the productions.
    pub fn hook(&mut self) -> &mut B
        ensures* lent { sem 𝓛 (follows (the_row I.row B.row B.Fun.row B.Class.row B.Block.row B.Fun.Spanned
            B.Class.Spanned B.Block.Spanned) B.row self.entry.ghost_name result.ghost_name
            (λ b. record self.old { bodies = b })) }
        ensures value { result.now ≡ self.old.bodies }
    {
        &mut self.bodies
    }

    /// The place of the current token, where it is known already, or else of the token consumed last.
    pub fn cur_span(&self) -> Span
        ensures { MatchOption (current self.now.input) (result ≡ previous self.now.input) (λ t. result ≡ t.span) }
    {
        self.input.cur_span()
    }

    /// Where the token consumed last ends, in bytes.
    pub fn last_pos(&self) -> BytePos
        ensures { result ≡ last_position self.now.input }
    {
        self.input.last_pos()
    }

    /// The place of the token consumed last.
    pub fn prev_span(&self) -> Span
        ensures { result ≡ previous self.now.input }
    {
        self.input.prev_span()
    }

    /// The context of the source.
    pub fn get_ctx(&self) -> Context
        ensures { result ≡ (state_of I.model self.now.input).context }
    {
        self.input.get_ctx()
    }

    /// The number of a node. Refused only when out of memory.
    pub fn made(&self, id: Result<ExprId, AllocError>) -> PResult<ExprId>
        ensures ok { IfOk result (λ r. id ≡ Ok r) }
        ensures refused { IfErr result (λ e. e ≡ no_memory (last_position self.now.input)) }
    {
        match id {
            Ok(id) => Ok(id),
            Err(_) => Err(self.input.out_of_memory()),
        }
    }

    /// Adds to a list. The first item takes no more memory than it needs, as many lists have one. Refused only when
    /// out of memory.
    pub fn add<T: Drop>(&self, list: &mut Vec<T>, item: T) -> PResult<()>
        ensures added { OnOk result (list.new.items ≡ list.old.items ++ item ∷ []) }
        ensures refused { IfErr result (λ e. e ≡ no_memory (last_position self.now.input)) }
    {
        if list.is_empty() && list.reserve_exact(1).is_err() {
            return Err(self.input.out_of_memory());
        }
        match list.push(item) {
            Ok(()) => Ok(()),
            Err(_) => Err(self.input.out_of_memory()),
        }
    }
}

/// Whether a literal is current that is a key: a string, a number or a big integer.
pub fn is_key_lit<I: Tokens>(input: &Buffer<I>) -> bool
    ensures value { result ≡ at_token is_key_lit (seen input.now) }
    ensures some { result ≡ true → IsSome (current input.now) }
{
    matches!(
        input.cur_debug(),
        Some(Token::Num { .. } | Token::BigInt { .. } | Token::Str { .. })
    )
}

/// Whether a word of strict code is current; `await` is one in a module alone.
pub fn is_strict_word<I: Tokens>(input: &Buffer<I>) -> bool
    ensures value { result ≡ at_token (is_strict (context I.model input.now).module) (seen input.now) }
{
    let is_module = input.get_ctx().module;
    match input.cur_debug() {
        Some(Token::Word(word)) => is_strict_text(word, is_module),
        _ => false,
    }
}

/// Whether the word is an expression by itself.
pub fn is_identifier_word(ctx: Context, word: &Word) -> bool
    ensures { result ≡ is_ref ctx word.now }
{
    match word {
        Word::Keyword(Keyword::Let) => true,
        Word::Ident(name) => !ctx.is_reserved(word) && name.as_str() != "async",
        _ => !ctx.is_reserved(word),
    }
}

/// Whether the word is no identifier in strict code; in a module `await` is none either (ECMA-262, 13.1.1).
fn is_strict_text(word: &Word, is_module: bool) -> bool
    ensures { result ≡ is_strict_in is_module word.now }
{
    match word {
        Word::Keyword(Keyword::Let | Keyword::Yield) => true,
        Word::Keyword(Keyword::Await) => is_module,
        Word::Ident(name) => name.is_strict_name(),
        _ => false,
    }
}
