// The parser that is called from outside.
ghost use Rattle.std.specs.Prelude.{◌≡◌, ◌≢◌, ◌||◌, ℕ, true, false, [], None, IfErr, IfOk, OnOk, MatchResult};
ghost use Rattle.std.specs.Borrow.{sem, follows};
ghost use Rattle.swc_input.specs.Buffer.{last_position, previous, source, state_of, with_source, fresh};
ghost use Rattle.swc_input.specs.contracts.buffer.Buffer.{the_row as buffer_row};
ghost use Rattle.swc_nodes.specs.Commas.{comma_at, part_commas, Recalls};
ghost use Rattle.swc_nodes.specs.NumberedTrees.{floor};
ghost use Rattle.swc_nodes.specs.GrowingNodes.{count, seat_at, tree_at, bare_at, Apart, Left, CutTo};
ghost use Rattle.swc_grammar.specs.Symbols.{Expr, Assign, Level, Unary};
ghost use Rattle.swc_ecma_parser.specs.Calls.{buffer_of, hook_of, nodes_of, commas_of, with_buffer, with_hook, with_nodes, with_bound, bound_of, met_bound, has_failed, standing, Ends, wants_memory, found_import, parser_failed, Called, SeesEnd, Kept, MovesOut, RemembersParts};
ghost use Rattle.swc_ecma_parser.specs.Promise.{Promised, PromisedLit, in_boxes, by_number};
ghost use Rattle.swc_ecma_parser.specs.Finishing.{HandsOut, KeepsChecked, MovesCheckedOut};
ghost use Rattle.swc_ecma_parser.specs.contracts.parser.Parser.{the_row};

use crate::finishing::check_answer;
use crate::taking::{Covers, Take};
use std::alloc::{AllocError, Global};
use swc_ast::for_head::ForHead;
use swc_ast::lit::Lit;
use swc_ast::pat::Pat;
use swc_bodies::bodies::{Bodies, BodyForms, ExprOf};
use swc_context::error::{Error, PResult, SyntaxError};
use swc_context::span::{BytePos, Span};
use swc_input::buffer::Buffer;
use swc_input::tokens::Tokens;
use swc_nodes::commas::TrailingCommas;
use swc_nodes::node::ExprId;
use swc_nodes::nodes::{Nodes, NodesOf};
use swc_primary::primary::parse_lit;
use swc_productions::ring::{parse_assignment_expr, parse_bin_expr, parse_expr, parse_unary_expr};
use swc_steps::productions::Productions;
use swc_steps::tokens::is_out_of_memory;

mod args;
mod for_heads;
mod hooked;
mod lhs;
mod names;
pub mod object;
mod params;
mod pat;
pub mod refine;
mod verifier;

/// What the head of a `for` begins with, over a hook's values.
pub type ForHeadOf<B> = ForHead<
    <B as BodyForms>::Fun,
    <B as BodyForms>::Class,
    <B as BodyForms>::Block,
>;

/// A pattern over a hook's values.
pub type PatOf<B> = Pat<<B as BodyForms>::Fun, <B as BodyForms>::Class, <B as BodyForms>::Block>;

/// A parser over a source of tokens, with a hook for functions, classes and blocks.
///
/// Each call that returns a `PResult` reads on from where the last one stopped, also after a refusal, and keeps the
/// context of the source. A fault beside a returned tree is recorded; `take_errors` returns it. Out of memory is
/// refused as `OutOfMemory`, at the end of the token before. From then on each of these calls is refused as
/// `ParserFailed`, at the token before.
///
/// Where early errors are on and not ignored, the calls on expressions and patterns follow the written grammar:
///
/// - a tree returned with no fault recorded is derived from the tokens consumed (`sound`);
/// - over a listed source, with a faithful hook, a tree that is derived up to the end or a hard stop is returned,
///   unless memory runs out (`complete`);
/// - no other tree is derived from these tokens (`one_tree`);
/// - operators group by precedence (`grouped`), no node is `Invalid` (`valid`), and patterns bind only names (`binds`).
///
/// Where the syntax is pedantic (`Syntax::pedantic`), the result of a call is searched, arrow functions included, for
/// properties `name = value` of object literals that are left (ECMA-262, 13.2.5.1). Each is recorded as
/// `AssignProperty`, at the property, in the order of the source. So a tree returned with no fault recorded has none.
/// Not searched are results that may yet become patterns or parts of them: those of `parse_args_or_pats`, `parse_tpl`,
/// `parse_prop_name` and `parse_object_prop`. In a tree returned with no fault recorded `#` and a name are only on the
/// left of `in` (13.10.1), or name a link (`privates`).
pub struct Parser<I: Tokens, B: Bodies<I>> {
    productions: Productions<I, B>,
    commas: TrailingCommas,
    failed: bool,
    room: usize,
}

// Not derived: so dropping a parser is a call, and is proved here alone.
impl<I: Tokens, B: Bodies<I>> Drop for Parser<I, B> {
    fn drop(self) {
        let Parser {
            productions: _,
            commas: _,
            failed: _,
            room: _,
        } = self;
    }
}

impl<I: Tokens, B: Bodies<I>> Parser<I, B> {
    /// A parser that has read nothing. Takes no memory, and keeps the source's context.
    pub fn new_from(alloc: Global, input: I, bodies: B) -> Parser<I, B>
        ensures fresh { buffer_of result ≡ fresh input (last_position (buffer_of result)) }
        ensures hook { hook_of result ≡ bodies }
        ensures runs { has_failed result ≡ false }
        ensures nodes { count (nodes_of result) ≡ 0 }
        ensures commas { (start : ℕ) → comma_at (commas_of result) start ≡ None }
        ensures module_item { found_import result ≡ false }
        ensures unbounded { bound_of result ≡ usize.MAX }
        ensures not_deep { met_bound result ≡ false }
    {
        Parser::over(alloc, Buffer::new(input), bodies)
    }

    /// A parser over a buffer, which may already hold tokens: the buffer that a hook was called with, or that another
    /// parser left. The parser reads these tokens first, and then those of the source. Takes no memory, and keeps the
    /// context.
    pub fn over(alloc: Global, input: Buffer<I>, bodies: B) -> Parser<I, B>
        ensures buffer { buffer_of result ≡ input }
        ensures hook { hook_of result ≡ bodies }
        ensures runs { has_failed result ≡ false }
        ensures nodes { count (nodes_of result) ≡ 0 }
        ensures commas { (start : ℕ) → comma_at (commas_of result) start ≡ None }
        ensures module_item { found_import result ≡ false }
        ensures unbounded { bound_of result ≡ usize.MAX }
        ensures not_deep { met_bound result ≡ false }
    {
        Parser {
            productions: Productions {
                alloc,
                input,
                bodies,
                nodes: Nodes::new(alloc),
                found_module_item: false,
                too_deep: false,
            },
            commas: TrailingCommas::new(alloc),
            failed: false,
            room: usize::MAX,
        }
    }

    /// Bounds how deeply later calls may nest. What is deeper is refused as `OutOfMemory`, at the end of the token
    /// before, and the parser has failed; `is_too_deep` tells this from a refused request for memory. A new parser has
    /// the bound `usize::MAX`, which is none.
    ///
    /// A level is an assignment expression, an operand after a prefix operator or `await`, what `new` constructs, or an
    /// array or object pattern. So parentheses, brackets, arguments, templates and bodies of arrow functions each take
    /// one, and chains of operators or links none. What a hook reads isn't counted: a parser in a hook needs its own
    /// bound.
    ///
    /// At most 20 calls of productions are nested for each level, and 20 more. This is proved. How much stack they take
    /// is only measured (docs/SPEED.md).
    pub fn limit_nesting(&mut self, levels: usize)
        ensures { self.new ≡ with_bound levels self.old }
    {
        self.room = levels;
    }

    /// Whether the parser has failed because something is nested deeper than `limit_nesting` allows. Then a call was
    /// refused as `OutOfMemory` though no request for memory was refused, and later calls are refused as
    /// `ParserFailed`; so it stays true. It is never true without a bound.
    pub fn is_too_deep(&self) -> bool
        ensures told { bound_of self.now ≢ usize.MAX → result ≡ met_bound self.now }
        ensures never { bound_of self.now ≡ usize.MAX → result ≡ false }
        ensures shallow { met_bound self.now ≡ false → result ≡ false }
    {
        self.room != usize::MAX && self.productions.too_deep
    }

    /// The source. The parser changes only by what is done through the returned reference.
    pub fn input(&mut self) -> &mut I
        ensures* lent { sem 𝓛 (follows (the_row I.row B.row B.Fun.row B.Class.row B.Block.row B.Fun.Spanned
            B.Class.Spanned B.Block.Spanned) I.row self.entry.ghost_name result.ghost_name
            (λ s. with_buffer (with_source s (buffer_of self.old)) self.old)) }
        ensures value { result.now ≡ source (buffer_of self.old) }
    {
        self.productions.source()
    }

    /// The buffer: what the next token is, and consuming it. The parser changes only by what is done through the
    /// returned reference, and the next call reads on from there.
    pub fn buffer(&mut self) -> &mut Buffer<I>
        ensures* lent { sem 𝓛 (follows (the_row I.row B.row B.Fun.row B.Class.row B.Block.row B.Fun.Spanned
            B.Class.Spanned B.Block.Spanned) (buffer_row I.row) self.entry.ghost_name result.ghost_name
            (λ b. with_buffer b self.old)) }
        ensures value { result.now ≡ buffer_of self.old }
    {
        self.productions.buffer()
    }

    /// The hook. The parser changes only by what is done through the returned reference.
    pub fn bodies(&mut self) -> &mut B
        ensures* lent { sem 𝓛 (follows (the_row I.row B.row B.Fun.row B.Class.row B.Block.row B.Fun.Spanned
            B.Class.Spanned B.Block.Spanned) B.row self.entry.ghost_name result.ghost_name
            (λ b. with_hook b self.old)) }
        ensures value { result.now ≡ hook_of self.old }
    {
        self.productions.hook()
    }

    /// Takes the parser apart: the buffer, the nodes and the hook. Another parser over the buffer reads on from the
    /// current token.
    pub fn into_parts(self) -> (Buffer<I>, NodesOf<B>, B)
        ensures buffer { result.0 ≡ buffer_of self }
        ensures nodes { result.1 ≡ nodes_of self }
        ensures hook { result.2 ≡ hook_of self }
    {
        let Parser {
            productions,
            commas: _,
            failed: _,
            room: _,
        } = self;
        productions.into_parts()
    }

    /// Returns the recorded faults, and empties their list. Faults that wait for the context to become a module stay.
    pub fn take_errors(&mut self) -> Vec<Error>
        ensures taken { result.items ≡ (state_of I.model (buffer_of self.old)).errors }
        ensures emptied { state_of I.model (buffer_of self.new)
            ≡ record (state_of I.model (buffer_of self.old)) { errors = [] } }
        ensures rest { self.new
            ≡ with_buffer (with_source (source (buffer_of self.new)) (buffer_of self.old)) self.old }
    {
        self.productions.input.input().take_errors()
    }

    /// Whether no token is left. Consumes nothing, and is refused only when out of memory.
    pub fn at_end(&mut self) -> PResult<bool>
        ensures { Called (SeesEnd I.model) self.old result self.new }
    {
        self.begin()?;
        let answer = self.productions.is_end();
        self.finish(answer)
    }

    /// Whether any call so far, refused or not, has read `import` and a `.`, as in `import.meta`, outside the bodies of
    /// arrow functions. No clause relates this to the tokens read.
    pub fn found_module_item(&self) -> bool
        ensures { result ≡ found_import self.now }
    {
        self.productions.found_module_item
    }

    /// The nodes of what the calls whose names end in `_id` read.
    pub fn nodes(&self) -> &NodesOf<B>
        ensures { result.now ≡ nodes_of self.now }
    {
        &self.productions.nodes
    }

    /// The same nodes, by value.
    pub fn into_nodes(self) -> NodesOf<B>
        ensures { result ≡ nodes_of self }
    {
        let Parser {
            productions,
            commas: _,
            failed: _,
            room: _,
        } = self;
        productions.into_nodes()
    }

    /// Drops all nodes. Earlier numbers become invalid.
    pub fn clear_nodes(&mut self)
        ensures none { count (nodes_of self.new) ≡ 0 }
        ensures rest { self.new ≡ with_nodes (nodes_of self.new) self.old }
    {
        self.productions.nodes.cut(0);
    }

    /// The span of the comma after the last element of the array literal, or the last property of the object literal,
    /// that begins at `start`, in bytes: of the last such literal that was returned, or made by `make_object`. Those in
    /// bodies of arrow functions aren't remembered.
    ///
    /// Boxed trees have no field for it. Among nodes it is in the literal's own.
    pub fn trailing_comma(&self, start: BytePos) -> Option<Span>
        ensures { result ≡ comma_at (commas_of self.now) start.0 }
    {
        self.commas.get(start)
    }

    /// An expression, as `parse_expr` reads it: its number among the nodes, which keeps its tree until they are let
    /// go.
    ///
    /// The nodes that were made are appended to those that there were. After a refusal the nodes are those from
    /// before.
    pub fn parse_expr_id(&mut self) -> PResult<ExprId>
        ensures promised { Promised I.model B.is_faithful B.forms by_number Expr self.old result self.new }
    {
        let start = self.begin()?;
        let answer = parse_expr(&mut self.productions, self.room);
        self.keep_checked(start, answer)
    }

    /// An expression (ECMA-262, 13.16): assignment expressions with commas between them.
    ///
    /// The end is refused as `Eof`, where the token consumed last ends. Each of the expressions is refused, and has
    /// faults recorded, as `parse_assignment_expr` does it.
    pub fn parse_expr(&mut self) -> PResult<Box<ExprOf<B>>>
        ensures promised { Promised I.model B.is_faithful B.forms in_boxes Expr self.old result self.new }
    {
        let start = self.begin()?;
        let answer = parse_expr(&mut self.productions, self.room);
        self.move_out_checked(start, answer)
    }

    /// An assignment expression (ECMA-262, 13.15): binary operators and their operands, as `parse_bin_expr` reads
    /// them; a conditional of such (13.14), in whose middle `in` is an operator; an assignment to a simple target, or
    /// by `=` to an array or object literal, which becomes a pattern (13.15.5); an arrow function, async or not (15.3
    /// and 15.9); or `yield` (15.5), in a generator. After a conditional, a binary operator, a prefix operator, `++`
    /// and `--` no assignment is read, and after an arrow function nothing is.
    ///
    /// The end is refused as `Eof`, where the token consumed last ends. An operand left of `=` that is no literal and
    /// no valid target is recorded as `TS2406`; left of another operator as `NotSimpleAssign`. What isn't an
    /// identifier, a member, a property of `super`, an expression in parentheses, an optional chain or such a literal
    /// is refused as `InvalidAssignTarget`. All three are at the operand. A literal left of `=` has the faults that
    /// `reparse_expr_as_pat` records of an `AssignPat`. What follows the middle of a conditional and is no `:` is
    /// refused as `Expected`, at the current token. `yield` in parameters outside a function is refused as
    /// `YieldParamInGen`, at the word; a refusal of its operand is labelled (`WithLabel`) with the place of the word
    /// and of the `*` after it.
    ///
    /// An arrow function begins with a word that may be a reference, on the line of the `=>`; with a list in
    /// parentheses, as `parse_args_or_pats` reads it, after which `=>` comes; or with `async`, on its line, and one
    /// of these. A line break between the list and `=>` is refused as `LineBreakBeforeArrow`, from the start of the
    /// list, or of `async`, through the `)`; and where the syntax is pedantic, one between the name after `async` and
    /// `=>`, from `async` through the name (15.9). The items have the faults that `parse_paren_items_as_params`
    /// records; a name in place of a list has those of an identifier, and as `eval` or `arguments` in strict code
    /// `EvalAndArgumentsInStrict`. The body is a block, which the hook reads, or an assignment expression. A binary
    /// operator after a block whose parameters are in parentheses is recorded as `TS1005`, at the operator, and
    /// read; and so is once more what then follows, unless a semicolon may be there. Before `of` in a head of `for`,
    /// `async` is an identifier, if no `=>` is after `of`, and recorded as `TS1106` unless the head is one of
    /// `for await`.
    pub fn parse_assignment_expr(&mut self) -> PResult<Box<ExprOf<B>>>
        ensures promised { Promised I.model B.is_faithful B.forms in_boxes Assign self.old result self.new }
    {
        let start = self.begin()?;
        let answer = parse_assignment_expr(&mut self.productions, self.room);
        self.move_out_checked(start, answer)
    }

    /// An assignment expression, as `parse_assignment_expr` reads it: its number among the nodes, which keeps its tree
    /// until they are dropped.
    pub fn parse_assignment_expr_id(&mut self) -> PResult<ExprId>
        ensures promised { Promised I.model B.is_faithful B.forms by_number Assign self.old result self.new }
    {
        let start = self.begin()?;
        let answer = parse_assignment_expr(&mut self.productions, self.room);
        self.keep_checked(start, answer)
    }

    /// Operands and the binary operators between them, of any precedence (ECMA-262, 13.6 to 13.13). No arrow function
    /// is read, and `async` without `function` on its line is an identifier.
    ///
    /// Records `NullishCoalescingWithLogicalOp` at a node of `||` or `&&` that is an operand of `??`, or has a `??` on
    /// its left. A prefix operator left of `**` is refused as `UnaryInExp`, at the `**`, which was consumed. Where a
    /// binary operator follows a refused left operand, `TS1109` is recorded at the operator, and a node of `Invalid`
    /// stands in for the operand, at the place of the refusal. Where the syntax is pedantic, `#` and a name are an
    /// operand before `in` alone (13.10.1): elsewhere they are recorded as `PrivateNameNotLeftOfIn`, and where the name
    /// doesn't begin where the `#` ends, refused as `SpaceBetweenHashAndIdent`, at the `#`.
    pub fn parse_bin_expr(&mut self) -> PResult<Box<ExprOf<B>>>
        ensures promised { Promised I.model B.is_faithful B.forms in_boxes (Level 1) self.old result self.new }
    {
        let start = self.begin()?;
        let answer = parse_bin_expr(&mut self.productions, self.room);
        self.move_out_checked(start, answer)
    }

    /// A unary expression (ECMA-262, 13.5): any number of `delete`, `void`, `typeof`, `+`, `-`, `~`, `!`, `++` and `--`
    /// (13.4) and `await` (15.8), and then a left-hand side (13.3), with `++` or `--` after it on the same line or
    /// without: a primary expression, `new`, `super` or `import`, with its links. A primary expression (13.2) is
    /// `this`, a literal, a regular expression, a template, an array or object literal, an identifier, `#` and a name
    /// (where the syntax is pedantic, recorded or refused as by `parse_bin_expr`), expressions in parentheses, or a
    /// function or a class, which the hook reads. Outside async code `await` is an identifier where no operand can
    /// follow: before `)`, `]`, `}`, `,`, `;`, a line break and the end. No arrow function is read, and `async` without
    /// `function` on its line is an identifier.
    ///
    /// A refused operand of `delete`, `void`, `typeof`, `+`, `-`, `~` or `!` is recorded, and a node of `Invalid`
    /// is in its place, at one position, that before the operand; after `++`, `--` and `await` it is refused.
    /// `delete` of an identifier has the fault `TS1102`, and an identifier that is a word of strict code twice
    /// `InvalidIdentInStrict`; these are recorded in modules, and wait elsewhere. What `++` and `--` can't write to is
    /// recorded as `TS2406`, at its place. `await` before `*` is refused as `AwaitStar`, at the `*`; the identifier
    /// `await` is recorded in a module as `InvalidIdentInAsync`, at the word; the operator in a function that isn't
    /// async as `AwaitInFunction`, at the token after it, and in parameters outside a function as
    /// `AwaitParamInAsync`, at the word.
    ///
    /// What begins no primary expression is refused as `TS1109`, at the current token or, at the end, at the token
    /// consumed last; `()` as `EmptyParenExpr`, at the parentheses, and an expression after dots in parentheses as
    /// `SpreadInParenExpr`, at the expression. A comma after the last expression in parentheses is recorded as
    /// `TS1109`, at the comma, and a property `name = value` of an object literal among them as `AssignProperty`, at
    /// the property, unless the syntax is pedantic. What follows an item of parentheses and is neither `,` nor `)`, and
    /// what follows an element of an array and is neither `,` nor `]`, is refused as `Expected`, at the current token,
    /// and the end there as `Eof`; what follows `#` and is no word as `ExpectedIdent`. `=>` after a list in
    /// parentheses is refused from the list's start through its `)`, as `LineBreakBeforeArrow` after a line break and
    /// as `ArrowNotAllowed` elsewhere. A refusal after `...` is labelled with the place of the dots (`WithLabel`).
    /// What the hook refuses is refused.
    pub fn parse_unary_expr(&mut self) -> PResult<Box<ExprOf<B>>>
        ensures promised { Promised I.model B.is_faithful B.forms in_boxes Unary self.old result self.new }
    {
        let start = self.begin()?;
        let answer = parse_unary_expr(&mut self.productions, self.room);
        self.move_out_checked(start, answer)
    }

    /// A literal that is no regular expression (ECMA-262, 13.2.3).
    ///
    /// The end is refused as `Eof`, where the token consumed last ends, and another token as `TS1109`.
    pub fn parse_lit(&mut self) -> PResult<Lit>
        ensures { Called (PromisedLit I.model B.forms) self.old result self.new }
    {
        self.begin()?;
        let answer = parse_lit(&mut self.productions);
        self.finish(answer)
    }

    /// As `keep` and `finish`, of a whole answer: where the syntax is pedantic, the cover names that are left in it are
    /// recorded first.
    fn keep_checked<T: Covers<B::Fun, B::Class, B::Block> + Drop>(
        &mut self,
        start: usize,
        answer: PResult<T>,
    ) -> PResult<T>
        requires { IfOk answer (λ id. Apart start (nodes_of self.old) (T.parts id)) }
        ensures { KeepsChecked I.model T.parts start self.old answer result self.new }
    {
        let answer = check_answer(&mut self.productions.input, &self.productions.nodes, answer);
        let answer = self.keep(start, answer);
        self.finish(answer)
    }

    /// As `hand_out`, of a whole answer: where the syntax is pedantic, the cover names that are left in it are recorded
    /// first.
    fn move_out_checked<T: Covers<B::Fun, B::Class, B::Block> + Drop>(
        &mut self,
        start: usize,
        answer: PResult<T>,
    ) -> PResult<T::Whole>
        requires { IfOk answer (λ x. Apart start (nodes_of self.old) (T.parts x)) }
        ensures { MovesCheckedOut I.model T.parts start self.old answer T.by T.tree result self.new }
    {
        let answer = check_answer(&mut self.productions.input, &self.productions.nodes, answer);
        self.hand_out(start, answer)
    }

    /// As `move_out` and `finish`.
    fn hand_out<T: Take<B::Fun, B::Class, B::Block> + Drop>(
        &mut self,
        start: usize,
        answer: PResult<T>,
    ) -> PResult<T::Whole>
        requires { IfOk answer (λ x. Apart start (nodes_of self.old) (T.parts x)) }
        ensures { HandsOut T.parts start self.old answer T.by T.tree result self.new }
    {
        let answer = self.move_out(start, answer);
        self.finish(answer)
    }

    /// Keeps the nodes that were made for the answer, and remembers the commas of its literals; or cuts them off
    /// after a refusal.
    fn keep<T: Take<B::Fun, B::Class, B::Block> + Drop>(
        &mut self,
        start: usize,
        answer: PResult<T>,
    ) -> PResult<T>
        requires { IfOk answer (λ id. Apart start (nodes_of self.old) (T.parts id)) }
        ensures answer { Kept (last_position (buffer_of self.old)) answer result }
        ensures commas { RemembersParts T.parts self.old answer result self.new }
        ensures nodes { MatchResult result (λ id. nodes_of self.new ≡ nodes_of self.old)
            (λ e. CutTo start (nodes_of self.old) (nodes_of self.new)) }
        ensures buffer { buffer_of self.new ≡ buffer_of self.old }
        ensures runs { standing self.new ≡ standing self.old }
    {
        let answer = self.remember(answer);
        if answer.is_err() {
            self.productions.nodes.cut(start);
        }
        answer
    }

    /// Remembers the commas of an answer's literals. Beside the answer's own refusal it is refused only when out of
    /// memory.
    fn remember<T: Take<B::Fun, B::Class, B::Block> + Drop>(
        &mut self,
        answer: PResult<T>,
    ) -> PResult<T>
        requires { IfOk answer (λ id. Apart 0 (nodes_of self.old) (T.parts id)) }
        ensures answer { Kept (last_position (buffer_of self.old)) answer result }
        ensures commas { RemembersParts T.parts self.old answer result self.new }
        ensures nodes { nodes_of self.new ≡ nodes_of self.old }
        ensures buffer { buffer_of self.new ≡ buffer_of self.old }
        ensures runs { standing self.new ≡ standing self.old }
    {
        match answer {
            Ok(id) => match id.remember(&self.productions.nodes, &mut self.commas) {
                Ok(()) => Ok(id),
                Err(_) => Err(self.productions.input.out_of_memory()),
            },
            Err(error) => Err(error),
        }
    }

    /// Moves the answer out of the nodes, remembers the commas of its literals, and cuts off the nodes that were made
    /// for it.
    fn move_out<T: Take<B::Fun, B::Class, B::Block> + Drop>(
        &mut self,
        start: usize,
        answer: PResult<T>,
    ) -> PResult<T::Whole>
        requires { IfOk answer (λ x. Apart start (nodes_of self.old) (T.parts x)) }
        ensures moved { MovesOut T.by T.tree self.old answer result }
        ensures commas { RemembersParts T.parts self.old answer result self.new }
        ensures nodes { CutTo start (nodes_of self.old) (nodes_of self.new) }
        ensures buffer { buffer_of self.new ≡ buffer_of self.old }
        ensures runs { standing self.new ≡ standing self.old }
    {
        match answer {
            Ok(numbers) => {
                let whole = self.take_out(numbers);
                self.productions.nodes.cut(start);
                match whole {
                    Ok(whole) => Ok(whole),
                    Err(_) => Err(self.productions.input.out_of_memory()),
                }
            }
            Err(error) => {
                self.productions.nodes.cut(start);
                Err(error)
            }
        }
    }

    /// Moves what has the numbers out of the nodes, once the commas of its literals are remembered.
    fn take_out<T: Take<B::Fun, B::Class, B::Block> + Drop>(
        &mut self,
        numbers: T,
    ) -> Result<T::Whole, AllocError>
        requires { Apart 0 (nodes_of self.old) (T.parts numbers) }
        ensures left { Left (floor (seat_at (nodes_of self.old)) (count (nodes_of self.old)) (T.parts numbers))
            (nodes_of self.old) (nodes_of self.new) }
        ensures moved { IfOk result (λ y. T.tree y ≡ T.by (bare_at (nodes_of self.old)) numbers) }
        ensures commas { OnOk result (Recalls (part_commas (tree_at (nodes_of self.old)) (T.parts numbers))
            (commas_of self.old) (commas_of self.new)) }
        ensures buffer { buffer_of self.new ≡ buffer_of self.old }
        ensures runs { standing self.new ≡ standing self.old }
    {
        numbers.remember(&self.productions.nodes, &mut self.commas)?;
        numbers.take(&mut self.productions.nodes, self.productions.alloc)
    }

    /// How many nodes there are; after it ran out of memory, refuses.
    fn begin(&self) -> PResult<usize>
        ensures runs { OnOk result (has_failed self.now ≡ false) }
        ensures start { IfOk result (λ k. k ≡ count (nodes_of self.now)) }
        ensures again { IfErr result
            (λ e. (has_failed self.now ≡ true) × (e ≡ parser_failed (previous (buffer_of self.now)))) }
    {
        if self.failed {
            let span = self.productions.input.prev_span();
            return Err(Error::new(span, SyntaxError::ParserFailed));
        }
        Ok(self.productions.nodes.len())
    }

    /// Remembers out of memory. Only then was something nested too deeply.
    fn finish<T>(&mut self, answer: PResult<T>) -> PResult<T>
        ensures answer { result ≡ answer }
        ensures buffer { buffer_of self.new ≡ buffer_of self.old }
        ensures nodes { nodes_of self.new ≡ nodes_of self.old }
        ensures commas { commas_of self.new ≡ commas_of self.old }
        ensures fails { Ends (standing self.old) answer self.new }
        ensures deep { wants_memory answer ≡ true → met_bound self.new ≡ met_bound self.old }
    {
        let lacks_memory = match &answer {
            Ok(_) => false,
            Err(error) => is_out_of_memory(error),
        };
        if lacks_memory {
            self.failed = true;
        } else {
            self.productions.too_deep = false;
        }
        answer
    }
}
