// Which names are declared at the place that a walk over a program has reached (ECMA-262, 8.2).
ghost use Rattle.std.specs.Prelude.{◌≡◌, ◌↔◌, true, false, if◌then◌else◌, [], ◌∷◌, IfOk};
ghost use Rattle.program_scopes.specs.Scopes as scopes;
ghost use Rattle.program_scopes.specs.Trees.{Tree, Passes, MeetsRules};
ghost use Rattle.program_scopes.specs.Names as names;
ghost use Rattle.program_scopes.specs.Names.{AreOpen, Changes, Tells};

use crate::name_stack::{NameStack, since};
use std::alloc::{AllocError, Global};
use swc_context::span::Span;

/// What declares a name in a block.
#[derive(Clone, Copy, PartialEq, Eq)]
pub enum Lexical {
    /// `let`, `const`, `class`, an import, a name in a pattern after `catch`, or a function.
    Plain,
    /// A plain function in a block of sloppy code, of which there may be two of one name (B.3.3.4).
    SloppyFunction,
    /// The one name after `catch`, which `var` may declare too (B.3.4).
    CatchName,
}

/// A name that a block declares.
#[derive(Clone, Copy)]
struct InBlock {
    place: Span,
    /// The last declaration of the name in the block that is no `SloppyFunction`.
    plain: Option<Span>,
    /// The innermost declaration of the name, in this function, that is no `CatchName`.
    blocks: Option<Span>,
}

/// A scope that is open.
#[derive(Clone, Copy)]
struct Mark {
    is_function: bool,
    /// How many names blocks declared before it began.
    in_blocks: usize,
    /// How many names functions declared before it began.
    vars: usize,
    /// How many names blocks declared before the function began that it is in.
    function: usize,
}

/// The scopes that are open, and the names that they declare. The scope of the program is always open.
#[derive(Drop)]
pub struct Names<'a> {
    /// The names that blocks declare.
    in_blocks: NameStack<'a, InBlock>,
    /// The names that functions declare: by `var`, as parameters, or by functions that are in no block.
    vars: NameStack<'a, Span>,
    /// The innermost scope.
    scope: Mark,
    /// The scopes around it, the outermost first.
    around: Vec<Mark>,
}

/// The last declaration of a name in its block beside which there must be none of that kind.
fn excluding(last: Option<InBlock>, kind: Lexical) -> Option<Span>
    ensures { result ≡ names.excluding kind last }
{
    let last = last?;
    match kind {
        Lexical::SloppyFunction => last.plain,
        Lexical::Plain | Lexical::CatchName => Some(last.place),
    }
}

/// What is kept of a name, after the last one of its block and the innermost one of its function.
fn kept(place: Span, kind: Lexical, last: Option<InBlock>, innermost: Option<InBlock>) -> InBlock
    ensures { result ≡ names.kept_after place kind last innermost }
{
    let (plain, blocks) = match kind {
        Lexical::Plain => (Some(place), Some(place)),
        Lexical::SloppyFunction => (excluding(last, kind), Some(place)),
        Lexical::CatchName => (Some(place), blocks(innermost)),
    };
    InBlock {
        place,
        plain,
        blocks,
    }
}

/// What a `var` within the block of a name is against.
fn blocks(innermost: Option<InBlock>) -> Option<Span>
    ensures { result ≡ names.blocks innermost }
{
    innermost?.blocks
}

/// The first number for a function, the other one for a block.
fn by_kind(is_function: bool, of_function: usize, of_block: usize) -> usize
    ensures { result ≡ (if is_function then of_function else of_block) }
{
    if is_function { of_function } else { of_block }
}

impl<'a> Names<'a> {
    /// No names, in the scope of a program. Takes no memory.
    pub fn new(alloc: Global) -> Names<'a>
        ensures { AreOpen result (scopes.nothing true ∷ []) }
    {
        Names {
            in_blocks: NameStack::new(alloc),
            vars: NameStack::new(alloc),
            scope: Mark {
                is_function: true,
                in_blocks: 0,
                vars: 0,
                function: 0,
            },
            around: Vec::new(alloc),
        }
    }

    /// Begins a scope.
    fn begin(&mut self, is_function: bool) -> Result<(), AllocError>
        ensures { IfOk result (λ _. Changes self.old self.new (scopes.begun is_function)) }
    {
        let in_blocks = self.in_blocks.len();
        let function = by_kind(is_function, in_blocks, self.scope.function);
        self.around.push(self.scope)?;
        self.scope = Mark {
            is_function,
            in_blocks,
            vars: self.vars.len(),
            function,
        };
        Ok(())
    }

    /// Begins the scope of a block. The only error is out of memory.
    pub fn begin_scope(&mut self) -> Result<(), AllocError>
        ensures { IfOk result (λ _. Changes self.old self.new (scopes.begun false)) }
    {
        self.begin(false)
    }

    /// Begins the scope of a function. The only error is out of memory.
    pub fn begin_function(&mut self) -> Result<(), AllocError>
        ensures { IfOk result (λ _. Changes self.old self.new (scopes.begun true)) }
    {
        self.begin(true)
    }

    /// Ends the innermost scope, if it is not that of the program. What was declared in a block as `var` does is then
    /// declared so in the scope around it.
    pub fn end(&mut self)
        ensures { Changes self.old self.new scopes.ended }
    {
        match self.around.pop() {
            Some(mark) => {
                let vars = by_kind(self.scope.is_function, self.scope.vars, self.vars.len());
                self.in_blocks.truncate(self.scope.in_blocks);
                self.vars.truncate(vars);
                self.scope = mark;
            }
            None => {}
        }
    }

    /// Whether the innermost scope is that of the program.
    pub fn is_of_program(&self) -> bool
        ensures { Tells self.now scopes.is_of_program result }
    {
        self.around.is_empty()
    }

    /// Whether the innermost scope is that of a function or of the program.
    pub fn is_in_no_block(&self) -> bool
        ensures { Tells self.now scopes.is_in_no_block result }
    {
        self.scope.is_function
    }

    /// Whether an open scope declares the name.
    pub fn has(&self, name: &str) -> bool
        ensures { Tells self.now (scopes.is_declared name.now) result }
    {
        self.in_blocks.find(name).is_some() || self.vars.find(name).is_some()
    }

    /// Where the innermost scope declares the name as `var` does.
    fn var_of(&self, name: &str) -> Option<Span>
        ensures { Tells self.now (scopes.against_parameter name.now) result }
    {
        since(self.vars.find(name), self.scope.vars)
    }

    /// The same for a name of that kind, if there must not be both in one block.
    fn var_beside(&self, name: &str, kind: Lexical) -> Option<Span>
        ensures { Tells self.now (λ ss. scopes.var_beside kind (scopes.against_parameter name.now ss)) result }
    {
        match kind {
            Lexical::Plain | Lexical::SloppyFunction => self.var_of(name),
            Lexical::CatchName => None,
        }
    }

    /// What a `var` here is against.
    fn against_var(&self, name: &str) -> Option<Span>
        ensures { Tells self.now (scopes.against_var name.now) result }
    {
        blocks(since(self.in_blocks.find(name), self.scope.function))
    }

    /// Declares a name as `var` does.
    fn put_var(&mut self, name: &'a str, place: Span) -> Result<(), AllocError>
        ensures { IfOk result (λ _. Changes self.old self.new (scopes.as_var name.now place)) }
    {
        self.vars.push(name, place)?;
        Ok(())
    }

    /// Declares a name in the innermost scope. Answers the place of a declaration that it must not be beside. The only
    /// error is out of memory.
    pub fn declare_in_block(
        &mut self,
        name: &'a str,
        place: Span,
        kind: Lexical,
    ) -> Result<Option<Span>, AllocError>
        ensures against { IfOk result (λ first. Tells self.old (scopes.against_in_block kind name.now) first) }
        ensures declared { IfOk result (λ _. Changes self.old self.new (scopes.in_block name.now kind place)) }
    {
        let found = self.in_blocks.find(name);
        let last = since(found, self.scope.in_blocks);
        let innermost = since(found, self.scope.function);
        let first = excluding(last, kind).or(self.var_beside(name, kind));
        self.in_blocks
            .push(name, kept(place, kind, last, innermost))?;
        Ok(first)
    }

    /// Declares a name in the innermost function, as `var` does. Answers the place of a declaration that it must not be
    /// beside. The only error is out of memory.
    pub fn declare_in_function(
        &mut self,
        name: &'a str,
        place: Span,
    ) -> Result<Option<Span>, AllocError>
        ensures against { IfOk result (λ first. Tells self.old (scopes.against_var name.now) first) }
        ensures declared { IfOk result (λ _. Changes self.old self.new (scopes.as_var name.now place)) }
    {
        let first = self.against_var(name);
        self.put_var(name, place)?;
        Ok(first)
    }

    /// Declares a parameter of the innermost function. Answers the place of one that has its name already. The only
    /// error is out of memory.
    pub fn declare_parameter(
        &mut self,
        name: &'a str,
        place: Span,
    ) -> Result<Option<Span>, AllocError>
        ensures against { IfOk result (λ first. Tells self.old (scopes.against_parameter name.now) first) }
        ensures declared { IfOk result (λ _. Changes self.old self.new (scopes.as_var name.now place)) }
    {
        let first = self.var_of(name);
        self.put_var(name, place)?;
        Ok(first)
    }
}

/// A walk over the scopes of a program, in the order of the text, finds nothing wrong if and only if the scopes meet the
/// rules of ECMA-262.
pub fn names_by_tree()
    ensures law { (t : Tree) → Passes t (scopes.nothing true ∷ []) ↔ MeetsRules t }
{}
