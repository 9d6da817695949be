// All functions of a program.
use crate::walk::{Part, Step, Walk};
use std::alloc::{AllocError, Global};
use swc_ast::expr::BlockStmtOrExpr;
use swc_context::span::Span;
use swc_nodes::node::{ExprId, Node, PatId, PropNode};
use tree_types::tree::{Function, MemberKind, MethodKind, Program};

/// What a function is.
#[derive(Clone, Copy, Debug, PartialEq, Eq)]
pub enum FunctionKind {
    /// A declaration, or an expression that begins with `function` or `async function`.
    Function,
    Arrow,
    /// A method of a class or an object literal.
    Method,
    Getter,
    Setter,
    /// The constructor of a class.
    Constructor,
}

/// What a function does.
#[derive(Clone, Copy, Debug, PartialEq, Eq)]
pub enum Body {
    /// The block at this place (`Program::block`).
    Block(Span),
    /// The expression of an arrow function.
    Expr(ExprId),
}

/// A function of a program.
#[derive(Drop)]
pub struct FunctionPart {
    pub kind: FunctionKind,
    /// Of a method of a class from its parameters on; of one of an object literal the whole property.
    pub span: Span,
    /// The place of its own name: a key is none.
    pub name: Option<Span>,
    pub params: Vec<PatId>,
    pub body: Body,
    pub is_async: bool,
    pub is_generator: bool,
}

/// The functions that were found.
#[derive(Drop)]
struct Found {
    alloc: Global,
    functions: Vec<FunctionPart>,
}

/// All functions of a program, in the order in which their blocks or expressions are met. `static` blocks and the values
/// of fields are none. The only error is out of memory.
pub fn functions_of(alloc: Global, program: &Program) -> Result<Vec<FunctionPart>, AllocError> {
    let mut found = Found {
        alloc,
        functions: Vec::new(alloc),
    };
    let mut walk = Walk::new(alloc, program)?;
    // Each part is visited twice.
    for _ in 0..u64::MAX {
        match walk.next()? {
            Some(visit) if visit.step == Step::Enter => found.enter(program, visit.part)?,
            Some(_) => {}
            None => break,
        }
    }
    Ok(found.functions)
}

impl Found {
    /// Adds the function that a part is, or the functions that are its properties.
    fn enter(&mut self, program: &Program, part: Part) -> Result<(), AllocError> {
        match part {
            Part::Function(place) => {
                if let Some(function) = program.function(place) {
                    self.add(FunctionKind::Function, function)?;
                }
            }
            Part::Member { class, index } => {
                if let Some(class) = program.class(class)
                    && let Some(member) = class.members.get(index)
                    && let MemberKind::Method { kind, function, .. } = &member.kind
                {
                    self.add(kind_of(*kind), function)?;
                }
            }
            Part::Expr(id) => {
                if let Some(node) = program.nodes.node(id) {
                    self.node(node)?;
                }
            }
            _ => {}
        }
        Ok(())
    }

    fn add(&mut self, kind: FunctionKind, function: &Function) -> Result<(), AllocError> {
        let params = copied(self.alloc, &function.params)?;
        self.push(FunctionPart {
            kind,
            span: function.span,
            name: function.name.as_ref().map(|name| name.span),
            params,
            body: Body::Block(function.body),
            is_async: function.is_async,
            is_generator: function.is_generator,
        })
    }

    fn push(&mut self, function: FunctionPart) -> Result<(), AllocError> {
        self.functions.push(function)?;
        Ok(())
    }

    /// Adds an arrow function, or the methods of an object literal.
    fn node(&mut self, node: &Node<Span, Span, Span>) -> Result<(), AllocError> {
        match node {
            Node::Arrow {
                span,
                params,
                body,
                is_async,
            } => {
                let body = match &**body {
                    BlockStmtOrExpr::BlockStmt(place) => Body::Block(*place),
                    BlockStmtOrExpr::Expr(expr) => Body::Expr(*expr),
                };
                let params = copied(self.alloc, params)?;
                self.push(FunctionPart {
                    is_async: *is_async,
                    ..plain(FunctionKind::Arrow, *span, params, body)
                })
            }
            Node::Object { props, .. } => self.methods(props),
            _ => Ok(()),
        }
    }

    fn methods(&mut self, props: &[PropNode<Span>]) -> Result<(), AllocError> {
        for prop in props {
            self.method(prop)?;
        }
        Ok(())
    }

    fn method(&mut self, prop: &PropNode<Span>) -> Result<(), AllocError> {
        let mut params = Vec::new(self.alloc);
        match prop {
            PropNode::Method { function, .. } => {
                for param in &function.params {
                    params.push(param.pat)?;
                }
                let body = Body::Block(function.body);
                self.push(FunctionPart {
                    is_async: function.is_async,
                    is_generator: function.is_generator,
                    ..plain(FunctionKind::Method, function.span, params, body)
                })
            }
            PropNode::Getter { span, body, .. } => {
                let body = Body::Block(*body);
                self.push(plain(FunctionKind::Getter, *span, params, body))
            }
            PropNode::Setter {
                span,
                param,
                body,
                ..
            } => {
                params.push(*param)?;
                let body = Body::Block(*body);
                self.push(plain(FunctionKind::Setter, *span, params, body))
            }
            _ => Ok(()),
        }
    }
}

/// A function without a name that is no asynchronous one and no generator.
fn plain(kind: FunctionKind, span: Span, params: Vec<PatId>, body: Body) -> FunctionPart {
    FunctionPart {
        kind,
        span,
        name: None,
        params,
        body,
        is_async: false,
        is_generator: false,
    }
}

fn copied(alloc: Global, params: &[PatId]) -> Result<Vec<PatId>, AllocError> {
    let mut copy = Vec::new(alloc);
    copy.extend_from_slice(params)?;
    Ok(copy)
}

fn kind_of(kind: MethodKind) -> FunctionKind {
    match kind {
        MethodKind::Constructor => FunctionKind::Constructor,
        MethodKind::Method => FunctionKind::Method,
        MethodKind::Get => FunctionKind::Getter,
        MethodKind::Set => FunctionKind::Setter,
    }
}
