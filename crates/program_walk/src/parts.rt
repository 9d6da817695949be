// What is in a part of a program.
use crate::walk::{Part, span_of};
use std::alloc::{AllocError, Global};
use swc_ast::expr::BlockStmtOrExpr;
use swc_ast::prop::PropName;
use swc_context::span::Span;
use swc_nodes::apart::{PartId, Parts};
use swc_nodes::node::{ExprId, Node, PatId, PropNode, TargetNode};
use tree_types::tree::{
    CatchClause, Class, DefaultExport, ForInit, ForTarget, Function, Member, MemberKey, MemberKind,
    Program, StatementId, StatementKind, SwitchCase, VariableDeclaration,
};

/// A part, and its place.
#[derive(Clone, Copy)]
pub(crate) struct Child {
    pub(crate) part: Part,
    pub(crate) span: Span,
}

/// What was found in a part, in any order.
#[derive(Drop)]
struct Found<'a> {
    alloc: Global,
    program: &'a Program,
    children: Vec<Child>,
}

/// What is in a part, in any order. The only error is out of memory.
pub(crate) fn parts_of(
    alloc: Global,
    program: &Program,
    part: Part,
) -> Result<Vec<Child>, AllocError> {
    let mut found = Found {
        alloc,
        program,
        children: Vec::new(alloc),
    };
    match part {
        Part::Statement(id) => {
            if let Some(statement) = program.statement(id) {
                found.statement(&statement.kind)?;
            }
        }
        Part::Expr(id) => found.node(id.0)?,
        Part::Pat(id) => found.node(id.0)?,
        Part::Function(place) => {
            if let Some(function) = program.function(place) {
                found.function(function)?;
            }
        }
        Part::Class(place) => {
            if let Some(class) = program.class(place) {
                found.class(class, place)?;
            }
        }
        Part::Member { class, index } => {
            if let Some(class) = program.class(class)
                && let Some(member) = class.members.get(index)
            {
                found.member(member)?;
            }
        }
        Part::Block(place) => {
            if let Some(block) = program.block(place) {
                found.statements(&block.statements)?;
            }
        }
    }
    Ok(found.children)
}

impl Found<'_> {
    fn add(&mut self, part: Part) -> Result<(), AllocError> {
        if let Some(span) = span_of(self.program, part) {
            self.children.push(Child { part, span })?;
        }
        Ok(())
    }

    fn expr(&mut self, id: ExprId) -> Result<(), AllocError> {
        self.add(Part::Expr(id))
    }

    fn some_expr(&mut self, id: Option<ExprId>) -> Result<(), AllocError> {
        match id {
            Some(id) => self.expr(id),
            None => Ok(()),
        }
    }

    fn statements(&mut self, list: &[StatementId]) -> Result<(), AllocError> {
        for id in list {
            self.add(Part::Statement(*id))?;
        }
        Ok(())
    }

    fn some_statement(&mut self, id: Option<StatementId>) -> Result<(), AllocError> {
        match id {
            Some(id) => self.add(Part::Statement(id)),
            None => Ok(()),
        }
    }

    /// Adds what is in a statement.
    fn statement(&mut self, kind: &StatementKind) -> Result<(), AllocError> {
        match kind {
            StatementKind::Block(list) => self.statements(list),
            StatementKind::Expr(expr)
            | StatementKind::Directive(expr)
            | StatementKind::Throw(expr) => self.expr(*expr),
            StatementKind::Return(expr) => self.some_expr(*expr),
            StatementKind::If {
                test,
                consequent,
                alternate,
            } => {
                self.expr(*test)?;
                self.some_statement(Some(*consequent))?;
                self.some_statement(*alternate)
            }
            StatementKind::DoWhile { body, test } | StatementKind::While { test, body } => {
                self.expr(*test)?;
                self.some_statement(Some(*body))
            }
            StatementKind::With { object, body } => {
                self.expr(*object)?;
                self.some_statement(Some(*body))
            }
            StatementKind::For {
                init,
                test,
                update,
                body,
            } => {
                self.init(init)?;
                self.some_expr(*test)?;
                self.some_expr(*update)?;
                self.some_statement(Some(*body))
            }
            StatementKind::ForIn { left, right, body }
            | StatementKind::ForOf {
                left,
                right,
                body,
                ..
            } => {
                self.target(left)?;
                self.expr(*right)?;
                self.some_statement(Some(*body))
            }
            StatementKind::Switch {
                discriminant,
                cases,
            } => {
                self.expr(*discriminant)?;
                self.cases(cases)
            }
            StatementKind::Try {
                block,
                handler,
                finalizer,
            } => {
                self.some_statement(Some(*block))?;
                self.handler(*handler)?;
                self.some_statement(*finalizer)
            }
            StatementKind::Variables(variables) => self.variables(variables),
            kind => self.declaration(kind),
        }
    }

    /// Adds what is in a function, a class, an export or a statement with a label; in others nothing is.
    fn declaration(&mut self, kind: &StatementKind) -> Result<(), AllocError> {
        match kind {
            StatementKind::Labeled { body, .. } => self.some_statement(Some(*body)),
            StatementKind::ExportDeclaration(id) => self.some_statement(Some(*id)),
            StatementKind::Function(place)
            | StatementKind::ExportDefault(DefaultExport::Function(place)) => {
                self.add(Part::Function(*place))
            }
            StatementKind::Class(place)
            | StatementKind::ExportDefault(DefaultExport::Class(place)) => {
                self.add(Part::Class(*place))
            }
            StatementKind::ExportDefault(DefaultExport::Expr(expr)) => self.expr(*expr),
            _ => Ok(()),
        }
    }

    fn init(&mut self, init: &Option<ForInit>) -> Result<(), AllocError> {
        match init {
            Some(ForInit::Variables(variables)) => self.variables(variables),
            Some(ForInit::Expr(expr)) => self.expr(*expr),
            None => Ok(()),
        }
    }

    fn target(&mut self, target: &ForTarget) -> Result<(), AllocError> {
        match target {
            ForTarget::Variables(variables) => self.variables(variables),
            ForTarget::Pat(pat) => self.add(Part::Pat(*pat)),
        }
    }

    fn variables(&mut self, variables: &VariableDeclaration) -> Result<(), AllocError> {
        for declarator in &variables.declarators {
            self.add(Part::Pat(declarator.id))?;
            self.some_expr(declarator.init)?;
        }
        Ok(())
    }

    fn cases(&mut self, cases: &[SwitchCase]) -> Result<(), AllocError> {
        for case in cases {
            self.some_expr(case.test)?;
            self.statements(&case.consequent)?;
        }
        Ok(())
    }

    fn handler(&mut self, handler: Option<CatchClause>) -> Result<(), AllocError> {
        let Some(handler) = handler else {
            return Ok(());
        };
        if let Some(param) = handler.param {
            self.add(Part::Pat(param))?;
        }
        self.some_statement(Some(handler.body))
    }

    fn function(&mut self, function: &Function) -> Result<(), AllocError> {
        self.pats(&function.params)?;
        self.add(Part::Block(function.body))
    }

    fn pats(&mut self, pats: &[PatId]) -> Result<(), AllocError> {
        for pat in pats {
            self.add(Part::Pat(*pat))?;
        }
        Ok(())
    }

    fn class(&mut self, class: &Class, place: Span) -> Result<(), AllocError> {
        self.some_expr(class.heritage)?;
        for index in 0..class.members.len() {
            self.add(Part::Member {
                class: place,
                index,
            })?;
        }
        Ok(())
    }

    fn member(&mut self, member: &Member) -> Result<(), AllocError> {
        match &member.kind {
            MemberKind::Method { key, function, .. } => {
                self.key(key)?;
                self.function(function)
            }
            MemberKind::Field { key, value } => {
                self.key(key)?;
                self.some_expr(*value)
            }
            MemberKind::StaticBlock(place) => self.add(Part::Block(*place)),
        }
    }

    fn key(&mut self, key: &MemberKey) -> Result<(), AllocError> {
        match key {
            MemberKey::Prop(PropName::Computed(computed)) => self.expr(computed.expr),
            _ => Ok(()),
        }
    }

    /// Adds what is in the expression or the pattern that has the number.
    fn node(&mut self, number: usize) -> Result<(), AllocError> {
        let Some(node) = self.program.nodes.node(ExprId(number)) else {
            return Ok(());
        };
        let mut listed = Vec::new(self.alloc);
        node.list(&mut listed)?;
        for part in listed {
            self.add(match part {
                PartId::Expr(id) | PartId::Target(TargetNode::Simple(id)) => Part::Expr(id),
                PartId::Pat(id) | PartId::Target(TargetNode::Pat(id)) => Part::Pat(id),
            })?;
        }
        self.bodies(node)
    }

    /// Adds the functions, classes and blocks of a node.
    fn bodies(&mut self, node: &Node<Span, Span, Span>) -> Result<(), AllocError> {
        match node {
            Node::Fn(place) => self.add(Part::Function(*place)),
            Node::Class(place) => self.add(Part::Class(*place)),
            Node::Arrow { body, .. } => match &**body {
                BlockStmtOrExpr::BlockStmt(place) => self.add(Part::Block(*place)),
                BlockStmtOrExpr::Expr(_) => Ok(()),
            },
            Node::Object { props, .. } => self.methods(props),
            _ => Ok(()),
        }
    }

    fn methods(&mut self, props: &[PropNode<Span>]) -> Result<(), AllocError> {
        for prop in props {
            match prop {
                PropNode::Method { function, .. } => self.add(Part::Block(function.body))?,
                PropNode::Getter { body, .. } | PropNode::Setter { body, .. } => {
                    self.add(Part::Block(*body))?
                }
                _ => {}
            }
        }
        Ok(())
    }
}
