// Functions, classes and their blocks.
use crate::pieces::Pieces;
use swc_ast::ident::Ident;
use swc_context::span::Span;
use swc_nodes::node::ExprId;
use tree_types::tree::{Class, Function, Member, MemberKey, MemberKind, MethodKind};

impl<'a> Pieces<'a> {
    /// The function at the place.
    pub(crate) fn function_at(&mut self, kind: &'static str, place: Span) {
        let program = self.program;
        match program.function(place) {
            Some(function) => self.function(kind, function),
            None => self.missing(),
        }
    }

    fn function(&mut self, kind: &'static str, function: &'a Function) {
        self.open(kind, function.span);
        self.opt_name("id", &function.name);
        self.function_flags(function.is_generator, function.is_async);
        self.pats("params", &function.params);
        self.end_function(function.body);
    }

    /// A field that is a name, or null.
    pub(crate) fn opt_name(&mut self, field: &'static str, name: &'a Option<Ident>) {
        self.field(field);
        match name {
            Some(name) => self.name(name.span, name.sym.as_str()),
            None => self.missing(),
        }
    }

    /// The block of a function at the place.
    pub(crate) fn block_at(&mut self, place: Span) {
        let program = self.program;
        self.open("BlockStatement", place);
        match program.block(place) {
            Some(block) => self.statements("body", &block.statements),
            None => self.null("body"),
        }
        self.close();
    }

    /// The class at the place.
    pub(crate) fn class_at(&mut self, kind: &'static str, place: Span) {
        let program = self.program;
        match program.class(place) {
            Some(class) => self.class(kind, class),
            None => self.missing(),
        }
    }

    fn class(&mut self, kind: &'static str, class: &'a Class) {
        self.open(kind, class.span);
        self.opt_name("id", &class.name);
        self.opt_part("superClass", class.heritage);
        self.field("body");
        self.open("ClassBody", class.body_span);
        self.open_list("body");
        for (index, member) in class.members.iter().enumerate() {
            self.comma(index);
            self.class_member(member);
        }
        self.close_list();
        self.close();
        self.close();
    }

    fn class_member(&mut self, member: &'a Member) {
        match &member.kind {
            MemberKind::Method {
                kind,
                key,
                function,
            } => {
                self.open("MethodDefinition", member.span);
                self.flag("static", member.is_static);
                self.member_key(key);
                self.word("kind", method_kind(*kind));
                self.field("value");
                self.function("FunctionExpression", function);
                self.close();
            }
            MemberKind::Field { key, value } => self.class_field(member, key, *value),
            MemberKind::StaticBlock(place) => self.static_block(member.span, *place),
        }
    }

    fn class_field(&mut self, member: &'a Member, key: &'a MemberKey, value: Option<ExprId>) {
        self.open("PropertyDefinition", member.span);
        self.flag("static", member.is_static);
        self.member_key(key);
        self.opt_part("value", value);
        self.close();
    }

    /// The block of a `static` block.
    fn static_block(&mut self, span: Span, place: Span) {
        let program = self.program;
        self.open("StaticBlock", span);
        match program.block(place) {
            Some(block) => self.statements("body", &block.statements),
            None => self.null("body"),
        }
        self.close();
    }

    /// Whether the key of a member is computed, and the key.
    fn member_key(&mut self, key: &'a MemberKey) {
        match key {
            MemberKey::Prop(key) => self.key(key),
            MemberKey::Private(name) => {
                self.flag("computed", false);
                self.field("key");
                self.private(name);
            }
        }
    }
}

/// What ESTree calls a kind of method.
fn method_kind(kind: MethodKind) -> &'static str {
    match kind {
        MethodKind::Constructor => "constructor",
        MethodKind::Method => "method",
        MethodKind::Get => "get",
        MethodKind::Set => "set",
    }
}
