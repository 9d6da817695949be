// The members of classes (ECMA-262, 15.7).
ghost use Rattle.std.specs.Prelude.{◌≡◌, ◌≤◌, OnOk};
ghost use Rattle.statement_trees.specs.Contexts.{context_of, work, Takes};

use crate::body::STAR;
use crate::reader::Reader;
use swc_ecma_parser::ast::prop::PropName;
use swc_ecma_parser::context::error::{PResult, Wanted};
use swc_ecma_parser::context::span::{BytePos, Span};
use swc_ecma_parser::input::token::Token;
use swc_ecma_parser::nodes::node::ExprId;
use tree_types::tree::{Function, Member, MemberKey, MemberKind, MethodKind};

/// What is before the key of a member.
#[derive(Clone, Copy)]
struct Modifiers {
    is_static: bool,
    is_async: bool,
    is_generator: bool,
    is_getter: bool,
    is_setter: bool,
}

impl Modifiers {
    /// Whether the member is a method, by what is before its key.
    fn is_method(self) -> bool {
        self.is_async || self.is_generator || self.is_getter || self.is_setter
    }

    /// What kind of method the member is, where it is one.
    fn kind(self, key: &MemberKey) -> MethodKind {
        if self.is_getter {
            return MethodKind::Get;
        }
        if self.is_setter {
            return MethodKind::Set;
        }
        if !self.is_static && !self.is_method() && is_constructor(key) {
            return MethodKind::Constructor;
        }
        MethodKind::Method
    }
}

/// Whether the key is the name or the string `constructor`.
fn is_constructor(key: &MemberKey) -> bool {
    match key {
        MemberKey::Prop(PropName::Ident(name)) => name.sym.as_str() == "constructor",
        MemberKey::Prop(PropName::Str(string)) => string.value.as_str() == "constructor",
        _ => false,
    }
}

impl Reader {
    /// What is after the name of a class: what it extends, the place of its braces, and its members.
    pub(crate) fn class_tail(&mut self) -> PResult<(Option<ExprId>, Span, Vec<Member>)>
        ensures context { context_of self.new ≡ context_of self.old }
    {
        let heritage = self.heritage()?;
        let start = self.start();
        self.expect(&Token::LBrace, Wanted::LBrace)?;
        let mut members = Vec::new(self.alloc);
        while !self.eat(&Token::RBrace) {
            if let Some(member) = self.member()? {
                let pushed = members.push(member);
                self.kept(pushed)?;
            }
        }
        Ok((heritage, self.span_from(start), members))
    }

    /// A member of a class, or nothing at a semicolon.
    fn member(&mut self) -> PResult<Option<Member>>
        ensures context { context_of self.new ≡ context_of self.old }
        ensures lower { work self.new ≤ work self.old }
        ensures takes { OnOk result (Takes self.old self.new) }
    {
        if self.eat(&Token::Semi) {
            return Ok(None);
        }
        let start = self.start();
        let is_static = self.eat_modifier("static");
        let kind = if is_static && self.at(&Token::LBrace) {
            let context = self.context();
            MemberKind::StaticBlock(self.block_in(context.static_block())?)
        } else {
            self.keyed(is_static)?
        };
        Ok(Some(self.ended_member(start, is_static, kind)))
    }

    fn ended_member(&mut self, start: BytePos, is_static: bool, kind: MemberKind) -> Member
        ensures context { context_of self.new ≡ context_of self.old }
        ensures lower { work self.new ≤ work self.old }
    {
        Member {
            span: self.span_from(start),
            is_static,
            kind,
        }
    }

    /// A member that has a key.
    fn keyed(&mut self, is_static: bool) -> PResult<MemberKind>
        ensures context { context_of self.new ≡ context_of self.old }
        ensures lower { work self.new ≤ work self.old }
        ensures takes { OnOk result (Takes self.old self.new) }
    {
        let is_async = self.eat_modifier("async");
        let is_generator = self.eat(&STAR);
        let is_plain = !is_async && !is_generator;
        let is_getter = is_plain && self.eat_modifier("get");
        let modifiers = Modifiers {
            is_static,
            is_async,
            is_generator,
            is_getter,
            is_setter: is_plain && !is_getter && self.eat_modifier("set"),
        };
        let key = self.key()?;
        if modifiers.is_method() || self.at(&Token::LParen) {
            return self.method(modifiers, key);
        }
        let value = self.field_value()?;
        self.end_statement()?;
        Ok(MemberKind::Field { key, value })
    }

    /// The function of a method.
    fn method(&mut self, modifiers: Modifiers, key: MemberKey) -> PResult<MemberKind>
        ensures context { context_of self.new ≡ context_of self.old }
        ensures lower { work self.new ≤ work self.old }
    {
        let (is_async, is_generator) = (modifiers.is_async, modifiers.is_generator);
        let context = self.context();
        let start = self.start();
        let params = self.params_in(context.method_params(is_async, is_generator))?;
        let body = self.block_in(context.method_block(is_async, is_generator))?;
        let function = Function {
            span: self.span_from(start),
            name: None,
            params,
            body,
            is_async,
            is_generator,
        };
        Ok(MemberKind::Method {
            kind: modifiers.kind(&key),
            key,
            function,
        })
    }

    /// The value of a field, or nothing.
    fn field_value(&mut self) -> PResult<Option<ExprId>>
        ensures context { context_of self.new ≡ context_of self.old }
        ensures lower { work self.new ≤ work self.old }
    {
        let context = self.context();
        self.set_context(context.class_field());
        let answer = self.value(false);
        self.set_context(context);
        answer
    }

    /// The key of a member, which may be a private name.
    fn key(&mut self) -> PResult<MemberKey>
        ensures context { context_of self.new ≡ context_of self.old }
        ensures lower { work self.new ≤ work self.old }
        ensures takes { OnOk result (Takes self.old self.new) }
    {
        if self.at(&Token::Hash) {
            return Ok(MemberKey::Private(self.private_name()?));
        }
        Ok(MemberKey::Prop(self.prop_name()?))
    }
}
