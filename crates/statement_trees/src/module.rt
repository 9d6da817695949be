// Items of modules (ECMA-262, 16.2).
ghost use Rattle.std.specs.Prelude.{◌≡◌, ◌+◌, ◌≤◌, OnOk};
ghost use Rattle.statement_trees.specs.Contexts.{context_of, work};

use crate::body::STAR;
use crate::reader::Reader;
use swc_ecma_parser::ast::ident::{Ident, ModuleExportName};
use swc_ecma_parser::ast::lit::{Lit, Str};
use swc_ecma_parser::context::error::{PResult, Wanted};
use swc_ecma_parser::context::span::BytePos;
use swc_ecma_parser::context::word::{Keyword, Word};
use swc_ecma_parser::input::token::Token;
use tree_types::tree::{
    AllExports, DefaultExport, ExportSpecifier, ImportAttribute, ImportDeclaration, ImportKind,
    ImportSpecifier, NamedExports, StatementKind,
};

impl Reader {
    /// An item of a module, up to its first part.
    pub(crate) fn module_item(&mut self) -> PResult<()>
        ensures context { context_of self.new ≡ context_of self.old }
        ensures falls { OnOk result (work self.new + 3 ≤ work self.old) }
    {
        let start = self.start();
        if self.at_import() {
            return self.import(start);
        }
        if self.eat_keyword(Keyword::Export) {
            return self.export(start);
        }
        self.statement()
    }

    /// `import` (16.2.2)
    fn import(&mut self, start: BytePos) -> PResult<()>
        ensures context { context_of self.new ≡ context_of self.old }
        ensures falls { OnOk result (work self.new + 3 ≤ work self.old) }
    {
        self.expect_keyword(Keyword::Import)?;
        let mut specifiers = Vec::new(self.alloc);
        if !self.at_string() {
            self.import_clause(&mut specifiers)?;
            self.expect_from()?;
        }
        let source = self.string()?;
        let attributes = self.attributes()?;
        self.end_statement()?;
        let declaration = ImportDeclaration {
            specifiers,
            source,
            attributes,
        };
        self.finish(start, StatementKind::Import(declaration))
    }

    /// The names that are imported: a default, and after a comma a namespace or a list, or one of these.
    fn import_clause(&mut self, specifiers: &mut Vec<ImportSpecifier>) -> PResult<()>
        ensures context { context_of self.new ≡ context_of self.old }
        ensures lower { work self.new ≤ work self.old }
    {
        if !self.at(&STAR) && !self.at(&Token::LBrace) {
            self.import_default(specifiers)?;
            if !self.eat(&Token::Comma) {
                return Ok(());
            }
        }
        if self.at(&STAR) {
            return self.import_namespace(specifiers);
        }
        self.expect(&Token::LBrace, Wanted::LBrace)?;
        let mut is_over = self.eat(&Token::RBrace);
        while !is_over {
            let specifier = self.import_named()?;
            let pushed = specifiers.push(specifier);
            self.kept(pushed)?;
            is_over = self.ends_braces()?;
        }
        Ok(())
    }

    /// `local`
    fn import_default(&mut self, specifiers: &mut Vec<ImportSpecifier>) -> PResult<()>
        ensures context { context_of self.new ≡ context_of self.old }
        ensures lower { work self.new ≤ work self.old }
    {
        let start = self.start();
        let local = self.name()?;
        let span = self.span_from(start);
        let pushed = specifiers.push(ImportSpecifier {
            span,
            local,
            kind: ImportKind::Default,
        });
        self.kept(pushed)
    }

    /// `* as local`
    fn import_namespace(&mut self, specifiers: &mut Vec<ImportSpecifier>) -> PResult<()>
        ensures context { context_of self.new ≡ context_of self.old }
        ensures lower { work self.new ≤ work self.old }
    {
        let start = self.start();
        self.expect(&STAR, Wanted::Star)?;
        if !self.eat_word("as") {
            return Err(self.wants(Wanted::As));
        }
        let local = self.name()?;
        let span = self.span_from(start);
        let pushed = specifiers.push(ImportSpecifier {
            span,
            local,
            kind: ImportKind::Namespace,
        });
        self.kept(pushed)
    }

    /// `local`, or `name as local`.
    fn import_named(&mut self) -> PResult<ImportSpecifier>
        ensures context { context_of self.new ≡ context_of self.old }
        ensures lower { work self.new ≤ work self.old }
    {
        let start = self.start();
        let (name, local) = if self.is_renamed() {
            let name = self.export_name()?;
            if !self.eat_word("as") {
                return Err(self.wants(Wanted::As));
            }
            (Some(name), self.name()?)
        } else {
            (None, self.name()?)
        };
        Ok(ImportSpecifier {
            span: self.span_from(start),
            local,
            kind: ImportKind::Named(name),
        })
    }

    /// Whether `as` is after the name that is current, or the name is a string.
    #[tactic(auto, unfolding(crate::specs::Contexts::effort))]
    fn is_renamed(&mut self) -> bool
        ensures context { context_of self.new ≡ context_of self.old }
        ensures lower { work self.new ≤ work self.old }
    {
        let input = self.parser.buffer();
        match input.cur() {
            Some(Token::Str { .. }) => true,
            Some(_) =>
                matches!(input.peek(), Some(Token::Word(Word::Ident(name))) if name.as_str() == "as"),
            None => false,
        }
    }

    /// `from`
    fn expect_from(&mut self) -> PResult<()>
        ensures context { context_of self.new ≡ context_of self.old }
        ensures lower { work self.new ≤ work self.old }
    {
        if self.eat_word("from") {
            return Ok(());
        }
        Err(self.wants(Wanted::From))
    }

    /// A string.
    fn string(&mut self) -> PResult<Str>
        ensures context { context_of self.new ≡ context_of self.old }
        ensures lower { work self.new ≤ work self.old }
    {
        if self.at_string()
            && let Lit::Str(string) = self.literal()?
        {
            return Ok(string);
        }
        Err(self.wants(Wanted::IdentOrStr))
    }

    /// `with` and attributes in braces, or nothing.
    fn attributes(&mut self) -> PResult<Vec<ImportAttribute>>
        ensures context { context_of self.new ≡ context_of self.old }
        ensures lower { work self.new ≤ work self.old }
    {
        let mut attributes = Vec::new(self.alloc);
        if !self.eat_keyword(Keyword::With) {
            return Ok(attributes);
        }
        self.expect(&Token::LBrace, Wanted::LBrace)?;
        let mut is_over = self.eat(&Token::RBrace);
        while !is_over {
            let attribute = self.attribute()?;
            let pushed = attributes.push(attribute);
            self.kept(pushed)?;
            is_over = self.ends_braces()?;
        }
        Ok(attributes)
    }

    /// `key: value`
    fn attribute(&mut self) -> PResult<ImportAttribute>
        ensures context { context_of self.new ≡ context_of self.old }
        ensures lower { work self.new ≤ work self.old }
    {
        let start = self.start();
        let key = self.export_name()?;
        self.expect(&Token::Colon, Wanted::Colon)?;
        let value = self.string()?;
        Ok(ImportAttribute {
            span: self.span_from(start),
            key,
            value,
        })
    }

    /// What is after `export` (16.2.3).
    fn export(&mut self, start: BytePos) -> PResult<()>
        ensures context { context_of self.new ≡ context_of self.old }
        ensures lower { OnOk result (work self.new ≤ work self.old) }
    {
        if self.eat(&STAR) {
            return self.export_all(start);
        }
        if self.eat(&Token::LBrace) {
            return self.export_named(start);
        }
        if self.eat_keyword(Keyword::Default_) {
            return self.export_default(start);
        }
        self.export_declaration(start)
    }

    /// What is after `export *`.
    fn export_all(&mut self, start: BytePos) -> PResult<()>
        ensures context { context_of self.new ≡ context_of self.old }
        ensures lower { work self.new ≤ work self.old }
    {
        let exported = if self.eat_word("as") {
            Some(self.export_name()?)
        } else {
            None
        };
        self.expect_from()?;
        let source = self.string()?;
        let attributes = self.attributes()?;
        self.end_statement()?;
        let exports = AllExports {
            exported,
            source,
            attributes,
        };
        self.finish(start, StatementKind::ExportAll(exports))
    }

    /// What is after `export {`. Without a source each local name is an identifier.
    fn export_named(&mut self, start: BytePos) -> PResult<()>
        ensures context { context_of self.new ≡ context_of self.old }
        ensures lower { work self.new ≤ work self.old }
    {
        let mut has_string = false;
        let specifiers = self.export_specifiers(&mut has_string)?;
        let mut attributes = Vec::new(self.alloc);
        let source = if has_string || self.at_word("from") {
            self.expect_from()?;
            let source = self.string()?;
            attributes = self.attributes()?;
            Some(source)
        } else {
            None
        };
        self.end_statement()?;
        let exports = NamedExports {
            specifiers,
            source,
            attributes,
        };
        self.finish(start, StatementKind::ExportNamed(exports))
    }

    /// The names that are exported, up to `}`. Notes whether a local one is a string.
    fn export_specifiers(&mut self, has_string: &mut bool) -> PResult<Vec<ExportSpecifier>>
        ensures context { context_of self.new ≡ context_of self.old }
        ensures lower { work self.new ≤ work self.old }
    {
        let mut specifiers = Vec::new(self.alloc);
        let mut is_over = self.eat(&Token::RBrace);
        while !is_over {
            *has_string |= self.at_string();
            let specifier = self.export_specifier()?;
            let pushed = specifiers.push(specifier);
            self.kept(pushed)?;
            is_over = self.ends_braces()?;
        }
        Ok(specifiers)
    }

    /// `local`, or `local as exported`.
    fn export_specifier(&mut self) -> PResult<ExportSpecifier>
        ensures context { context_of self.new ≡ context_of self.old }
        ensures lower { work self.new ≤ work self.old }
    {
        let start = self.start();
        let local = self.export_name()?;
        let exported = if self.eat_word("as") {
            Some(self.export_name()?)
        } else {
            None
        };
        Ok(ExportSpecifier {
            span: self.span_from(start),
            local,
            exported,
        })
    }

    /// What is after `export default`.
    fn export_default(&mut self, start: BytePos) -> PResult<()>
        ensures context { context_of self.new ≡ context_of self.old }
        ensures lower { work self.new ≤ work self.old }
    {
        let exported = if self.at_function() {
            DefaultExport::Function(self.read_fun()?)
        } else if self.keyword() == Some(Keyword::Class) {
            DefaultExport::Class(self.read_class()?)
        } else {
            let expr = self.assignment_expr()?;
            self.end_statement()?;
            DefaultExport::Expr(expr)
        };
        self.finish(start, StatementKind::ExportDefault(exported))
    }

    /// A declaration after `export`: of variables, a function or a class.
    fn export_declaration(&mut self, start: BytePos) -> PResult<()>
        ensures context { context_of self.new ≡ context_of self.old }
        ensures lower { OnOk result (work self.new ≤ work self.old) }
    {
        let from = self.start();
        if self.at_function() {
            let function = self.read_fun()?;
            self.check_name(function)?;
            self.finish(from, StatementKind::Function(function))?;
        } else {
            self.declaration(from)?;
        }
        self.finish(start, StatementKind::ExportDeclaration(self.last))
    }
}
