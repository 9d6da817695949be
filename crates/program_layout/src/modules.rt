// What is noted at imports and exports (ECMA-262, 16.2).
use crate::layout::ProgramMarks;
use layout_document::marks::{Gap, PLAIN, Shape};
use swc_ast::ident::ModuleExportName;
use swc_ast::lit::Str;
use swc_context::span::{BytePos, Span};
use tree_types::tree::{
    AllExports, DefaultExport, ImportAttribute, ImportDeclaration, ImportKind, ImportSpecifier,
    NamedExports, StatementKind,
};

impl ProgramMarks<'_> {
    /// Notes an item of a module: a blank is after its first word.
    pub(crate) fn mark_item(&mut self, place: Span, kind: &StatementKind) {
        let second = self.marks.at(place.lo).saturating_add(1);
        match kind {
            StatementKind::Import(import) => self.mark_import(place, import),
            StatementKind::ExportAll(exports) => self.mark_all(place, exports),
            StatementKind::ExportNamed(exports) => self.mark_named(place, exports),
            StatementKind::ExportDefault(exported) => self.mark_default(*exported),
            StatementKind::ExportDeclaration(_) => {}
            _ => return,
        }
        self.marks.set(second, Gap::Blank);
    }

    fn mark_import(&mut self, place: Span, import: &ImportDeclaration) {
        for specifier in &import.specifiers {
            self.mark_specifier(specifier);
        }
        let named = import
            .specifiers
            .iter()
            .find(|specifier| matches!(specifier.kind, ImportKind::Named(_)));
        self.mark_names(
            named.map(|specifier| specifier.span),
            import.specifiers.len() == 1,
        );
        self.mark_source(place, &import.source, &import.attributes);
    }

    fn mark_specifier(&mut self, specifier: &ImportSpecifier) {
        match &specifier.kind {
            ImportKind::Namespace | ImportKind::Named(Some(_)) => {
                self.set_words(specifier.local.span.lo)
            }
            ImportKind::Default | ImportKind::Named(None) => {}
        }
    }

    /// Notes a blank before a name and the word before it.
    fn set_words(&mut self, name: BytePos) {
        self.marks.set_operator(name, Gap::Blank, Gap::Blank);
    }

    fn mark_all(&mut self, place: Span, exports: &AllExports) {
        self.mark_exported(&exports.exported);
        self.mark_source(place, &exports.source, &exports.attributes);
    }

    fn mark_named(&mut self, place: Span, exports: &NamedExports) {
        for specifier in &exports.specifiers {
            self.mark_exported(&specifier.exported);
        }
        let first = exports.specifiers.first();
        self.mark_names(first.map(|specifier| specifier.span), false);
        if let Some(source) = &exports.source {
            self.mark_source(place, source, &exports.attributes);
        }
    }

    /// Notes the braces before a first name: that of an import which has no other isn't broken.
    fn mark_names(&mut self, first: Option<Span>, is_bare: bool) {
        if let Some(first) = first {
            let shape = Shape {
                is_bare,
                has_comma: self.marks.takes_commas(),
                ..PLAIN
            };
            self.marks.shape(self.marks.before(first.lo), shape);
        }
    }

    /// Notes the blanks of the `as` before a name.
    fn mark_exported(&mut self, name: &Option<ModuleExportName>) {
        if let Some(name) = name {
            self.set_words(start_of_name(name));
        }
    }

    fn mark_default(&mut self, exported: DefaultExport) {
        match exported {
            DefaultExport::Expr(expr) => self.set_expr(expr, Gap::Blank),
            DefaultExport::Function(place) | DefaultExport::Class(place) => {
                self.marks.set_at(place.lo, Gap::Blank)
            }
        }
    }

    /// Notes the blanks of `from` and a source, and those of the attributes after it.
    fn mark_source(&mut self, place: Span, source: &Str, attributes: &[ImportAttribute]) {
        let first = self.marks.at(place.lo);
        let number = self.marks.at(source.span.lo);
        self.marks.set(number, Gap::Blank);
        if first.saturating_add(1) < number {
            self.marks.set(number.saturating_sub(1), Gap::Blank);
        }
        let with = number.saturating_add(1);
        if with < self.marks.at(place.hi) {
            self.marks.set(with, Gap::Blank);
            self.marks.set(with.saturating_add(1), Gap::Blank);
        }
        for attribute in attributes {
            self.marks.set_at(attribute.value.span.lo, Gap::Blank);
        }
    }
}

/// Where a name that a module exports begins.
fn start_of_name(name: &ModuleExportName) -> BytePos {
    match name {
        ModuleExportName::Ident(name) => name.span.lo,
        ModuleExportName::Str(string) => string.span.lo,
    }
}
