// Imports and exports.
use crate::piece::Piece;
use crate::pieces::Pieces;
use swc_ast::ident::ModuleExportName;
use swc_context::span::Span;
use tree_types::tree::{
    AllExports, DefaultExport, ExportSpecifier, ImportAttribute, ImportDeclaration, ImportKind,
    ImportSpecifier, NamedExports, Statement, StatementId, StatementKind,
};

impl<'a> Pieces<'a> {
    /// An import or an export.
    pub(crate) fn module_item(&mut self, statement: &'a Statement) {
        let span = statement.span;
        match &statement.kind {
            StatementKind::Import(import) => self.import(span, import),
            StatementKind::ExportNamed(exports) => self.named_exports(span, exports),
            StatementKind::ExportAll(exports) => self.all_exports(span, exports),
            StatementKind::ExportDeclaration(id) => self.exported_declaration(span, *id),
            StatementKind::ExportDefault(export) => self.default_export(span, *export),
            _ => self.missing(),
        }
    }

    fn import(&mut self, span: Span, import: &'a ImportDeclaration) {
        self.open("ImportDeclaration", span);
        self.open_list("specifiers");
        for (index, specifier) in import.specifiers.iter().enumerate() {
            self.comma(index);
            self.import_specifier(specifier);
        }
        self.close_list();
        self.field("source");
        self.string(&import.source);
        self.attributes(&import.attributes);
        self.close();
    }

    fn import_specifier(&mut self, specifier: &'a ImportSpecifier) {
        let local = &specifier.local;
        match &specifier.kind {
            ImportKind::Default => self.open("ImportDefaultSpecifier", specifier.span),
            ImportKind::Namespace => self.open("ImportNamespaceSpecifier", specifier.span),
            ImportKind::Named(imported) => {
                self.open("ImportSpecifier", specifier.span);
                self.field("imported");
                match imported {
                    Some(name) => self.export_name(name),
                    None => self.name(local.span, local.sym.as_str()),
                }
            }
        }
        self.field("local");
        self.name(local.span, local.sym.as_str());
        self.close();
    }

    /// A name under which something is exported.
    fn export_name(&mut self, name: &'a ModuleExportName) {
        match name {
            ModuleExportName::Ident(name) => self.name(name.span, name.sym.as_str()),
            ModuleExportName::Str(string) => self.string(string),
        }
    }

    /// The attributes of an import or an export, if there are any.
    fn attributes(&mut self, attributes: &'a [ImportAttribute]) {
        if attributes.is_empty() {
            return;
        }
        self.open_list("attributes");
        for (index, attribute) in attributes.iter().enumerate() {
            self.comma(index);
            self.open("ImportAttribute", attribute.span);
            self.field("key");
            self.export_name(&attribute.key);
            self.field("value");
            self.string(&attribute.value);
            self.close();
        }
        self.close_list();
    }

    fn named_exports(&mut self, span: Span, exports: &'a NamedExports) {
        self.open("ExportNamedDeclaration", span);
        self.null("declaration");
        self.open_list("specifiers");
        for (index, specifier) in exports.specifiers.iter().enumerate() {
            self.comma(index);
            self.export_specifier(specifier);
        }
        self.close_list();
        self.field("source");
        match &exports.source {
            Some(source) => self.string(source),
            None => self.missing(),
        }
        self.attributes(&exports.attributes);
        self.close();
    }

    fn export_specifier(&mut self, specifier: &'a ExportSpecifier) {
        self.open("ExportSpecifier", specifier.span);
        self.field("local");
        self.export_name(&specifier.local);
        self.field("exported");
        match &specifier.exported {
            Some(name) => self.export_name(name),
            None => self.export_name(&specifier.local),
        }
        self.close();
    }

    fn all_exports(&mut self, span: Span, exports: &'a AllExports) {
        self.open("ExportAllDeclaration", span);
        self.field("exported");
        match &exports.exported {
            Some(name) => self.export_name(name),
            None => self.missing(),
        }
        self.field("source");
        self.string(&exports.source);
        self.attributes(&exports.attributes);
        self.close();
    }

    fn exported_declaration(&mut self, span: Span, id: StatementId) {
        self.open("ExportNamedDeclaration", span);
        self.body("declaration", id);
        self.open_list("specifiers");
        self.close_list();
        self.null("source");
        self.close();
    }

    fn default_export(&mut self, span: Span, export: DefaultExport) {
        self.open("ExportDefaultDeclaration", span);
        self.field("declaration");
        match export {
            DefaultExport::Expr(expr) => self.put(Piece::Node(expr.0)),
            DefaultExport::Function(place) => self.function_at("FunctionDeclaration", place),
            DefaultExport::Class(place) => self.class_at("ClassDeclaration", place),
        }
        self.close();
    }
}
