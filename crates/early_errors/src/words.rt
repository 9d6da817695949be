// Words that are reserved in some code (ECMA-262, 12.7.2 and 13.1).
ghost use Rattle.std.specs.Prelude.{◌≡◌, IfOk};
ghost use Rattle.early_errors.specs.Faults.{Keeps};

use crate::fault::EarlyErrorKind;
use crate::walk::Walk;
use std::alloc::AllocError;
use swc_ast::ident::Ident;

/// Whether the word is reserved in strict code alone.
pub(crate) fn is_strict_word(word: &str) -> bool {
    matches!(
        word,
        "implements"
            | "interface"
            | "let"
            | "package"
            | "private"
            | "protected"
            | "public"
            | "static"
            | "yield"
    )
}

/// The words that are reserved in all code.
const RESERVED: &str =
    "break case catch class const continue debugger default delete do else enum export extends false finally for function if import in instanceof new null return super switch this throw true try typeof var void while with";

/// Whether the word is reserved in all code.
pub(crate) fn is_reserved(word: &str) -> bool {
    RESERVED.split(' ').any(|reserved| reserved == word)
}

/// Whether strict code must not declare the word, or assign to it.
fn is_strict_target(word: &str) -> bool {
    matches!(word, "arguments" | "eval")
}

impl<'a> Walk<'a> {
    /// Notes what is wrong with a name that is declared or assigned to.
    pub(crate) fn check_target(&mut self, name: &Ident) -> Result<(), AllocError>
        ensures code { self.new.code ≡ self.old.code }
        ensures tasks { self.new.tasks ≡ self.old.tasks }
        ensures keeps { IfOk result (λ _. Keeps self.old self.new) }
    {
        if self.code.strict && is_strict_target(name.sym.as_str()) {
            return self.fault(EarlyErrorKind::StrictTarget, name.span);
        }
        self.check_name(name)
    }

    /// Notes what is wrong with a name: one that is declared, or a reference, or a label.
    pub(crate) fn check_name(&mut self, name: &Ident) -> Result<(), AllocError>
        ensures code { self.new.code ≡ self.old.code }
        ensures tasks { self.new.tasks ≡ self.old.tasks }
        ensures keeps { IfOk result (λ _. Keeps self.old self.new) }
    {
        let word = name.sym.as_str();
        if word == "await" && self.code.reserves_await() {
            return self.fault(EarlyErrorKind::AwaitNamed, name.span);
        }
        if word == "yield" && self.code.reserves_yield() {
            return self.fault(EarlyErrorKind::YieldNamed, name.span);
        }
        if self.code.strict && is_strict_word(word) {
            return self.fault(EarlyErrorKind::StrictWord, name.span);
        }
        // The lexer makes a name of such a word only if it has an escape.
        if is_reserved(word) {
            return self.fault(EarlyErrorKind::EscapedWord, name.span);
        }
        Ok(())
    }

    /// Notes what is wrong with a name that is declared by `let`, `const` or `class`.
    pub(crate) fn check_let(&mut self, name: &Ident) -> Result<(), AllocError>
        ensures code { self.new.code ≡ self.old.code }
        ensures tasks { self.new.tasks ≡ self.old.tasks }
        ensures keeps { IfOk result (λ _. Keeps self.old self.new) }
    {
        if name.sym.as_str() == "let" {
            return self.fault(EarlyErrorKind::LetNamed, name.span);
        }
        Ok(())
    }
}
