// What is said beside a fault: what the text may be instead, and the way out.
use crate::goals::{goal_after, is_word};
use statement_trees::tree::Goal;
use swc_ecma_parser::context::span::Span;

/// What is said beside a fault of a text that was read as such a program; nothing, if the text doesn't tell.
pub fn hint_at(text: &str, fault: Span, goal: Goal) -> &'static str {
    if goal != Goal::Module {
        match goal_after(text, fault) {
            Some(Goal::Module) => return " (`import` and `export` are only in modules: --module)",
            Some(Goal::CommonJs) if goal == Goal::Script => {
                return " (`return` outside functions is only in CommonJS modules: --commonjs)";
            }
            _ => {}
        }
    }
    let at = fault.lo.0 as usize;
    let (before, rest) = (text.get(..at).unwrap_or(""), text.get(at..).unwrap_or(""));
    other_language(before.trim_end(), rest)
}

/// What is said where the text looks like one of another language.
fn other_language(before: &str, rest: &str) -> &'static str {
    if rest.starts_with('@') {
        " (decorators aren't read)"
    } else if is_tag(before, rest) {
        " (this looks like JSX, which isn't read)"
    } else if is_typed(before, rest) {
        " (this looks like TypeScript, which isn't read)"
    } else {
        ""
    }
}

/// Whether a tag of JSX begins where an operand is wanted.
fn is_tag(before: &str, rest: &str) -> bool {
    let mut letters = rest.chars();
    let is_opened = letters.next() == Some('<');
    let is_named = letters
        .next()
        .is_some_and(|letter: char| letter == '>' || letter.is_alphabetic());
    is_opened && is_named && !ends_operand(before)
}

/// Whether the text before a place ends with a name, a number or a bracket that closes.
fn ends_operand(before: &str) -> bool {
    if ends_with_word(before, "return") || ends_with_word(before, "default") {
        return false;
    }
    match before.chars().next_back() {
        Some(last) => is_name_part(last) || last == ')' || last == ']' || last == '}',
        None => false,
    }
}

/// Whether a type, or a word of TypeScript, is at a fault or before it.
fn is_typed(before: &str, rest: &str) -> bool {
    let is_annotation = rest.starts_with(':') && (ends_operand(before) || before.ends_with('?'));
    let is_optional = rest.starts_with('?') || rest.starts_with("!");
    let is_generic = rest.starts_with('<') && ends_operand(before);
    is_annotation
        || is_generic
        || is_optional
            && rest
                .get(1..)
                .unwrap_or("")
                .starts_with([':', '.'].as_slice())
        || is_type_word(rest)
        || is_after_type_word(before)
            && rest.starts_with(|letter: char| is_name_part(letter) || letter == '{')
}

/// Whether a text begins with a word that only TypeScript has there.
fn is_type_word(rest: &str) -> bool {
    is_word(rest, "enum")
        || is_word(rest, "as")
        || is_word(rest, "satisfies")
        || is_word(rest, "implements")
        || is_word(rest, "interface")
        || is_word(rest, "private")
        || is_word(rest, "public")
        || is_word(rest, "protected")
        || is_word(rest, "readonly")
}

/// Whether a text ends with a word that begins a declaration or a member of TypeScript.
fn is_after_type_word(before: &str) -> bool {
    ends_with_word(before, "interface")
        || ends_with_word(before, "type")
        || ends_with_word(before, "namespace")
        || ends_with_word(before, "declare")
        || ends_with_word(before, "abstract")
        || ends_with_word(before, "enum")
        || ends_with_word(before, "private")
        || ends_with_word(before, "public")
        || ends_with_word(before, "protected")
        || ends_with_word(before, "readonly")
}

/// Whether a text ends with the word.
fn ends_with_word(text: &str, word: &str) -> bool {
    match text.strip_suffix(word) {
        Some(rest) => !rest.ends_with(|letter: char| is_name_part(letter)),
        None => false,
    }
}

/// Whether a letter may be in a name.
fn is_name_part(letter: char) -> bool {
    letter.is_alphanumeric() || letter == '_' || letter == '$'
}
