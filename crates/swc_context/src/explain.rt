// Faults in words for people: what was wanted, and what was found in the text.

use crate::atom::Atom;
use crate::error::{Error, Note, SyntaxError, Wanted};
use crate::span::Span;
use std::fmt;

/// How many bytes of the text are shown at most.
const SHOWN: usize = 40;

/// A fault in words, to be printed: `expected ')', found the end of the text`. It is one line, with no period at its
/// end.
#[derive(Clone, Copy)]
pub struct Explained<'a> {
    error: &'a Error,
    text: &'a [u8],
}

impl fmt::Display for Explained<'_> {
    fn fmt<W: fmt::Write>(&self, f: &mut fmt::Formatter<W>) -> fmt::Result {
        self.error.write_explained(self.text, f)
    }
}

impl Error {
    /// The fault in words, to be printed, where `text` is the text in which the fault is. The text at the fault's span
    /// is shown in quotes, up to 40 bytes of it. An empty span, or one after the end, is shown as the end of the text.
    pub fn explain<'a>(&'a self, text: &'a [u8]) -> Explained<'a> {
        Explained { error: self, text }
    }

    fn write_explained<W: fmt::Write>(
        &self,
        text: &[u8],
        f: &mut fmt::Formatter<W>,
    ) -> fmt::Result {
        let found = Found::at(text, self.span());
        match self.kind() {
            SyntaxError::Expected(wanted) | SyntaxError::Unexpected(wanted) => {
                let wanted = Named(*wanted);
                write!(f, "expected {wanted}, found {found}")
            }
            SyntaxError::WithLabel { note, inner, .. } => {
                inner.write_explained(text, f)?;
                f.write_str(note_words(*note))
            }
            SyntaxError::UnaryInExp { left_span } => {
                let operand = Found::at(text, *left_span);
                write!(f, "{operand} needs parentheses to the left of '**'")
            }
            SyntaxError::InvalidIdentInStrict(word) => {
                let word = Found::word(word);
                write!(f, "{word} can't be a name in strict code")
            }
            SyntaxError::DuplicatedRegExpFlags(flag) => {
                write!(
                    f,
                    "the flag '{flag}' of this regular expression comes twice"
                )
            }
            kind => match sentence_of(kind) {
                Sentence::Whole(words) => f.write_str(words),
                Sentence::Around(before, after) => write!(f, "{before}{found}{after}"),
            },
        }
    }
}

/// What was found: its text in quotes, or the end of the text. The quotes are double if the text has a single quote. A
/// character that can't be seen is shown by its number.
#[derive(Clone, Copy)]
struct Found<'a> {
    /// The text that was found, which is empty at the end.
    bytes: &'a [u8],
}

impl<'a> Found<'a> {
    fn at(text: &'a [u8], span: Span) -> Found<'a> {
        let span = span.in_order();
        let hi = text.len().min(span.hi.0 as usize);
        let lo = hi.min(span.lo.0 as usize);
        Found {
            bytes: &text[lo..hi],
        }
    }

    fn word(word: &'a Atom) -> Found<'a> {
        Found {
            bytes: word.as_str().as_bytes(),
        }
    }
}

impl fmt::Display for Found<'_> {
    fn fmt<W: fmt::Write>(&self, f: &mut fmt::Formatter<W>) -> fmt::Result {
        if self.bytes.is_empty() {
            return f.write_str("the end of the text");
        }
        let text = front(self.bytes);
        let seen = seen_front(text);
        let quote = if seen.contains('\'') { '"' } else { '\'' };
        if seen.len() == self.bytes.len() {
            return write!(f, "{quote}{seen}{quote}");
        }
        if !seen.is_empty() {
            return write!(f, "{quote}{seen}...{quote}");
        }
        match text.chars().next() {
            Some(c) => write!(f, "U+{:04X}", c as u32),
            None => f.write_str("bytes that are not UTF-8"),
        }
    }
}

/// The longest text at the front that is UTF-8 and has at most `SHOWN` bytes.
fn front(bytes: &[u8]) -> &str {
    let front = &bytes[..bytes.len().min(SHOWN)];
    match front.utf8_chunks().next() {
        Some(chunk) => chunk.valid(),
        None => "",
    }
}

/// The text up to the first character that can't be seen.
fn seen_front(text: &str) -> &str {
    match text.find(is_unseen) {
        Some(at) => &text[..at],
        None => text,
    }
}

/// Whether a character can't be seen, ends a line or changes the direction of the text after it.
fn is_unseen(c: char) -> bool {
    c.is_control()
        || matches!(
            c,
            '\u{ad}' | '\u{200b}'..='\u{200f}' | '\u{2028}'..='\u{202e}' | '\u{2060}'..='\u{206f}' | '\u{feff}'
        )
}

/// What is wanted, in words: a sign or a word in quotes, and else what it is.
#[derive(Clone, Copy)]
struct Named(Wanted);

impl fmt::Display for Named {
    fn fmt<W: fmt::Write>(&self, f: &mut fmt::Formatter<W>) -> fmt::Result {
        match self.0 {
            Wanted::Ident | Wanted::PatIdent => f.write_str("a name"),
            Wanted::IdentOrStr => f.write_str("a name or a string"),
            Wanted::Binding => f.write_str("a name or a pattern"),
            Wanted::PropName => f.write_str("a property key"),
            Wanted::AfterPropName => f.write_str("':', '(', ',' or '}' after the property key"),
            Wanted::TplToken => f.write_str("a piece of the template"),
            written => write!(f, "'{written}'"),
        }
    }
}

/// The form that a refusal is in, in words.
fn note_words(note: Note) -> &'static str {
    match note {
        Note::ExprAfterDots => " (after '...')",
        Note::YieldArgument => " (in the operand of 'yield')",
    }
}

/// What is said of a kind: all of it, or what comes before and after the text that was found.
enum Sentence {
    Whole(&'static str),
    Around(&'static str, &'static str),
}

fn sentence_of(kind: &SyntaxError) -> Sentence {
    match kind {
        SyntaxError::TS1109 => Sentence::Around("expected an expression, found ", ""),
        SyntaxError::ExpectedIdent => Sentence::Around("expected a name, found ", ""),
        SyntaxError::InvalidPat => Sentence::Around("expected a name or a pattern, found ", ""),
        SyntaxError::TS1005 => Sentence::Around("", " can't follow the body of an arrow function"),
        SyntaxError::TS1102 => Sentence::Around(
            "the variable ",
            " can't be deleted in strict code",
        ),
        SyntaxError::TS2406 | SyntaxError::InvalidAssignTarget => {
            Sentence::Around("", " can't be assigned to")
        }
        SyntaxError::NotSimpleAssign => {
            Sentence::Around("", " can't be the target of this assignment operator")
        }
        SyntaxError::EvalAndArgumentsInStrict => {
            Sentence::Around("", " can't be declared or assigned to in strict code")
        }
        SyntaxError::PrivateNameNotLeftOfIn => {
            Sentence::Around("", " by itself can only be the left operand of 'in'")
        }
        SyntaxError::ReservedWordInObjShorthandOrPat => {
            Sentence::Around("the reserved word ", " can't be a shorthand property")
        }
        SyntaxError::IdentAfterNum => {
            Sentence::Around("no name or digit can come right after the number in ", "")
        }
        SyntaxError::BadCharacterEscapeSequence => Sentence::Around("the escape ", " is not valid"),
        SyntaxError::EscapeInReservedWord => {
            Sentence::Around("the keyword ", " can't be written with escapes")
        }
        SyntaxError::UnexpectedChar => Sentence::Around("unexpected character ", ""),
        SyntaxError::LegacyOctal => Sentence::Around(
            "the octal form ",
            " can't be used in strict code",
        ),
        SyntaxError::LegacyDecimal => Sentence::Around(
            "the old form ",
            " can't be used in strict code",
        ),
        SyntaxError::Lex => Sentence::Around("no token can be read at ", ""),
        kind => Sentence::Whole(whole_sentence(kind)),
    }
}

/// What is said of a kind that shows no text.
fn whole_sentence(kind: &SyntaxError) -> &'static str {
    match kind {
        SyntaxError::Eof => "unexpected end of the text",
        SyntaxError::TS1014 => "a rest parameter must be the last one",
        SyntaxError::TS1048 => "a rest parameter can't have a default value",
        SyntaxError::TS1106 => "the head of a 'for' can't begin with 'async of'",
        SyntaxError::TS1162 => "a property can't be optional",
        SyntaxError::NullishCoalescingWithLogicalOp => {
            "'??' can't be mixed with '||' or '&&' without parentheses"
        }
        SyntaxError::AwaitStar => "'*' can't follow 'await'",
        SyntaxError::AwaitInFunction => {
            "'await' can only be used in async functions and at the top of modules"
        }
        SyntaxError::AwaitParamInAsync => {
            "'await' can't be used in the parameters of an async function"
        }
        SyntaxError::YieldParamInGen => "'yield' can't be used in the parameters of a generator",
        SyntaxError::InvalidIdentInAsync => {
            "'await' can't be a name in async functions and modules"
        }
        SyntaxError::SpaceBetweenHashAndIdent => "nothing may come between '#' and the name",
        SyntaxError::ArgumentsInClassField => "'arguments' can't be used in a class field",
        SyntaxError::AssignProperty => "a property with '=' can only be used in a pattern",
        SyntaxError::UnknownRegExpFlags => "this regular expression has an unknown flag",
        SyntaxError::InvalidNewTarget => "'new.target' can only be used in functions",
        SyntaxError::ImportMetaInScript => "'import.meta' can only be used in modules",
        SyntaxError::OptChainCannotFollowConstructorCall => {
            "an optional chain can't be constructed with 'new'"
        }
        SyntaxError::TrailingCommaInsideImport => "the argument of 'import' can't end with a comma",
        SyntaxError::ImportArguments => {
            "'import' takes one argument, or two with import attributes, and no spread"
        }
        SyntaxError::TaggedTplInOptChain => "an optional chain can't be the tag of a template",
        SyntaxError::InvalidSuper => "'super' can't be used here",
        SyntaxError::InvalidSuperCall => "'super' can't be called here",
        SyntaxError::SuperCallOptional => "a call of 'super' can't be optional",
        SyntaxError::InvalidImport => "a call of 'import' can't be constructed with 'new'",
        SyntaxError::LineBreakBeforeArrow => "a line break can't come before '=>'",
        SyntaxError::ArrowNotAllowed => "an arrow function needs parentheses here",
        SyntaxError::EmptyParenExpr => "empty parentheses must be followed by '=>'",
        SyntaxError::SpreadInParenExpr => "parentheses with '...' must be followed by '=>'",
        SyntaxError::GetterParam => "a getter can't have parameters",
        SyntaxError::SetterParam => "a setter must have exactly one parameter",
        SyntaxError::RestPatInSetter => "the parameter of a setter can't be a rest",
        SyntaxError::CommaAfterRestElement => "a comma can't follow a rest",
        SyntaxError::DotsWithoutIdentifier => "the rest of an object must be a name",
        SyntaxError::NonLastRestParam => "a rest must come last",
        SyntaxError::UnterminatedBlockComment => "this comment is not closed",
        SyntaxError::UnterminatedRegExp => "this regular expression is not closed",
        SyntaxError::UnterminatedStrLit => "this string is not closed",
        SyntaxError::UnterminatedTpl => "this template is not closed",
        SyntaxError::ExpectedDigit => "a digit is missing in this number",
        SyntaxError::InvalidUtf8 => "the text is not UTF-8 here",
        SyntaxError::OutOfMemory => "out of memory",
        SyntaxError::ParserFailed => "the parser has stopped since it ran out of memory",
        kind => kind.message(),
    }
}
