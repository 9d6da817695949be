// Words that are current, and what is after them.
#![tactic(auto, unfolding(crate::specs::Contexts::effort))]

ghost use Rattle.std.specs.Prelude.{◌≡◌, ◌≤◌, true, IsSome};
ghost use Rattle.swc_ecma_parser.specs.Calls.{buffer_of};
ghost use Rattle.swc_input.specs.Buffer.{current};
ghost use Rattle.statement_trees.specs.Contexts.{context_of, work, Takes};

use crate::reader::Reader;
use swc_ecma_parser::context::word::{Keyword, Word};
use swc_ecma_parser::input::token::Token;

impl Reader {
    /// Whether the word, which is no keyword, is current, and has no escape in it (5.1.5).
    pub(crate) fn at_word(&mut self, word: &str) -> bool
        ensures current { result ≡ true → IsSome (current (buffer_of self.new.parser)) }
        ensures context { context_of self.new ≡ context_of self.old }
        ensures lower { work self.new ≤ work self.old }
    {
        let input = self.parser.buffer();
        let is_word = match input.cur() {
            Some(Token::Word(Word::Ident(name))) => name.as_str() == word,
            _ => false,
        };
        let span = input.cur_span();
        is_word && span.hi.0.saturating_sub(span.lo.0) as usize == word.len()
    }

    /// Consumes the word, which is no keyword, if it is current. Says whether it did.
    pub(crate) fn eat_word(&mut self, word: &str) -> bool
        ensures context { context_of self.new ≡ context_of self.old }
        ensures lower { work self.new ≤ work self.old }
        ensures takes { result ≡ true → Takes self.old self.new }
    {
        if !self.at_word(word) {
            return false;
        }
        let _ = self.parser.buffer().bump();
        true
    }

    /// Consumes the word, unless what follows says that it is the key of a member. Says whether it did.
    pub(crate) fn eat_modifier(&mut self, word: &str) -> bool
        ensures context { context_of self.new ≡ context_of self.old }
        ensures lower { work self.new ≤ work self.old }
        ensures takes { result ≡ true → Takes self.old self.new }
    {
        if !self.at_word(word) || self.at_key(word) {
            return false;
        }
        let _ = self.parser.buffer().bump();
        true
    }

    /// Whether the word that is current is the key of a member.
    fn at_key(&mut self, word: &str) -> bool
        requires { IsSome (current (buffer_of self.old.parser)) }
        ensures current { IsSome (current (buffer_of self.new.parser)) }
        ensures context { context_of self.new ≡ context_of self.old }
        ensures lower { work self.new ≤ work self.old }
    {
        let input = self.parser.buffer();
        match input.peek() {
            None | Some(Token::LParen | Token::Semi | Token::RBrace | Token::AssignOp(_)) => true,
            Some(Token::BinOp(_)) if word == "get" || word == "set" => true,
            _ => word == "async" && input.has_linebreak_between_cur_and_peeked(),
        }
    }

    /// Whether a function begins here, async or not.
    pub(crate) fn at_function(&mut self) -> bool
        ensures context { context_of self.new ≡ context_of self.old }
        ensures lower { work self.new ≤ work self.old }
    {
        if !self.at_word("async") {
            return self.at(&Token::Word(Word::Keyword(Keyword::Function)));
        }
        let input = self.parser.buffer();
        let next = input.peek();
        let is_function = matches!(next, Some(Token::Word(Word::Keyword(Keyword::Function))));
        is_function && !input.has_linebreak_between_cur_and_peeked()
    }

    /// Whether a word is current, and `:` is after it.
    pub(crate) fn at_label(&mut self) -> bool
        ensures context { context_of self.new ≡ context_of self.old }
        ensures lower { work self.new ≤ work self.old }
    {
        let input = self.parser.buffer();
        matches!(input.cur(), Some(Token::Word(_))) && matches!(input.peek(), Some(Token::Colon))
    }

    /// Whether an import declaration begins here: `import`, but not before `(` or `.`.
    pub(crate) fn at_import(&mut self) -> bool
        ensures context { context_of self.new ≡ context_of self.old }
        ensures lower { work self.new ≤ work self.old }
    {
        let input = self.parser.buffer();
        matches!(
            input.cur(),
            Some(Token::Word(Word::Keyword(Keyword::Import)))
        ) && !matches!(input.peek(), Some(Token::LParen | Token::Dot))
    }

    /// Whether `let` is current and begins a declaration (ECMA-262, 14.5): what is after it is a name or a pattern.
    pub(crate) fn at_let(&mut self) -> bool
        ensures context { context_of self.new ≡ context_of self.old }
        ensures lower { work self.new ≤ work self.old }
    {
        let input = self.parser.buffer();
        matches!(input.cur(), Some(Token::Word(Word::Keyword(Keyword::Let))))
            && match input.peek() {
                Some(Token::Word(Word::Keyword(Keyword::In | Keyword::InstanceOf))) => false,
                next => matches!(next, Some(Token::Word(_) | Token::LBracket | Token::LBrace)),
            }
    }

    /// Whether a line ends after `let`, which is current, and no `[` is after it: as a part of another statement, `let`
    /// is a name then (14.5).
    pub(crate) fn at_let_alone(&mut self) -> bool
        ensures context { context_of self.new ≡ context_of self.old }
        ensures lower { work self.new ≤ work self.old }
    {
        let input = self.parser.buffer();
        match input.cur() {
            Some(_) => {
                !matches!(input.peek(), Some(Token::LBracket))
                    && input.has_linebreak_between_cur_and_peeked()
            }
            None => false,
        }
    }

    /// Whether a string is current.
    pub(crate) fn at_string(&mut self) -> bool
        ensures context { context_of self.new ≡ context_of self.old }
        ensures lower { work self.new ≤ work self.old }
    {
        matches!(self.parser.buffer().cur(), Some(Token::Str { .. }))
    }
}
