// Which brackets are open in templates (ECMA-262, 12.9.6).
ghost use Rattle.std.specs.Prelude.{◌≡◌, ◌↔◌, ◌<◌, [], ◌∷◌, ◌++◌, length, IsTrue, IfOk, OnOk, IfErr};
ghost use Rattle.swc_tokens.specs.Nesting.{fits, Turns};
ghost use Rattle.swc_tokens.specs.Faults as faults;
ghost use Rattle.swc_tokens.specs.Nesting as nesting;

use crate::fault::out_of_memory;
use crate::found::Part;
use std::alloc::Global;
use swc_context::error::PResult;

/// What is read next.
#[derive(Clone, Copy)]
pub(crate) enum Next {
    /// A token, after blanks and comments.
    Token,
    /// A text of a template.
    Text,
    /// What ends such a text: `${` or the closing backquote.
    Delimiter,
}

/// A bracket that is open in a template.
#[derive(Drop)]
pub(crate) enum Open {
    /// `${`
    Substitution,
    /// `{`
    Brace,
}

/// How far the tokens have come in templates: which brackets are open in them, the outermost one
/// a `${`, and what is read next.
#[derive(Drop)]
pub(crate) struct Templates {
    pub(crate) brackets: Vec<Open>,
    pub(crate) next: Next,
}

impl Templates {
    /// No template is open.
    pub(crate) fn new(alloc: Global) -> Templates
        ensures empty { result.brackets.items ≡ [] }
        ensures next { result.next ≡ Next.Token }
    {
        Templates {
            brackets: Vec::new(alloc),
            next: Next::Token,
        }
    }

    /// Whether a `${` is open.
    pub(crate) fn is_open(&self) -> bool
        ensures { IsTrue result ↔ (0 < length self.now.brackets.items) }
    {
        !self.brackets.is_empty()
    }

    /// Goes on after a token, which is such as is read next.
    pub(crate) fn pass(&mut self, part: Part) -> PResult<()>
        requires { IsTrue (fits self.old.next part) }
        ensures turns { OnOk result (Turns self.old.brackets.items self.old.next part
            self.new.brackets.items self.new.next) }
        ensures refused { IfErr result (λ e. e ≡ faults.out_of_memory) }
    {
        self.next = self.behind(part)?;
        Ok(())
    }

    /// What is read after the part of a template, or after another token.
    fn behind(&mut self, part: Part) -> PResult<Next>
        requires { IsTrue (fits self.old.next part) }
        ensures turns { IfOk result (Turns self.old.brackets.items self.old.next part self.new.brackets.items) }
        ensures refused { IfErr result (λ e. e ≡ faults.out_of_memory) }
    {
        match part {
            Part::Text => Ok(Next::Delimiter),
            Part::Backquote => Ok(self.behind_backquote()),
            Part::Substitution => {
                self.enter(Open::Substitution)?;
                Ok(Next::Token)
            }
            Part::OpenBrace if self.is_open() => {
                self.enter(Open::Brace)?;
                Ok(Next::Token)
            }
            Part::OpenBrace => Ok(Next::Token),
            Part::CloseBrace => Ok(self.behind_close()),
            Part::Other => Ok(Next::Token),
        }
    }

    /// What is read after a backquote: a text where it opens a template.
    fn behind_backquote(&self) -> Next
        ensures { result ≡ nesting.behind_backquote self.now.next }
    {
        match self.next {
            Next::Delimiter => Next::Token,
            Next::Token | Next::Text => Next::Text,
        }
    }

    /// Goes on within a bracket.
    fn enter(&mut self, bracket: Open) -> PResult<()>
        ensures entered { OnOk result (self.new.brackets.items ≡ self.old.brackets.items ++ bracket ∷ []) }
        ensures refused { IfErr result (λ e. e ≡ faults.out_of_memory) }
    {
        match self.brackets.push(bracket) {
            Ok(()) => Ok(()),
            Err(_) => Err(out_of_memory()),
        }
    }

    /// What is read after a `}`: a text where it closes a `${`.
    fn behind_close(&mut self) -> Next
        ensures { Turns self.old.brackets.items Next.Token Part.CloseBrace self.new.brackets.items result }
    {
        match self.brackets.pop() {
            Some(Open::Substitution) => Next::Text,
            Some(Open::Brace) => Next::Token,
            None => Next::Token,
        }
    }
}
