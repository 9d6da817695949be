// What is wrong with a program, and where.
use regex_patterns::fault::PatternFault;
use swc_context::span::Span;

/// What an early error is about.
#[derive(Clone, Copy, Debug, PartialEq, Eq)]
pub enum EarlyErrorKind {
    /// A name that is declared twice (14 to 16).
    DeclaredTwice,
    /// A parameter that has the name of another one (15.1).
    ParameterTwice,
    /// `let` as a name that `let`, `const` or `class` declares (14.3.1).
    LetNamed,
    /// A reserved word of strict code, as a name (12.7.2).
    StrictWord,
    /// `eval` or `arguments`, declared or assigned to in strict code (13.1).
    StrictTarget,
    /// `await` as a name, where it is reserved (13.1).
    AwaitNamed,
    /// `yield` as a name, where it is reserved (13.1).
    YieldNamed,
    /// `"use strict"` in a function whose parameters are not names alone (15.1).
    StrictParameters,
    /// An escape of old scripts in a string before `"use strict"` (12.9.4.1).
    StrictEscape,
    /// `with` in strict code (14.11).
    StrictWith,
    /// `delete` of a name in strict code (13.5.1).
    StrictDelete,
    /// A function as the body of a statement (14.1.1, B.3.3).
    FunctionBody,
    /// A function that a label is before (14.13).
    LabelledFunction,
    /// `break` outside loops and `switch` (14.9).
    BreakOutside,
    /// `continue` outside loops (14.8).
    ContinueOutside,
    /// A label that is not around the statement (14.8 and 14.9).
    LabelUnknown,
    /// A label that is around itself (14.13).
    LabelTwice,
    /// `continue` with a label that is before no loop (14.8).
    LabelOfNoLoop,
    /// `return` outside functions (14.10).
    ReturnOutside,
    /// A second `default` (14.12).
    DefaultTwice,
    /// A second constructor (15.7).
    ConstructorTwice,
    /// A constructor that is a generator, asynchronous, a getter or a setter (15.7).
    ConstructorForm,
    /// A field named `constructor`, or a static one named `prototype` (15.7).
    FieldName,
    /// A static method named `prototype` (15.7).
    PrototypeMethod,
    /// `#constructor` (15.7).
    PrivateConstructor,
    /// A getter with parameters (15.4).
    GetterParameters,
    /// A setter that has not one parameter (15.4).
    SetterParameters,
    /// A private name that no class around declares (15.7).
    PrivateUnknown,
    /// A private name that a class declares twice (15.7).
    PrivateTwice,
    /// `delete` of a private name (13.5.1).
    PrivateDeleted,
    /// `super()` outside the constructor of a class with `extends` (15.7).
    SuperCall,
    /// `super.a` outside methods (15.4).
    SuperProperty,
    /// `new.target` outside functions (13.3.12).
    NewTarget,
    /// `arguments` in the value of a field, or in a static block (15.7).
    ArgumentsInClass,
    /// `yield` in parameters (15.5).
    YieldInParameters,
    /// `await` in parameters (15.8).
    AwaitInParameters,
    /// `await` as an operator where code is not asynchronous (15.8).
    AwaitOutside,
    /// A name that is exported twice (16.2.1).
    ExportedTwice,
    /// An exported name that the module does not declare (16.2.1).
    ExportUnknown,
    /// A reserved word, exported as a name of the module (16.2.3).
    ExportWord,
    /// An attribute of an import whose key is there already (16.2.2).
    AttributeTwice,
    /// A string with half a character, as a name of a module (16.2.1).
    LoneSurrogate,
    /// A second `__proto__: value` in an object literal (13.2.5.1).
    ProtoTwice,
    /// A word with an escape in it, where it has a meaning of its own (5.1.5).
    EscapedWord,
    /// A line break after `async` (15.4, 15.8).
    LineBreakAfterAsync,
    /// `for (let.a of b)` (14.7.5).
    LetInHead,
    /// A rest that is a pattern, in an object that is assigned to (13.15.5).
    RestPattern,
    /// A regular expression (22.2.1).
    Pattern(PatternFault),
}

impl EarlyErrorKind {
    /// What is wrong, in words. Where they have `$`, what is at the error's place is meant.
    pub(crate) fn words(self) -> &'static str {
        match self {
            EarlyErrorKind::Pattern(fault) => fault.message(),
            kind => match words_of_name(kind) {
                Some(words) => words,
                None => match words_of_class(kind) {
                    Some(words) => words,
                    None => words_of_code(kind),
                },
            },
        }
    }

    /// What is said before the place where what is there twice is the first time.
    pub fn first_words(self) -> &'static str {
        match self {
            EarlyErrorKind::DeclaredTwice
            | EarlyErrorKind::ParameterTwice
            | EarlyErrorKind::PrivateTwice => "first declared at",
            EarlyErrorKind::ExportedTwice => "first exported at",
            EarlyErrorKind::LabelOfNoLoop => "the label is at",
            _ => "the first one is at",
        }
    }
}

/// What is wrong with a name.
fn words_of_name(kind: EarlyErrorKind) -> Option<&'static str> {
    Some(match kind {
        EarlyErrorKind::DeclaredTwice => "'$' is declared already",
        EarlyErrorKind::ParameterTwice => "'$' is a parameter already",
        EarlyErrorKind::LetNamed => "'let' can't be declared by 'let' or 'const'",
        EarlyErrorKind::StrictWord => "'$' can't be a name in strict code",
        EarlyErrorKind::StrictTarget => "'$' can't be declared or assigned to in strict code",
        EarlyErrorKind::AwaitNamed => "'await' can't be a name here",
        EarlyErrorKind::YieldNamed => "'yield' can't be a name here",
        EarlyErrorKind::LabelUnknown => "no statement around has the label '$'",
        EarlyErrorKind::LabelTwice => "a statement around has the label '$' already",
        EarlyErrorKind::LabelOfNoLoop => "'$' is the label of no loop",
        EarlyErrorKind::PrivateUnknown => "no class around declares '$'",
        EarlyErrorKind::PrivateTwice => "the class declares '$' already",
        EarlyErrorKind::PrivateDeleted => "what has a private name can't be deleted",
        EarlyErrorKind::ExportedTwice => "'$' is exported already",
        EarlyErrorKind::ExportUnknown => "the module doesn't declare '$'",
        EarlyErrorKind::ExportWord => "'$' can't be the name of a declaration",
        EarlyErrorKind::AttributeTwice => "an attribute has the key '$' already",
        EarlyErrorKind::LoneSurrogate => "this name has half a character",
        EarlyErrorKind::EscapedWord => "this word can't be written with an escape here",
        _ => return None,
    })
}

/// What is wrong with a class or a method.
fn words_of_class(kind: EarlyErrorKind) -> Option<&'static str> {
    Some(match kind {
        EarlyErrorKind::ConstructorTwice => "the class has a constructor already",
        EarlyErrorKind::ConstructorForm => {
            "a constructor can't be a generator, asynchronous, a getter or a setter"
        }
        EarlyErrorKind::FieldName => "a field can't be named '$'",
        EarlyErrorKind::PrototypeMethod => "a static method can't be named 'prototype'",
        EarlyErrorKind::PrivateConstructor => "a private name can't be '#constructor'",
        EarlyErrorKind::GetterParameters => "a getter has no parameters",
        EarlyErrorKind::SetterParameters => "a setter has one parameter, and no rest",
        EarlyErrorKind::SuperCall => {
            "'super()' can only be used in the constructor of a class with 'extends'"
        }
        EarlyErrorKind::SuperProperty => "'super' can only be used in methods",
        EarlyErrorKind::NewTarget => "'new.target' can only be used in functions",
        EarlyErrorKind::ArgumentsInClass => {
            "'arguments' can't be used in the value of a field or in a static block"
        }
        _ => return None,
    })
}

/// What is wrong with a statement or an expression.
fn words_of_code(kind: EarlyErrorKind) -> &'static str {
    match kind {
        EarlyErrorKind::StrictParameters => {
            "\"use strict\" can't be in a function with a pattern, a default value or a rest among its parameters"
        }
        EarlyErrorKind::StrictEscape => "this escape can't be used in strict code",
        EarlyErrorKind::StrictWith => "'with' can't be used in strict code",
        EarlyErrorKind::StrictDelete => "a name can't be deleted in strict code",
        EarlyErrorKind::FunctionBody => "a function can't be here without braces around it",
        EarlyErrorKind::LabelledFunction => "this function can't be after a label",
        EarlyErrorKind::BreakOutside => "'break' can only be used in loops and 'switch'",
        EarlyErrorKind::ContinueOutside => "'continue' can only be used in loops",
        EarlyErrorKind::ReturnOutside => "'return' can only be used in functions",
        EarlyErrorKind::DefaultTwice => "the 'switch' has a 'default' already",
        EarlyErrorKind::YieldInParameters => "'yield' can't be used in parameters",
        EarlyErrorKind::AwaitInParameters => "'await' can't be used in parameters",
        EarlyErrorKind::AwaitOutside =>
            "'await' can only be used in async functions and at the top of modules",
        EarlyErrorKind::ProtoTwice => "the object has '__proto__' already",
        EarlyErrorKind::LineBreakAfterAsync => "no line can end after 'async' here",
        EarlyErrorKind::LetInHead => "what is before 'of' can't begin with 'let'",
        EarlyErrorKind::RestPattern => "what is after '...' here can't be a pattern",
        _ => "this can't be here",
    }
}

/// An early error of a program.
#[derive(Clone, Copy, Debug, PartialEq, Eq)]
pub struct EarlyError {
    pub kind: EarlyErrorKind,
    pub span: Span,
    /// Where what is there twice is the first time.
    pub first: Option<Span>,
}
