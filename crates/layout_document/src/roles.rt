// What an expression is to what it is a part of, as far as its layout depends on that.

/// How the lines of an operator's operands are indented.
#[derive(Clone, Copy, PartialEq, Eq)]
pub enum Lines {
    /// More than the first operand.
    Deeper,
    /// As the first operand.
    Level,
    /// As what is in the parentheses of a statement, whose group the operator has no other than.
    Test,
}

/// What an expression is to what it is a part of.
#[derive(Clone, Copy, PartialEq, Eq)]
pub enum Role {
    /// Nothing of note.
    Plain,
    /// An operator whose lines are such, with a group of its own unless they are those of a test.
    Lined(Lines),
    /// An operator that goes on with the group of the one that it is the left operand of.
    Within(Lines),
    /// An operator, of other precedence, in one that is logical or not.
    Under { is_logical: bool },
    /// An operand: parentheses are no group.
    Operand,
    /// What is called, or has a member.
    Callee,
    /// A link of a chain, which is noted at its last link.
    Link,
    /// The expression of a statement.
    Statement,
    /// An argument.
    Argument,
    /// What `return` or `throw` has.
    Result,
    /// A `?` after a `?` or a `:`.
    Nested,
    /// What is assigned to, or assigned to what is no name: members in it begin no lines.
    Target,
    /// What a name is assigned, or a variable is set to.
    Right,
    /// An assignment in a chain of them.
    Chained,
    /// An arrow function that returns another one, or is returned by one, in a group with places for lines between them.
    Curried,
    /// A pattern that is a parameter, or has a default: those in it don't break it.
    Parameter,
}
