// The pieces of a text.
ghost use Rattle.std.specs.Prelude.{◌≡◌, ◌++◌, ◌∷◌, [], OnOk};
ghost use Rattle.swc_print.specs.Numbers.{numbers};

use std::alloc::AllocError;

/// What a member or a call is a part of.
#[derive(Clone, Copy)]
pub enum Owner {
    /// Nothing whose text ends with it
    Other,
    /// A link of an optional chain, whose text ends with it
    Chain,
}

impl Owner {
    /// What ends it after a name.
    pub fn end(self) -> &'static str {
        match self {
            Owner::Other => ")",
            Owner::Chain => "))",
        }
    }

    /// What ends it after an item in brackets.
    pub fn bracketed_end(self) -> &'static str {
        match self {
            Owner::Other => "])",
            Owner::Chain => "]))",
        }
    }
}

/// A piece of the text of a node.
#[derive(Clone, Copy)]
pub enum Piece<'a> {
    /// It is written as it is.
    Text(&'a str),
    /// The number of tokens that a value of the hook kept, as `<3>`.
    Count(usize),
    /// The text of the node that has the number.
    Node(usize),
    /// A comma, and the text of the node that has the number.
    Next(usize),
    /// A comma, the text of the node that has the number, and `)`.
    Last(usize),
    /// A comma, `[`, the text of the node that has the number, `]`, and the end of what it is in.
    Bracketed(Owner, usize),
    /// A comma, a dot, the name, and the end of what it is in.
    Property(Owner, &'a str),
}

/// The text so far, and the pieces of one node.
#[derive(Drop)]
pub struct Pieces<'a> {
    pub out: String,
    /// The pieces from the node's first part on. What is before it is written at once.
    pub waiting: Vec<Piece<'a>>,
}

/// Appends a piece that is a node, or begins with one.
pub fn put_part<'a>(pieces: &mut Pieces<'a>, part: Piece<'a>) -> Result<(), AllocError>
    ensures { OnOk result (numbers pieces.new.waiting.items ≡ numbers pieces.old.waiting.items
        ++ numbers (part.entry ∷ [])) }
{
    pieces.waiting.push(part)?;
    Ok(())
}

/// Appends a text.
pub fn put_text<'a>(pieces: &mut Pieces<'a>, text: &'a str) -> Result<(), AllocError>
    ensures { OnOk result (numbers pieces.new.waiting.items ≡ numbers pieces.old.waiting.items) }
{
    if text.is_empty() {
        Ok(())
    } else if pieces.waiting.is_empty() {
        pieces.out.push_str(text)
    } else {
        Ok(pieces.waiting.push(Piece::Text(text))?)
    }
}

/// Appends the name of a property, which ends a member.
pub fn put_property<'a>(
    pieces: &mut Pieces<'a>,
    owner: Owner,
    name: &'a str,
) -> Result<(), AllocError>
    ensures { OnOk result (numbers pieces.new.waiting.items ≡ numbers pieces.old.waiting.items) }
{
    pieces.waiting.push(Piece::Property(owner, name))?;
    Ok(())
}

/// Appends the number of tokens that a value of the hook kept.
fn put_count(pieces: &mut Pieces, count: usize) -> Result<(), AllocError>
    ensures { OnOk result (numbers pieces.new.waiting.items ≡ numbers pieces.old.waiting.items) }
{
    if pieces.waiting.is_empty() {
        write!(pieces.out, "<{count}>")
    } else {
        Ok(pieces.waiting.push(Piece::Count(count))?)
    }
}

/// Appends a mark and a name.
pub fn put_named<'a>(
    pieces: &mut Pieces<'a>,
    mark: &'a str,
    name: &'a str,
) -> Result<(), AllocError>
    ensures { OnOk result (numbers pieces.new.waiting.items ≡ numbers pieces.old.waiting.items) }
{
    put_text(pieces, mark)?;
    put_text(pieces, name)
}

/// Appends a text, and a node after it.
pub fn put_after<'a>(
    pieces: &mut Pieces<'a>,
    text: &'a str,
    number: usize,
) -> Result<(), AllocError>
    ensures { OnOk result (numbers pieces.new.waiting.items ≡ numbers pieces.old.waiting.items ++ number ∷ []) }
{
    put_text(pieces, text)?;
    put_part(pieces, Piece::Node(number))
}

/// Appends a node between `open` and `)`.
pub fn put_in<'a>(pieces: &mut Pieces<'a>, open: &'a str, number: usize) -> Result<(), AllocError>
    ensures { OnOk result (numbers pieces.new.waiting.items ≡ numbers pieces.old.waiting.items ++ number ∷ []) }
{
    put_after(pieces, open, number)?;
    put_text(pieces, ")")
}

/// Appends two nodes, with a comma between them, between `open` and `)`.
pub fn put_two<'a>(
    pieces: &mut Pieces<'a>,
    open: &'a str,
    left: usize,
    right: usize,
) -> Result<(), AllocError>
    ensures { OnOk result (numbers pieces.new.waiting.items ≡ numbers pieces.old.waiting.items ++ left ∷ right ∷ []) }
{
    put_after(pieces, open, left)?;
    put_part(pieces, Piece::Last(right))
}

/// Appends a node between `open` and `]`.
pub fn put_computed<'a>(
    pieces: &mut Pieces<'a>,
    open: &'a str,
    number: usize,
) -> Result<(), AllocError>
    ensures { OnOk result (numbers pieces.new.waiting.items ≡ numbers pieces.old.waiting.items ++ number ∷ []) }
{
    put_after(pieces, open, number)?;
    put_text(pieces, "]")
}

/// Appends a text, and what a value of the hook kept.
pub fn put_kept<'a>(pieces: &mut Pieces<'a>, text: &'a str, kept: usize) -> Result<(), AllocError>
    ensures { OnOk result (numbers pieces.new.waiting.items ≡ numbers pieces.old.waiting.items) }
{
    put_text(pieces, text)?;
    put_count(pieces, kept)
}

/// Appends what a value of the hook kept, which ends a node.
pub fn put_kept_last<'a>(
    pieces: &mut Pieces<'a>,
    before: &'a str,
    kept: usize,
) -> Result<(), AllocError>
    ensures { OnOk result (numbers pieces.new.waiting.items ≡ numbers pieces.old.waiting.items) }
{
    put_kept(pieces, before, kept)?;
    put_text(pieces, ")")
}
