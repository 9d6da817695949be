// Help.

/// What is said of a command.
#[derive(Clone, Copy)]
pub struct Help {
    /// In a line.
    pub about: &'static str,
    /// After the options: what it does, the statuses, and an example.
    pub more: &'static str,
}

/// What the program is.
pub const ABOUT: &str =
    "Checks, formats and takes apart ECMAScript programs, by a parser that is proved";

/// What is said after the list of commands.
pub const AFTER: &str =
    "Of a folder, all .js, .mjs and .cjs files below it are read, but for node_modules and names that begin with a dot.

Without --script, --module or --commonjs, a .mjs file is a module and a .cjs file a CommonJS module. Another file is a
script, or a module if it is refused at an import, export or await as a script, or a CommonJS module if it is refused
at a return.

Status: 0; 1 if something is wrong with a file; 2 if the arguments are bad, or a file can't be read or written. Lines
and columns are counted from 1, columns in UTF-16 units.

Example: ecma check src";

pub const CHECK: Help = Help {
    about: "Tell what is wrong with files, early errors too",
    more: "Tells what is wrong with each file, as FILE:LINE:COLUMN: message, and shows its line. Of a file that is no program
each function, class and the code around them tells its first syntax error, if brackets pair; otherwise the
first fault of the file is told. Of other files all early errors are told, as a name that is declared twice.

Status: 0 if no file has a fault; 1; 2 if a file can't be read.

Example: ecma check --json src tests/main.mjs",
};

pub const LINT: Help = Help {
    about: "Tell the same, and find `==`, `!=` and `eval(..)`",
    more: "Tells what `check` tells, and finds, as FILE:LINE:COLUMN: message [rule]:
  eqeqeq   `==` and `!=`
  no-eval  calls of `eval`

Status: 0 if nothing is found; 1; 2 if a file can't be read.

Example: ecma lint src",
};

pub const ESTREE: Help = Help {
    about: "Write trees as ESTree JSON",
    more: "Writes the tree of each file on a line, as the parser acorn makes it. A file that has an early error is refused, as
acorn does.

Status: 0; 1 if a file has a fault, which is told on standard error; 2 if a file can't be read.

Example: ecma estree --loc --comments a.js",
};

pub const FORMAT: Help = Help {
    about: "Lay files out",
    more: "Writes files in their layout. Only blanks, line breaks, semicolons, and commas before closing brackets change. Early
errors aren't looked for. A file that has a fault stays as it is. After a comment `prettier-ignore` a statement, a
member of a class or a property stays as it is written. --commas puts commas after last items whose closing bracket
begins a line: all; in lists, but not in arguments and parameters; or none.

Status: 0; 1 if a file has a fault, which is told on standard error, or differs with --check; 2 if a file can't be read
or written.

Example: ecma format --write src",
};

pub const OUTLINE: Help = Help {
    about: "Write trees as text",
    more: "Writes the tree of each file as text: a line for each statement, clause and member. With more than one file, each
begins with a line that has its name. Early errors aren't looked for.

Status: 0; 1 if a file has a fault, which is told on standard error; 2 if a file can't be read.

Example: ecma outline a.js",
};

pub const SCOPES: Help = Help {
    about: "List names, and where they are bound",
    more: "Lists each name, as LINE:COLUMN NAME HOW, where HOW is bound, read, written or updated, and then `bound LINE:COLUMN`,
where it is bound, or `free`. With more than one file, each begins with a line that has its name. Early errors aren't
looked for.

Status: 0; 1 if a file has a fault, which is told on standard error; 2 if a file can't be read.

Example: ecma scopes a.js",
};

pub const TOKENS: Help = Help {
    about: "List tokens",
    more: "Lists each token, as LINE:COLUMN KIND \"TEXT\", where KIND is word, sign, string, number, bigint, regexp or template.

Status: 0; 1 if a file has a fault, which is told on standard error; 2 if a file can't be read.

Example: ecma tokens a.js",
};

pub const TEMPLATE: Help = Help {
    about: "Take texts with {{ expressions }} apart",
    more: "Writes the pieces of texts as `Hello {{ user.name }}!`, a line each: `text` with the text in quotes, and `hole` with
the tree of an expression.

Status: 0; 1 if a hole has a fault, which is told on standard error; 2 if a file can't be read.

Example: echo 'Hello {{ user.name }}!' | ecma template",
};

pub const EXPR: Help = Help {
    about: "Write the tree of an expression",
    more: "Writes the tree of each file, which is one expression, on a line. Where tokens are left after the expression, `unread`
comes after it. Functions, classes and blocks are skipped.

Status: 0; 1 if there is a fault, which is told on standard error; 2 if a file can't be read.

Example: echo 'a + b' | ecma expr",
};

pub const PAT: Help = Help {
    about: "Write the tree of a pattern",
    more: "Writes the tree of each file, which is one binding pattern, on a line, as `expr` does.

Status: 0; 1 if there is a fault, which is told on standard error; 2 if a file can't be read.

Example: echo '[a, {b = 1}]' | ecma pat",
};

pub const LSP: Help = Help {
    about: "Serve editors, by the Language Server Protocol",
    more: "Serves an editor on standard input and output, by the Language Server Protocol (3.17): faults, layouts, symbols, folds,
selections, definitions, references, highlights, other names, hovers and semantic tokens. The options of initialization, or
the settings of `ecma`, are {\"lint\": true}, for the rules of `lint`, and {\"width\": 100}, for layouts.

Status: 0 after `shutdown` and `exit`; 1 otherwise.

Example: vim.lsp.start({ name = 'ecma', cmd = { 'ecma', 'lsp' } })",
};
