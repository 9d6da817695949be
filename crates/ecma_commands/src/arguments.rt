// What the words after the program's name ask for.
use crate::command::{Command, Options, Trees};
use crate::help;
use clap::builder::ValueParser;
use clap::error::ErrorKind;
use clap::{Arg, ArgAction, ArgGroup, ArgMatches, Command as Words, Error};
use layout_document::style::Commas;
use statement_trees::tree::Goal;
use std::alloc::{AllocError, Global};
use std::{env, io};

/// What is asked for.
#[derive(Drop)]
pub struct Asked {
    pub options: Options,
    /// The files and folders; `-` is standard input. There is one at least.
    pub paths: Vec<String>,
}

/// The words after the program's name.
pub fn words_of(rt: &HostRuntime) -> io::Result<Vec<String>> {
    let mut words = Vec::new(rt.alloc());
    let arguments = match env::args(rt) {
        Ok(arguments) => arguments,
        Err(failure) => match failure.kind() {
            io::ErrorKind::InvalidData => return Err(io::Error::other("an argument isn't UTF-8")),
            _ => return Err(failure),
        },
    };
    for word in arguments.skip(1) {
        words.push(word)?;
    }
    Ok(words)
}

/// What the words ask for. The error says what is wrong with them, or is help or the version.
pub fn asked_by(alloc: Global, words: &[String]) -> Result<Asked, Error> {
    let mut program = program(alloc)?;
    let matches = program.try_get_matches_from_mut(words)?;
    let Some((name, chosen)) = matches.subcommand() else {
        return Err(program.error(ErrorKind::MissingSubcommand, "there is no command")?);
    };
    let options = options_of(Command::named(name), chosen);
    let mut paths = Vec::new(alloc);
    for path in chosen.get_strs("FILE").unwrap_or(&[]) {
        paths.push(String::from_str(alloc, path)?)?;
    }
    if paths.is_empty() {
        paths.push(String::from_str(alloc, "-")?)?;
    }
    if options.write && paths.iter().any(|path: &String| path.as_str() == "-") {
        let message = "--write needs files: standard input can't be written";
        return Err(program.error(ErrorKind::MissingRequiredArgument, message)?);
    }
    Ok(Asked { options, paths })
}

/// What is chosen for a command.
fn options_of(command: Command, chosen: &ArgMatches<'_>) -> Options {
    let mut options = Options::new(command);
    options.goal = goal_of(chosen);
    options.json = chosen.get_flag("json");
    options.max = chosen.get_one::<usize>("max").unwrap_or(options.max);
    options.trees = Trees {
        loc: chosen.get_flag("loc"),
        range: chosen.get_flag("range"),
        comments: chosen.get_flag("comments"),
        tokens: chosen.get_flag("tokens"),
        pretty: chosen.get_flag("pretty"),
    };
    options.check = chosen.get_flag("check");
    options.write = chosen.get_flag("write");
    options.expr = chosen.get_flag("expr");
    options.strict = chosen.get_flag("strict");
    options.generator = chosen.get_flag("generator");
    options.asynchronous = chosen.get_flag("async");
    options.pedantic = chosen.get_flag("pedantic");
    let style = &mut options.style;
    style.width = chosen.get_one::<usize>("width").unwrap_or(style.width);
    style.indent = chosen.get_one::<usize>("indent").unwrap_or(style.indent);
    style.commas = match chosen.get_str("commas") {
        Some("lists") => Commas::Lists,
        Some("none") => Commas::None,
        _ => Commas::All,
    };
    options
}

/// What each text is to be read as.
fn goal_of(chosen: &ArgMatches<'_>) -> Option<Goal> {
    if chosen.get_flag("script") {
        Some(Goal::Script)
    } else if chosen.get_flag("module") {
        Some(Goal::Module)
    } else if chosen.get_flag("commonjs") {
        Some(Goal::CommonJs)
    } else {
        None
    }
}

/// The program's commands and options.
fn program<'a>(alloc: Global) -> Result<Words<'a>, AllocError> {
    Words::new(alloc, "ecma")
        .bin_name("ecma")?
        .about(help::ABOUT)
        .version(crate::VERSION)
        .after_help(help::AFTER)
        .no_binary_name(true)
        .arg_required_else_help(true)
        .subcommand_required(true)
        .subcommand(check(alloc)?)?
        .subcommand(format(alloc)?)?
        .subcommand(lint(alloc)?)?
        .subcommand(estree(alloc)?)?
        .subcommand(command(alloc, "outline", help::OUTLINE)?)?
        .subcommand(command(alloc, "scopes", help::SCOPES)?)?
        .subcommand(command(alloc, "tokens", help::TOKENS)?)?
        .subcommand(command(alloc, "template", help::TEMPLATE)?)?
        .subcommand(part(alloc, "expr", help::EXPR)?)?
        .subcommand(part(alloc, "pat", help::PAT)?)?
        .subcommand(lsp(alloc, "lsp", help::LSP)?)
}

/// A command, with the options that all have.
fn command<'a>(alloc: Global, name: &'a str, help: help::Help) -> Result<Words<'a>, AllocError> {
    Words::new(alloc, name)
        .about(help.about)
        .after_help(help.more)
        .arg(flag(alloc, "script", "Read each file as a script"))?
        .arg(flag(alloc, "module", "Read each file as a module"))?
        .arg(flag(alloc, "commonjs", "Read each file as a CommonJS module"))?
        .group(
            ArgGroup::new(alloc, "goal")
                .arg("script")?
                .arg("module")?
                .arg("commonjs")?,
        )?
        .arg(flag(alloc, "json", "Write what is wrong as lines of JSON"))?
        .arg(
            Arg::new(alloc, "FILE").num_args(0..).help(
                "Files, folders, or - for standard input, which is the default",
            ),
        )
}

/// An option that is there or not.
fn flag<'a>(alloc: Global, name: &'a str, help: &'a str) -> Arg<'a> {
    Arg::new(alloc, name)
        .long(name)
        .action(ArgAction::SetTrue)
        .help(help)
}

/// An option with a number between two.
fn number<'a>(alloc: Global, name: &'a str, help: &'a str, least: u64, most: u64) -> Arg<'a> {
    Arg::new(alloc, name)
        .long(name)
        .value_name("N")
        .value_parser(ValueParser::unsigned(least, most))
        .help(help)
}

fn check<'a>(alloc: Global) -> Result<Words<'a>, AllocError> {
    let max = number(
        alloc,
        "max",
        "How many faults of a file are told [default: 20]",
        1,
        MOST_TOLD,
    );
    command(alloc, "check", help::CHECK)?.arg(max)
}

fn lint<'a>(alloc: Global) -> Result<Words<'a>, AllocError> {
    let max = number(
        alloc,
        "max",
        "How many findings of a file are told [default: 20]",
        1,
        MOST_TOLD,
    );
    command(alloc, "lint", help::LINT)?.arg(max)
}

fn estree<'a>(alloc: Global) -> Result<Words<'a>, AllocError> {
    command(alloc, "estree", help::ESTREE)?
        .arg(flag(alloc, "loc", "Give each node its lines and columns"))?
        .arg(flag(alloc, "range", "Give each node its place as a pair"))?
        .arg(flag(alloc, "comments", "Add a list of the comments"))?
        .arg(flag(
            alloc,
            "tokens",
            "Add a list of the tokens, as ESLint's parser has it",
        ))?
        .arg(flag(alloc, "pretty", "Lay trees out over lines"))
}

/// The command that serves editors, which has no files.
fn lsp<'a>(alloc: Global, name: &'a str, help: help::Help) -> Result<Words<'a>, AllocError> {
    Words::new(alloc, name)
        .about(help.about)
        .after_help(help.more)
        .arg(flag(
            alloc,
            "stdio",
            "Serve on standard input and output, as it does anyway",
        ))
}

/// How many findings of a file may be asked for.
const MOST_TOLD: u64 = 1_000_000_000;

/// Where commas are put.
const COMMAS: &[&str] = &["all", "lists", "none"];

fn format<'a>(alloc: Global) -> Result<Words<'a>, AllocError> {
    let commas = Arg::new(alloc, "commas")
        .long("commas")
        .value_name("WHERE")
        .value_parser(COMMAS)
        .help("Where a comma is put after a last item [default: all]");
    command(alloc, "format", help::FORMAT)?
        .arg(flag(alloc, "check", "List the files whose layout differs").conflicts_with("write")?)?
        .arg(flag(
            alloc,
            "write",
            "Write files anew in their place, and list those that changed",
        ))?
        .arg(number(
            alloc,
            "width",
            "How long lines may be [default: 80]",
            20,
            1000,
        ))?
        .arg(number(
            alloc,
            "indent",
            "How far lines are indented [default: 2]",
            1,
            16,
        ))?
        .arg(commas)?
        .arg(flag(alloc, "expr", "Read each file as one expression"))
}

/// A command that reads a part of a program.
fn part<'a>(alloc: Global, name: &'a str, help: help::Help) -> Result<Words<'a>, AllocError> {
    command(alloc, name, help)?
        .arg(flag(alloc, "strict", "Read strict code"))?
        .arg(flag(alloc, "generator", "Read the code of a generator"))?
        .arg(flag(alloc, "async", "Read the code of an async function"))?
        .arg(flag(
            alloc,
            "pedantic",
            "Look for the early errors that swc leaves out, too",
        ))
}
