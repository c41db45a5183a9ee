// The commands of `factc`, a row for each, and what `clap` makes of the rows.

use crate::commands::{CommandRow, CommandWord, ELF_ABOUT, commands, elf_commands};
use clap::builder::ValueParser;
use clap::{Arg, ArgAction, Command, value_parser};
use explanations::codes;
use std::alloc::{AllocError, Global};

/// The commands of `factc` and their words, as `clap` reads them.
pub fn factc<'a>(alloc: Global) -> Result<Command<'a>, AllocError> {
    let factc = Command::new(alloc, "factc")
        .version("1.0.0")
        .about(
            "Compiles a core of FaCT, a language for code that shows an observer no secrets, to RISC-V (RV32IM), runs \
             what it compiled, and shows what an observer sees of the run: addresses, and operands of divisions",
        )
        .subcommand_required(true);
    with_groups(alloc, factc, &commands())?.subcommand(elf(alloc)?)
}

/// The commands on executables.
fn elf<'a>(alloc: Global) -> Result<Command<'a>, AllocError> {
    let elf = Command::new(alloc, "elf")
        .about(ELF_ABOUT)
        .subcommand_required(true);
    with_groups(alloc, elf, &elf_commands())
}

/// A command that has those of these tables as well.
fn with_groups<'a>(
    alloc: Global,
    mut whole: Command<'a>,
    groups: &[&[CommandRow]],
) -> Result<Command<'a>, AllocError> {
    for rows in groups {
        whole = with_rows(alloc, whole, rows)?;
    }
    Ok(whole)
}

/// A command that has those of these rows as well.
fn with_rows<'a>(
    alloc: Global,
    mut whole: Command<'a>,
    rows: &[CommandRow],
) -> Result<Command<'a>, AllocError> {
    for row in rows {
        whole = whole.subcommand(command(alloc, row)?)?;
    }
    Ok(whole)
}

/// The command of a row.
fn command<'a>(alloc: Global, row: &CommandRow) -> Result<Command<'a>, AllocError> {
    let mut command = Command::new(alloc, row.name).about(row.about);
    for word in row.words {
        command = command.arg(argument(alloc, word))?;
    }
    Ok(command)
}

/// What `clap` reads as this word.
fn argument<'a>(alloc: Global, word: &CommandWord) -> Arg<'a> {
    match *word {
        CommandWord::Path(name, help) => path(alloc, name, help),
        CommandWord::Code(name, help) => path(alloc, name, help).value_parser(codes()),
        CommandWord::Number(name, help) => number(alloc, name, help),
        CommandWord::NumberUpTo(name, most, default, help) => {
            number_up_to(alloc, name, most, default).help(help)
        }
        CommandWord::Text(name, value, help) => text(alloc, name, value, help),
        CommandWord::Texts(name, value, help) => texts(alloc, name, value, help),
        CommandWord::Profile => profile(alloc),
        CommandWord::Optimisation => optimisation(alloc),
        CommandWord::SmallCode => small_code(alloc),
        CommandWord::Format(help) => format(alloc, help),
        CommandWord::Flag(name, help) => flag(alloc, name, help),
        CommandWord::Arguments(help) => arguments(alloc, help),
        CommandWord::Operands(help) => operands(alloc, help),
    }
}

fn path<'a>(alloc: Global, name: &'static str, help: &'static str) -> Arg<'a> {
    Arg::new(alloc, name)
        .action(ArgAction::Set)
        .required(true)
        .help(help)
}

/// A value that is given after its name, and what it is called in the help.
fn named<'a>(alloc: Global, name: &'static str, value: &'static str) -> Arg<'a> {
    Arg::new(alloc, name)
        .long(name)
        .value_name(value)
        .action(ArgAction::Set)
}

/// A number that is to be given after its name.
fn number<'a>(alloc: Global, name: &'static str, help: &'static str) -> Arg<'a> {
    named(alloc, name, "N")
        .required(true)
        .value_parser(value_parser!(u64))
        .help(help)
}

/// A number, at most so large, that may be given after its name.
fn number_up_to<'a>(
    alloc: Global,
    name: &'static str,
    most: u64,
    default: &'static str,
) -> Arg<'a> {
    named(alloc, name, "N")
        .value_parser(ValueParser::unsigned(0, most))
        .default_value(default)
}

/// A text that may be given after its name.
fn text<'a>(alloc: Global, name: &'static str, value: &'static str, help: &'static str) -> Arg<'a> {
    named(alloc, name, value).help(help)
}

/// A text that may be given after its name, several times.
fn texts<'a>(
    alloc: Global,
    name: &'static str,
    value: &'static str,
    help: &'static str,
) -> Arg<'a> {
    text(alloc, name, value, help).action(ArgAction::Append)
}

/// The numbers of the profiles.
static PROFILES: [&str; 2] = ["1", "2"];

/// For which observer a source is judged or compiled.
fn profile<'a>(alloc: Global) -> Arg<'a> {
    named(alloc, "profile", "N")
        .value_parser(PROFILES.as_slice())
        .default_value("1")
        .help(
            "The observer from whom secrets are kept: one to whom multiplications show nothing of their operands (1), \
             or one who sees the operands of multiplications too (2)",
        )
}

/// The names of the formats.
static FORMATS: [&str; 2] = ["text", "json"];

/// How the answer is printed.
fn format<'a>(alloc: Global, help: &'static str) -> Arg<'a> {
    named(alloc, "format", "FORMAT")
        .value_parser(FORMATS.as_slice())
        .default_value("text")
        .help(help)
}

/// Whether optimised code is asked for.
fn optimisation<'a>(alloc: Global) -> Arg<'a> {
    flag(
        alloc,
        "optimise",
        "Makes optimised code: fewer steps in most routines, the same guarantees",
    )
    .short('O')
}

/// Whether optimised code is to be small.
fn small_code<'a>(alloc: Global) -> Arg<'a> {
    flag(
        alloc,
        "small",
        "Makes optimised code in which loops stay loops: less code than -O makes, mostly more steps; -Os is the same",
    )
    .short('s')
}

/// A flag that is given or not.
fn flag<'a>(alloc: Global, name: &'static str, help: &'static str) -> Arg<'a> {
    Arg::new(alloc, name)
        .long(name)
        .action(ArgAction::SetTrue)
        .help(help)
}

/// Every word after a path, also one that begins with a hyphen.
fn arguments<'a>(alloc: Global, help: &'static str) -> Arg<'a> {
    operands(alloc, help)
        .allow_hyphen_values(true)
        .trailing_var_arg(true)
}

/// Every further word that is no option.
fn operands<'a>(alloc: Global, help: &'static str) -> Arg<'a> {
    Arg::new(alloc, "ARG")
        .action(ArgAction::Append)
        .num_args(0..)
        .help(help)
}
