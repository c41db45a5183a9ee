// What each command on executables asks for, by its words as `clap` matched them.

ghost use Rattle.std.specs.Prelude.{◌≡◌, ◌<◌, ◌^◌, None, IfOk};
ghost use Rattle.command_line.specs.Words.{arguments_of, WritesNoneItReads};

use crate::asked::{NO_COMMAND, profile_of, text_of, texts_of};
use crate::commands::MOST_STEPS;
use crate::options::{FunctionOptions, ObservedOptions};
use crate::words::Request;
use clap::ArgMatches;
use clap::error::ErrorKind;
use elf_reports::AskedWords;

/// The request of a command on executables.
pub(super) fn request_on_executable<'a>(
    matches: &'a ArgMatches<'_>,
) -> Result<Request<'a>, (ErrorKind, &'static str)>
    ensures none { IfOk result (λ request. arguments_of request ≡ None) }
    ensures apart { IfOk result WritesNoneItReads }
{
    let Some((name, given)) = matches.subcommand() else {
        return Err(NO_COMMAND);
    };
    match name {
        "certify" => Ok(Request::ElfCertify {
            file: text_of(given, "ELF"),
            words: words_of(given),
            options: options_of(given),
        }),
        "leak" => Ok(Request::ElfLeak {
            file: text_of(given, "ELF"),
            words: words_of(given),
            options: observed_options_of(given),
        }),
        "witness" => Ok(Request::ElfWitness {
            file: text_of(given, "ELF"),
            words: words_of(given),
            options: observed_options_of(given),
            tries: given.get_one("tries").unwrap_or(0),
        }),
        _ => Err(NO_COMMAND),
    }
}

/// What the words ask of a run of a function.
fn words_of<'a>(given: &'a ArgMatches<'_>) -> AskedWords<'a> {
    AskedWords {
        function: text_of(given, "FUNCTION"),
        arguments: texts_of(given, "ARG"),
        secrets: texts_of(given, "secret"),
        settings: texts_of(given, "set"),
        stack: given.get_one("stack").unwrap_or(0),
    }
}

/// How the function is to be run for all that is not known.
fn options_of(given: &ArgMatches<'_>) -> FunctionOptions {
    FunctionOptions {
        profile: profile_of(given),
        shifts: given.get_flag("shifts"),
        steps: steps_of(given),
        explain: given.get_flag("explain"),
        progress: given.get_flag("progress"),
    }
}

/// How its runs are to be made one by one.
fn observed_options_of(given: &ArgMatches<'_>) -> ObservedOptions {
    ObservedOptions {
        profile: profile_of(given),
        steps: steps_of(given),
    }
}

/// How many steps a run has at most. More than may be allowed are no value of the option.
fn steps_of(given: &ArgMatches<'_>) -> u64
    ensures { result < 2 ^ 62 }
{
    let steps: u64 = given.get_one("steps").unwrap_or(0);
    steps.min(MOST_STEPS)
}
