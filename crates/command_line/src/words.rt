ghost use Rattle.std.specs.Prelude.{◌≡◌, ◌≤◌, length, map, IfOk};
ghost use Rattle.command_line.specs.Words.{is_flag, behind_flags, behind_value, after_path, IsAskedBy};
ghost use Rattle.command_line.specs.Words.{takes_value, WritesNoneItReads};

use crate::asked::request_of;
use crate::grammar::factc;
use crate::options::{
    CertifyOptions, CompileOptions, Format, FunctionOptions, LinkOptions, ObservedOptions,
    PairOptions, StepOptions,
};
use clap::error::ErrorKind;
use clap::{ArgMatches, Error};
use elf_reports::AskedWords;
use explanations::Explanation;
use hepurita::Optimisation;
use std::alloc::Global;
use word::Profile;

/// What the words ask for.
#[derive(Clone, Copy)]
pub enum Request<'a> {
    Check {
        libraries: &'a [&'a str],
        file: &'a str,
        profile: Profile,
        explain: bool,
    },
    /// The same, with all that the pass finds that refuses the source.
    CheckAll {
        libraries: &'a [&'a str],
        file: &'a str,
        profile: Profile,
        explain: bool,
    },
    Build {
        libraries: &'a [&'a str],
        file: &'a str,
        image: &'a str,
        options: CompileOptions,
    },
    Stat {
        libraries: &'a [&'a str],
        file: &'a str,
        profile: Profile,
        optimisation: Optimisation,
    },
    Function {
        libraries: &'a [&'a str],
        file: &'a str,
        assembler: &'a str,
        header: &'a str,
        options: LinkOptions<'a>,
    },
    Eval {
        libraries: &'a [&'a str],
        file: &'a str,
        arguments: &'a [&'a str],
        explain: bool,
    },
    Run {
        image: &'a str,
        arguments: &'a [&'a str],
        options: StepOptions,
    },
    Leak {
        image: &'a str,
        arguments: &'a [&'a str],
    },
    Pair {
        image: &'a str,
        arguments: &'a [&'a str],
        options: PairOptions,
    },
    Certify {
        image: &'a str,
        arguments: &'a [&'a str],
        options: CertifyOptions,
    },
    Picture {
        image: &'a str,
        arguments: &'a [&'a str],
        progress: bool,
    },
    List {
        image: &'a str,
    },
    Wrap {
        file: &'a str,
        code: &'a str,
        image: &'a str,
        frame: u64,
        steps: u64,
        profile: Profile,
    },
    Harts {
        file: &'a str,
    },
    Vectors {
        libraries: &'a [&'a str],
        file: &'a str,
        vectors: &'a str,
        profile: Profile,
        optimisation: Optimisation,
    },
    Explain {
        explanation: Explanation,
    },
    ElfCertify {
        file: &'a str,
        words: AskedWords<'a>,
        options: FunctionOptions,
    },
    ElfLeak {
        file: &'a str,
        words: AskedWords<'a>,
        options: ObservedOptions,
    },
    ElfWitness {
        file: &'a str,
        words: AskedWords<'a>,
        options: ObservedOptions,
        tries: u64,
    },
}

/// What the words ask for, and how it is to be answered.
#[derive(Clone, Copy)]
pub struct FormattedRequest<'a> {
    pub request: Request<'a>,
    pub format: Format,
}

/// Why the words ask for no command, with the text that is to be printed.
#[derive(Debug, Drop)]
pub enum NoRequest {
    /// They ask for help or for the version.
    Help(String),
    /// They are no command line.
    Wrong(String),
    /// A growth was refused.
    Memory,
}

/// The words that `clap` has matched, once there are any. A request of a command on executables is made of slices of
/// them.
pub type Matched<'a> = Option<ArgMatches<'a>>;

/// Reads the words, of which the first is the program's own name. The arguments of a request are the words behind its
/// path, except of one on an executable. None is asked for where a path to write to is one to read.
pub fn parse<'a, 'w>(
    alloc: Global,
    words: &'w [&'w str],
    matched: &'a mut Matched<'w>,
) -> Result<FormattedRequest<'a>, NoRequest>
    ensures asked { IfOk result (λ asked. IsAskedBy (map (λ word. word.now) words.now) asked.request) }
    ensures apart { IfOk result (λ asked. WritesNoneItReads asked.request) }
{
    match asked(alloc, words, matched) {
        Ok(request) => Ok(request),
        Err(error) => Err(said(alloc, &error)),
    }
}

/// What is to be said of an error, as which `clap` gives help and the version too.
fn said(alloc: Global, error: &Error) -> NoRequest {
    if error.kind() == ErrorKind::OutOfMemory {
        return NoRequest::Memory;
    }
    match format!(in alloc; "{error}") {
        Ok(text) if error.use_stderr() => NoRequest::Wrong(text),
        Ok(text) => NoRequest::Help(text),
        Err(_) => NoRequest::Memory,
    }
}

/// What the words ask for, as `clap` reads them.
fn asked<'a, 'w>(
    alloc: Global,
    words: &'w [&'w str],
    matched: &'a mut Matched<'w>,
) -> Result<FormattedRequest<'a>, Error>
    ensures asked { IfOk result (λ asked. IsAskedBy (map (λ word. word.now) words.now) asked.request) }
    ensures apart { IfOk result (λ asked. WritesNoneItReads asked.request) }
{
    let mut command = factc(alloc)?;
    let matches = matched.insert(command.try_get_matches_from_mut(words)?);
    match request_of(matches, after_path(words)) {
        Ok(request) => Ok(request),
        Err((kind, why)) => Err(command.error(kind, why)?),
    }
}

/// The words after a command, its flags and values and its FILE or IMAGE. Each of them is an argument, also `--` and
/// what looks like a flag; before the path, behind the flags, `--` says that the path may begin with a hyphen.
fn after_path<'a>(words: &'a [&'a str]) -> &'a [&'a str]
    ensures { map (λ word. word.now) result.now ≡ after_path (map (λ word. word.now) words.now) }
{
    let [_, _, rest @ ..] = words else {
        return &[];
    };
    match behind_flags(rest) {
        [dashes, _, arguments @ ..] if *dashes == "--" => arguments,
        [_, arguments @ ..] => arguments,
        [] => &[],
    }
}

/// The words from the first on that is no flag and takes no value.
fn behind_flags<'a>(words: &'a [&'a str]) -> &'a [&'a str]
    ensures { map (λ word. word.now) result.now ≡ behind_flags (map (λ word. word.now) words.now) }
{
    let mut rest = words;
    while let [word, more @ ..] = rest {
        if is_flag(word) {
            rest = more;
        } else if takes_value(word) {
            rest = behind_value(more);
        } else {
            break;
        }
    }
    rest
}

/// The words behind one that is a value.
fn behind_value<'a>(words: &'a [&'a str]) -> &'a [&'a str]
    ensures value { behind_flags (map (λ word. word.now) result.now)
        ≡ behind_value (map (λ word. word.now) words.now) }
    ensures shorter { length result.now ≤ length words.now }
{
    match words {
        [_, behind @ ..] => behind,
        [] => &[],
    }
}

/// Whether a word may stand alone between a command that takes arguments and its path: a flag, or an option with its
/// value.
fn is_flag(word: &str) -> bool
    ensures { result ≡ is_flag word.now }
{
    word == "--explain"
        || word == "--shifts"
        || word == "--progress"
        || word == "--steps"
        || word.as_bytes().starts_with(b"--format=")
        || word.as_bytes().starts_with(b"--with=")
}

/// Whether a word stands there with a value behind it.
fn takes_value(word: &str) -> bool
    ensures { result ≡ takes_value word.now }
{
    word == "--format" || word == "--with"
}
