// What each command asks for, by its words as `clap` matched them.

ghost use Rattle.std.specs.Prelude.{◌≡◌, ◌≢◌, [], None, Some, codes, map, IfOk, IfSome, IsTrue};
ghost use Rattle.std.specs.List.{All};
ghost use Rattle.std.specs.Option.{option_map_or};
ghost use Rattle.clap.specs.Matches.{first_value, found_of, matched_of, one_text, raw_values};
ghost use Rattle.command_line.specs.Words.{arguments_of, profile_named, WritesNoneItReads};

use crate::on_executables::request_on_executable;
use crate::options::{
    CertifyOptions, CompileOptions, Format, LinkOptions, PairOptions, StepOptions,
};
use crate::words::{FormattedRequest, Request};
use clap::ArgMatches;
use clap::error::ErrorKind;
use explanations::explanation;
use functions::function_text::{Notation, Prefix};
use hepurita::Optimisation;
use word::Profile;

/// What is wrong where there is no command, and its text.
pub(super) const NO_COMMAND: (ErrorKind, &str) = (
    ErrorKind::MissingSubcommand,
    "a command is required",
);

/// What is wrong where no name can begin with what is to stand before one.
const NO_PREFIX: (ErrorKind, &str) = (
    ErrorKind::InvalidValue,
    "what --prefix takes has letters, digits and `_` alone, and no digit first",
);

/// What is wrong where a file that is read would be written.
fn lost(text: &'static str) -> (ErrorKind, &'static str) {
    (ErrorKind::ArgumentConflict, text)
}

/// What the words ask for and how it is to be answered, where these are the arguments behind a path; else the kind of
/// what is wrong, and its text.
pub(crate) fn request_of<'a>(
    matches: &'a ArgMatches<'_>,
    arguments: &'a [&'a str],
) -> Result<FormattedRequest<'a>, (ErrorKind, &'static str)>
    ensures asked { IfOk result (λ asked.
        IfSome (arguments_of asked.request) (λ given. given ≡ map (λ word. word.now) arguments.now)) }
    ensures apart { IfOk result (λ asked. WritesNoneItReads asked.request) }
{
    let Some((name, given)) = matches.subcommand() else {
        return Err(NO_COMMAND);
    };
    let format = format_of(given);
    match request_with(name, given, arguments) {
        Some(request) => Ok(FormattedRequest { request, format }),
        None => {
            let request = request_without(name, given)?;
            Ok(FormattedRequest { request, format })
        }
    }
}

/// How the answer is printed: as text, unless JSON is asked for.
fn format_of(given: &ArgMatches<'_>) -> Format {
    match given.get_str("format") {
        Some("json") => Format::Json,
        _ => Format::Text,
    }
}

/// The request of a command that takes arguments of a run.
fn request_with<'a>(
    name: &str,
    given: &'a ArgMatches<'_>,
    arguments: &'a [&'a str],
) -> Option<Request<'a>>
    ensures asked { IfSome result (λ request.
        IfSome (arguments_of request) (λ given. given ≡ map (λ word. word.now) arguments.now)) }
    ensures apart { IfSome result WritesNoneItReads }
{
    match name {
        "eval" => Some(Request::Eval {
            libraries: texts_of(given, "with"),
            file: text_of(given, "FILE"),
            arguments,
            explain: given.get_flag("explain"),
        }),
        "run" => Some(Request::Run {
            image: text_of(given, "IMAGE"),
            arguments,
            options: StepOptions {
                progress: given.get_flag("progress"),
                steps: given.get_flag("steps"),
            },
        }),
        "leak" => Some(Request::Leak {
            image: text_of(given, "IMAGE"),
            arguments,
        }),
        "pair" => Some(Request::Pair {
            image: text_of(given, "IMAGE"),
            arguments,
            options: PairOptions {
                explain: given.get_flag("explain"),
                progress: given.get_flag("progress"),
            },
        }),
        "certify" => Some(Request::Certify {
            image: text_of(given, "IMAGE"),
            arguments,
            options: CertifyOptions {
                shifts: given.get_flag("shifts"),
                explain: given.get_flag("explain"),
                progress: given.get_flag("progress"),
            },
        }),
        "picture" => Some(Request::Picture {
            image: text_of(given, "IMAGE"),
            arguments,
            progress: given.get_flag("progress"),
        }),
        _ => None,
    }
}

/// The request of a command that takes none.
fn request_without<'a>(
    name: &str,
    given: &'a ArgMatches<'_>,
) -> Result<Request<'a>, (ErrorKind, &'static str)>
    ensures none { IfOk result (λ request. arguments_of request ≡ None) }
    ensures apart { IfOk result WritesNoneItReads }
{
    match name {
        "check" => Ok(check(given)),
        "build" => build(given),
        "stat" => Ok(stat(given)),
        "function" => function(given),
        "list" => Ok(Request::List {
            image: text_of(given, "IMAGE"),
        }),
        "wrap" => wrap(given),
        "harts" => Ok(Request::Harts {
            file: text_of(given, "FILE"),
        }),
        "vectors" => Ok(vectors(given)),
        "explain" => explain(given),
        "elf" => request_on_executable(given),
        _ => Err(NO_COMMAND),
    }
}

fn check<'a>(given: &'a ArgMatches<'_>) -> Request<'a>
    ensures none { arguments_of result ≡ None }
    ensures apart { WritesNoneItReads result }
{
    let libraries = texts_of(given, "with");
    let file = text_of(given, "FILE");
    let profile = profile_of(given);
    let explain = given.get_flag("explain");
    if given.get_flag("all") {
        return Request::CheckAll {
            libraries,
            file,
            profile,
            explain,
        };
    }
    Request::Check {
        libraries,
        file,
        profile,
        explain,
    }
}

fn build<'a>(given: &'a ArgMatches<'_>) -> Result<Request<'a>, (ErrorKind, &'static str)>
    ensures none { IfOk result (λ request. arguments_of request ≡ None) }
    ensures apart { IfOk result WritesNoneItReads }
{
    let file = text_of(given, "FILE");
    let image = text_of(given, "IMAGE");
    if image == file {
        return Err(lost("IMAGE is the same path as FILE, which would be lost"));
    }
    let libraries = texts_of(given, "with");
    if !is_apart(image, libraries) {
        return Err(lost("IMAGE is the same path as a LIB, which would be lost"));
    }
    Ok(Request::Build {
        libraries,
        file,
        image,
        options: options_of(given),
    })
}

/// Whether a path is none of others.
fn is_apart(path: &str, others: &[&str]) -> bool
    ensures { IsTrue result → All (λ other. path.now ≢ other.now) others.now }
{
    others.iter().all(|other| *other != path)
}

fn stat<'a>(given: &'a ArgMatches<'_>) -> Request<'a>
    ensures none { arguments_of result ≡ None }
    ensures apart { WritesNoneItReads result }
{
    Request::Stat {
        libraries: texts_of(given, "with"),
        file: text_of(given, "FILE"),
        profile: profile_of(given),
        optimisation: optimisation_of(given),
    }
}

fn function<'a>(given: &'a ArgMatches<'_>) -> Result<Request<'a>, (ErrorKind, &'static str)>
    ensures none { IfOk result (λ request. arguments_of request ≡ None) }
    ensures apart { IfOk result WritesNoneItReads }
{
    let file = text_of(given, "FILE");
    let assembler = text_of(given, "ASM");
    let header = text_of(given, "HEADER");
    if assembler == file {
        return Err(lost("ASM is the same path as FILE, which would be lost"));
    }
    if header == file {
        return Err(lost("HEADER is the same path as FILE, which would be lost"));
    }
    let Some(prefix) = Prefix::new(text_of(given, "prefix")) else {
        return Err(NO_PREFIX);
    };
    if assembler == header {
        return Err(lost("HEADER is the same path as ASM, which would be lost"));
    }
    let libraries = texts_of(given, "with");
    if !is_apart(assembler, libraries) {
        return Err(lost("ASM is the same path as a LIB, which would be lost"));
    }
    if !is_apart(header, libraries) {
        return Err(lost("HEADER is the same path as a LIB, which would be lost"));
    }
    Ok(Request::Function {
        libraries,
        file,
        assembler,
        header,
        options: LinkOptions {
            compile: options_of(given),
            prefix,
            notation: notation_of(given),
        },
    })
}

fn wrap<'a>(given: &'a ArgMatches<'_>) -> Result<Request<'a>, (ErrorKind, &'static str)>
    ensures none { IfOk result (λ request. arguments_of request ≡ None) }
    ensures apart { IfOk result WritesNoneItReads }
{
    let file = text_of(given, "FILE");
    let code = text_of(given, "CODE");
    let image = text_of(given, "IMAGE");
    if image == file {
        return Err(lost("IMAGE is the same path as FILE, which would be lost"));
    }
    if image == code {
        return Err(lost("IMAGE is the same path as CODE, which would be lost"));
    }
    Ok(Request::Wrap {
        file,
        code,
        image,
        frame: number_of(given, "frame"),
        steps: number_of(given, "steps"),
        profile: profile_of(given),
    })
}

fn vectors<'a>(given: &'a ArgMatches<'_>) -> Request<'a>
    ensures none { arguments_of result ≡ None }
    ensures apart { WritesNoneItReads result }
{
    Request::Vectors {
        libraries: texts_of(given, "with"),
        file: text_of(given, "FILE"),
        vectors: text_of(given, "VECTORS"),
        profile: profile_of(given),
        optimisation: optimisation_of(given),
    }
}

fn explain<'a>(given: &ArgMatches<'_>) -> Result<Request<'a>, (ErrorKind, &'static str)>
    ensures none { IfOk result (λ request. arguments_of request ≡ None) }
    ensures apart { IfOk result WritesNoneItReads }
{
    match explanation(text_of(given, "CODE")) {
        Some(explanation) => Ok(Request::Explain { explanation }),
        None => Err((ErrorKind::InvalidValue, "no such code")),
    }
}

/// The value of an argument, which is empty where it may be left out and is.
pub(super) fn text_of<'a>(matches: &'a ArgMatches<'_>, id: &str) -> &'a str {
    match matches.get_str(id) {
        Some(text) => text,
        None => "",
    }
}

/// All values of an argument, in their order.
pub(super) fn texts_of<'a>(given: &'a ArgMatches<'_>, id: &str) -> &'a [&'a str]
    ensures { map (λ text. text.now) result.now
        ≡ option_map_or raw_values (matched_of (found_of given.now) id.now) [] }
{
    if let Some(texts) = given.get_strs(id) {
        return texts;
    }
    &[]
}

/// The value of a required option that is a number.
fn number_of(matches: &ArgMatches<'_>, id: &str) -> u64 {
    matches.get_one(id).unwrap_or(0)
}

/// The profile of this number, which is 1 where none is given.
pub(super) fn profile_of(matches: &ArgMatches<'_>) -> Profile
    ensures { result ≡ profile_named (first_value (found_of matches.now) (codes "profile")) }
{
    match matches.get_str("profile") {
        Some("2") => Profile::P2,
        _ => Profile::P1,
    }
}

/// Small code where it is asked for, else optimised code where that is, and else plain code.
fn optimisation_of(matches: &ArgMatches<'_>) -> Optimisation
    ensures plain { one_text (found_of matches.now) (codes "small") ≡ None
        → one_text (found_of matches.now) (codes "optimise") ≡ None → result ≡ Optimisation.Off }
    ensures optimised { one_text (found_of matches.now) (codes "small") ≡ None
        → one_text (found_of matches.now) (codes "optimise") ≡ Some (codes "true") → result ≡ Optimisation.On }
    ensures small { one_text (found_of matches.now) (codes "small") ≡ Some (codes "true")
        → result ≡ Optimisation.Small }
{
    if matches.get_flag("small") {
        Optimisation::Small
    } else if matches.get_flag("optimise") {
        Optimisation::On
    } else {
        Optimisation::Off
    }
}

/// As numbers, but where instructions are asked for.
fn notation_of(matches: &ArgMatches<'_>) -> Notation
    ensures numbers { one_text (found_of matches.now) (codes "mnemonics") ≡ None → result ≡ Notation.Numbers }
    ensures mnemonics { one_text (found_of matches.now) (codes "mnemonics") ≡ Some (codes "true")
        → result ≡ Notation.Mnemonics }
{
    if matches.get_flag("mnemonics") {
        Notation::Mnemonics
    } else {
        Notation::Numbers
    }
}

/// How a source is to be compiled.
fn options_of(matches: &ArgMatches<'_>) -> CompileOptions {
    CompileOptions {
        profile: profile_of(matches),
        optimisation: optimisation_of(matches),
        explain: matches.get_flag("explain"),
    }
}
