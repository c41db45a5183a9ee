// What is done with an image: it is run, its run is listed, two of its runs are compared, its words are listed.

ghost use Rattle.std.specs.Prelude.{◌≡◌, ◌≤◌, ◌⊎◌, None, length, map, Ok, IsTrue, IfOk, IfErr, OnOk, OnErr};
ghost use Rattle.std.specs.String.{string_bytes};
ghost use Rattle.std.specs.Option.{option_map};
ghost use Rattle.commands.specs.Answered.{Does, Finds, IsEnded, IsRead};
ghost use Rattle.commands.specs.Below.{AreWithin, collected, fault_of_texts, HasLines, IsImage, most_parameters};
ghost use Rattle.commands.specs.Below.{Paired, params_of, Reaches, shifted};
ghost use Rattle.commands.specs.Failures.{IsReadBy};
ghost use Rattle.commands.specs.ImageArguments.{LacksArguments};
ghost use Rattle.commands.specs.Images.{HoldsImage, NoImage};
ghost use Rattle.commands.specs.Leaks.{IsFaultOfLeak};
ghost use Rattle.commands.specs.Pairs.{PrintsPairing, pairing_text};
ghost use Rattle.commands.specs.Progress.{FileRunTells, FilePairTells};
ghost use Rattle.commands.specs.Stops.{status_of};
ghost use Rattle.commands.specs.Words.{AreSpelled, AreBothSpelled, IsFaultOfWords, fault_of_both};

use crate::answer::{Answer, DONE, STOPPED};
use crate::fault::{Fault, FileFault};
use crate::files::Files;
use crate::outcome;
use crate::performing::STANDARD_OUTPUT;
use crate::reading::bytes_of;
use crate::telling::{outcome_of, pairing_of};
use command_line::{PairOptions, Request, StepOptions};
use hepurita::{RunFault, params, read_args};
use image::{Image, LONGEST_IMAGE, read};
use image_reports::pair_explanations::explain_difference;
use language::arguments::ArgumentFault;
use language::{Args, Param};
use listing::{LeakFault, leak, list};
use rv_machine::{Pairing, Stop};
use std::alloc::{AllocError, Global};
use streams::Sink;

/// The image of a file. One byte more than the longest image has is read, so that a longer file is refused.
pub fn image_of<'a, F: Files>(
    alloc: Global,
    path: &'a str,
    files: &mut F,
) -> Result<Image, Fault<'a>>
    ensures said { IsTrue F.TELLS → IfOk result (HoldsImage (F.store files.old).contents path.now) }
    ensures refused { IsTrue F.TELLS → IfErr result (NoImage (F.store files.old).contents path.now) }
    ensures calm { OnOk result (F.store files.new ≡ F.store files.old) }
    ensures counted { IfErr result (λ fault. IsReadBy fault (F.store files.old) (F.store files.new)) }
{
    let bytes = bytes_of(alloc, path, LONGEST_IMAGE + 1, files)?;
    let image = read(alloc, bytes.as_slice())?;
    Ok(image)
}

/// The image of a file, and its parameters.
pub fn image_with_params<'a, F: Files>(
    alloc: Global,
    path: &'a str,
    files: &mut F,
) -> Result<(Image, Vec<Param>), Fault<'a>>
    ensures said { IsTrue F.TELLS → IfOk result (λ found. HoldsImage (F.store files.old).contents path.now found.0) }
    ensures params { IfOk result (λ found. found.1.items ≡ params_of found.0) }
    ensures few { IfOk result (λ found. length found.1.items ≤ most_parameters) }
    ensures allowed { IfOk result (λ found. IsImage found.0) }
    ensures refused { IsTrue F.TELLS → IfErr result (NoImage (F.store files.old).contents path.now) }
    ensures read { IsRead result (F.store files.old) (F.store files.new) }
{
    let image = image_of(alloc, path, files)?;
    let params = params(alloc, &image)?;
    Ok((image, params))
}

/// The image of a file, its parameters, and the arguments that words spell for them.
pub fn image_with_args<'a, F: Files>(
    alloc: Global,
    path: &'a str,
    words: &[&str],
    files: &mut F,
) -> Result<(Image, Vec<Param>, Args), Fault<'a>>
    ensures said { IsTrue F.TELLS → IfOk result (λ found. HoldsImage (F.store files.old).contents path.now found.0) }
    ensures params { IfOk result (λ found. found.1.items ≡ params_of found.0) }
    ensures spelled { IfOk result (λ found. AreSpelled (params_of found.0) (map (λ word. word.now) words.now) found.2) }
    ensures refused { IsTrue F.TELLS
        → IfErr result (LacksArguments (F.store files.old).contents path.now (map (λ word. word.now) words.now)) }
    ensures read { IsRead result (F.store files.old) (F.store files.new) }
{
    let (image, params) = image_with_params(alloc, path, files)?;
    let args = read_args(alloc, params.as_slice(), words)?;
    Ok((image, params, args))
}

/// What an image gives on arguments, as lines. How many steps its run has made goes to `err`, while it runs and once it
/// has stopped, where that is asked for.
pub fn run_image<'a, F: Files, E: Sink>(
    alloc: Global,
    path: &'a str,
    arguments: &'a [&'a str],
    options: StepOptions,
    files: &mut F,
    err: &mut E,
) -> Result<Answer, Fault<'a>>
    ensures finds { IsTrue F.TELLS
        → Finds (Request.Run path.entry arguments.entry options) (F.store files.old).contents result }
    ensures told { IsTrue F.TELLS → IsTrue E.TELLS
        → OnOk result (FileRunTells HasLines options (F.store files.old).contents path.now
        (map (λ word. word.now) arguments.now) (collected (E.taken err.old) (E.failures err.old))
        (collected (E.taken err.new) (E.failures err.new))) }
    ensures part { IsTrue F.TELLS → IsTrue E.TELLS → OnErr result ((err.new ≡ err.old)
        ⊎ FileRunTells Reaches options (F.store files.old).contents path.now (map (λ word. word.now) arguments.now)
        (collected (E.taken err.old) (E.failures err.old)) (collected (E.taken err.new) (E.failures err.new))) }
    ensures read { IsRead result (F.store files.old) (F.store files.new) }
{
    let (image, params, args) = image_with_args(alloc, path, arguments, files)?;
    let outcome = outcome_of(alloc, &image, &args, options, err)?;
    let text = outcome::text_of(alloc, params.as_slice(), &outcome)?;
    Ok(Answer::of_text(text))
}

/// Prints what an observer sees of an image's run on arguments, and how the run stops. Answers the
/// exit status.
pub fn leak_image<'a, F: Files, O: Sink>(
    alloc: Global,
    path: &'a str,
    arguments: &'a [&'a str],
    files: &mut F,
    out: &mut O,
) -> Result<u8, Fault<'a>>
    ensures does { IsTrue F.TELLS → IsTrue O.TELLS
        → Does (Request.Leak path.entry arguments.entry) (F.store files.old) (F.store files.new)
        (collected (O.taken out.old) (O.failures out.old)) (collected (O.taken out.new) (O.failures out.new)) result }
    ensures ended { IsEnded result (F.store files.old).failures (F.store files.new).failures
        (O.failures out.old) (O.failures out.new) }
{
    let (image, _, args) = image_with_args(alloc, path, arguments, files)?;
    match leak(alloc, &image, &args, out) {
        Ok(stop) => Ok(status_of(stop)),
        Err(fault) => Err(leak_fault(fault)),
    }
}

/// The exit status of a run that stops so.
pub fn status_of(stop: Stop) -> u8
    ensures exact { result ≡ status_of stop }
    ensures known { result ≤ 5 }
{
    match stop {
        Stop::Ecall => DONE,
        Stop::Break
        | Stop::Illegal
        | Stop::AccessFault
        | Stop::Misaligned
        | Stop::Budget
        | Stop::RecorderRefused => STOPPED,
    }
}

/// Why a listing was not printed to its end.
fn leak_fault(fault: LeakFault) -> Fault<'static>
    ensures { IsFaultOfLeak fault result }
{
    match fault {
        LeakFault::Argument { rule, index } => Fault::Run(RunFault::Argument { rule, index }),
        LeakFault::Memory => Fault::Run(RunFault::Memory),
        LeakFault::Write => Fault::File(FileFault::CannotWrite(STANDARD_OUTPUT)),
    }
}

/// The words of an image with their text, as lines.
pub fn list_image<'a, F: Files>(
    alloc: Global,
    path: &'a str,
    files: &mut F,
) -> Result<Answer, Fault<'a>>
    ensures finds { IsTrue F.TELLS → Finds (Request.List path.entry) (F.store files.old).contents result }
    ensures read { IsRead result (F.store files.old) (F.store files.new) }
{
    let image = image_of(alloc, path, files)?;
    let lines = list(alloc, &image)?;
    Ok(Answer::of_bytes(lines))
}

/// Whether an observer sees the same of an image on two lists of arguments, as a line; where that is to be explained,
/// the lines behind it say why not. How many steps both runs have made goes to `err`, where that is asked for.
pub fn pair_image<'a, F: Files, E: Sink>(
    alloc: Global,
    path: &'a str,
    arguments: &'a [&'a str],
    options: PairOptions,
    files: &mut F,
    err: &mut E,
) -> Result<Answer, Fault<'a>>
    ensures finds { IsTrue F.TELLS
        → Finds (Request.Pair path.entry arguments.entry options) (F.store files.old).contents result }
    ensures told { IsTrue F.TELLS → IsTrue E.TELLS
        → OnOk result (FilePairTells HasLines options.progress (F.store files.old).contents path.now
        (map (λ word. word.now) arguments.now) (collected (E.taken err.old) (E.failures err.old))
        (collected (E.taken err.new) (E.failures err.new))) }
    ensures part { IsTrue F.TELLS → IsTrue E.TELLS → OnErr result ((err.new ≡ err.old)
        ⊎ FilePairTells Reaches options.progress (F.store files.old).contents path.now
        (map (λ word. word.now) arguments.now) (collected (E.taken err.old) (E.failures err.old))
        (collected (E.taken err.new) (E.failures err.new))) }
    ensures read { IsRead result (F.store files.old) (F.store files.new) }
{
    let (image, params) = image_with_params(alloc, path, files)?;
    let (first, second) = both_args(alloc, params.as_slice(), arguments)?;
    let pairing = pairing_of(alloc, &image, &first, &second, options.progress, err)?;
    let text = pairing_lines(alloc, &image, &first, &second, pairing, options.explain)?;
    Ok(Answer::of_bytes(text))
}

/// A comparison of an image's runs on these arguments as lines: its line, and why it differs, where that is to be
/// explained.
fn pairing_lines(
    alloc: Global,
    image: &Image,
    first: &Args,
    second: &Args,
    pairing: Pairing,
    explain: bool,
) -> Result<Vec<u8>, AllocError>
    requires first { AreWithin (params_of image.now) first.now }
    requires second { AreWithin (params_of image.now) second.now }
    requires paired { Paired image.now first.now second.now (Ok pairing) }
    ensures { IfOk result (λ text. PrintsPairing explain image.now first.now second.now pairing text.items) }
{
    let line = pairing_line(alloc, pairing)?;
    let mut text = Vec::from_slice(alloc, line.as_bytes())?;
    match pairing {
        Pairing::Differ(place) if explain => {
            let lines = explain_difference(alloc, image, first, second, place)?;
            text.extend_from_slice(lines.as_slice())?;
        }
        Pairing::Same | Pairing::Differ(_) => {}
    }
    Ok(text)
}

/// A comparison as a line.
pub fn pairing_line(alloc: Global, pairing: Pairing) -> Result<String, AllocError>
    ensures { IfOk result (λ text. string_bytes text ≡ pairing_text pairing) }
{
    match pairing {
        Pairing::Same => String::from_str(alloc, "same\n"),
        Pairing::Differ(place) => format!(in alloc; "differ at {place}\n"),
    }
}

/// The two lists of arguments that words spell, of which the first half is the first. The words are
/// counted on from one list to the other.
pub fn both_args(
    alloc: Global,
    params: &[Param],
    arguments: &[&str],
) -> Result<(Args, Args), RunFault>
    requires { length params.now ≤ most_parameters }
    ensures found { IfOk result (λ both.
        AreBothSpelled params.now (map (λ word. word.now) arguments.now) both.0 both.1) }
    ensures refused { IfErr result (IsFaultOfWords (fault_of_both params.now (map (λ word. word.now) arguments.now))) }
{
    match arguments.split_at_checked(params.len()) {
        Some((first, second)) if second.len() == params.len() => {
            let first = read_args(alloc, params, first)?;
            let second = later_args(alloc, params, second)?;
            Ok((first, second))
        }
        _ => Err(RunFault::from(ArgumentFault::count())),
    }
}

/// The arguments of the second of two lists, whose faults are numbered after the first's arguments.
fn later_args(alloc: Global, params: &[Param], arguments: &[&str]) -> Result<Args, RunFault>
    requires { length params.now ≤ most_parameters }
    ensures found { IfOk result (AreSpelled params.now (map (λ word. word.now) arguments.now)) }
    ensures only { OnOk result (fault_of_texts params.now (map (λ word. word.now) arguments.now) ≡ None) }
    ensures refused { IfErr result (IsFaultOfWords (option_map (shifted (length params.now))
        (fault_of_texts params.now (map (λ word. word.now) arguments.now)))) }
{
    match read_args(alloc, params, arguments) {
        Ok(args) => Ok(args),
        Err(RunFault::Argument { rule, index }) => {
            let fault = ArgumentFault { rule, index };
            Err(RunFault::from(fault.behind(params.len())))
        }
        Err(RunFault::Memory) => Err(RunFault::Memory),
        Err(RunFault::Stopped(stop)) => Err(RunFault::Stopped(stop)),
    }
}
