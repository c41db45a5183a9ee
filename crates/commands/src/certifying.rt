// One run of an image for all values of the arguments that are not given.

ghost use Rattle.std.specs.Prelude.{◌≡◌, ◌≢◌, ◌≤◌, ◌++◌, ◌⊎◌, ℕ, List, Some, None, map, codes, IsTrue, IfOk, OnOk};
ghost use Rattle.std.specs.Prelude.{true, Ok, OnErr};
ghost use Rattle.std.specs.Fmt.{decimal};
ghost use Rattle.commands.specs.Answered.{Finds, IsRead};
ghost use Rattle.commands.specs.Below.{Certified, code_at, code_base, collected, HasLines, IsLineAt, MayDiffer};
ghost use Rattle.commands.specs.Below.{Reaches, word_at};
ghost use Rattle.commands.specs.Certificates.{StandsInCode, PrintsCertificate, certificate_status, same_text};
ghost use Rattle.commands.specs.Certificates.{PrintsExplained, shifts_seen};
ghost use Rattle.commands.specs.Progress.{FileCertificateTells};

use crate::answer::{Answer, MAY_DIFFER};
use crate::fault::Fault;
use crate::files::Files;
use crate::images::{image_with_params, status_of};
use crate::telling::certificate_of;
use command_line::{CertifyOptions, Request};
use image::Image;
use image_reports::certificate_explanations::explain_certificate;
use image_reports::certificates::{Certificate, Shifts, read_given};
use language::Arg;
use listing::{line_at, stop_line};
use rv_machine::Stop;
use std::alloc::{AllocError, Global};
use streams::Sink;

/// Whether an observer sees the same of an image for all values of the arguments that are not given, as lines, and the
/// exit status. With `shifts` the observer also sees by how much registers are shifted, and with `explain` it is said
/// why runs may differ. How many steps the run has made goes to `err`, where that is asked for.
pub fn certify_image<'a, F: Files, E: Sink>(
    alloc: Global,
    path: &'a str,
    arguments: &'a [&'a str],
    options: CertifyOptions,
    files: &mut F,
    err: &mut E,
) -> Result<Answer, Fault<'a>>
    ensures finds { IsTrue F.TELLS
        → Finds (Request.Certify path.entry arguments.entry options) (F.store files.old).contents result }
    ensures told { IsTrue F.TELLS → IsTrue E.TELLS
        → OnOk result (FileCertificateTells HasLines options.progress options.shifts (F.store files.old).contents
        path.now (map (λ word. word.now) arguments.now) (collected (E.taken err.old) (E.failures err.old))
        (collected (E.taken err.new) (E.failures err.new))) }
    ensures part { IsTrue F.TELLS → IsTrue E.TELLS → OnErr result ((err.new ≡ err.old)
        ⊎ FileCertificateTells Reaches options.progress options.shifts (F.store files.old).contents path.now
        (map (λ word. word.now) arguments.now) (collected (E.taken err.old) (E.failures err.old))
        (collected (E.taken err.new) (E.failures err.new))) }
    ensures read { IsRead result (F.store files.old) (F.store files.new) }
{
    let (image, params) = image_with_params(alloc, path, files)?;
    let given = read_given(alloc, params.as_slice(), arguments)?;
    let given = given.as_slice();
    let shifts = shifts_seen(options.shifts);
    let certificate = certificate_of(alloc, &image, given, shifts, options.progress, err)?;
    let text = certificate_lines(alloc, &image, given, shifts, certificate, options.explain)?;
    let status = status_of_certificate(certificate);
    Ok(Answer { text, status })
}

/// Whether the observer sees amounts of shifts.
pub fn shifts_seen(shifts: bool) -> Shifts
    ensures { result ≡ shifts_seen shifts }
{
    if shifts { Shifts::Seen } else { Shifts::Hidden }
}

/// A certificate as lines; where it is to be explained, what is unknown follows where runs may begin to differ.
fn certificate_lines(
    alloc: Global,
    image: &Image,
    given: &[Option<Arg>],
    shifts: Shifts,
    certificate: Certificate,
    explain: bool,
) -> Result<Vec<u8>, AllocError>
    requires { Certified image.now given.now shifts (Ok certificate) }
    ensures { IfOk result (λ text.
        PrintsExplained explain image.now given.now shifts certificate text.items) }
{
    match certificate {
        Certificate::Same { stop, .. } => same_text(alloc, stop),
        Certificate::MayDiffer { entry, pc } => {
            if explain {
                explained_text(alloc, image, given, shifts, entry, pc)
            } else {
                difference_text(alloc, image, entry, pc)
            }
        }
    }
}

/// Where runs may begin to differ, the line of the word there, and what is unknown that it reads.
fn explained_text(
    alloc: Global,
    image: &Image,
    given: &[Option<Arg>],
    shifts: Shifts,
    entry: u64,
    pc: u32,
) -> Result<Vec<u8>, AllocError>
    requires { Certified image.now given.now shifts (Ok (MayDiffer entry pc)) }
    ensures { IfOk result (λ text.
        PrintsExplained true image.now given.now shifts (MayDiffer entry pc) text.items) }
{
    let mut text = difference_text(alloc, image, entry, pc)?;
    let lines = explain_certificate(alloc, image, given, shifts)?;
    text.extend_from_slice(lines.as_slice())?;
    Ok(text)
}

/// A certificate as lines: `same` and the stop, or where runs may begin to differ and the line of the word there.
pub fn text_of(
    alloc: Global,
    image: &Image,
    certificate: Certificate,
) -> Result<Vec<u8>, AllocError>
    requires { StandsInCode image.now certificate }
    ensures { IfOk result (λ text. PrintsCertificate image.now certificate text.items) }
{
    match certificate {
        Certificate::Same { stop, .. } => same_text(alloc, stop),
        Certificate::MayDiffer { entry, pc } => difference_text(alloc, image, entry, pc),
    }
}

/// `same` and the line of the stop; that of a stop other than ECALL comes first.
fn same_text(alloc: Global, stop: Stop) -> Result<Vec<u8>, AllocError>
    ensures { IfOk result (λ text. text.items ≡ same_text stop) }
{
    match stop {
        Stop::Ecall => joined(alloc, b"same\n", stop_line(stop).as_slice()),
        Stop::Break
        | Stop::Illegal
        | Stop::AccessFault
        | Stop::Misaligned
        | Stop::Budget
        | Stop::RecorderRefused => joined(alloc, stop_line(stop).as_slice(), b"same\n"),
    }
}

/// One line, and then another.
fn joined(alloc: Global, one: &[u8], other: &[u8]) -> Result<Vec<u8>, AllocError>
    ensures { IfOk result (λ text. text.items ≡ one.now ++ other.now) }
{
    let mut text = Vec::from_slice(alloc, one)?;
    text.extend_from_slice(other)?;
    Ok(text)
}

/// Where runs may begin to differ, and the line of the word there.
fn difference_text(alloc: Global, image: &Image, entry: u64, pc: u32) -> Result<Vec<u8>, AllocError>
    requires { word_at (code_at code_base image.now) pc ≢ None }
    ensures { IfOk result (λ text. (line : List ℕ)
        × IsLineAt (code_at code_base image.now) pc (Some line)
        × (text.items ≡ codes "may differ at " ++ decimal entry ++ codes "\n" ++ line)) }
{
    let head = format!(in alloc; "may differ at {entry}\n")?;
    let mut text = Vec::from_slice(alloc, head.as_bytes())?;
    if let Some(line) = line_at(alloc, image, pc)? {
        text.extend_from_slice(line.as_slice())?;
    }
    Ok(text)
}

/// The exit status of a certificate.
fn status_of_certificate(certificate: Certificate) -> u8
    ensures exact { result ≡ certificate_status certificate }
    ensures known { result ≤ 5 }
{
    match certificate {
        Certificate::Same { stop, .. } => status_of(stop),
        Certificate::MayDiffer { .. } => MAY_DIFFER,
    }
}
