// What is done with vectors: those of one file are tried on the source of another and of libraries.

ghost use Rattle.std.specs.Prelude.{◌≡◌, ◌≤◌, Some, length, IsTrue, IfOk, IfErr, OnOk};
ghost use Rattle.std.specs.String.{string_bytes};
ghost use Rattle.commands.specs.Answered.{Finds, IsRead};
ghost use Rattle.commands.specs.Below.{longest_vectors};
ghost use Rattle.commands.specs.Failures.{IsReadBy};
ghost use Rattle.commands.specs.Vectors.{NoVectorsText, status_of_failures};

use crate::answer::{Answer, DONE};
use crate::fault::{Fault, FileFault};
use crate::files::Files;
use crate::reading::bytes_of;
use crate::sources::{joined_text, refused_in};
use command_line::Request;
use hepurita::Optimisation;
use image_reports::vectors::{LONGEST_VECTORS, VectorsFault, read, try_vectors};
use language::Profile;
use std::alloc::Global;

/// The exit status where a vector failed.
const FAILED: u8 = 1;

/// The exit status where so many vectors failed.
fn status_of(failures: usize) -> u8
    ensures exact { result ≡ status_of_failures failures }
    ensures known { result ≤ 5 }
{
    if failures == 0 { DONE } else { FAILED }
}

/// The text of a file of vectors. One that is too long is not read to its end.
fn vectors_text<'a, F: Files>(
    alloc: Global,
    list: &'a str,
    files: &mut F,
) -> Result<String, Fault<'a>>
    ensures said { IsTrue F.TELLS
        → IfOk result (λ text. (F.store files.old).contents list.now ≡ Some (string_bytes text)) }
    ensures short { IfOk result (λ text. length (string_bytes text) ≤ longest_vectors) }
    ensures refused { IsTrue F.TELLS → IfErr result (NoVectorsText (F.store files.old).contents list.now) }
    ensures calm { OnOk result (F.store files.new ≡ F.store files.old) }
    ensures counted { IfErr result (λ fault. IsReadBy fault (F.store files.old) (F.store files.new)) }
{
    let bytes = bytes_of(alloc, list, LONGEST_VECTORS + 1, files)?;
    if bytes.len() > LONGEST_VECTORS {
        return Err(Fault::Vectors(VectorsFault::TooLong));
    }
    match String::from_utf8(bytes) {
        Ok(text) => Ok(text),
        Err(_) => Err(Fault::File(FileFault::NotUtf8(list))),
    }
}

/// What is wrong with each vector of a file that fails on the source of libraries and another file, for an observer, in
/// plain or optimised code, and how many passed and failed, as lines; and the exit status.
pub fn try_file<'a, F: Files>(
    alloc: Global,
    libraries: &'a [&'a str],
    file: &'a str,
    list: &'a str,
    profile: Profile,
    optimisation: Optimisation,
    files: &mut F,
) -> Result<Answer, Fault<'a>>
    ensures finds { IsTrue F.TELLS
        → Finds (Request.Vectors libraries.entry file.entry list.entry profile optimisation)
        (F.store files.old).contents result }
    ensures read { IsRead result (F.store files.old) (F.store files.new) }
{
    let joined = joined_text(alloc, libraries, file, files)?;
    let lines = vectors_text(alloc, list, files)?;
    let vectors = read(alloc, lines.as_str())?;
    let source = joined.text.as_str();
    match try_vectors(alloc, source, profile, optimisation, vectors.as_slice()) {
        Ok(report) => {
            let status = status_of(report.failures);
            let text = report.text.into_bytes();
            Ok(Answer { text, status })
        }
        Err(refusal) => {
            let read = joined.libraries.as_slice();
            Err(refused_in(alloc, source, read, refusal, false))
        }
    }
}
