// What the source of libraries and a file costs, or the image of a file.

ghost use Rattle.std.specs.Borrow.{Bor};
ghost use Rattle.std.specs.Prelude.{◌≡◌, ◌+◌, ℕ, false, List, [], IsTrue, IfOk, IfErr};
ghost use Rattle.std.specs.String.{string_bytes};
ghost use Rattle.commands.specs.Answered.{Finds, IsRead};
ghost use Rattle.commands.specs.Below.{BeginsOtherwise, longest_image, numbered_of, SaysCosts};
ghost use Rattle.commands.specs.Contents.{BeginsFile, Contents, Store};
ghost use Rattle.commands.specs.Judged.{IsRefusedText};

use crate::answer::Answer;
use crate::fault::Fault;
use crate::files::Files;
use crate::reading::bytes_of;
use crate::sources::{JoinedText, joined_text, refused_in};
use crate::texts::text_fault;
use command_line::Request;
use hepurita::Optimisation;
use image::LONGEST_IMAGE;
use image_reports::image_statistics::image_statistics;
use image_reports::source_statistics::source_statistics;
use input_files::stream_build::text_of;
use language::Profile;
use std::alloc::Global;
use syntax::SOURCE_LIMIT;

/// What a source that was read costs, for an observer, in plain or optimised code, as lines.
fn joined_costs<'a>(
    alloc: Global,
    joined: &JoinedText<'a>,
    profile: Profile,
    optimisation: Optimisation,
) -> Result<Answer, Fault<'a>>
    ensures said { IfOk result (λ answer.
        SaysCosts optimisation profile (string_bytes joined.now.text) (numbered_of joined.now.libraries.items)
        answer.text.items × (answer.status ≡ 0)) }
    ensures refused { IfErr result (IsRefusedText false profile (string_bytes joined.now.text)
        (numbered_of joined.now.libraries.items)) }
    ensures read { (files : Store) → IsRead result files files }
{
    let text = joined.text.as_str();
    let read = joined.libraries.as_slice();
    match source_statistics(alloc, text, read, profile, optimisation) {
        Ok(lines) => Ok(Answer::of_text(lines)),
        Err(refusal) => Err(refused_in(alloc, text, read, refusal, false)),
    }
}

/// What the source of a file costs, for an observer, in plain or optimised code, as lines. The file is read once: these
/// are as many of its bytes as the longest image has and one more, or all, and so enough of a source too.
fn source_costs<'a>(
    alloc: Global,
    file: &'a str,
    mut bytes: Vec<u8>,
    profile: Profile,
    optimisation: Optimisation,
) -> Result<Answer, Fault<'a>>
    ensures finds { (files : Contents) → (libraries : Bor (List (Bor (List ℕ)))) → libraries.now ≡ []
        → BeginsFile files file.now (longest_image + 1) bytes.items → BeginsOtherwise bytes.items
        → Finds (Request.Stat libraries file.entry profile optimisation) files result }
    ensures read { (files : Store) → IsRead result files files }
{
    bytes.truncate(SOURCE_LIMIT + 1);
    let text = match text_of(bytes) {
        Ok(text) => text,
        Err(fault) => return Err(text_fault(file, fault)),
    };
    let joined = JoinedText {
        text,
        libraries: Vec::new(alloc),
    };
    joined_costs(alloc, &joined, profile, optimisation)
}

/// What a file costs, as lines: the fields of its image, where it begins as an image does, and else its source, for an
/// observer, in plain or optimised code.
fn file_costs<'a, F: Files>(
    alloc: Global,
    file: &'a str,
    profile: Profile,
    optimisation: Optimisation,
    files: &mut F,
) -> Result<Answer, Fault<'a>>
    ensures finds { IsTrue F.TELLS → (libraries : Bor (List (Bor (List ℕ)))) → libraries.now ≡ []
        → Finds (Request.Stat libraries file.entry profile optimisation) (F.store files.old).contents result }
    ensures read { IsRead result (F.store files.old) (F.store files.new) }
{
    let bytes = bytes_of(alloc, file, LONGEST_IMAGE + 1, files)?;
    match image_statistics(alloc, bytes.as_slice())? {
        Some(lines) => Ok(Answer::of_text(lines)),
        None => source_costs(alloc, file, bytes, profile, optimisation),
    }
}

/// What the source of libraries and a file costs, for an observer, in plain or optimised code, as lines; or without
/// libraries what the file costs, which may be an image.
pub fn measure_file<'a, F: Files>(
    alloc: Global,
    libraries: &'a [&'a str],
    file: &'a str,
    profile: Profile,
    optimisation: Optimisation,
    files: &mut F,
) -> Result<Answer, Fault<'a>>
    ensures finds { IsTrue F.TELLS
        → Finds (Request.Stat libraries.entry file.entry profile optimisation) (F.store files.old).contents result }
    ensures read { IsRead result (F.store files.old) (F.store files.new) }
{
    if libraries.is_empty() {
        return file_costs(alloc, file, profile, optimisation, files);
    }
    let joined = joined_text(alloc, libraries, file, files)?;
    joined_costs(alloc, &joined, profile, optimisation)
}
