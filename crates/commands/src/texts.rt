// What is done with a source alone: it is judged, or compiled.

ghost use Rattle.std.specs.Prelude.{◌≡◌, ◌≢◌, ℕ, List, Some, map, IsTrue, IfOk, IfErr, OnOk, OnErr};
ghost use Rattle.std.specs.String.{string_bytes};
ghost use Rattle.commands.specs.Answered.{Finds, IsRead};
ghost use Rattle.commands.specs.Contents.{Contents, Store, failed, IsWritten, IsCutOff};
ghost use Rattle.commands.specs.Failures.{IsReadBy, failures_by};
ghost use Rattle.commands.specs.FileTexts.{HoldsText, NoText};
ghost use Rattle.commands.specs.Judged.{IsRefusedIn, IsImageOf};
ghost use Rattle.commands.specs.Written.{IsWriteFault, WritesFile, FailsToWrite};
ghost use Rattle.input_files.specs.stream_build.Faults as texts;
ghost use Rattle.commands.specs.Below.{one_more};

use crate::answer::Answer;
use crate::fault::{Fault, FileFault};
use crate::files::Files;
use crate::sources::{joined_text, refused_in};
use command_line::{CompileOptions, Request};
use hepurita::{build_with, judge_as};
use input_files::stream_build::{BuildFault, read_text};
use language::Profile;
use std::alloc::Global;
use streams::put_all;

/// Why the bytes of a file are no text.
pub fn text_fault(file: &str, fault: BuildFault) -> Fault<'_>
    ensures fault { (files : Contents) (bytes : List ℕ) → files file.now ≡ Some bytes → texts.NoText bytes fault
        → NoText files file.now result }
    ensures counts { (before : Store) → fault ≡ BuildFault.Read → IsReadBy result before (failed before) }
    ensures calm { (before : Store) → fault ≢ BuildFault.Read → fault ≢ BuildFault.Write
        → IsReadBy result before before }
{
    match fault {
        BuildFault::Read => Fault::File(FileFault::CannotRead(file)),
        BuildFault::NotUtf8 => Fault::File(FileFault::NotUtf8(file)),
        BuildFault::Refused(refusal) => Fault::Text(refusal),
        BuildFault::Write => Fault::File(FileFault::CannotWrite(file)),
    }
}

/// The text of a file. One that is too long is not read to its end.
pub fn text_of_file<'a, F: Files>(
    alloc: Global,
    file: &'a str,
    files: &mut F,
) -> Result<String, Fault<'a>>
    ensures said { IsTrue F.TELLS
        → IfOk result (λ text. HoldsText (F.store files.old).contents file.now (string_bytes text)) }
    ensures refused { IsTrue F.TELLS → IfErr result (NoText (F.store files.old).contents file.now) }
    ensures calm { OnOk result (F.store files.new ≡ F.store files.old) }
    ensures counted { IfErr result (λ fault. IsReadBy fault (F.store files.old) (F.store files.new)) }
{
    let Ok(mut source) = files.open(file) else {
        return Err(Fault::File(FileFault::CannotRead(file)));
    };
    let text = read_text(alloc, &mut source);
    files.close(source);
    match text {
        Ok(text) => Ok(text),
        Err(fault) => Err(text_fault(file, fault)),
    }
}

/// Writes a file.
pub fn write_file<'a, F: Files>(path: &'a str, bytes: &[u8], files: &mut F) -> Result<(), Fault<'a>>
    ensures written { IsTrue F.TELLS
        → OnOk result (IsWritten path.now bytes.now (F.store files.old).contents (F.store files.new).contents) }
    ensures cut_off { IsTrue F.TELLS
        → OnErr result (IsCutOff path.now bytes.now (F.store files.old).contents (F.store files.new).contents) }
    ensures fault { IfErr result (IsWriteFault path.now) }
    ensures calm { OnOk result ((F.store files.new).failures ≡ (F.store files.old).failures) }
    ensures counts { OnErr result ((F.store files.new).failures ≡ one_more (F.store files.old).failures) }
{
    let Ok(mut sink) = files.create(path) else {
        return Err(Fault::File(FileFault::CannotWrite(path)));
    };
    let put = put_all(&mut sink, bytes);
    files.finish(path, sink);
    match put {
        Ok(()) => Ok(()),
        Err(_) => Err(Fault::File(FileFault::CannotWrite(path))),
    }
}

/// Judges the source of libraries and a file, for an observer, and explains a refusal where that is asked for.
pub fn check_text<'a, F: Files>(
    alloc: Global,
    libraries: &'a [&'a str],
    file: &'a str,
    profile: Profile,
    explain: bool,
    files: &mut F,
) -> Result<Answer, Fault<'a>>
    ensures finds { IsTrue F.TELLS
        → Finds (Request.Check libraries.entry file.entry profile explain) (F.store files.old).contents result }
    ensures read { IsRead result (F.store files.old) (F.store files.new) }
{
    let joined = joined_text(alloc, libraries, file, files)?;
    let text = joined.text.as_str();
    match judge_as(alloc, text, profile) {
        Ok(_accepted) => {
            let line = String::from_str(alloc, "accepted\n")?;
            Ok(Answer::of_text(line))
        }
        Err(refusal) => {
            let read = joined.libraries.as_slice();
            Err(refused_in(alloc, text, read, refusal, explain))
        }
    }
}

/// The plain or the optimised image of the source of libraries and a file, for an observer. It is put into memory:
/// where it goes to is opened only once the text was accepted. A refusal is explained where that is asked for.
fn image_of_text<'a, F: Files>(
    alloc: Global,
    libraries: &'a [&'a str],
    file: &'a str,
    options: CompileOptions,
    files: &mut F,
) -> Result<Vec<u8>, Fault<'a>>
    ensures said { IsTrue F.TELLS
        → IfOk result (λ image. IsImageOf options.optimisation options.profile (F.store files.old).contents
        (map (λ path. path.now) libraries.now) file.now image.items) }
    ensures refused { IsTrue F.TELLS
        → IfErr result (IsRefusedIn options.explain options.profile (F.store files.old).contents
        (map (λ path. path.now) libraries.now) file.now) }
    ensures calm { OnOk result (F.store files.new ≡ F.store files.old) }
    ensures counted { IfErr result (λ fault. IsReadBy fault (F.store files.old) (F.store files.new)) }
{
    let joined = joined_text(alloc, libraries, file, files)?;
    let text = joined.text.as_str();
    match build_with(alloc, text, options.profile, options.optimisation) {
        Ok(image) => Ok(image),
        Err(refusal) => {
            let read = joined.libraries.as_slice();
            Err(refused_in(alloc, text, read, refusal, options.explain))
        }
    }
}

/// Compiles the source of libraries and a file, for an observer, to the plain or the optimised image of another file,
/// which is created only once the text was accepted. A refusal does not depend on the optimisation.
pub fn build_image<'a, F: Files>(
    alloc: Global,
    libraries: &'a [&'a str],
    file: &'a str,
    image: &'a str,
    options: CompileOptions,
    files: &mut F,
) -> Result<(), Fault<'a>>
    ensures said { IsTrue F.TELLS
        → OnOk result (WritesFile image.now
        (IsImageOf options.optimisation options.profile (F.store files.old).contents
        (map (λ path. path.now) libraries.now) file.now)
        (F.store files.old).contents (F.store files.new).contents) }
    ensures refused { IsTrue F.TELLS
        → IfErr result (FailsToWrite image.now
        (IsImageOf options.optimisation options.profile (F.store files.old).contents
        (map (λ path. path.now) libraries.now) file.now)
        (IsRefusedIn options.explain options.profile (F.store files.old).contents
        (map (λ path. path.now) libraries.now) file.now) (F.store files.old).contents (F.store files.new).contents) }
    ensures untouched { IfErr result (λ fault. (IsWriteFault image.now fault → ⊥)
        → (F.store files.new).contents ≡ (F.store files.old).contents) }
    ensures calm { OnOk result ((F.store files.new).failures ≡ (F.store files.old).failures) }
    ensures counted { IfErr result (λ fault. (F.store files.new).failures
        ≡ failures_by fault (F.store files.old).failures) }
{
    let built = image_of_text(alloc, libraries, file, options, files)?;
    write_file(image, built.as_slice(), files)
}
