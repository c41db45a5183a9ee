// All that a source violates, as it is told.

ghost use Rattle.std.specs.Prelude.{◌≡◌, ◌++◌, map, IsTrue, IfOk, IfErr, OnOk};
ghost use Rattle.std.specs.String.{string_bytes};
ghost use Rattle.commands.specs.Answered.{Finds, IsRead};
ghost use Rattle.commands.specs.Below.{numbered_of};
ghost use Rattle.commands.specs.Failures.{IsReadBy};
ghost use Rattle.commands.specs.Sources.{NoSources};
ghost use Rattle.commands.specs.Unread.{IsOutOfMemory};
ghost use Rattle.commands.specs.Violations.{AreToldBy, fault_lines, ListsSource};

use crate::answer::{Answer, REFUSED};
use crate::fault::Fault;
use crate::files::Files;
use crate::sources::{joined_text, told_by};
use command_line::Request;
use hepurita::violations;
use image_reports::source_places::Library;
use language::{Profile, Refusal, Violation};
use std::alloc::{AllocError, Global};
use std::fmt::Write;

/// The faults by which violations of a joined text are told. Only memory fails.
fn all_told<'a>(
    alloc: Global,
    text: &str,
    libraries: &[Library<'a>],
    found: &[Violation],
    explain: bool,
) -> Result<Vec<Fault<'a>>, Fault<'a>>
    ensures told { IfOk result (λ faults.
        AreToldBy text.now (numbered_of libraries.now) explain found.now faults.items) }
    ensures memory { IfErr result IsOutOfMemory }
{
    let mut faults = Vec::new(alloc);
    for violation in found {
        let refusal = Refusal::of(*violation);
        faults.push(told_by(alloc, text, libraries, refusal, explain)?)?;
    }
    Ok(faults)
}

/// The faults that tell of all that the source of libraries and a file violates, for an observer, of the rules that the
/// pass asks that refuses it: in order of place, none where it is accepted. They are explained where that is asked for.
pub fn told_violations<'a, F: Files>(
    alloc: Global,
    libraries: &'a [&'a str],
    file: &'a str,
    profile: Profile,
    explain: bool,
    files: &mut F,
) -> Result<Vec<Fault<'a>>, Fault<'a>>
    ensures found { IsTrue F.TELLS → IfOk result (λ found. ListsSource explain profile (F.store files.old).contents
        (map (λ path. path.now) libraries.now) file.now found.items) }
    ensures refused { IsTrue F.TELLS → IfErr result (NoSources (F.store files.old).contents
        (map (λ path. path.now) libraries.now) file.now) }
    ensures calm { OnOk result (F.store files.new ≡ F.store files.old) }
    ensures counted { IfErr result (λ fault. IsReadBy fault (F.store files.old) (F.store files.new)) }
{
    let joined = joined_text(alloc, libraries, file, files)?;
    let text = joined.text.as_str();
    let found = violations(alloc, text, profile)?;
    let read = joined.libraries.as_slice();
    all_told(alloc, text, read, found.as_slice(), explain)
}

/// The lines of faults.
fn lines_of(alloc: Global, faults: &[Fault<'_>]) -> Result<String, AllocError>
    ensures { IfOk result (λ text. string_bytes text ≡ fault_lines faults.now) }
{
    let mut text = String::new(alloc);
    for fault in faults {
        writeln!(text, "{fault}")?;
    }
    Ok(text)
}

/// Says all that the source of libraries and a file violates, or that it is accepted.
pub fn check_all<'a, F: Files>(
    alloc: Global,
    libraries: &'a [&'a str],
    file: &'a str,
    profile: Profile,
    explain: bool,
    files: &mut F,
) -> Result<Answer, Fault<'a>>
    ensures finds { IsTrue F.TELLS
        → Finds (Request.CheckAll libraries.entry file.entry profile explain) (F.store files.old).contents result }
    ensures read { IsRead result (F.store files.old) (F.store files.new) }
{
    let found = told_violations(alloc, libraries, file, profile, explain, files)?;
    if found.is_empty() {
        let line = String::from_str(alloc, "accepted\n")?;
        return Ok(Answer::of_text(line));
    }
    let lines = lines_of(alloc, found.as_slice())?;
    Ok(Answer {
        text: lines.into_bytes(),
        status: REFUSED,
    })
}
