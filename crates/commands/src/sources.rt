// Several files that are read as one source: libraries, and then a file, with a line feed between each two.

ghost use Rattle.std.specs.Prelude.{◌≡◌, ℕ, ◌<◌, List, Some, map, length, get_or, true, IsTrue, IfOk, IfErr, OnOk};
ghost use Rattle.std.specs.Option.{option_map};
ghost use Rattle.std.specs.String.{string_bytes};
ghost use Rattle.commands.specs.Failures.{IsReadBy};
ghost use Rattle.commands.specs.Sources.{IsAtLine, IsToldIn, NoSources, NoTextBelow, standing};
ghost use Rattle.commands.specs.Below.{numbered_of, placed};
ghost use Rattle.commands.specs.Sources.{IsReadFrom, joined, LibraryText, line_at, lines_in, numbered, source_at};
ghost use Rattle.commands.specs.Judged.{IsExplainedIn, IsToldBy, TellsIn};
ghost use Rattle.commands.specs.Unread.{IsOutOfMemory};

use crate::fault::{Fault, FileFault};
use crate::files::Files;
use crate::reading::bytes_of;
use explanations::explained_refusals::explain_refusal;
use image_reports::source_places::{Library, standing_place};
use language::{Place, Refusal, Rule, Violation};
use std::alloc::Global;
use syntax::SOURCE_LIMIT;

/// The text of libraries and of a file, and the libraries in their order.
#[derive(Drop)]
pub struct JoinedText<'a> {
    pub text: String,
    pub libraries: Vec<Library<'a>>,
}

/// How many lines a text has.
fn lines_in(text: &str) -> usize
    ensures { result ≡ lines_in text.now }
{
    let bytes = text.as_bytes();
    let mut lines = 1;
    for byte in bytes {
        if *byte == b'\n' {
            lines += 1;
        }
    }
    lines
}

/// A byte of a joined text is the byte of the library or of the file where it stands, or the line feed behind the
/// library; and the line of it there is the one that is placed.
pub fn lines_are_placed()
    ensures line { (libraries : List LibraryText) (last : List ℕ) (offset : ℕ)
        → placed (numbered libraries) (line_at (joined libraries last) offset)
        ≡ (
          (source_at libraries last offset).path,
          line_at (source_at libraries last offset).text (source_at libraries last offset).offset,
        ) }
    ensures byte { (libraries : List LibraryText) (last : List ℕ) (offset : ℕ)
        → get_or (joined libraries last) offset 10
        ≡ get_or (source_at libraries last offset).text (source_at libraries last offset).offset 10 }
{}

/// In which library a refusal of a joined text stands, if it is not in the file, and the refusal with its line there.
fn standing<'a>(libraries: &[Library<'a>], refusal: Refusal) -> (Option<&'a str>, Refusal)
    ensures library { option_map (λ path. path.now) result.0 ≡ (standing (numbered_of libraries.now) refusal).0 }
    ensures told { IsAtLine (standing (numbered_of libraries.now) refusal).1 refusal result.1 }
{
    let Some(place) = refusal.place else {
        return (None, refusal);
    };
    let standing = standing_place(libraries, place);
    let told = Refusal::of(Violation {
        place: standing.place,
        rule: refusal.rule,
        why: refusal.why,
    });
    (standing.library, told)
}

/// The fault of a refusal of what stands in a library, or in the file where there is none.
fn told_in<'a>(library: Option<&'a str>, refusal: Refusal) -> Fault<'a>
    ensures { IsToldIn (option_map (λ path. path.now) library.entry) refusal result }
{
    match library {
        Some(path) => Fault::InLibrary(path, refusal),
        None => Fault::Text(refusal),
    }
}

/// The same with the lines that explain it.
fn explained_in<'a>(library: Option<&'a str>, refusal: Refusal, lines: String) -> Fault<'a>
    ensures { IsExplainedIn (option_map (λ path. path.now) library.entry) refusal (string_bytes lines) result }
{
    match library {
        Some(path) => Fault::ExplainedInLibrary(path, refusal, lines),
        None => Fault::Explained(refusal, lines),
    }
}

/// The fault of a joined text that is refused, at its place in the library or the file where it stands, with the lines
/// that explain it where they are asked for; these count the lines of the joined text. Only memory fails.
pub fn told_by<'a>(
    alloc: Global,
    text: &str,
    libraries: &[Library<'a>],
    refusal: Refusal,
    explain: bool,
) -> Result<Fault<'a>, Fault<'a>>
    ensures told { IfOk result (IsToldBy text.now (numbered_of libraries.now) refusal explain) }
    ensures memory { IfErr result (λ fault. (explain ≡ true) × IsOutOfMemory fault) }
{
    let (library, told) = standing(libraries, refusal);
    if !explain {
        return Ok(told_in(library, told));
    }
    match explain_refusal(alloc, text, refusal) {
        Ok(lines) => Ok(explained_in(library, told, lines)),
        Err(fault) => Err(Fault::Text(fault)),
    }
}

/// The same, or that there is no memory for it.
pub fn refused_in<'a>(
    alloc: Global,
    text: &str,
    libraries: &[Library<'a>],
    refusal: Refusal,
    explain: bool,
) -> Fault<'a>
    ensures { TellsIn text.now (numbered_of libraries.now) refusal explain result }
{
    match told_by(alloc, text, libraries, refusal, explain) {
        Ok(fault) => fault,
        Err(fault) => fault,
    }
}

/// The text of a file, which is a library or not, if it has fewer bytes than so many. One that has more is not read to
/// its end.
fn text_below<'a, F: Files>(
    alloc: Global,
    path: &'a str,
    library: Option<&'a str>,
    limit: usize,
    files: &mut F,
) -> Result<String, Fault<'a>>
    ensures said { IsTrue F.TELLS
        → IfOk result (λ text. (F.store files.old).contents path.now ≡ Some (string_bytes text)) }
    ensures below { IfOk result (λ text. length (string_bytes text) < limit) }
    ensures refused { IsTrue F.TELLS → IfErr result (NoTextBelow (F.store files.old).contents path.now
        (option_map (λ path. path.now) library.entry) limit) }
    ensures calm { OnOk result (F.store files.new ≡ F.store files.old) }
    ensures counted { IfErr result (λ fault. IsReadBy fault (F.store files.old) (F.store files.new)) }
{
    let bytes = bytes_of(alloc, path, limit, files)?;
    if bytes.len() >= limit {
        let too_long = Refusal::at(Rule::TextTooLong, Place::ORIGIN);
        return Err(told_in(library, too_long));
    }
    match String::from_utf8(bytes) {
        Ok(text) => Ok(text),
        Err(_) => Err(Fault::File(FileFault::NotUtf8(path))),
    }
}

/// The text of libraries and of a file, each read once, in that order. What is too long is not read to its end.
pub fn joined_text<'a, F: Files>(
    alloc: Global,
    libraries: &'a [&'a str],
    file: &'a str,
    files: &mut F,
) -> Result<JoinedText<'a>, Fault<'a>>
    ensures said { IsTrue F.TELLS → IfOk result (λ joined. IsReadFrom (F.store files.old).contents
        (map (λ path. path.now) libraries.now) file.now (string_bytes joined.text)
        (numbered_of joined.libraries.items)) }
    ensures refused { IsTrue F.TELLS → IfErr result (NoSources (F.store files.old).contents
        (map (λ path. path.now) libraries.now) file.now) }
    ensures calm { OnOk result (F.store files.new ≡ F.store files.old) }
    ensures counted { IfErr result (λ fault. IsReadBy fault (F.store files.old) (F.store files.new)) }
{
    let mut text = String::new(alloc);
    let mut read = Vec::new(alloc);
    for path in libraries {
        let library = text_below(alloc, path, Some(path), SOURCE_LIMIT - text.len(), files)?;
        let lines = lines_in(library.as_str());
        read.push(Library { path, lines })?;
        text.push_str(library.as_str())?;
        text.push_str("\n")?;
    }
    let last = text_below(alloc, file, None, SOURCE_LIMIT + 1 - text.len(), files)?;
    text.push_str(last.as_str())?;
    Ok(JoinedText {
        text,
        libraries: read,
    })
}
