// A function for C, as two files.

ghost use Rattle.std.specs.Prelude.{◌≡◌, ◌⊎◌, map, IsTrue, IfOk, IfErr, OnOk, OnErr};
ghost use Rattle.std.specs.String.{string_bytes};
ghost use Rattle.commands.specs.Failures.{IsReadBy, failures_by};
ghost use Rattle.commands.specs.FunctionFiles.{AreFunctionTexts, IsFaultIn, RefusesFunction};
ghost use Rattle.commands.specs.TwoFiles.{AreWritten, AreCutOff, WritesTwo, FailsToWriteTwo};
ghost use Rattle.commands.specs.Written.{IsWriteFault};
ghost use Rattle.commands.specs.Below.{numbered_of, one_more};

use crate::fault::Fault;
use crate::files::Files;
use crate::sources::{joined_text, refused_in};
use crate::texts::write_file;
use command_line::LinkOptions;
use functions::function_text::{FunctionFault, Texts, texts_of};
use image_reports::source_places::{Library, standing_place};
use std::alloc::Global;

/// The fault of a text that was joined of libraries and a file, and of which there is no function: at its place in the
/// library or the file where it stands. A refusal is explained where that is asked for.
fn fault_in<'a>(
    alloc: Global,
    text: &str,
    libraries: &[Library<'a>],
    fault: FunctionFault,
    explain: bool,
) -> Fault<'a>
    ensures { IsFaultIn explain text.now (numbered_of libraries.now) fault result }
{
    match fault {
        FunctionFault::Text(refusal) => refused_in(alloc, text, libraries, refusal, explain),
        FunctionFault::Name(place) => Fault::Name(standing_place(libraries, place)),
    }
}

/// The texts of the plain or the optimised function that the source of libraries and a file is compiled to, for an
/// observer. A refusal of the source is explained where that is asked for.
fn function_texts<'a, F: Files>(
    alloc: Global,
    libraries: &'a [&'a str],
    file: &'a str,
    options: &LinkOptions<'_>,
    files: &mut F,
) -> Result<Texts, Fault<'a>>
    ensures said { IsTrue F.TELLS
        → IfOk result (λ texts. AreFunctionTexts options.now (F.store files.old).contents
        (map (λ path. path.now) libraries.now) file.now
        (string_bytes texts.assembler) (string_bytes texts.header)) }
    ensures refused { IsTrue F.TELLS
        → IfErr result (RefusesFunction options.now (F.store files.old).contents
        (map (λ path. path.now) libraries.now) file.now) }
    ensures calm { OnOk result (F.store files.new ≡ F.store files.old) }
    ensures counted { IfErr result (λ fault. IsReadBy fault (F.store files.old) (F.store files.new)) }
{
    let joined = joined_text(alloc, libraries, file, files)?;
    let text = joined.text.as_str();
    let compile = options.compile;
    match texts_of(
        alloc,
        text,
        compile.profile,
        compile.optimisation,
        options.prefix.text,
        options.notation,
    ) {
        Ok(texts) => Ok(texts),
        Err(fault) => {
            let read = joined.libraries.as_slice();
            Err(fault_in(alloc, text, read, fault, compile.explain))
        }
    }
}

/// Writes one file, and then another.
fn write_both<'a, F: Files>(
    one: &'a str,
    other: &'a str,
    texts: &Texts,
    files: &mut F,
) -> Result<(), Fault<'a>>
    ensures written { IsTrue F.TELLS
        → OnOk result (AreWritten one.now other.now (string_bytes texts.now.assembler) (string_bytes texts.now.header)
        (F.store files.old).contents (F.store files.new).contents) }
    ensures cut_off { IsTrue F.TELLS
        → IfErr result (AreCutOff one.now other.now (string_bytes texts.now.assembler) (string_bytes texts.now.header)
        (F.store files.old).contents (F.store files.new).contents) }
    ensures fault { IfErr result (λ fault. IsWriteFault one.now fault ⊎ IsWriteFault other.now fault) }
    ensures calm { OnOk result ((F.store files.new).failures ≡ (F.store files.old).failures) }
    ensures counts { OnErr result ((F.store files.new).failures ≡ one_more (F.store files.old).failures) }
{
    write_file(one, texts.assembler.as_bytes(), files)?;
    write_file(other, texts.header.as_bytes(), files)
}

/// Compiles the source of libraries and a file, for an observer, to a plain or an optimised function that C calls: its
/// text for an assembler is written to one file, and then its C header to another. Neither is written unless both texts
/// are there. A refusal of the source is explained where that is asked for.
pub fn write_function<'a, F: Files>(
    alloc: Global,
    libraries: &'a [&'a str],
    file: &'a str,
    assembler: &'a str,
    header: &'a str,
    options: &LinkOptions<'_>,
    files: &mut F,
) -> Result<(), Fault<'a>>
    ensures said { IsTrue F.TELLS
        → OnOk result (WritesTwo assembler.now header.now
        (AreFunctionTexts options.now (F.store files.old).contents
        (map (λ path. path.now) libraries.now) file.now)
        (F.store files.old).contents (F.store files.new).contents) }
    ensures refused { IsTrue F.TELLS
        → IfErr result (FailsToWriteTwo assembler.now header.now
        (AreFunctionTexts options.now (F.store files.old).contents
        (map (λ path. path.now) libraries.now) file.now)
        (RefusesFunction options.now (F.store files.old).contents
        (map (λ path. path.now) libraries.now) file.now)
        (F.store files.old).contents (F.store files.new).contents) }
    ensures untouched { IfErr result (λ fault. (IsWriteFault assembler.now fault ⊎ IsWriteFault header.now fault → ⊥)
        → (F.store files.new).contents ≡ (F.store files.old).contents) }
    ensures calm { OnOk result ((F.store files.new).failures ≡ (F.store files.old).failures) }
    ensures counted { IfErr result (λ fault. (F.store files.new).failures
        ≡ failures_by fault (F.store files.old).failures) }
{
    let texts = function_texts(alloc, libraries, file, options, files)?;
    write_both(assembler, header, &texts, files)
}
