// Two runs of a function of an executable of which an observer sees different things.

ghost use Rattle.std.specs.Prelude.{◌≡◌, ◌<◌, ◌^◌, ◌++◌, codes, IsTrue, IfOk, IfErr, OnOk};
ghost use Rattle.std.specs.Fmt.{decimal};
ghost use Rattle.commands.specs.Answered.{Finds, IsRead};
ghost use Rattle.commands.specs.Below.{needs};
ghost use Rattle.commands.specs.FunctionLeaks.{observed_run};
ghost use Rattle.commands.specs.FunctionWitnesses.{none_text, PrintsWitness, SaysWitnessOf, settings_line};
ghost use Rattle.commands.specs.FunctionWitnesses.{setting_words, settings_words};
ghost use Rattle.elf_runs.specs.Needs.{IsTold};

use crate::answer::Answer;
use crate::elf_listing::observed_run;
use crate::executables::{executable_bytes, line_of_program};
use crate::fault::Fault;
use crate::files::Files;
use crate::function_words::{asked_of, fault_of_start};
use command_line::{ObservedOptions, Request};
use elf::{Program, read};
use elf_reports::{AskedWords, push_place};
use elf_runs::{Asked, RunOptions, Setting, StartFault};
use elf_witnesses::{Witness, find_witness};
use std::alloc::{AllocError, Global};

/// Two runs of a function of an executable, on secrets of which an observer sees different things, as lines, if one of
/// so many tries finds some.
pub fn witness_elf<'a, F: Files>(
    alloc: Global,
    path: &'a str,
    words: &AskedWords<'_>,
    options: ObservedOptions,
    tries: u64,
    files: &mut F,
) -> Result<Answer, Fault<'a>>
    ensures finds { IsTrue F.TELLS
        → Finds (Request.ElfWitness path.entry words.now options tries) (F.store files.old).contents result }
    ensures read { IsRead result (F.store files.old) (F.store files.new) }
{
    let bytes = executable_bytes(alloc, path, files)?;
    let program = read(alloc, bytes.as_slice())?;
    let asked = asked_of(alloc, words)?;
    match text_of(alloc, &program, asked, observed_run(options), tries) {
        Ok(text) => Ok(Answer::of_bytes(text)),
        Err(fault) => Err(fault_of_start(alloc, words, fault)?),
    }
}

/// What is printed of a witness for a function of a program, if one is found.
fn text_of(
    alloc: Global,
    program: &Program<'_>,
    asked: Asked,
    options: RunOptions,
    tries: u64,
) -> Result<Vec<u8>, StartFault>
    requires { options.steps < 2 ^ 62 }
    ensures says { IfOk result (λ text. SaysWitnessOf program.now asked options tries text.items) }
    ensures refused { IfErr result (λ fault. IsTold fault (needs program.now asked)) }
{
    match find_witness(alloc, program, asked, options, tries)? {
        Some(witness) => Ok(witness_text(alloc, program, &witness)?),
        None => Ok(none_text(alloc, tries)?),
    }
}

/// The line that says that none was found.
fn none_text(alloc: Global, tries: u64) -> Result<Vec<u8>, AllocError>
    ensures { IfOk result (λ text. text.items ≡ none_text tries) }
{
    let line = format!(in alloc; "none in {tries} tries\n")?;
    Ok(line.into_bytes())
}

/// A witness as lines: the entry that differs first, the line of the last instruction that begins before it and that of
/// its place, and the secrets of each run.
fn witness_text(
    alloc: Global,
    program: &Program<'_>,
    witness: &Witness,
) -> Result<Vec<u8>, AllocError>
    ensures { IfOk result (λ text. PrintsWitness program.now witness.now text.items) }
{
    let mut text = differ_line(alloc, witness.entry)?;
    let line = line_of_program(alloc, program, witness.step.pc)?;
    text.extend_from_slice(line.as_slice())?;
    push_place(
        alloc,
        &mut text,
        program,
        witness.step.pc,
        witness.calls.as_slice(),
    )?;
    push_settings(alloc, &mut text, "first:", witness.one.as_slice())?;
    push_settings(alloc, &mut text, "second:", witness.other.as_slice())?;
    Ok(text)
}

/// The line of the entry that differs first.
fn differ_line(alloc: Global, entry: u64) -> Result<Vec<u8>, AllocError>
    ensures { IfOk result (λ text. text.items ≡ codes "differ at " ++ decimal entry ++ codes "\n") }
{
    let line = format!(in alloc; "differ at {entry}\n")?;
    Ok(line.into_bytes())
}

/// Puts the line of a run's secrets at the end, behind the name of the run, as words that `elf leak` takes.
fn push_settings(
    alloc: Global,
    text: &mut Vec<u8>,
    name: &str,
    settings: &[Setting],
) -> Result<(), AllocError>
    ensures { OnOk result (text.new.items ≡ text.old.items ++ settings_line name.now settings.now) }
{
    text.extend_from_slice(name.as_bytes())?;
    'settings: for setting in settings {
        push_setting(alloc, text, setting)?;
    }
    text.extend_from_slice(b"\n")
}

/// Puts a blank and the words by which a secret is set at the end.
fn push_setting(alloc: Global, text: &mut Vec<u8>, setting: &Setting) -> Result<(), AllocError>
    ensures { OnOk result (text.new.items ≡ text.old.items ++ setting_words setting.now) }
{
    let digits = hex::encode(alloc, setting.bytes.as_slice())?;
    text.extend_from_slice(b" --set ")?;
    text.extend_from_slice(setting.object.as_slice())?;
    text.extend_from_slice(b"=hex:")?;
    text.extend_from_slice(digits.as_bytes())
}
