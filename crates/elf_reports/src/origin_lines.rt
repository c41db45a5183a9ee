// The lines of registers that are unknown.

ghost use Rattle.std.specs.Prelude.{◌≡◌, ◌≢◌, ◌++◌, ◌∷◌, [], ℕ, List, None, Some, codes, length, OnOk, IfOk};
ghost use Rattle.std.specs.String.{string_bytes};
ghost use Rattle.elf_reports.specs.Below.{origin_if_unknown, origins_in, register_masks, registers_read};
ghost use Rattle.elf_reports.specs.EncodingLines.{IsLineOfEncoding};
ghost use Rattle.elf_reports.specs.Encodings.{encoding_at};
ghost use Rattle.elf_reports.specs.Explained.{argument_in, argument_text, load_address_text, load_text, once};
ghost use Rattle.elf_reports.specs.Explained.{SaysOrigin, SaysRegister, SaysRegisters, since_text, Stands, start_text};
ghost use Rattle.elf_reports.specs.declared.encodings.Encoding.{Encoding};

use crate::encoding_lines::encoding_line;
use crate::encodings::encoding_at;
use crate::places::push_read;
use elf::Program;
use elf_runs::Asked;
use run_reports::origins::{Origin, Reads, Undecided, reads_of};
use rv_code::Reg;
use std::alloc::{AllocError, Global};
use std::fmt::Write;

/// The register of the first argument, and how many arguments registers have.
const FIRST_ARGUMENT: u8 = 10;

const ARGUMENT_REGISTERS: usize = 8;

/// Which of so many arguments a register has when the run begins.
fn argument_in(count: usize, register: Reg) -> Option<u8>
    ensures { result ≡ argument_in count register }
{
    let index = register.number().checked_sub(FIRST_ARGUMENT)?;
    if usize::from(index) < count.min(ARGUMENT_REGISTERS) {
        Some(index)
    } else {
        None
    }
}

/// Puts at the end which argument it is, if it is one.
fn push_argument(text: &mut String, index: Option<u8>) -> Result<(), AllocError>
    ensures { OnOk result (string_bytes text.new ≡ string_bytes text.old ++ argument_text index) }
{
    match index {
        Some(index) => {
            write!(text, ", argument {index}")?;
            Ok(())
        }
        None => Ok(()),
    }
}

/// The line of a register that is unknown since the run began, as this one was then.
fn start_line(alloc: Global, count: usize, register: Reg, first: Reg) -> Result<Vec<u8>, AllocError>
    ensures { IfOk result (λ text. text.items ≡ start_text count register first ++ codes "\n") }
{
    let mut text = format!(in alloc; "{register} unknown since the start: {first}")?;
    push_argument(&mut text, argument_in(count, first))?;
    text.push_str("\n")?;
    Ok(text.into_bytes())
}

/// Puts at the end the address of a load.
fn push_load(text: &mut String, address: u32) -> Result<(), AllocError>
    ensures { OnOk result (string_bytes text.new ≡ string_bytes text.old ++ load_address_text address) }
{
    write!(text, ": load {address:08x}")?;
    Ok(())
}

/// Since which load a register is unknown.
fn load_text(
    alloc: Global,
    program: &Program<'_>,
    stack: u32,
    register: Reg,
    entry: u64,
    address: u32,
) -> Result<Vec<u8>, AllocError>
    ensures { IfOk result (λ text. text.items ≡ load_text program.now stack register entry address) }
{
    let mut said = format!(in alloc; "{register} unknown since entry {entry}")?;
    push_load(&mut said, address)?;
    let mut text = said.into_bytes();
    push_read(alloc, &mut text, program, stack, address)?;
    Ok(text)
}

/// The line of what begins where a load stands.
fn line_of(alloc: Global, program: &Program<'_>, pc: u32) -> Result<Vec<u8>, AllocError>
    requires { encoding_at program.now pc ≢ None }
    ensures { IfOk result (λ line. (encoding : Encoding)
        × (encoding_at program.now pc ≡ Some encoding) × IsLineOfEncoding pc encoding line.items) }
{
    match encoding_at(alloc, program, pc)? {
        Some(encoding) => encoding_line(alloc, pc, encoding),
        None => unreachable!(),
    }
}

/// The line of a register that is unknown since a load.
fn load_line(
    alloc: Global,
    program: &Program<'_>,
    load: &[u8],
    pc: u32,
) -> Result<Vec<u8>, AllocError>
    requires { encoding_at program.now pc ≢ None }
    ensures { IfOk result (λ text. (encoding : Encoding) × (shown : List ℕ)
        × (encoding_at program.now pc ≡ Some encoding) × IsLineOfEncoding pc encoding shown
        × (text.items ≡ load.now ++ codes ", by " ++ shown)) }
{
    let mut text = Vec::from_slice(alloc, load)?;
    text.extend_from_slice(b", by ")?;
    let line = line_of(alloc, program, pc)?;
    text.extend_from_slice(line.as_slice())?;
    Ok(text)
}

/// The line of a register that is unknown, by where that comes from.
fn origin_line(
    alloc: Global,
    program: &Program<'_>,
    asked: &Asked,
    register: Reg,
    origin: Origin,
) -> Result<Vec<u8>, AllocError>
    requires { Stands program.now origin }
    ensures { IfOk result (λ text. SaysOrigin program.now asked.now register origin text.items) }
{
    match origin {
        Origin::Start(first) => start_line(alloc, asked.arguments.len(), register, first),
        Origin::Load { entry, pc, address } => {
            let load = load_text(alloc, program, asked.stack, register, entry, address)?;
            load_line(alloc, program, load.as_slice(), pc)
        }
    }
}

/// The line of a register, if it is unknown.
fn register_line(
    alloc: Global,
    program: &Program<'_>,
    asked: &Asked,
    undecided: &Undecided,
    register: Reg,
) -> Result<Vec<u8>, AllocError>
    requires { (r : ℕ) → Stands program.now (origins_in undecided.now.origins.kept r) }
    ensures { IfOk result (λ text. SaysRegister program.now asked.now register
        (origin_if_unknown (register_masks undecided.now.masks) (origins_in undecided.now.origins.kept) register)
        text.items) }
{
    match undecided.origin(register) {
        Some(origin) => origin_line(alloc, program, asked, register, origin),
        None => Ok(Vec::new(alloc)),
    }
}

/// The lines of two registers, each of which may be unknown.
fn two_lines(
    alloc: Global,
    program: &Program<'_>,
    asked: &Asked,
    undecided: &Undecided,
    one: Reg,
    other: Reg,
) -> Result<Vec<u8>, AllocError>
    requires { (r : ℕ) → Stands program.now (origins_in undecided.now.origins.kept r) }
    ensures { IfOk result (λ text. SaysRegisters program.now asked.now
        (register_masks undecided.now.masks) (origins_in undecided.now.origins.kept)
        (one ∷ other ∷ []) text.items) }
{
    let mut text = register_line(alloc, program, asked, undecided, one)?;
    let rest = register_line(alloc, program, asked, undecided, other)?;
    text.extend_from_slice(rest.as_slice())?;
    Ok(text)
}

/// A line for each register that is unknown and that the instruction reads.
pub(crate) fn origin_lines(
    alloc: Global,
    program: &Program<'_>,
    asked: &Asked,
    undecided: &Undecided,
) -> Result<Vec<u8>, AllocError>
    requires { (r : ℕ) → Stands program.now (origins_in undecided.now.origins.kept r) }
    ensures { IfOk result (λ text. SaysRegisters program.now asked.now
        (register_masks undecided.now.masks) (origins_in undecided.now.origins.kept)
        (once (registers_read undecided.now.instr)) text.items) }
{
    match reads_of(&undecided.instr) {
        Reads::Nothing => Ok(Vec::new(alloc)),
        Reads::One(r) => register_line(alloc, program, asked, undecided, r),
        Reads::Two(r, s) => {
            if r == s {
                register_line(alloc, program, asked, undecided, r)
            } else {
                two_lines(alloc, program, asked, undecided, r, s)
            }
        }
    }
}
