// The lines of an explanation.

ghost use Rattle.rv_code.specs.FieldText.{reg_text};
ghost use Rattle.std.specs.Prelude.{◌≡◌, ◌≢◌, ◌++◌, ◌∷◌, [], ℕ, List, None, Some, codes, OnOk, IfOk};
ghost use Rattle.std.specs.String.{string_bytes};
ghost use Rattle.certified_runs.specs.Parts.{register_masks};
ghost use Rattle.image_reports.specs.Below.{code_at, code_base, IsLineAt, word_at};
ghost use Rattle.image_reports.specs.certificate_explanations.Explained.{address_text, load_text, once, SaysOrigin};
ghost use Rattle.image_reports.specs.certificate_explanations.Explained.{SaysRegister, SaysRegisters, since_text};
ghost use Rattle.image_reports.specs.certificate_explanations.Standing.{Stands};
ghost use Rattle.run_reports.specs.origins.Origins.{origin_if_unknown, origins_in};
ghost use Rattle.run_reports.specs.run_places.Reads.{registers_read};

use crate::certificate_explanations::places::push_place;
use image::Image;
use listing::line_at;
use run_reports::origins::{Origin, Reads, Undecided, reads_of};
use rv_code::Reg;
use std::alloc::{AllocError, Global};
use std::fmt::Write;

/// Puts at the end since which entry a register is unknown.
fn push_since(text: &mut String, register: Reg, entry: u64) -> Result<(), AllocError>
    ensures { OnOk result (string_bytes text.new ≡ string_bytes text.old ++ since_text register entry) }
{
    let number = register.number();
    write!(text, "x{number} unknown since entry {entry}")?;
    Ok(())
}

/// Puts at the end the address of a load.
fn push_address(text: &mut String, address: u32) -> Result<(), AllocError>
    ensures { OnOk result (string_bytes text.new ≡ string_bytes text.old ++ address_text address) }
{
    write!(text, ": load {address:08x}")?;
    Ok(())
}

/// Which load a register comes from.
fn load_text(
    alloc: Global,
    image: &Image,
    register: Reg,
    entry: u64,
    address: u32,
) -> Result<String, AllocError>
    ensures { IfOk result (λ text. string_bytes text ≡ load_text image.now register entry address) }
{
    let mut text = String::new(alloc);
    push_since(&mut text, register, entry)?;
    push_address(&mut text, address)?;
    push_place(&mut text, image.slots(), address)?;
    Ok(text)
}

/// What is said of a register that is unknown since a load.
fn load_line(alloc: Global, image: &Image, load: &str, pc: u32) -> Result<Vec<u8>, AllocError>
    requires { word_at (code_at code_base image.now) pc ≢ None }
    ensures { IfOk result (λ text. (word : List ℕ) × IsLineAt (code_at code_base image.now) pc (Some word)
        × (text.items ≡ load.now ++ codes ", by " ++ word)) }
{
    let mut text = Vec::from_slice(alloc, load.as_bytes())?;
    text.extend_from_slice(b", by ")?;
    if let Some(word) = line_at(alloc, image, pc)? {
        text.extend_from_slice(word.as_slice())?;
    }
    Ok(text)
}

/// The line of a register that is unknown since the run began.
fn start_line(alloc: Global, register: Reg) -> Result<Vec<u8>, AllocError>
    ensures { IfOk result (λ text. text.items ≡ reg_text register ++ codes " unknown since the start\n") }
{
    let number = register.number();
    let said = format!(in alloc; "x{number} unknown since the start\n")?;
    Ok(said.into_bytes())
}

/// The line of a register that is unknown, by where that comes from.
fn origin_line(
    alloc: Global,
    image: &Image,
    register: Reg,
    origin: Origin,
) -> Result<Vec<u8>, AllocError>
    requires { Stands image.now origin }
    ensures { IfOk result (λ text. SaysOrigin image.now register origin text.items) }
{
    match origin {
        Origin::Start(_) => start_line(alloc, register),
        Origin::Load { entry, pc, address } => {
            let load = load_text(alloc, image, register, entry, address)?;
            load_line(alloc, image, load.as_str(), pc)
        }
    }
}

/// The line of a register, if it is unknown.
fn register_line(
    alloc: Global,
    image: &Image,
    undecided: &Undecided,
    register: Reg,
) -> Result<Vec<u8>, AllocError>
    requires { (r : ℕ) → Stands image.now (origins_in undecided.now.origins.kept r) }
    ensures { IfOk result (λ text. SaysRegister image.now register
        (origin_if_unknown (register_masks undecided.now.masks) (origins_in undecided.now.origins.kept) register)
        text.items) }
{
    match undecided.origin(register) {
        Some(origin) => origin_line(alloc, image, register, origin),
        None => Ok(Vec::new(alloc)),
    }
}

/// The lines of two registers, each of which may be unknown.
fn two_lines(
    alloc: Global,
    image: &Image,
    undecided: &Undecided,
    one: Reg,
    other: Reg,
) -> Result<Vec<u8>, AllocError>
    requires { (r : ℕ) → Stands image.now (origins_in undecided.now.origins.kept r) }
    ensures { IfOk result (λ text.
        SaysRegisters image.now (register_masks undecided.now.masks) (origins_in undecided.now.origins.kept)
        (one ∷ other ∷ []) text.items) }
{
    let mut text = register_line(alloc, image, undecided, one)?;
    let rest = register_line(alloc, image, undecided, other)?;
    text.extend_from_slice(rest.as_slice())?;
    Ok(text)
}

/// A line for each register that is unknown and that the instruction reads.
pub(crate) fn lines(
    alloc: Global,
    image: &Image,
    undecided: &Undecided,
) -> Result<Vec<u8>, AllocError>
    requires { (r : ℕ) → Stands image.now (origins_in undecided.now.origins.kept r) }
    ensures { IfOk result (λ text.
        SaysRegisters image.now (register_masks undecided.now.masks) (origins_in undecided.now.origins.kept)
        (once (registers_read undecided.now.instr)) text.items) }
{
    match reads_of(&undecided.instr) {
        Reads::Nothing => Ok(Vec::new(alloc)),
        Reads::One(r) => register_line(alloc, image, undecided, r),
        Reads::Two(r, s) => {
            if r == s {
                register_line(alloc, image, undecided, r)
            } else {
                two_lines(alloc, image, undecided, r, s)
            }
        }
    }
}
