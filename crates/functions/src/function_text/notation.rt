// The words of a function as lines of its text for an assembler, each put at the end of a text: as numbers, or as
// instructions.

ghost use Rattle.std.specs.Prelude.{◌≡◌, ◌++◌, List, ℕ, OnOk, codes};
ghost use Rattle.std.specs.Fmt.{decimal};
ghost use Rattle.std.specs.String.{string_bytes};
ghost use Rattle.functions.specs.function_text.AssemblerText.{IsWordLine, code_line, eight_digits, instruction_text};
ghost use Rattle.functions.specs.function_text.AssemblerText.{label_text, line_start, mnemonic_text, next_position};
ghost use Rattle.functions.specs.function_text.AssemblerText.{entry_text, number_text, tail_target};
ghost use Rattle.functions.specs.Below.{branch_row, branch_target, jump_target, reg_text, text_of, three_operands};
ghost use Rattle.functions.specs.Below.{two_operands, word_of};

use rv_code::{BranchOffset, BranchTest, Instr, JumpOffset, Reg, decode, encode};
use std::alloc::AllocError;
use std::fmt::Write;
use word::Width;

/// How the words of a function are written for an assembler.
#[derive(Clone, Copy, Debug)]
pub enum Notation {
    /// As numbers, each with its instruction as a comment, so that nothing is left to encode.
    Numbers,
    /// As instructions, each behind a label.
    Mnemonics,
}

/// The position behind a word's.
pub(crate) fn next_position(at: u32) -> u32
    ensures { result ≡ next_position at }
{
    word::add(Width::W32, at, 4)
}

/// The label of the word at a position.
fn push_label(text: &mut String, name: &str, at: u32) -> Result<(), AllocError>
    ensures { OnOk result (string_bytes text.new ≡ string_bytes text.old ++ label_text name.now at) }
{
    write!(text, ".L{name}_{at}")?;
    Ok(())
}

/// A word as a number, with its instruction as a comment.
fn push_number(text: &mut String, instruction: &Instr) -> Result<(), AllocError>
    ensures { OnOk result (string_bytes text.new
        ≡ string_bytes text.old ++ number_text (word_of instruction.now) (text_of instruction.now)) }
{
    let word = encode(*instruction);
    write!(text, ".word 0x{word:08x}  # {instruction}")?;
    Ok(())
}

/// A word that is no instruction's.
fn push_illegal(text: &mut String, word: u32) -> Result<(), AllocError>
    ensures { OnOk result (string_bytes text.new ≡ string_bytes text.old ++ number_text word (codes "illegal")) }
{
    write!(text, ".word 0x{word:08x}  # illegal")?;
    Ok(())
}

/// A jump at a position, to the label of its target.
fn push_jump(
    text: &mut String,
    name: &str,
    at: u32,
    rd: Reg,
    offset: JumpOffset,
) -> Result<(), AllocError>
    ensures { OnOk result (string_bytes text.new
        ≡ string_bytes text.old
        ++ two_operands (codes "jal") (reg_text rd) (label_text name.now (jump_target at offset))) }
{
    write!(text, "jal {rd}, ")?;
    push_label(text, name, word::add(Width::W32, at, offset.word()))
}

/// What a branch with this test is called.
fn branch_mnemonic(test: BranchTest) -> &'static str
    ensures { result.now ≡ (branch_row test).mnemonic }
{
    match test {
        BranchTest::Beq => "beq",
        BranchTest::Bne => "bne",
        BranchTest::Blt => "blt",
        BranchTest::Bge => "bge",
        BranchTest::Bltu => "bltu",
        BranchTest::Bgeu => "bgeu",
    }
}

/// A branch at a position, to the label of its target.
fn push_branch(
    text: &mut String,
    name: &str,
    at: u32,
    test: BranchTest,
    operands: (Reg, Reg),
    offset: BranchOffset,
) -> Result<(), AllocError>
    ensures { OnOk result (string_bytes text.new
        ≡ string_bytes text.old ++ three_operands (branch_row test).mnemonic (reg_text operands.0) (reg_text operands.1)
        (label_text name.now (branch_target at offset))) }
{
    let mnemonic = branch_mnemonic(test);
    let (rs1, rs2) = operands;
    write!(text, "{mnemonic} {rs1}, {rs2}, ")?;
    push_label(text, name, word::add(Width::W32, at, offset.word()))
}

/// An instruction at a position, as assemblers take it.
fn push_mnemonic(
    text: &mut String,
    name: &str,
    at: u32,
    instruction: &Instr,
) -> Result<(), AllocError>
    ensures { OnOk result (string_bytes text.new
        ≡ string_bytes text.old ++ mnemonic_text name.now at instruction.now) }
{
    match *instruction {
        Instr::Jump(rd, offset) => push_jump(text, name, at, rd, offset),
        Instr::Branch(test, rs1, rs2, offset) => {
            push_branch(text, name, at, test, (rs1, rs2), offset)
        }
        Instr::Fence(..) => push_number(text, instruction),
        _ => {
            write!(text, "{instruction}")?;
            Ok(())
        }
    }
}

/// An instruction at a position.
fn push_text(
    text: &mut String,
    notation: Notation,
    name: &str,
    at: u32,
    instruction: &Instr,
) -> Result<(), AllocError>
    ensures { OnOk result (string_bytes text.new
        ≡ string_bytes text.old ++ instruction_text notation name.now at instruction.now) }
{
    match notation {
        Notation::Numbers => push_number(text, instruction),
        Notation::Mnemonics => push_mnemonic(text, name, at, instruction),
    }
}

/// How the line of the word at a position begins.
fn push_start(text: &mut String, notation: Notation, name: &str, at: u32) -> Result<(), AllocError>
    ensures { OnOk result (string_bytes text.new ≡ string_bytes text.old ++ line_start notation name.now at) }
{
    match notation {
        Notation::Numbers => text.push_str("    "),
        Notation::Mnemonics => {
            push_label(text, name, at)?;
            text.push_str(": ")
        }
    }
}

/// The line of an instruction at a position.
pub(crate) fn push_code_line(
    text: &mut String,
    notation: Notation,
    name: &str,
    at: u32,
    instruction: &Instr,
) -> Result<(), AllocError>
    ensures { OnOk result (string_bytes text.new ≡ string_bytes text.old
        ++ code_line notation name.now at (instruction_text notation name.now at instruction.now)) }
{
    push_start(text, notation, name, at)?;
    push_text(text, notation, name, at, instruction)?;
    text.push_str("\n")
}

/// Where a call with so much room enters the tail that functions share, from its beginning on: there is no loop to run
/// where nothing is to be wiped.
fn entry_text(room: u32) -> &'static str
    ensures { result.now ≡ entry_text room }
{
    if room == 0 { "+24" } else { "" }
}

/// The jump to the tail that functions share, for a call with so much room.
fn push_onward(text: &mut String, room: u32) -> Result<(), AllocError>
    ensures { OnOk result (string_bytes text.new
        ≡ string_bytes text.old ++ two_operands (codes "jal") (codes "x0") (tail_target room)) }
{
    text.push_str("jal x0, factc.tail.1")?;
    text.push_str(entry_text(room))
}

/// Its line, at a position.
pub(crate) fn push_onward_line(
    text: &mut String,
    notation: Notation,
    name: &str,
    at: u32,
    room: u32,
) -> Result<(), AllocError>
    ensures { OnOk result (string_bytes text.new ≡ string_bytes text.old
        ++ code_line notation name.now at (two_operands (codes "jal") (codes "x0") (tail_target room))) }
{
    push_start(text, notation, name, at)?;
    push_onward(text, room)?;
    text.push_str("\n")
}

/// The line of a word that is no instruction's, at a position.
fn push_illegal_line(
    text: &mut String,
    notation: Notation,
    name: &str,
    at: u32,
    word: u32,
) -> Result<(), AllocError>
    ensures { OnOk result (string_bytes text.new ≡ string_bytes text.old
        ++ code_line notation name.now at (number_text word (codes "illegal"))) }
{
    push_start(text, notation, name, at)?;
    push_illegal(text, word)?;
    text.push_str("\n")
}

/// The line of a word at a position.
pub(crate) fn push_word(
    text: &mut String,
    notation: Notation,
    name: &str,
    at: u32,
    word: u32,
) -> Result<(), AllocError>
    ensures { OnOk result ((told : List ℕ)
        × IsWordLine notation name.now at word told
        × (string_bytes text.new ≡ string_bytes text.old ++ told)) }
{
    match decode(word) {
        Some(instruction) => push_code_line(text, notation, name, at, &instruction),
        None => push_illegal_line(text, notation, name, at, word),
    }
}
