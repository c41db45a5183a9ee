// Elements from where x5 is to where x6 is: few by straight code, many by a loop over some at a time.

ghost use Rattle.std.specs.Prelude.{◌≡◌, ◌≤◌, ◌<◌, ◌+◌, ◌*◌, ◌/◌, ◌%◌, ◌++◌, OnOk};
ghost use Rattle.functions.specs.Below.{bound_code, copied_code, element_bytes, element_meant_code, elements_code};
ghost use Rattle.functions.specs.Below.{far_code, few_elements, load_by, loop_code, next_code, own_round};
ghost use Rattle.functions.specs.Below.{rounds_code, store_by, times};
ghost use Rattle.functions.specs.function_code.private.Ways.{element_code};

use crate::function_code::pieces::{added, store_by, until_equal};
use expression_code::emit::{constant, load_by};
use language::Kind;
use linked_calls::{Pace, Round};
use rv_code::{Immediate12, ImmediateOperation, Instr, Reg, RegisterOperation};
use std::alloc::{AllocError, Global};

/// From where on a number is no immediate.
const FAR: u32 = 2048;

/// Which way an array is copied.
#[derive(Clone, Copy, Debug, PartialEq, Eq)]
pub enum Way {
    /// From the caller's array into the slot, as what the elements mean.
    In,
    /// From the slot into the caller's array, as they are.
    Out,
}

/// From how many elements on they are copied by a loop.
fn few_elements(pace: Pace, kind: Kind) -> u32
    ensures few { result ≡ few_elements pace kind }
    ensures most { result ≤ 16 }
{
    match (pace, kind) {
        (Pace::Fast, Kind::Boolean | Kind::Uint32) => 8,
        (Pace::Fast, Kind::Uint8 | Kind::Uint16) => 4,
        (Pace::Small, Kind::Boolean | Kind::Uint8 | Kind::Uint16 | Kind::Uint32) => 4,
    }
}

/// What one round of the loop copies.
fn own_round(pace: Pace, kind: Kind) -> Round
    ensures { result ≡ own_round pace kind }
{
    match (pace, kind) {
        (Pace::Fast, Kind::Boolean | Kind::Uint32) => Round::Two,
        (Pace::Fast, Kind::Uint8 | Kind::Uint16) => Round::One,
        (Pace::Small, Kind::Boolean | Kind::Uint8 | Kind::Uint16 | Kind::Uint32) => Round::One,
    }
}

/// How many elements, or words, that is.
pub fn times(round: Round) -> u32
    ensures times { result ≡ times round }
    ensures some { 0 < result }
    ensures few { result ≤ 4 }
{
    match round {
        Round::One => 1,
        Round::Two => 2,
        Round::Four => 4,
    }
}

/// How many of so many elements whole rounds copy.
fn in_rounds(round: Round, count: u32) -> u32
    ensures rounds { result ≡ times round * (count / times round) }
    ensures within { result ≤ count }
{
    match round {
        Round::One => count,
        Round::Two => 2 * (count / 2),
        Round::Four => 4 * (count / 4),
    }
}

/// How many are left behind the rounds.
fn left(round: Round, count: u32) -> u32
    ensures left { result ≡ count % times round }
    ensures few { result < 4 }
{
    match round {
        Round::One => 0,
        Round::Two => count % 2,
        Round::Four => count % 4,
    }
}

/// x5 and x6 go so many bytes on.
fn next(code: &mut Vec<Instr>, bytes: u32) -> Result<(), AllocError>
    requires { bytes < 4096 }
    ensures { OnOk result (code.new.items ≡ code.old.items ++ next_code bytes) }
{
    code.push(added(Reg::X5, bytes))?;
    code.push(added(Reg::X6, bytes))?;
    Ok(())
}

/// A bool element in x28 becomes 0 or 1; numbers have their width.
fn element_meant(code: &mut Vec<Instr>, kind: Kind) -> Result<(), AllocError>
    ensures { OnOk result (code.new.items ≡ code.old.items ++ element_meant_code kind) }
{
    match kind {
        Kind::Boolean => {
            let r = Reg::X28;
            code.push(Instr::Register(RegisterOperation::Sltu, r, Reg::X0, r))?;
            Ok(())
        }
        Kind::Uint8 | Kind::Uint16 | Kind::Uint32 => Ok(()),
    }
}

/// The element at an offset: a bool of the caller's as 0 or 1.
fn element(code: &mut Vec<Instr>, way: Way, kind: Kind, offset: u32) -> Result<(), AllocError>
    requires { offset < 4096 }
    ensures { OnOk result (code.new.items ≡ code.old.items ++ element_code way kind offset) }
{
    let place = Immediate12::from_bits(offset);
    match way {
        Way::In => {
            code.push(Instr::Load(load_by(kind), Reg::X28, Reg::X5, place))?;
            element_meant(code, kind)?;
            code.push(Instr::Store(store_by(kind), Reg::X28, Reg::X6, place))?;
        }
        Way::Out => {
            code.push(Instr::Load(load_by(kind), Reg::X28, Reg::X5, place))?;
            code.push(Instr::Store(store_by(kind), Reg::X28, Reg::X6, place))?;
        }
    }
    Ok(())
}

/// So many elements, the first where x5 and x6 are.
pub fn elements(code: &mut Vec<Instr>, way: Way, kind: Kind, count: u32) -> Result<(), AllocError>
    requires { count ≤ 32 }
    ensures { OnOk result (code.new.items
        ≡ code.old.items ++ elements_code (element_code way kind) (element_bytes kind) 0 count) }
{
    let mut offset = 0;
    let mut left = count;
    'elements: while left != 0 {
        element(code, way, kind, offset)?;
        offset += u32::from(kind.element_bytes());
        left -= 1;
    }
    Ok(())
}

/// So many bytes behind x5 into x7, by a number of its own.
fn far(code: &mut Vec<Instr>, bytes: u32) -> Result<(), AllocError>
    ensures { OnOk result (code.new.items ≡ code.old.items ++ far_code bytes) }
{
    constant(code, Reg::X7, bytes)?;
    code.push(Instr::Register(RegisterOperation::Add, Reg::X7, Reg::X7, Reg::X5))?;
    Ok(())
}

/// Where a loop ends, which is so many bytes behind x5, into x7.
pub fn bound(code: &mut Vec<Instr>, bytes: u32) -> Result<(), AllocError>
    ensures { OnOk result (code.new.items ≡ code.old.items ++ bound_code bytes) }
{
    if bytes < FAR {
        let near = Immediate12::from_bits(bytes);
        code.push(Instr::Immediate(ImmediateOperation::Addi, Reg::X7, Reg::X5, near))?;
        return Ok(());
    }
    far(code, bytes)
}

/// Elements in rounds, as long as x5 is not where x7 is.
pub fn looped(
    alloc: Global,
    code: &mut Vec<Instr>,
    way: Way,
    kind: Kind,
    round: Round,
) -> Result<(), AllocError>
    ensures { OnOk result (code.new.items ≡ code.old.items ++ loop_code (element_code way kind) kind (times round)) }
{
    let count = times(round);
    let mut body = Vec::new(alloc);
    elements(&mut body, way, kind, count)?;
    next(&mut body, count * u32::from(kind.element_bytes()))?;
    until_equal(code, Reg::X5, Reg::X7, body.as_slice())
}

/// Some elements a round, up to x7, and those that are left.
fn rounds(
    alloc: Global,
    code: &mut Vec<Instr>,
    pace: Pace,
    way: Way,
    kind: Kind,
    count: u32,
) -> Result<(), AllocError>
    requires { count < 65536 }
    ensures { OnOk result (code.new.items ≡ code.old.items ++ rounds_code pace (element_code way kind) kind count) }
{
    let round = own_round(pace, kind);
    bound(
        code,
        u32::from(kind.element_bytes()) * in_rounds(round, count),
    )?;
    looped(alloc, code, way, kind, round)?;
    elements(code, way, kind, left(round, count))
}

/// So many elements.
pub fn copied(
    alloc: Global,
    code: &mut Vec<Instr>,
    pace: Pace,
    way: Way,
    kind: Kind,
    count: u32,
) -> Result<(), AllocError>
    requires { count < 65536 }
    ensures { OnOk result (code.new.items ≡ code.old.items ++ copied_code pace (element_code way kind) kind count) }
{
    if count < few_elements(pace, kind) {
        elements(code, way, kind, count)
    } else {
        rounds(alloc, code, pace, way, kind, count)
    }
}
