// Instructions for slots, numbers and elements, each appended to the code so far.

ghost use Rattle.std.specs.Prelude.{◌≡◌, ◌++◌, ◌∷◌, ◌<◌, [], OnOk};
ghost use Rattle.expression_code.specs.TermCode.{upper_part, lower_part, load_code, store_code, constant_code};
ghost use Rattle.expression_code.specs.TermCode.{scale_code, raise_code, address_code, load_by, element_code};
ghost use Rattle.expression_code.specs.TermCode.{mirror_by, near_code};

use crate::allocation::Mirror;
use language::Kind;
use rv_code::{
    Immediate12, ImmediateOperation, Instr, LoadOperation, Reg, RegisterOperation, ShiftAmount,
    ShiftOperation, StoreOperation, UpperImmediate, UpperOperation,
};
use std::alloc::AllocError;

/// What 12 bits hold as a number that is not negative.
pub const NEAR: u32 = 2048;

/// How many numbers 12 bits have.
pub const FIELDS: u32 = 4096;

/// -1 as 12 bits.
pub const MINUS_ONE: u32 = 4095;

/// The upper part of a number, whose lower part is sign-extended when it is added.
pub fn upper_part(n: u32) -> UpperImmediate
    ensures { result ≡ upper_part n }
{
    UpperImmediate::from_bits(((u64::from(n) + 2048) / 4096) as u32)
}

/// The lower part of a number, its last 12 bits.
pub fn lower_part(n: u32) -> Immediate12
    ensures { result ≡ lower_part n }
{
    Immediate12::from_bits(n)
}

/// Puts an instruction behind the code.
pub fn append(code: &mut Vec<Instr>, instruction: Instr) -> Result<(), AllocError>
    ensures { OnOk result (code.new.items ≡ code.old.items ++ instruction ∷ []) }
{
    code.push(instruction)?;
    Ok(())
}

/// A slot's word into a register.
pub fn load(code: &mut Vec<Instr>, register: Reg, offset: u32) -> Result<(), AllocError>
    ensures { OnOk result (code.new.items ≡ code.old.items ++ load_code register offset) }
{
    let low = lower_part(offset);
    if offset < NEAR {
        return append(code, Instr::Load(LoadOperation::Lw, register, Reg::X2, low));
    }
    append(
        code,
        Instr::Upper(UpperOperation::Lui, register, upper_part(offset)),
    )?;
    append(
        code,
        Instr::Register(RegisterOperation::Add, register, register, Reg::X2),
    )?;
    append(
        code,
        Instr::Load(LoadOperation::Lw, register, register, low),
    )
}

/// A register into a slot.
pub fn store(code: &mut Vec<Instr>, register: Reg, offset: u32) -> Result<(), AllocError>
    ensures { OnOk result (code.new.items ≡ code.old.items ++ store_code register offset) }
{
    let low = lower_part(offset);
    if offset < NEAR {
        return append(
            code,
            Instr::Store(StoreOperation::Sw, register, Reg::X2, low),
        );
    }
    let address = Reg::X28;
    append(
        code,
        Instr::Upper(UpperOperation::Lui, address, upper_part(offset)),
    )?;
    append(
        code,
        Instr::Register(RegisterOperation::Add, address, address, Reg::X2),
    )?;
    append(
        code,
        Instr::Store(StoreOperation::Sw, register, address, low),
    )
}

/// Where an access finds an element at once: a register, and the offset that it adds to that.
#[derive(Clone, Copy)]
pub struct NearPlace {
    pub base: Reg,
    pub offset: u32,
}

/// A number into a register.
pub fn constant(code: &mut Vec<Instr>, register: Reg, n: u32) -> Result<(), AllocError>
    ensures { OnOk result (code.new.items ≡ code.old.items ++ constant_code register n) }
{
    let low = lower_part(n);
    if n < NEAR {
        return append(
            code,
            Instr::Immediate(ImmediateOperation::Addi, register, Reg::X0, low),
        );
    }
    append(
        code,
        Instr::Upper(UpperOperation::Lui, register, upper_part(n)),
    )?;
    append(
        code,
        Instr::Immediate(ImmediateOperation::Addi, register, register, low),
    )
}

/// An index in a register, times the bytes of an element, on the frame's base, into a register.
fn scale(code: &mut Vec<Instr>, d: Reg, r: Reg, kind: Kind) -> Result<(), AllocError>
    ensures { OnOk result (code.new.items ≡ code.old.items ++ scale_code d r kind) }
{
    let times = match kind {
        Kind::Boolean | Kind::Uint8 => {
            return append(code, Instr::Register(RegisterOperation::Add, d, r, Reg::X2));
        }
        Kind::Uint16 => ShiftAmount::from_bits(1),
        Kind::Uint32 => ShiftAmount::from_bits(2),
    };
    append(code, Instr::Shift(ShiftOperation::Slli, d, r, times))?;
    append(code, Instr::Register(RegisterOperation::Add, d, d, Reg::X2))
}

/// The mirror of a variable follows it, where it has a home and a mirror.
pub fn mirror(
    code: &mut Vec<Instr>,
    home: Option<Reg>,
    mirror: Option<Mirror>,
) -> Result<(), AllocError>
    ensures { OnOk result (code.new.items ≡ code.old.items ++ mirror_by home mirror) }
{
    match (home, mirror) {
        (Some(home), Some(mirror)) => scale(code, mirror.register, home, mirror.kind),
        _ => Ok(()),
    }
}

/// The upper part of an offset added to a register, where it has one.
fn raise(code: &mut Vec<Instr>, register: Reg, offset: u32) -> Result<(), AllocError>
    ensures { OnOk result (code.new.items ≡ code.old.items ++ raise_code register offset) }
{
    if offset < NEAR {
        return Ok(());
    }
    let upper = Instr::Upper(UpperOperation::Lui, Reg::X28, upper_part(offset));
    append(code, upper)?;
    append(
        code,
        Instr::Register(RegisterOperation::Add, register, register, Reg::X28),
    )
}

/// The address of the element at the index in a register, into a register, but for the lower part of the array's
/// offset.
pub fn address(
    code: &mut Vec<Instr>,
    d: Reg,
    r: Reg,
    kind: Kind,
    offset: u32,
) -> Result<(), AllocError>
    ensures { OnOk result (code.new.items ≡ code.old.items ++ address_code d r kind offset) }
{
    scale(code, d, r, kind)?;
    raise(code, d, offset)
}

/// How an element is loaded: as wide as it is.
pub fn load_by(kind: Kind) -> LoadOperation
    ensures { result ≡ load_by kind }
{
    match kind {
        Kind::Boolean | Kind::Uint8 => LoadOperation::Lbu,
        Kind::Uint16 => LoadOperation::Lhu,
        Kind::Uint32 => LoadOperation::Lw,
    }
}

/// The element that an access reaches at once, into a register.
pub fn near(code: &mut Vec<Instr>, d: Reg, kind: Kind, place: NearPlace) -> Result<(), AllocError>
    requires { place.offset < 2048 }
    ensures { OnOk result (code.new.items ≡ code.old.items ++ near_code d kind place) }
{
    let low = lower_part(place.offset);
    append(code, Instr::Load(load_by(kind), d, place.base, low))
}

/// The element at the index in a register, of an array at an offset, into a register.
pub fn element(
    code: &mut Vec<Instr>,
    d: Reg,
    r: Reg,
    kind: Kind,
    offset: u32,
) -> Result<(), AllocError>
    ensures { OnOk result (code.new.items ≡ code.old.items ++ element_code d r kind offset) }
{
    address(code, d, r, kind, offset)?;
    let low = lower_part(offset);
    append(code, Instr::Load(load_by(kind), d, d, low))
}
