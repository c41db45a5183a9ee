// Instructions that several sections have: registers to memory and back, and loops.

ghost use Rattle.std.specs.Prelude.{◌≡◌, ◌≤◌, ◌<◌, ◌+◌, ◌*◌, ◌%◌, ◌^◌, ◌++◌, length, map, OnOk};
ghost use Rattle.functions.specs.Below.{added, address_code, clear_registers_code, loads_code};
ghost use Rattle.functions.specs.Below.{store_by, stores_code, until_equal};

use expression_code::emit::constant;
use language::Kind;
use rv_code::{
    BranchOffset, BranchTest, Immediate12, ImmediateOperation, Instr, LoadOperation, Reg,
    RegisterOperation, StoreOperation,
};
use std::alloc::AllocError;

/// The values that a branch's offset may have, in halves.
const BRANCH_HALVES: u32 = 4096;

/// From where on an offset is no immediate.
const FAR: u32 = 2048;

/// How many values a word has.
const WORDS: u64 = 4_294_967_296;

/// A count as far as addresses go.
pub fn wrapped(count: usize) -> u32
    ensures { result ≡ count % 2 ^ 32 }
{
    (count as u64 % WORDS) as u32
}

/// A number added to a register; 4096 - n takes n away.
pub fn added(register: Reg, n: u32) -> Instr
    requires { n < 4096 }
    ensures { result ≡ added register n }
{
    Instr::Immediate(
        ImmediateOperation::Addi,
        register,
        register,
        Immediate12::from_bits(n),
    )
}

/// The address of an offset from x2 on.
pub fn address(code: &mut Vec<Instr>, register: Reg, offset: u32) -> Result<(), AllocError>
    ensures { OnOk result (code.new.items ≡ code.old.items ++ address_code register offset) }
{
    if offset < FAR {
        let near = Immediate12::from_bits(offset);
        code.push(Instr::Immediate(ImmediateOperation::Addi, register, Reg::X2, near))?;
        return Ok(());
    }
    constant(code, register, offset)?;
    code.push(Instr::Register(RegisterOperation::Add, register, register, Reg::X2))?;
    Ok(())
}

/// Registers into one word after another, from an offset of a base on.
pub fn stores(
    code: &mut Vec<Instr>,
    base: Reg,
    offset: u32,
    registers: &[Reg],
) -> Result<(), AllocError>
    requires { offset + 4 * length registers.now ≤ 4096 }
    ensures { OnOk result (code.new.items ≡ code.old.items ++ stores_code base offset registers.now) }
{
    let mut place = offset;
    for register in registers {
        let low = Immediate12::from_bits(place);
        code.push(Instr::Store(StoreOperation::Sw, *register, base, low))?;
        place += 4;
    }
    Ok(())
}

/// And back.
pub fn loads(
    code: &mut Vec<Instr>,
    base: Reg,
    offset: u32,
    registers: &[Reg],
) -> Result<(), AllocError>
    requires { offset + 4 * length registers.now ≤ 4096 }
    ensures { OnOk result (code.new.items ≡ code.old.items ++ loads_code base offset registers.now) }
{
    let mut place = offset;
    for register in registers {
        let low = Immediate12::from_bits(place);
        code.push(Instr::Load(LoadOperation::Lw, *register, base, low))?;
        place += 4;
    }
    Ok(())
}

/// Registers become 0.
pub fn clear_registers(code: &mut Vec<Instr>, registers: &[Reg]) -> Result<(), AllocError>
    ensures { OnOk result (code.new.items ≡ code.old.items ++ clear_registers_code registers.now) }
{
    for register in registers {
        code.push(Instr::Immediate(
            ImmediateOperation::Addi,
            *register,
            Reg::X0,
            Immediate12::from_bits(0),
        ))?;
    }
    Ok(())
}

/// Instructions, and again from the first on as long as two registers differ.
pub fn until_equal(
    code: &mut Vec<Instr>,
    one: Reg,
    other: Reg,
    body: &[Instr],
) -> Result<(), AllocError>
    requires some { 0 < length body.now }
    requires near { length body.now ≤ 1024 }
    ensures { OnOk result (code.new.items ≡ code.old.items ++ until_equal one other body.now) }
{
    code.extend_from_slice(body)?;
    let back = BranchOffset::from_halves(BRANCH_HALVES - 2 * body.len() as u32);
    code.push(Instr::Branch(BranchTest::Bne, one, other, back))?;
    Ok(())
}

/// How an element is stored: as wide as it is.
pub fn store_by(kind: Kind) -> StoreOperation
    ensures { result ≡ store_by kind }
{
    match kind {
        Kind::Boolean | Kind::Uint8 => StoreOperation::Sb,
        Kind::Uint16 => StoreOperation::Sh,
        Kind::Uint32 => StoreOperation::Sw,
    }
}
