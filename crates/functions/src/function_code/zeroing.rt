// The stack, zeroed in blocks of 16 bytes, so that x2 stays a multiple of 16: by a loop over the blocks.

ghost use Rattle.std.specs.Prelude.{◌≡◌, ◌++◌, OnOk};
ghost use Rattle.functions.specs.Below.{down_code, stack_register, until_equal, wipe_code, zeros_code};

use crate::function_code::pieces::{added, stores, until_equal};
use rv_code::{Instr, Reg};
use std::alloc::{AllocError, Global};

/// The bytes of a block.
const BLOCK: u32 = 16;

/// How far immediates go before they begin again.
const IMMEDIATES: u32 = 4096;

/// 16 bytes of zeros from x2 on.
fn zeros(code: &mut Vec<Instr>) -> Result<(), AllocError>
    ensures { OnOk result (code.new.items ≡ code.old.items ++ zeros_code) }
{
    stores(code, Reg::X2, 0, &[Reg::X0; 4])
}

/// The frame, zeroed block by block downward to x5.
pub fn cleared_frame(alloc: Global, code: &mut Vec<Instr>) -> Result<(), AllocError>
    ensures { OnOk result (code.new.items ≡ code.old.items ++ until_equal stack_register 5 down_code) }
{
    let mut block = Vec::new(alloc);
    block.push(added(Reg::X2, IMMEDIATES - BLOCK))?;
    zeros(&mut block)?;
    until_equal(code, Reg::X2, Reg::X5, block.as_slice())
}

/// All the room, zeroed block by block upward to x5.
pub fn wiped_room(alloc: Global, code: &mut Vec<Instr>, room: u32) -> Result<(), AllocError>
    ensures { OnOk result (code.new.items ≡ code.old.items ++ wipe_code room) }
{
    if room == 0 {
        return Ok(());
    }
    let mut block = Vec::new(alloc);
    zeros(&mut block)?;
    block.push(added(Reg::X2, BLOCK))?;
    until_equal(code, Reg::X2, Reg::X5, block.as_slice())
}
