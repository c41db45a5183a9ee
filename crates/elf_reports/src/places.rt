// Where a step is made, and what lies at an address that is read, by the symbols of a program.

ghost use Rattle.std.specs.Prelude.{◌≡◌, ◌++◌, OnOk};
ghost use Rattle.std.specs.List.{list_all};
ghost use Rattle.elf_reports.specs.Places.{address_text, callers_text, is_graphic, object_text, place_line};
ghost use Rattle.elf_reports.specs.Places.{read_text, stack_text};

use elf::Program;
use elf_runs::STACK_END;
use std::alloc::{AllocError, Global};

/// Whether each character of a name shows itself.
fn is_graphic(name: &[u8]) -> bool
    ensures { result ≡ list_all is_graphic name.now }
{
    name.iter()
        .all(|character| (b'!'..=b'~').contains(character))
}

/// Puts an address at the end, by the function that it lies in where there is one.
fn push_address(
    alloc: Global,
    text: &mut Vec<u8>,
    program: &Program<'_>,
    address: u32,
) -> Result<(), AllocError>
    ensures { OnOk result (text.new.items ≡ text.old.items ++ address_text program.now address) }
{
    match program.function_at(address) {
        Some(position) if is_graphic(position.name) => {
            text.extend_from_slice(position.name)?;
            let offset = format!(in alloc; "+0x{:x}", position.offset)?;
            text.extend_from_slice(offset.as_bytes())
        }
        _ => {
            let number = format!(in alloc; "0x{address:x}")?;
            text.extend_from_slice(number.as_bytes())
        }
    }
}

/// Puts a line at the end that says where a step is made, and the calls that lead there.
pub fn push_place(
    alloc: Global,
    text: &mut Vec<u8>,
    program: &Program<'_>,
    pc: u32,
    calls: &[u32],
) -> Result<(), AllocError>
    ensures { OnOk result (text.new.items ≡ text.old.items ++ place_line program.now pc calls.now) }
{
    text.extend_from_slice(b"in ")?;
    push_address(alloc, text, program, pc)?;
    'calls: for call in calls {
        text.extend_from_slice(b", called from ")?;
        push_address(alloc, text, program, *call)?;
    }
    text.extend_from_slice(b"\n")
}

/// Puts at the end which object an address lies in, if it is in one, and how far behind its beginning.
fn push_object(
    alloc: Global,
    text: &mut Vec<u8>,
    program: &Program<'_>,
    address: u32,
) -> Result<(), AllocError>
    ensures { OnOk result (text.new.items ≡ text.old.items ++ object_text program.now address) }
{
    match program.object_at(address) {
        Some(position) if is_graphic(position.name) => {
            text.extend_from_slice(b", ")?;
            text.extend_from_slice(position.name)?;
            let offset = format!(in alloc; "+0x{:x}", position.offset)?;
            text.extend_from_slice(offset.as_bytes())
        }
        _ => Ok(()),
    }
}

/// Puts at the end how far before the end of a stack of this size an address is, if it is in the stack.
fn push_stack(alloc: Global, text: &mut Vec<u8>, stack: u32, address: u32) -> Result<(), AllocError>
    ensures { OnOk result (text.new.items ≡ text.old.items ++ stack_text stack address) }
{
    if STACK_END.saturating_sub(stack) <= address && address < STACK_END {
        let before = format!(in alloc; ", stack-0x{:x}", STACK_END - address)?;
        text.extend_from_slice(before.as_bytes())?;
    }
    Ok(())
}

/// Puts at the end what lies at an address that is read: an object of the program, or a stack of this size.
pub(crate) fn push_read(
    alloc: Global,
    text: &mut Vec<u8>,
    program: &Program<'_>,
    stack: u32,
    address: u32,
) -> Result<(), AllocError>
    ensures { OnOk result (text.new.items ≡ text.old.items ++ read_text program.now stack address) }
{
    push_object(alloc, text, program, address)?;
    push_stack(alloc, text, stack, address)
}
