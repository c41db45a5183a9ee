// Instructions for arrays and their elements.

ghost use Rattle.std.specs.Prelude.{◌≡◌, ◌≤◌, ◌<◌, ◌+◌, ◌*◌, ◌++◌, ◌∷◌, [], map, length, IfOk, OnOk};
ghost use Rattle.codegen.specs.private.Emitted.{store_by, element_store_code, clear_code, fill_code, index_code};
ghost use Rattle.codegen.specs.Below.{Addi, Immediate, IsAmong, Register, Store, Sub, Sw, term_tree};
ghost use Rattle.codegen.specs.private.Emitted.{into_element_code, put_code, put_element_code, put_under_code};
ghost use Rattle.codegen.specs.private.Emitted.{into_near_code, near_store_code, put_under_near_code, read_register};
ghost use Rattle.codegen.specs.private.Jumps.{loop_code};
ghost use Rattle.expression_code.specs.Registers.{zero_register, value_register, second_register};
ghost use Rattle.expression_code.specs.Registers.{third_register};
ghost use Rattle.codegen.specs.private.Placed.{IsPlaced, ArePlacedTerms};

use crate::jumping::repeat;
use crate::masking;
use crate::reading::{read, stored};
use crate::stored_values::stored_value;
use expression_code::emit::{self, NearPlace, address, load_by, near};
use expression_code::{Layout, Location, fetch};
use inline::Term;
use language::Kind;
use rv_code::{
    Immediate12, ImmediateOperation, Instr, Reg, RegisterOperation, StoreOperation, UpperOperation,
};
use std::alloc::{AllocError, Global};

/// How an element is stored: as wide as it is.
fn store_by(kind: Kind) -> StoreOperation
    ensures { result ≡ store_by kind }
{
    match kind {
        Kind::Boolean | Kind::Uint8 => StoreOperation::Sb,
        Kind::Uint16 => StoreOperation::Sh,
        Kind::Uint32 => StoreOperation::Sw,
    }
}

/// A register into an element that is reached at once.
fn store_near(
    code: &mut Vec<Instr>,
    value: Reg,
    kind: Kind,
    place: NearPlace,
) -> Result<(), AllocError>
    requires { place.offset < 2048 }
    ensures { OnOk result (code.new.items ≡ code.old.items ++ near_store_code value kind place) }
{
    let low = emit::lower_part(place.offset);
    code.push(Instr::Store(store_by(kind), value, place.base, low))?;
    Ok(())
}

/// A register into an element of a fixed place.
fn store_element(
    code: &mut Vec<Instr>,
    value: Reg,
    kind: Kind,
    offset: u32,
) -> Result<(), AllocError>
    ensures { OnOk result (code.new.items ≡ code.old.items ++ element_store_code value kind offset) }
{
    if offset < emit::NEAR {
        let base = Reg::X2;
        return store_near(code, value, kind, NearPlace { base, offset });
    }
    let low = emit::lower_part(offset);
    let operation = store_by(kind);
    let upper = emit::upper_part(offset);
    code.push(Instr::Upper(UpperOperation::Lui, Reg::X28, upper))?;
    code.push(Instr::Register(RegisterOperation::Add, Reg::X28, Reg::X28, Reg::X2))?;
    code.push(Instr::Store(operation, value, Reg::X28, low))?;
    Ok(())
}

/// What one iteration of a loop tests that makes an array's words 0, and what it does.
fn clear_word(alloc: Global, code: &mut Vec<Instr>) -> Result<(), AllocError>
    ensures { OnOk result (code.new.items ≡ code.old.items
        ++ loop_code (Register Sub value_register third_register second_register ∷ [])
        (Store Sw zero_register second_register 0 ∷ Immediate Addi second_register second_register 4 ∷ [])) }
{
    let none = Immediate12::from_bits(0);
    let word = Immediate12::from_bits(4);
    let mut test = Vec::new(alloc);
    test.push(Instr::Register(RegisterOperation::Sub, Reg::X5, Reg::X7, Reg::X6))?;
    let mut body = Vec::new(alloc);
    body.push(Instr::Store(StoreOperation::Sw, Reg::X0, Reg::X6, none))?;
    body.push(Instr::Immediate(ImmediateOperation::Addi, Reg::X6, Reg::X6, word))?;
    repeat(code, test.as_slice(), body.as_slice())
}

/// All words of an array at an offset, so many, become 0.
pub fn clear(
    alloc: Global,
    code: &mut Vec<Instr>,
    offset: u32,
    words: u32,
) -> Result<(), AllocError>
    requires { words ≤ 65536 }
    ensures { OnOk result (code.new.items ≡ code.old.items ++ clear_code offset words) }
{
    emit::constant(code, Reg::X6, offset)?;
    code.push(Instr::Register(RegisterOperation::Add, Reg::X6, Reg::X6, Reg::X2))?;
    emit::constant(code, Reg::X7, 4 * words)?;
    code.push(Instr::Register(RegisterOperation::Add, Reg::X7, Reg::X7, Reg::X6))?;
    clear_word(alloc, code)
}

/// The value of an expression into an element of a fixed place.
fn into_element(
    code: &mut Vec<Instr>,
    layout: &Layout<'_>,
    kind: Kind,
    offset: u32,
    value: &Term,
) -> Result<(), AllocError>
    requires { IsPlaced layout.now 0 (term_tree value.now) }
    ensures { OnOk result (code.new.items ≡ code.old.items
        ++ into_element_code layout.now kind offset (term_tree value.now)) }
{
    let value = stored(code, layout, value)?;
    store_element(code, value, kind, offset)
}

/// The value of an expression into an element that is reached at once.
fn into_near(
    code: &mut Vec<Instr>,
    layout: &Layout<'_>,
    kind: Kind,
    place: NearPlace,
    value: &Term,
) -> Result<(), AllocError>
    requires value { IsPlaced layout.now 0 (term_tree value.now) }
    requires near { place.offset < 2048 }
    ensures { OnOk result (code.new.items ≡ code.old.items
        ++ into_near_code layout.now kind place (term_tree value.now)) }
{
    let value = stored(code, layout, value)?;
    store_near(code, value, kind, place)
}

/// Values into the elements of an array, the first at an offset.
pub fn fill(
    code: &mut Vec<Instr>,
    layout: &Layout<'_>,
    kind: Kind,
    offset: u32,
    values: &[Term],
) -> Result<(), AllocError>
    requires placed { ArePlacedTerms layout.now (map term_tree values.now) }
    requires room { offset + 4 * length values.now ≤ 262144 }
    ensures { OnOk result (code.new.items ≡ code.old.items
        ++ fill_code layout.now kind offset (map term_tree values.now)) }
{
    let mut place = offset;
    for value in values {
        let value = stored_value(layout, kind, value);
        into_element(code, layout, kind, place, value)?;
        place += u32::from(kind.element_bytes());
    }
    Ok(())
}

/// An index and a value, in the registers of the first two temporaries where they are not at home.
fn index(
    code: &mut Vec<Instr>,
    layout: &Layout<'_>,
    index: &Term,
    value: &Term,
) -> Result<(Reg, Reg), AllocError>
    requires index { IsPlaced layout.now 0 (term_tree index.now) }
    requires value { IsPlaced layout.now 1 (term_tree value.now) }
    ensures code { OnOk result (code.new.items ≡ code.old.items
        ++ index_code layout.now (term_tree index.now) (term_tree value.now)) }
    ensures index { IfOk result (λ registers.
        registers.0 ≡ read_register layout.now.allocation value_register (term_tree index.now)) }
    ensures value { IfOk result (λ registers.
        registers.1 ≡ read_register layout.now.allocation second_register (term_tree value.now)) }
{
    let index = read(code, layout, Reg::X5, 0, index)?;
    let value = read(code, layout, Reg::X6, 1, value)?;
    Ok((index, value))
}

/// A register's value into the element at the index in another, of an array at an offset.
fn put_at(
    code: &mut Vec<Instr>,
    index: Reg,
    value: Reg,
    kind: Kind,
    offset: u32,
) -> Result<(), AllocError>
    ensures { OnOk result (code.new.items ≡ code.old.items ++ put_code index value kind offset) }
{
    address(code, Reg::X5, index, kind, offset)?;
    let low = emit::lower_part(offset);
    code.push(Instr::Store(store_by(kind), value, Reg::X5, low))?;
    Ok(())
}

/// The same where a control value is true, and else what the element holds.
fn put_under_at(
    code: &mut Vec<Instr>,
    index: Reg,
    value: Reg,
    control: &Location,
    kind: Kind,
    offset: u32,
) -> Result<(), AllocError>
    ensures { OnOk result (code.new.items ≡ code.old.items ++ put_under_code index value control.now kind offset) }
{
    address(code, Reg::X5, index, kind, offset)?;
    let low = emit::lower_part(offset);
    code.push(Instr::Load(load_by(kind), Reg::X7, Reg::X5, low))?;
    fetch(code, control, Reg::X29)?;
    let mask = control.register(Reg::X29);
    masking::merge(code, Reg::X6, Reg::X6, value, Reg::X7, mask)?;
    code.push(Instr::Store(store_by(kind), Reg::X6, Reg::X5, low))?;
    Ok(())
}

/// A value into the element that is reached at once, where a control value is true, and else what it holds.
fn put_under_near(
    code: &mut Vec<Instr>,
    layout: &Layout<'_>,
    control: &Location,
    kind: Kind,
    place: NearPlace,
    value: &Term,
) -> Result<(), AllocError>
    requires value { IsPlaced layout.now 0 (term_tree value.now) }
    requires near { place.offset < 2048 }
    ensures { OnOk result (code.new.items ≡ code.old.items
        ++ put_under_near_code layout.now control.now kind place (term_tree value.now)) }
{
    let NearPlace { base, offset } = place;
    let value = read(code, layout, Reg::X5, 0, value)?;
    near(code, Reg::X6, kind, NearPlace { base, offset })?;
    fetch(code, control, Reg::X7)?;
    let mask = control.register(Reg::X7);
    masking::merge(code, Reg::X5, Reg::X5, value, Reg::X6, mask)?;
    store_near(code, Reg::X5, kind, NearPlace { base, offset })
}

/// A value into an element of an array. Within a control value it is written in any case. Where the store reaches the
/// element at once, no address is computed.
pub fn put(
    code: &mut Vec<Instr>,
    layout: &Layout<'_>,
    within: Option<u32>,
    array: u32,
    place: &Term,
    value: &Term,
) -> Result<(), AllocError>
    requires control { IsAmong layout.now.controls within }
    requires array { array < length layout.now.declared }
    requires index { IsPlaced layout.now 0 (term_tree place.now) }
    requires value { IsPlaced layout.now 1 (term_tree value.now) }
    ensures { OnOk result (code.new.items ≡ code.old.items
        ++ put_element_code layout.now within array (term_tree place.now) (term_tree value.now)) }
{
    let kind = layout.kind(array);
    let near = layout.near_place(array, place);
    let part = layout.computed_index(array, place);
    let offset = layout.access_offset(array, place);
    let Some(control) = within else {
        let value = stored_value(layout, kind, value);
        if let Some(near) = near {
            return into_near(code, layout, kind, near, value);
        }
        let (index, value) = index(code, layout, part, value)?;
        return put_at(code, index, value, kind, offset);
    };
    let control = layout.control_location(control);
    if let Some(near) = near {
        return put_under_near(code, layout, &control, kind, near, value);
    }
    let (index, value) = index(code, layout, part, value)?;
    put_under_at(code, index, value, &control, kind, offset)
}
