ghost use Rattle.std.specs.Prelude.{◌≡◌, ◌≤◌, ◌++◌, length, OnOk, IfOk, IfErr};
ghost use Rattle.std.specs.List.{flat_map};
ghost use Rattle.language.specs.WantOfMemory.{IsWantOfMemory};
ghost use Rattle.image.specs.Limits.{longest_image};
ghost use Rattle.image.specs.Reading.{AreBytes, Spells};
ghost use Rattle.image.specs.private.Spelling.{spelled, spelled_result, spelled_slot, spelling};

use crate::field::{Field, number_of};
use crate::limits::{FIXED_BYTES, PARAMETER_BYTES, WORD_BYTES};
use crate::preamble::{MAGIC, VERSION};
use byteorder::{ByteOrder, LittleEndian};
use codegen::Code;
use expression_code::image_fields::{ImageFields, ResultSlot, Slot};
use language::Refusal;
use std::alloc::{AllocError, Global};

/// A field with a number.
fn put(out: &mut Vec<u8>, field: Field, number: u64) -> Result<(), AllocError>
    ensures { OnOk result (out.new.items ≡ out.old.items ++ spelled field number) }
{
    let mut bytes = [0; 8];
    LittleEndian::write_u64(&mut bytes, number);
    out.extend_from_slice(&bytes[..field.size()])
}

fn put_slot(out: &mut Vec<u8>, slot: &Slot) -> Result<(), AllocError>
    ensures { OnOk result (out.new.items ≡ out.old.items ++ spelled_slot slot.now) }
{
    let param = slot.param;
    put(out, Field::Kind, param.kind as u64)?;
    put(out, Field::Label, param.label as u64)?;
    put(out, Field::Form, param.form as u64)?;
    put(out, Field::Length(param.form), u64::from(param.length))?;
    put(out, Field::Offset(0), u64::from(slot.offset))
}

fn put_slots(out: &mut Vec<u8>, slots: &[Slot]) -> Result<(), AllocError>
    ensures { OnOk result (out.new.items ≡ out.old.items ++ flat_map spelled_slot slots.now) }
{
    for slot in slots {
        put_slot(out, slot)?;
    }
    Ok(())
}

fn put_returned(out: &mut Vec<u8>, returned: Option<ResultSlot>) -> Result<(), AllocError>
    ensures { OnOk result (out.new.items ≡ out.old.items ++ spelled_result returned) }
{
    let Some(slot) = returned else {
        return put(out, Field::HasResult, 0);
    };
    put(out, Field::HasResult, 1)?;
    put(out, Field::Kind, slot.kind as u64)?;
    put(out, Field::Label, slot.label as u64)?;
    put(out, Field::Offset(0), u64::from(slot.offset))
}

fn put_words(out: &mut Vec<u8>, words: &[u32]) -> Result<(), AllocError>
    ensures { OnOk result (out.new.items ≡ out.old.items ++ flat_map (spelled Field.Word) words.now) }
{
    for word in words {
        put(out, Field::Word, u64::from(*word))?;
    }
    Ok(())
}

/// From the first field to the last.
fn put_fields(out: &mut Vec<u8>, fields: &ImageFields) -> Result<(), AllocError>
    ensures { OnOk result (out.new.items ≡ out.old.items ++ spelling fields.now) }
{
    let slots = fields.slots();
    let words = fields.words();
    put(out, Field::Magic, MAGIC as u64)?;
    put(out, Field::Version, VERSION as u64)?;
    put(out, Field::Profile, number_of(fields.profile()))?;
    put(out, Field::ParameterCount, slots.len() as u64)?;
    put_slots(out, slots)?;
    put_returned(out, fields.returned())?;
    put(out, Field::FrameBytes(0), fields.frame_bytes() as u64)?;
    put(out, Field::MaxSteps, fields.max_steps())?;
    put(out, Field::WordCount, words.len() as u64)?;
    put_words(out, words)?;
    Ok(())
}

fn spelled_bytes(alloc: Global, fields: &ImageFields) -> Result<Vec<u8>, AllocError>
    ensures spelled { IfOk result (λ bytes. Spells bytes.items fields.now) }
    ensures bytes { IfOk result (λ bytes. AreBytes bytes.items) }
    ensures short { IfOk result (λ bytes. length bytes.items ≤ longest_image) }
{
    let room = FIXED_BYTES
        + PARAMETER_BYTES * fields.slots().len()
        + WORD_BYTES * fields.words().len();
    let mut out = Vec::with_capacity(alloc, room)?;
    put_fields(&mut out, fields)?;
    Ok(out)
}

/// The one spelling of fields, whoever made them.
pub fn write_fields(alloc: Global, fields: &ImageFields) -> Result<Vec<u8>, Refusal>
    ensures spelled { IfOk result (λ bytes. Spells bytes.items fields.now) }
    ensures bytes { IfOk result (λ bytes. AreBytes bytes.items) }
    ensures short { IfOk result (λ bytes. length bytes.items ≤ longest_image) }
    ensures memory { IfErr result (λ refusal. IsWantOfMemory refusal.rule refusal.place) }
{
    Ok(spelled_bytes(alloc, fields)?)
}

/// The one spelling of generated code.
pub fn write(alloc: Global, code: &Code) -> Result<Vec<u8>, Refusal>
    ensures spelled { IfOk result (λ bytes. Spells bytes.items code.now) }
    ensures bytes { IfOk result (λ bytes. AreBytes bytes.items) }
    ensures short { IfOk result (λ bytes. length bytes.items ≤ longest_image) }
    ensures memory { IfErr result (λ refusal. IsWantOfMemory refusal.rule refusal.place) }
{
    write_fields(alloc, code.fields())
}
