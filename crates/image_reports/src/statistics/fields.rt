// The fields of an image as lines.

ghost use Rattle.std.specs.Prelude.{◌≡◌, ◌++◌, OnOk};
ghost use Rattle.std.specs.String.{string_bytes};
ghost use Rattle.image_reports.specs.statistics.FieldsText.{fields_text, profile_number, returned_line, sizes_text};
ghost use Rattle.image_reports.specs.statistics.FieldsText.{slot_line, slot_lines};

use crate::statistics::types::{ParamType, kind_text, label_text};
use expression_code::image_fields::{ImageFields, ResultSlot, Slot};
use language::Profile;
use std::alloc::AllocError;
use std::fmt::Write;

/// Puts the fields of an image at the end of a text: the observer, how many words the code has, how many bytes the
/// frame, how many steps a run takes at most, and a line for each parameter and for the result, with the type and how
/// far from the frame's first byte it lies.
pub fn push_fields(text: &mut String, image: &ImageFields) -> Result<(), AllocError>
    ensures { OnOk result (string_bytes text.new ≡ string_bytes text.old ++ fields_text image.now) }
{
    let profile = profile_number(image.profile());
    push_sizes(
        text,
        profile,
        image.words().len(),
        image.frame_bytes(),
        image.max_steps(),
    )?;
    push_slots(text, image.slots())?;
    push_returned(text, image.returned())
}

/// Puts the lines of the observer and of the sizes at the end.
fn push_sizes(
    text: &mut String,
    profile: u8,
    words: usize,
    frame: u32,
    steps: u64,
) -> Result<(), AllocError>
    ensures { OnOk result (string_bytes text.new ≡ string_bytes text.old ++ sizes_text profile words frame steps) }
{
    writeln!(
        text,
        "profile {profile}\nwords {words}\nframe_bytes {frame}\nmax_steps {steps}"
    )?;
    Ok(())
}

/// The number of an observer.
fn profile_number(profile: Profile) -> u8
    ensures { result ≡ profile_number profile }
{
    match profile {
        Profile::P1 => 1,
        Profile::P2 => 2,
    }
}

/// Puts a line for each parameter at the end, numbered from 0.
fn push_slots(text: &mut String, slots: &[Slot]) -> Result<(), AllocError>
    ensures { OnOk result (string_bytes text.new ≡ string_bytes text.old ++ slot_lines 0 slots.now) }
{
    for (number, slot) in slots.iter().enumerate() {
        push_slot(text, number, slot)?;
    }
    Ok(())
}

/// Puts the line of a parameter, which has this number, at the end.
fn push_slot(text: &mut String, number: usize, slot: &Slot) -> Result<(), AllocError>
    ensures { OnOk result (string_bytes text.new ≡ string_bytes text.old ++ slot_line number slot.now) }
{
    let at = slot.offset;
    let param = ParamType(slot.param);
    writeln!(text, "parameter {number} at {at}: {param}")?;
    Ok(())
}

/// Puts the line of the result at the end, where there is one.
fn push_returned(text: &mut String, returned: Option<ResultSlot>) -> Result<(), AllocError>
    ensures { OnOk result (string_bytes text.new ≡ string_bytes text.old ++ returned_line returned) }
{
    if let Some(slot) = returned {
        let at = slot.offset;
        let label = label_text(slot.label);
        let kind = kind_text(slot.kind);
        writeln!(text, "result at {at}: {label}{kind}")?;
    }
    Ok(())
}
