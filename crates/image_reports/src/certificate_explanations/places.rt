// Where an address lies among the arguments of an image.

ghost use Rattle.std.specs.Fmt.{decimal};
ghost use Rattle.std.specs.Prelude.{◌≡◌, ◌++◌, codes, OnOk};
ghost use Rattle.std.specs.String.{string_bytes};
ghost use Rattle.image_reports.specs.Below.{frame_base};
ghost use Rattle.image_reports.specs.certificate_explanations.Places.{argument_text, distance_in, element_text};
ghost use Rattle.image_reports.specs.certificate_explanations.Places.{place_text};

use crate::certificates::argument_bytes;
use expression_code::image_fields::Slot;
use hepurita::FRAME_BASE;
use language::{Form, Param};
use std::alloc::AllocError;
use std::fmt::Write;

/// How many bytes behind the first of an argument an address is. `None` where it is not in the argument of this slot.
fn distance_in(slot: &Slot, address: u32) -> Option<u32>
    ensures { result ≡ distance_in frame_base slot.now address }
{
    let in_frame = address.checked_sub(FRAME_BASE)?;
    let distance = in_frame.checked_sub(slot.offset)?;
    if distance < argument_bytes(slot.param) {
        Some(distance)
    } else {
        None
    }
}

/// Puts at the end which argument it is.
fn push_word(text: &mut String, index: usize) -> Result<(), AllocError>
    ensures { OnOk result (string_bytes text.new ≡ string_bytes text.old ++ (codes ", argument " ++ decimal index)) }
{
    write!(text, ", argument {index}")?;
    Ok(())
}

/// Puts at the end which argument it is, and which element of it.
fn push_element(text: &mut String, index: usize, element: u32) -> Result<(), AllocError>
    ensures { OnOk result (string_bytes text.new ≡ string_bytes text.old ++ element_text index element) }
{
    write!(text, ", argument {index}, element {element}")?;
    Ok(())
}

/// Puts at the end which argument it is and, of an array, which element.
fn push_argument(
    text: &mut String,
    index: usize,
    param: Param,
    distance: u32,
) -> Result<(), AllocError>
    ensures { OnOk result (string_bytes text.new ≡ string_bytes text.old ++ argument_text index param distance) }
{
    match param.form {
        Form::SingleWord => push_word(text, index),
        Form::FixedArray | Form::MutableArray => {
            push_element(
                text,
                index,
                distance / u32::from(param.kind.element_bytes()),
            )
        }
    }
}

/// Puts at the end which argument an address is in, if it is in one.
pub(crate) fn push_place(text: &mut String, slots: &[Slot], address: u32) -> Result<(), AllocError>
    ensures { OnOk result (string_bytes text.new
        ≡ string_bytes text.old ++ place_text frame_base 0 slots.now address) }
{
    for (index, slot) in slots.iter().enumerate() {
        if let Some(distance) = distance_in(slot, address) {
            return push_argument(text, index, slot.param, distance);
        }
    }
    Ok(())
}
