// Code as an image, for the export of a text.

ghost use Rattle.std.specs.Prelude.{◌≡◌, ◌≤◌, ◌*◌, map, length, Some, IfOk, IfErr};
ghost use Rattle.std.specs.List.{AllByRecursion};
ghost use Rattle.input_files.specs.Below.{declaration_of, declared_words, HasLength, most_declared_bytes, Param};
ghost use Rattle.input_files.specs.wrapping.Wrapped.{IsAskedFor, IsWrapped, IsFaultOf, IsUnlessMemory, broken_rule};
ghost use Rattle.input_files.specs.wrapping.Wrapped.{end_of};

use crate::wrapping::asked::Asked;
use crate::wrapping::checking::broken_rule;
use crate::wrapping::fault::WrapFault;
use crate::wrapping::layout::{layout_end, result_behind, slots_end};
use crate::wrapping::words::words_of;
use expression_code::image_fields::ImageFields;
use expression_code::slots;
use hepurita::judge_as;
use image::write_fields;
use language::{Param, Refusal, WordType};
use std::alloc::Global;

/// The fields of the image that is asked for, of an export with these parameters and this result; or the first rule
/// that is broken.
fn fields_for(
    alloc: Global,
    params: &[Param],
    returned: Option<WordType>,
    code: &[u8],
    asked: Asked,
) -> Result<ImageFields, WrapFault<Refusal>>
    requires lengths { AllByRecursion (λ (parameter : Param). HasLength parameter.form parameter.length) params.now }
    requires given { 4 * declared_words (map declaration_of params.now) ≤ most_declared_bytes }
    ensures fields { IfOk result (IsAskedFor params.now returned code.now asked) }
    ensures fault { IfErr result (λ fault. IsUnlessMemory fault (λ rule.
        broken_rule (end_of params.now returned) (length code.now) asked ≡ Some rule)) }
{
    let slots = slots(alloc, params)?;
    let low = slots_end(slots.as_slice());
    let returned = result_behind(low as u32, returned);
    if let Some(rule) = broken_rule(layout_end(low, returned), code, asked) {
        return Err(WrapFault::Code(rule));
    }
    let words = words_of(alloc, code)?;
    let frame_bytes = asked.frame_bytes as u32;
    Ok(ImageFields::new(
        asked.profile,
        slots,
        returned,
        frame_bytes,
        asked.max_steps,
        words,
    ))
}

/// The bytes of an image of code that was made elsewhere, for the export of a text that says what the code is to mean:
/// its parameters lie in the frame from 0 on, one after another, and its result behind them, as `build` lays them out.
/// Code is words, each with its lowest byte first.
///
/// A text that is not accepted for the observer asked for is refused as by `judge_as`, before the code is looked at.
/// Else the first rule is named that code (C1), frame (C2) or steps (C3) break: those of a frame that cuts a slot, and
/// of fields that an image may not have. The code itself is not judged: any word may stand in it.
pub fn wrap(
    alloc: Global,
    text: &str,
    code: &[u8],
    asked: Asked,
) -> Result<Vec<u8>, WrapFault<Refusal>>
    ensures wrapped { IfOk result (λ bytes. IsWrapped text.now code.now asked bytes.items) }
    ensures fault { IfErr result (IsFaultOf text.now code.now asked) }
{
    let accepted = judge_as(alloc, text, asked.profile)?;
    let params = accepted.params.as_slice();
    let fields = fields_for(alloc, params, accepted.returned, code, asked)?;
    Ok(write_fields(alloc, &fields)?)
}
