// What an image costs, as lines, from bytes that may be those of an image or of anything else.
//
// It promises that the lines are of the fields that the bytes spell, and that bytes that do not begin as an image does
// are told from faulty ones (`specs/image_statistics/ImageText.antt`). It stands on `image`, which reads
// them, and on `statistics`.

ghost use Rattle.std.specs.Prelude.{◌≡◌, None, Ok, IfOk, IfErr, IfSome};
ghost use Rattle.std.specs.String.{string_bytes};
ghost use Rattle.image_reports.specs.Below.{IsImage};
ghost use Rattle.image_reports.specs.image_statistics.ImageText.{BeginsOtherwise, SaysFields, IsFaultOf};
ghost use Rattle.image_reports.specs.statistics.FieldsText.{fields_text};

use crate::statistics::push_fields;
use image::{Image, ImageFault, read};
use std::alloc::{AllocError, Global};

/// The fields of an image as lines.
fn lines_of(alloc: Global, image: &Image) -> Result<String, AllocError>
    ensures { IfOk result (λ text. string_bytes text ≡ fields_text image.now) }
{
    let mut text = String::new(alloc);
    push_fields(&mut text, image.fields())?;
    Ok(text)
}

/// What the image costs that bytes spell, as lines; `None` where their first field, the magic, is not that of an image;
/// or else the first fault that `image::read` names.
pub fn image_statistics(alloc: Global, bytes: &[u8]) -> Result<Option<String>, ImageFault>
    ensures said { IfOk result (λ found. IfSome found (λ text. SaysFields bytes.now (string_bytes text))) }
    ensures other { result ≡ Ok None → BeginsOtherwise bytes.now }
    ensures refused { IfErr result (IsFaultOf bytes.now) }
{
    match read(alloc, bytes) {
        Ok(image) => Ok(Some(lines_of(alloc, &image)?)),
        Err(ImageFault::Memory) => Err(ImageFault::Memory),
        Err(ImageFault::Field { rule, offset }) => {
            if offset == 0 {
                Ok(None)
            } else {
                Err(ImageFault::Field { rule, offset })
            }
        }
    }
}
