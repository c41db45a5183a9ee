// What a program costs, as lines: the size of its code, its frame, how many steps a run takes at most, and where
// parameters and result lie.
//
// It promises that the numbers are those of the image's fields, which machine and loader use
// (`specs/statistics/FieldsText.antt`). It stands on `expression_code::image_fields`, and on `language` for types.

mod fields;
mod types;

pub use fields::push_fields;
