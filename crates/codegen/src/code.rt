ghost use Rattle.std.specs.Prelude.{◌≡◌};

use expression_code::image_fields::ImageFields;
use std::marker::Model;

/// Generated code: the fields of a program's image. Nothing but `generate` makes it.
#[derive(Debug, Drop)]
pub struct Code {
    fields: ImageFields,
}

impl Model for Code {
    ghost use Rattle.expression_code.specs.image_fields.Fields.{Fields};

    ghost Value = { Fields };

    ghost view = { λ c. c.fields };
}

impl Code {
    /// The code of these fields.
    pub(crate) fn new(fields: ImageFields) -> Self
        ensures { result ≡ fields }
    {
        Code { fields }
    }

    /// The fields of its image.
    pub fn fields(&self) -> &ImageFields
        ensures { result.now ≡ self.now }
    {
        &self.fields
    }

    /// The same fields, handed over.
    pub fn into_fields(self) -> ImageFields
        ensures { result ≡ self }
    {
        self.fields
    }
}
