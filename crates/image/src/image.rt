ghost use Rattle.std.specs.Prelude.{◌≡◌};
ghost use Rattle.image.specs.Below.{Fields, IsImage};

use codegen::Code;
use expression_code::image_fields::{ImageFields, ResultSlot, Slot};
use language::Profile;
use std::marker::Model;

/// A program for the machine, as it was read or generated: its code, and where its words lie in the frame.
#[derive(Debug, Drop)]
pub struct Image {
    fields: ImageFields,
}

impl Model for Image {
    ghost use Rattle.image.specs.Below.{Fields};

    ghost Value = { Fields };

    ghost view = { λ i. i.fields };
}

impl Image {
    /// The image of these fields.
    pub(crate) fn new(fields: ImageFields) -> Self
        ensures { result ≡ fields }
    {
        Image { fields }
    }

    /// Its fields.
    pub fn fields(&self) -> &ImageFields
        ensures { result.now ≡ self.now }
    {
        &self.fields
    }

    /// For which observer it is.
    pub fn profile(&self) -> Profile
        ensures profile { result ≡ self.now.profile }
        ensures allowed { IsImage self.now }
    {
        self.fields.profile()
    }

    /// Where each parameter lies, in parameter order.
    pub fn slots(&self) -> &[Slot]
        ensures slots { result.now ≡ self.now.slots }
        ensures allowed { IsImage self.now }
    {
        self.fields.slots()
    }

    /// Where the result lies, where there is one.
    pub fn returned(&self) -> Option<ResultSlot>
        ensures returned { result ≡ self.now.returned }
        ensures allowed { IsImage self.now }
    {
        self.fields.returned()
    }

    /// How many bytes the frame has.
    pub fn frame_bytes(&self) -> u32
        ensures bytes { result ≡ self.now.frame_bytes }
        ensures allowed { IsImage self.now }
    {
        self.fields.frame_bytes()
    }

    /// How many instructions a run takes at most.
    pub fn max_steps(&self) -> u64
        ensures steps { result ≡ self.now.max_steps }
        ensures allowed { IsImage self.now }
    {
        self.fields.max_steps()
    }

    /// The code words.
    pub fn words(&self) -> &[u32]
        ensures words { result.now ≡ self.now.words }
        ensures allowed { IsImage self.now }
    {
        self.fields.words()
    }
}

/// The image of generated code, the one that its bytes would be read as.
impl From<Code> for Image {
    ghost from_gives = { λ code image. image ≡ code };

    fn from(code: Code) -> Self {
        Image::new(code.into_fields())
    }
}
