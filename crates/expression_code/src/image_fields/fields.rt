ghost use Rattle.std.specs.Prelude.{◌≡◌};
ghost use Rattle.expression_code.specs.image_fields.Fields.{Fields, IsImage};

use crate::image_fields::{ResultSlot, Slot};
use std::marker::Model;
use word::Profile;

/// The fields of an image, each with a value that it may have.
#[derive(Debug, Drop)]
pub struct ImageFields {
    profile: Profile,
    slots: Vec<Slot>,
    returned: Option<ResultSlot>,
    frame_bytes: u32,
    max_steps: u64,
    words: Vec<u32>,
}

impl Model for ImageFields {
    ghost use Rattle.expression_code.specs.image_fields.Fields.{Fields, IsImage};

    ghost Value = { Fields };

    ghost view = { λ i. record {
      profile = i.profile;
      slots = i.slots.items;
      returned = i.returned;
      frame_bytes = i.frame_bytes;
      max_steps = i.max_steps;
      words = i.words.items;
    } };

    ghost invariant = { λ i. IsImage (record {
      profile = i.profile;
      slots = i.slots.items;
      returned = i.returned;
      frame_bytes = i.frame_bytes;
      max_steps = i.max_steps;
      words = i.words.items;
    }) };
}

impl ImageFields {
    /// These fields, which have to be allowed.
    pub fn new(
        profile: Profile,
        slots: Vec<Slot>,
        returned: Option<ResultSlot>,
        frame_bytes: u32,
        max_steps: u64,
        words: Vec<u32>,
    ) -> Self
        requires { IsImage (record {
          profile = profile;
          slots = slots.items;
          returned = returned;
          frame_bytes = frame_bytes;
          max_steps = max_steps;
          words = words.items;
        }) }
        ensures fields { result ≡ record {
          profile = profile;
          slots = slots.items;
          returned = returned;
          frame_bytes = frame_bytes;
          max_steps = max_steps;
          words = words.items;
        } }
        ensures allowed { IsImage result }
    {
        ImageFields {
            profile,
            slots,
            returned,
            frame_bytes,
            max_steps,
            words,
        }
    }

    /// For which observer it is.
    pub fn profile(&self) -> Profile
        ensures profile { result ≡ self.now.profile }
        ensures allowed { IsImage self.now }
    {
        self.profile
    }

    /// Where each parameter lies, in parameter order.
    pub fn slots(&self) -> &[Slot]
        ensures slots { result.now ≡ self.now.slots }
        ensures allowed { IsImage self.now }
    {
        self.slots.as_slice()
    }

    /// Where the result lies, where there is one.
    pub fn returned(&self) -> Option<ResultSlot>
        ensures returned { result ≡ self.now.returned }
        ensures allowed { IsImage self.now }
    {
        self.returned
    }

    /// How many bytes the frame has.
    pub fn frame_bytes(&self) -> u32
        ensures bytes { result ≡ self.now.frame_bytes }
        ensures allowed { IsImage self.now }
    {
        self.frame_bytes
    }

    /// How many instructions a run takes at most.
    pub fn max_steps(&self) -> u64
        ensures steps { result ≡ self.now.max_steps }
        ensures allowed { IsImage self.now }
    {
        self.max_steps
    }

    /// The code words.
    pub fn words(&self) -> &[u32]
        ensures words { result.now ≡ self.now.words }
        ensures allowed { IsImage self.now }
    {
        self.words.as_slice()
    }
}
