// The table of an image's fields: what each breaks when it is wrong, how many bytes it has, and which numbers it may
// hold. What it has to be is its row in `specs/image/Reading.antt`.

ghost use Rattle.std.specs.Prelude.{◌≡◌};
ghost use Rattle.image.specs.Reading.{numbered_profile, row};
ghost use Rattle.image.specs.private.Spelling.{profile_number};

use crate::ImageRule;
use crate::preamble::{MAGIC, VERSION};
use expression_code::image_fields::{MOST_FRAME_BYTES, MOST_PARAMETERS, MOST_STEPS, MOST_WORDS};
use language::{Form, Kind, Label, MOST_ELEMENTS, Profile};

/// A field of an image.
#[derive(Clone, Copy)]
pub enum Field {
    Magic,
    Version,
    Profile,
    ParameterCount,
    Kind,
    Label,
    Form,
    /// How many words a parameter of this form holds.
    Length(Form),
    /// Where a slot begins, not below this offset.
    Offset(u64),
    /// Whether there is a result.
    HasResult,
    /// How many bytes the frame has, of which so many are taken.
    FrameBytes(u64),
    MaxSteps,
    WordCount,
    Word,
}

impl Field {
    /// What it breaks where it holds another number than those that are allowed.
    pub fn rule(self) -> ImageRule
        ensures { result ≡ (row self).rule }
    {
        match self {
            Field::Magic => ImageRule::Magic,
            Field::Version => ImageRule::Version,
            Field::Profile => ImageRule::Profile,
            _ => ImageRule::FieldOutOfRange,
        }
    }

    /// How many bytes it has.
    pub fn size(self) -> usize
        ensures { result ≡ (row self).size }
    {
        match self {
            Field::Kind | Field::Label | Field::Form | Field::HasResult => 1,
            Field::Version | Field::Profile | Field::ParameterCount | Field::Length(_) => 2,
            Field::Magic | Field::Offset(_) | Field::FrameBytes(_) => 4,
            Field::WordCount | Field::Word => 4,
            Field::MaxSteps => 8,
        }
    }

    /// Whether it may hold this number.
    pub fn allows(self, n: u64) -> bool
        ensures { result ≡ (row self).allowed n }
    {
        match self {
            Field::Magic => n == u64::from(MAGIC),
            Field::Version => n == u64::from(VERSION),
            Field::Profile => 1 <= n && n <= 2,
            Field::ParameterCount => n <= u64::from(MOST_PARAMETERS),
            Field::Kind => n < 4,
            Field::Label | Field::HasResult => n < 2,
            Field::Form => n < 3,
            Field::Length(Form::SingleWord) => n == 1,
            Field::Length(_) => 1 <= n && n <= u64::from(MOST_ELEMENTS),
            Field::Offset(low) => n % 4 == 0 && low <= n,
            Field::FrameBytes(low) => { n % 4 == 0 && n <= u64::from(MOST_FRAME_BYTES) && low <= n }
            Field::MaxSteps => 1 <= n && n <= MOST_STEPS,
            Field::WordCount => 1 <= n && n <= u64::from(MOST_WORDS),
            Field::Word => true,
        }
    }
}

/// The kinds by their codes.
pub const KINDS: [Kind; 4] = [Kind::Boolean, Kind::Uint8, Kind::Uint16, Kind::Uint32];

/// The labels by their codes.
pub const LABELS: [Label; 2] = [Label::Public, Label::Secret];

/// The forms by their codes.
pub const FORMS: [Form; 3] = [Form::SingleWord, Form::FixedArray, Form::MutableArray];

/// The number of this profile.
pub fn number_of(profile: Profile) -> u64
    ensures { result ≡ profile_number profile }
{
    match profile {
        Profile::P1 => 1,
        Profile::P2 => 2,
    }
}

/// The profile of this number, 1 or 2.
pub fn profile_of(number: u64) -> Profile
    ensures { result ≡ numbered_profile number }
{
    match number {
        0 | 1 => Profile::P1,
        _ => Profile::P2,
    }
}
