ghost use Rattle.std.specs.Prelude.{◌≡◌, ◌≤◌, ◌<◌, ◌^◌, ◌-◌, ℕ, List, length, Option, Ok, IfOk, MatchResult, true};
ghost use Rattle.byteorder.specs.Endian.{little_number};
ghost use Rattle.image.specs.Below.{Fields, IsImage, ResultSlot as ResultSlotOf, Slot as SlotOf, slots_end};
ghost use Rattle.image.specs.Format.{Format, ends};
ghost use Rattle.image.specs.Reading.{AreBytes, IsUnlessMemory, image_format, layout_end, one, reading};
ghost use Rattle.image.specs.Reading.{result_format, row, slot_format, slots_format, words_format};
ghost use Rattle.image.specs.private.Following.{FaultIs, Leads, ahead};

use crate::field::{FORMS, Field, KINDS, LABELS, profile_of};
use crate::limits::{PARAMETER_BYTES, WORD_BYTES};
use crate::{Image, ImageFault, ImageRule};
use byteorder::{ByteOrder, LittleEndian};
use expression_code::image_fields::{ImageFields, ResultSlot, Slot};
use language::Param;
use std::alloc::Global;

/// The bytes that are left to read, of so many.
#[derive(Drop)]
struct Reader<'a> {
    total: usize,
    left: &'a [u8],
}

impl<'a> Reader<'a> {
    /// A fault at the field that comes next.
    fn fault(&self, rule: ImageRule) -> ImageFault
        ensures { result ≡ ImageFault.Field rule (self.now.total - length self.now.left.now) }
    {
        ImageFault::Field {
            rule,
            offset: self.total.saturating_sub(self.left.len()),
        }
    }

    /// The number in the field that comes next.
    #[tactic(auto, unfolding(crate::specs::Format::read_by))]
    fn take(&mut self, field: Field) -> Result<u64, ImageFault>
        ensures leads { (next : ℕ → Format) → Leads (one field next) next result self.old self.new }
        ensures allowed { IfOk result (λ n. (row field).allowed n ≡ true) }
        ensures fits { IfOk result (λ n. n < 256 ^ (row field).size) }
    {
        let size = field.size();
        let left = self.left;
        if left.len() < size {
            return Err(self.fault(ImageRule::Truncated));
        }
        let number = number_in(left, size);
        if !field.allows(number) {
            return Err(self.fault(field.rule()));
        }
        self.left = &left[size..];
        Ok(number)
    }

    /// A parameter's slot, the slot before it ending at `low`.
    #[tactic(auto, unfolding(crate::specs::Reading::slot_format))]
    fn slot(&mut self, low: u64) -> Result<Slot, ImageFault>
        ensures { (next : SlotOf → Format) → Leads (slot_format low next) next result self.old self.new }
    {
        let kind = KINDS[self.take(Field::Kind)? as usize];
        let label = LABELS[self.take(Field::Label)? as usize];
        let form = FORMS[self.take(Field::Form)? as usize];
        let length = self.take(Field::Length(form))? as u16;
        let offset = self.take(Field::Offset(low))? as u32;
        let param = Param {
            kind,
            label,
            form,
            length,
        };
        Ok(Slot { param, offset })
    }

    /// So many slots.
    fn slots(&mut self, alloc: Global, count: u64) -> Result<Vec<Slot>, ImageFault>
        ensures { (next : List SlotOf → Format)
            → Leads (slots_format count 0 next) (λ slots. next slots.items) result self.old self.new }
    {
        let room = (count as usize).min(self.left.len() / PARAMETER_BYTES);
        let mut slots = Vec::with_capacity(alloc, room)?;
        let mut low = 0;
        'slots: for _ in 0..count {
            let slot = self.slot(low)?;
            slots.push(slot)?;
            low = slot.end();
        }
        Ok(slots)
    }

    #[tactic(auto, unfolding(crate::specs::Reading::result_format))]
    fn returned(&mut self, low: u64) -> Result<Option<ResultSlot>, ImageFault>
        ensures { (next : Option ResultSlotOf → Format) → Leads (result_format low next) next result self.old self.new }
    {
        if self.take(Field::HasResult)? == 0 {
            return Ok(None);
        }
        let kind = KINDS[self.take(Field::Kind)? as usize];
        let label = LABELS[self.take(Field::Label)? as usize];
        let offset = self.take(Field::Offset(low))? as u32;
        Ok(Some(ResultSlot {
            kind,
            label,
            offset,
        }))
    }

    /// So many code words.
    fn words(&mut self, alloc: Global, count: u64) -> Result<Vec<u32>, ImageFault>
        ensures { (next : List ℕ → Format)
            → Leads (words_format count next) (λ words. next words.items) result self.old self.new }
    {
        let room = (count as usize).min(self.left.len() / WORD_BYTES);
        let mut words = Vec::with_capacity(alloc, room)?;
        'words: for _ in 0..count {
            words.push(self.take(Field::Word)? as u32)?;
        }
        Ok(words)
    }

    /// Nothing is left.
    #[tactic(auto, unfolding(crate::specs::Format::read_by))]
    fn end(&self) -> Result<(), ImageFault>
        ensures { (image : Fields)
            → MatchResult result (λ _. ahead (ends image) self.now ≡ Ok image)
            (λ fault. FaultIs fault (ahead (ends image) self.now)) }
    {
        if self.left.is_empty() {
            Ok(())
        } else {
            Err(self.fault(ImageRule::TrailingBytes))
        }
    }

    /// All fields, behind which nothing is left.
    #[tactic(auto, unfolding(crate::specs::Reading::image_format))]
    fn fields(&mut self, alloc: Global) -> Result<ImageFields, ImageFault>
        requires { AreBytes self.old.left.now }
        ensures exact { IsUnlessMemory result (ahead image_format self.old) }
        ensures allowed { IfOk result (λ image. IsImage image) }
    {
        self.take(Field::Magic)?;
        self.take(Field::Version)?;
        let profile = profile_of(self.take(Field::Profile)?);
        let count = self.take(Field::ParameterCount)?;
        let slots = self.slots(alloc, count)?;
        let low = end_of(&slots);
        let returned = self.returned(low)?;
        let frame_bytes = self.take(Field::FrameBytes(layout_end(low, returned)))? as u32;
        let max_steps = self.take(Field::MaxSteps)?;
        let count = self.take(Field::WordCount)?;
        let words = self.words(alloc, count)?;
        self.end()?;
        Ok(ImageFields::new(profile, slots, returned, frame_bytes, max_steps, words))
    }
}

/// The number in so many bytes, the lowest first.
fn number_in(bytes: &[u8], size: usize) -> u64
    requires some { 1 ≤ size }
    requires few { size ≤ 8 }
    requires room { size ≤ length bytes.now }
    ensures number { result ≡ little_number size bytes.now }
    ensures fits { result < 256 ^ size }
{
    LittleEndian::read_uint(bytes, size)
}

/// Where the last of the slots ends.
fn end_of(slots: &[Slot]) -> u64
    ensures { result ≡ slots_end 0 slots.now }
{
    match slots {
        [] => 0,
        [.., last] => last.end(),
    }
}

/// Where the result's slot ends, or where there is none the parameters' slots, which end at `low`.
fn layout_end(low: u64, returned: Option<ResultSlot>) -> u64
    ensures { result ≡ layout_end low returned }
{
    match returned {
        None => low,
        Some(slot) => slot.end(),
    }
}

/// The image that the bytes spell, all of the bytes. Else it names the first field that is not
/// wholly there or has a value that it may not have, or the first byte after the last code word.
pub fn read(alloc: Global, bytes: &[u8]) -> Result<Image, ImageFault>
    ensures exact { IsUnlessMemory result (reading bytes.now) }
    ensures allowed { IfOk result (λ image. IsImage image) }
{
    let mut reader = Reader {
        total: bytes.len(),
        left: bytes,
    };
    Ok(Image::new(reader.fields(alloc)?))
}
