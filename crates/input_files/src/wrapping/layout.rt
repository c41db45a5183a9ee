// Where an export's parameters and its result lie in the frame.

ghost use Rattle.std.specs.Prelude.{◌≡◌, ◌+◌, ◌<◌, ◌^◌};
ghost use Rattle.input_files.specs.Below.{layout_end, slots_end};
ghost use Rattle.input_files.specs.wrapping.Wrapped.{result_behind};

use expression_code::image_fields::{ResultSlot, Slot};
use language::WordType;

/// Where the last of the slots ends.
pub(crate) fn slots_end(slots: &[Slot]) -> u64
    ensures { result ≡ slots_end 0 slots.now }
{
    match slots {
        [] => 0,
        [.., last] => last.end(),
    }
}

/// The result's slot, where there is a result and the parameters' slots end at `low`.
pub(crate) fn result_behind(low: u32, returned: Option<WordType>) -> Option<ResultSlot>
    ensures { result ≡ result_behind low returned }
{
    let word = returned?;
    Some(ResultSlot {
        kind: word.kind,
        label: word.label,
        offset: low,
    })
}

/// Where that ends, or the parameters' slots where there is no result.
pub(crate) fn layout_end(low: u64, returned: Option<ResultSlot>) -> u64
    ensures { result ≡ layout_end low returned }
{
    match returned {
        None => low,
        Some(slot) => slot.end(),
    }
}
