// Where the objects of a program lie in its memory.

ghost use Rattle.std.specs.Prelude.{◌≡◌, IfSome};
ghost use Rattle.std.specs.List.{list_any};
ghost use Rattle.elf_memory.specs.Objects.{lies_in, object_of};

use elf::{Object, Program, Segment};

/// Whether each byte of the object is one of the segment's.
pub(crate) fn lies_in(object: Object, segment: &Segment<'_>) -> bool
    ensures { result ≡ lies_in object segment.now }
{
    let begin = u64::from(segment.address());
    let place = u64::from(object.address);
    begin <= place && place + u64::from(object.size) <= begin + u64::from(segment.size())
}

/// Whether the object lies in one of these segments.
fn lies_in_one(object: Object, segments: &[Segment<'_>]) -> bool
    ensures { result ≡ list_any (lies_in object) segments.now }
{
    segments.iter().any(|segment| lies_in(object, segment))
}

/// The object of a name, where it lies in a segment.
pub(crate) fn object_of(program: &Program<'_>, name: &[u8]) -> Option<Object>
    ensures { result ≡ object_of program.now name.now }
{
    let object = program.object(name)?;
    if lies_in_one(object, program.segments()) {
        Some(object)
    } else {
        None
    }
}
