// The function of an image whose frame has 65,536 bytes, the most that an image may have. Its body uses the first and
// the last word of the frame. All words were worked out by hand; `tests/linked` calls them.

use expression_code::image_fields::{ImageFields, ResultSlot, Slot};
use functions::function_code::{function_words, room_of};
use hepurita::FrameNeeds;
use language::{Form, Kind, Label, Param, Profile};
use linked_calls::Pace;
use std::alloc::{AllocError, Global};
use std::test::Fail;

/// A number in the first word of the frame, an array of two behind most of it, and a result in the last word. The body
/// sets the first element to the number, the first word to what that element was, and the last word to their sum.
fn largest_image(alloc: Global) -> Result<ImageFields, AllocError> {
    let number = Param {
        kind: Kind::Uint32,
        label: Label::Secret,
        form: Form::SingleWord,
        length: 1,
    };
    let pair = Param {
        kind: Kind::Uint32,
        label: Label::Secret,
        form: Form::MutableArray,
        length: 2,
    };
    let slots = [
        Slot {
            param: number,
            offset: 0,
        },
        Slot {
            param: pair,
            offset: 65_524,
        },
    ];
    let returned = Some(ResultSlot {
        kind: Kind::Uint32,
        label: Label::Secret,
        offset: 65_532,
    });
    let slots = Vec::from_slice(alloc, &slots)?;
    let body = Vec::from_slice(alloc, &BODY)?;
    Ok(ImageFields::new(Profile::P1, slots, returned, 65_536, 9, body))
}

/// lw x5, 0(x2); lui x6, 16; add x6, x6, x2; lw x7, -12(x6); sw x5, -12(x6); sw x7, 0(x2); add x5, x5, x7;
/// sw x5, -4(x6); ecall
const BODY: [u32; 9] = [
    0x00012283, 0x00010337, 0x00230333, 0xff432383, 0xfe532a23, 0x00712023, 0x007282b3, 0xfe532e23,
    0x00000073,
];

#[test]
fn has_these_words(rt: HostRuntime) -> Result<(), Fail> {
    let image = largest_image(rt.alloc())?;
    let needs = FrameNeeds {
        blank: None,
        spared: Vec::new(rt.alloc()),
    };
    let words = function_words(rt.alloc(), &image, &needs, Pace::Fast)?;
    assert_eq!(rt; room_of(&image), 65_552);
    assert_eq!(rt; words.as_slice(), WORDS.as_slice());
    Ok(())
}

const WORDS: [u32; 67] = [
    0xff010113, 0x00a12423, 0x00b12623, 0x000102b7, 0x00028293, 0x405102b3, 0xff010113, 0x00012023,
    0x00012223, 0x00012423, 0x00012623, 0xfe5116e3, 0x00a12023, 0x00058293, 0x00010337, 0xff430313,
    0x00230333, 0x0002ae03, 0x01c32023, 0x0042ae03, 0x01c32223, 0x00012283, 0x00010337, 0x00230333,
    0xff432383, 0xfe532a23, 0x00712023, 0x007282b3, 0xfe532e23, 0x00010537, 0x00250533, 0xffc52503,
    0x000102b7, 0xff428293, 0x002282b3, 0x00010337, 0x00230333, 0x00c32303, 0x0002ae03, 0x01c32023,
    0x0042ae03, 0x01c32223, 0x000102b7, 0x00028293, 0x002282b3, 0x01028293, 0x00012023, 0x00012223,
    0x00012423, 0x00012623, 0x01010113, 0xfe5116e3, 0x00000293, 0x00000313, 0x00000393, 0x00000593,
    0x00000613, 0x00000693, 0x00000713, 0x00000793, 0x00000813, 0x00000893, 0x00000e13, 0x00000e93,
    0x00000f13, 0x00000f93, 0x00008067,
];
