// Where each of several images lies.

ghost use Rattle.std.specs.Prelude.{◌≡◌, ◌<◌};
ghost use Rattle.harts.specs.Below.{most_images};
ghost use Rattle.harts.specs.SideBySide.{code_base_of, frame_base_of};

use hepurita::{CODE_BASE, FRAME_BASE};

/// The most images that lie side by side.
pub const MOST_IMAGES: usize = 8;

/// How far apart the code of two images begins.
pub const CODE_DISTANCE: u32 = 0x0010_0000;

/// How far apart their frames begin.
pub const FRAME_DISTANCE: u32 = 0x0001_0000;

/// Where the code of the image with this number begins.
pub fn code_base(number: usize) -> u32
    requires { number < most_images }
    ensures { result ≡ code_base_of number }
{
    CODE_BASE + CODE_DISTANCE * number as u32
}

/// Where the frame of the image with this number begins.
pub fn frame_base(number: usize) -> u32
    requires { number < most_images }
    ensures { result ≡ frame_base_of number }
{
    FRAME_BASE + FRAME_DISTANCE * number as u32
}
