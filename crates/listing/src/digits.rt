// Words in hexadecimal.

ghost use Rattle.std.specs.Prelude.{◌≡◌, ◌<◌};
ghost use Rattle.listing.specs.Lines.{digit_at, eight_digits};

/// The hexadecimal digit of a number at the place of this unit, a power of 16.
fn digit(number: u32, unit: u32) -> u8
    requires { 0 < unit }
    ensures { result ≡ digit_at number unit }
{
    let value = (number / unit % 16) as u8;
    if value < 10 {
        b'0' + value
    } else {
        b'a' - 10 + value
    }
}

/// A number in eight hexadecimal digits.
pub fn eight_digits(number: u32) -> [u8; 8]
    ensures { result ≡ eight_digits number }
{
    [
        digit(number, 0x1000_0000),
        digit(number, 0x100_0000),
        digit(number, 0x10_0000),
        digit(number, 0x1_0000),
        digit(number, 0x1000),
        digit(number, 0x100),
        digit(number, 0x10),
        digit(number, 1),
    ]
}
