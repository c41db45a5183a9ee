// Decimal numbers of any length.

ghost use Rattle.std.specs.Prelude.{◌≡◌};
ghost use Rattle.std.specs.Option.{option_map};
ghost use Rattle.input_files.specs.Below.{number_in};
ghost use Rattle.input_files.specs.harts_file.private.Reading.{held_number};

/// The number that decimal digits spell. One past the greatest `u64` is given as that.
pub fn decimal(text: &str) -> Option<u64>
    ensures { result ≡ option_map held_number (number_in 10 text.now) }
{
    if text.is_empty() {
        return None;
    }
    let mut number = 0u64;
    for byte in text.as_bytes() {
        let digit = char::from(*byte).to_digit(10)?;
        number = number.saturating_mul(10).saturating_add(u64::from(digit));
    }
    Some(number)
}
