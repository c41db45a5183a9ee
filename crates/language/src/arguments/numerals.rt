ghost use Rattle.std.specs.Prelude.{◌≡◌, ◌-◌, ◌^◌, ◌≤◌, min};
ghost use Rattle.std.specs.Option.{option_map};
ghost use Rattle.language.specs.arguments.Texts.{number_in, number_of};

/// The number that digits of a base spell, if they do. One past the greatest `u64` is given as that.
fn number_from_digits(digits: &str, base: u32) -> Option<u64>
    requires low { 2 ≤ base }
    requires high { base ≤ 36 }
    ensures { result ≡ option_map (λ n. min n (2 ^ 64 - 1)) (number_in base digits.now) }
{
    if digits.is_empty() {
        return None;
    }
    let mut number = 0u64;
    for byte in digits.as_bytes() {
        let digit = char::from(*byte).to_digit(base)?;
        number = number
            .saturating_mul(u64::from(base))
            .saturating_add(u64::from(digit));
    }
    Some(number)
}

/// The number that a text spells, if it does. One past the greatest `u64` is given as that.
pub(crate) fn number(text: &str) -> Option<u64>
    ensures { result ≡ option_map (λ n. min n (2 ^ 64 - 1)) (number_of text.now) }
{
    match text.strip_prefix("0x") {
        Some(digits) => number_from_digits(digits, 16),
        None => number_from_digits(text, 10),
    }
}
