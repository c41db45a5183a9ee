// How bytes of a source are shown, and what stands below them.

ghost use Rattle.std.specs.Prelude.{◌≡◌, ◌++◌, OnOk};
ghost use Rattle.std.specs.String.{string_bytes};
ghost use Rattle.explanations.specs.source_excerpts.Excerpt.{continues, is_printable, shown, blanks};

use std::alloc::AllocError;

/// Whether a byte of UTF-8 only continues a character.
fn continues(byte: u8) -> bool
    ensures { result ≡ continues byte }
{
    127 < byte && byte < 192
}

/// Whether a byte is shown as it is: a tab, or a printable character of ASCII.
fn is_printable(byte: u8) -> bool
    ensures { result ≡ is_printable byte }
{
    byte == b'\t' || 31 < byte && byte < 127
}

/// Puts bytes of a source at the end of a text, as they are shown.
pub fn push_shown(text: &mut String, bytes: &[u8]) -> Result<(), AllocError>
    ensures { OnOk result (string_bytes text.new ≡ string_bytes text.old ++ shown bytes.now) }
{
    for byte in bytes {
        if continues(*byte) {
            continue;
        }
        if is_printable(*byte) {
            text.push(char::from(*byte))?;
        } else {
            text.push('?')?;
        }
    }
    Ok(())
}

/// Puts at the end of a text what stands below bytes of a source.
pub fn push_blanks(text: &mut String, bytes: &[u8]) -> Result<(), AllocError>
    ensures { OnOk result (string_bytes text.new ≡ string_bytes text.old ++ blanks bytes.now) }
{
    for byte in bytes {
        if continues(*byte) {
            continue;
        }
        if *byte == b'\t' {
            text.push('\t')?;
        } else {
            text.push(' ')?;
        }
    }
    Ok(())
}
