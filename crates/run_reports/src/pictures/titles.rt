// What was asked for, as it stands on a page.

ghost use Rattle.std.specs.Prelude.{◌≡◌, ◌++◌, OnOk};
ghost use Rattle.run_reports.specs.pictures.Titles.{escaped_byte, escaped};

use std::alloc::AllocError;

/// Puts a byte of a text as it stands on a page at the end of the page.
fn push_byte(page: &mut Vec<u8>, byte: u8) -> Result<(), AllocError>
    ensures { OnOk result (page.new.items ≡ page.old.items ++ escaped_byte byte) }
{
    if byte == b'&' {
        page.extend_from_slice(b"&amp;")
    } else if byte == b'<' {
        page.extend_from_slice(b"&lt;")
    } else if byte == b'>' {
        page.extend_from_slice(b"&gt;")
    } else if byte == b'"' {
        page.extend_from_slice(b"&quot;")
    } else if byte < 32 {
        page.extend_from_slice(&[0xe2, 0x90, 0x80 + byte])
    } else if byte == 127 {
        page.extend_from_slice(&[0xe2, 0x90, 0xa1])
    } else {
        page.push(byte)?;
        Ok(())
    }
}

/// Puts a text as it stands on a page at the end of the page.
pub fn push_escaped(page: &mut Vec<u8>, text: &[u8]) -> Result<(), AllocError>
    ensures { OnOk result (page.new.items ≡ page.old.items ++ escaped text.now) }
{
    for byte in text {
        push_byte(page, *byte)?;
    }
    Ok(())
}
