// A character that no token has: one that cannot be seen, or one of C.

ghost use Rattle.std.specs.Prelude.{◌≡◌, drop};
ghost use Rattle.explanations.specs.refusal_details.Details.{begins_with_mark, character_line, habit_line};

/// A byte order mark, in UTF-8.
const BYTE_ORDER_MARK: &[u8] = b"\xEF\xBB\xBF";

/// Whether bytes begin with a byte order mark.
fn begins_with_mark(bytes: &[u8]) -> bool
    ensures { result ≡ begins_with_mark bytes.now }
{
    bytes.starts_with(BYTE_ORDER_MARK)
}

/// What to write instead of a character of C with which bytes begin.
fn habit_line(bytes: &[u8]) -> &'static str
    ensures { result.now ≡ habit_line bytes.now }
{
    match bytes.first() {
        Some(b'?') =>
            "  there is no conditional operator: write `select(c, x, y)` (docs/COOKBOOK.md)\n",
        Some(b':') =>
            "  there are no labels, and a type stands before its name: `secret uint32 x = 1;` (docs/COOKBOOK.md)\n",
        Some(b'.') =>
            "  there are no fields and no fractions: use a variable for each field (docs/COOKBOOK.md)\n",
        Some(b'"' | b'\'') =>
            "  there are no texts and no characters: write numbers, as 97 for `a` (docs/COOKBOOK.md)\n",
        Some(b'#') =>
            "  there is no preprocessor: write numbers out, and give other files by `--with LIB`\n",
        _ => "",
    }
}

/// What is said of the character that stands behind so many bytes.
pub fn character_line(at: u32, text: &[u8]) -> &'static str
    ensures { result.now ≡ character_line (drop at text.now) }
{
    let bytes = &text[text.len().min(at as usize)..];
    if begins_with_mark(bytes) {
        "  this is a byte order mark, which cannot be seen: save the file without it\n"
    } else {
        habit_line(bytes)
    }
}
