// The two parts of a line: before a place, and from it on.

ghost use Rattle.std.specs.Prelude.{◌≡◌, take, drop, reverse};
ghost use Rattle.std.specs.List.{position};
ghost use Rattle.explanations.specs.source_excerpts.Excerpt.{most_shown, is_line_feed, is_line_end, last_line};
ghost use Rattle.explanations.specs.source_excerpts.Excerpt.{first_line, dots, end_of};

/// How many bytes of a line are shown on each side of a place.
const MOST_SHOWN: usize = 100;

/// What is shown of a part of a line, and three dots where it is not all.
#[derive(Clone, Copy)]
pub struct ExcerptPart<'a> {
    pub bytes: &'a [u8],
    pub dots: &'static [u8],
}

/// Three dots where a part is too long to be shown.
fn dots(part: &[u8]) -> &'static [u8]
    ensures { result.now ≡ dots part.now }
{
    if MOST_SHOWN < part.len() { b"..." } else { b"" }
}

/// How many bytes stand behind the last line feed, where there is one.
fn behind_line_feed(bytes: &[u8]) -> Option<usize>
    ensures { result ≡ position is_line_feed (reverse bytes.now) }
{
    bytes.iter().rev().position(|byte| *byte == b'\n')
}

/// Where the first line end stands.
fn line_end(bytes: &[u8]) -> Option<usize>
    ensures { result ≡ position is_line_end bytes.now }
{
    bytes
        .iter()
        .position(|byte| *byte == b'\n' || *byte == b'\r')
}

/// The bytes before a place that are on its line.
fn last_line(before: &[u8]) -> &[u8]
    ensures { result.now ≡ last_line before.now }
{
    let length = behind_line_feed(before).unwrap_or(before.len());
    &before[before.len().saturating_sub(length)..]
}

/// The bytes from a place on that are on its line.
fn first_line(rest: &[u8]) -> &[u8]
    ensures { result.now ≡ first_line rest.now }
{
    &rest[..line_end(rest).unwrap_or(rest.len())]
}

/// The bytes at the beginning of a part that are shown.
#[tactic(auto, using(std::proofs::lemmas::List::take_min))]
fn beginning_of(part: &[u8]) -> &[u8]
    ensures { result.now ≡ take most_shown part.now }
{
    &part[..MOST_SHOWN.min(part.len())]
}

/// The bytes at the end of a part that are shown.
fn end_of(part: &[u8]) -> &[u8]
    ensures { result.now ≡ end_of part.now }
{
    &part[part.len().saturating_sub(MOST_SHOWN)..]
}

/// The bytes before a place.
#[tactic(auto, using(std::proofs::lemmas::List::take_min))]
fn before(source: &[u8], offset: u32) -> &[u8]
    ensures { result.now ≡ take offset source.now }
{
    &source[..source.len().min(offset as usize)]
}

/// The bytes from a place on.
fn behind(source: &[u8], offset: u32) -> &[u8]
    ensures { result.now ≡ drop offset source.now }
{
    &source[source.len().min(offset as usize)..]
}

/// The part of the line before a place.
pub fn front(source: &[u8], offset: u32) -> ExcerptPart<'_>
    ensures bytes { result.bytes.now ≡ end_of (last_line (take offset source.now)) }
    ensures dots { result.dots.now ≡ dots (last_line (take offset source.now)) }
{
    let line = last_line(before(source, offset));
    ExcerptPart {
        bytes: end_of(line),
        dots: dots(line),
    }
}

/// The part of the line from a place on.
pub fn back(source: &[u8], offset: u32) -> ExcerptPart<'_>
    ensures bytes { result.bytes.now ≡ take most_shown (first_line (drop offset source.now)) }
    ensures dots { result.dots.now ≡ dots (first_line (drop offset source.now)) }
{
    let line = first_line(behind(source, offset));
    ExcerptPart {
        bytes: beginning_of(line),
        dots: dots(line),
    }
}
