// Code, and where it stands.

ghost use Rattle.std.specs.Prelude.{◌≡◌, ◌+◌, ◌*◌, ◌%◌, ◌≤◌, ◌^◌, vec_len};

/// Words of code, from an address on that is a multiple of 4.
#[derive(Drop)]
pub struct PlacedWords {
    pub begin: u64,
    pub words: Vec<u32>,
    ghost within: { begin + 4 * vec_len words ≤ 2 ^ 32 },
}

/// Halfwords of code, from an even address on.
#[derive(Drop)]
pub struct PlacedHalfwords {
    pub begin: u64,
    pub halfwords: Vec<u16>,
    ghost even: { begin % 2 ≡ 0 },
    ghost within: { begin + 2 * vec_len halfwords ≤ 2 ^ 32 },
}

/// Code: of words, or of halfwords where instructions of 16 bits may stand in it.
#[derive(Drop)]
pub enum Code {
    Words(PlacedWords),
    Halfwords(PlacedHalfwords),
}
