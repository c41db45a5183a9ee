// What the registers hold when a run begins.

ghost use Rattle.std.specs.Prelude.{◌≡◌, ◌<◌, ◌≤◌, ◌^◌, ℕ, length, codes, slice_index};
ghost use Rattle.elf_memory.specs.Arguments.{pushed_size};
ghost use Rattle.elf_memory.specs.Begin.{global_pointer, register_by};
ghost use Rattle.elf_memory.specs.Below.{address_named};

use crate::addresses::{RETURN_ADDRESS, stack_pointer};
use crate::words::Word;
use elf::Program;

/// The global pointer, where the program has one.
pub fn global_pointer(program: &Program<'_>) -> Word
    ensures { result ≡ global_pointer (address_named program.now (codes "__global_pointer$")) }
{
    match program.address(b"__global_pointer$") {
        Some(address) => Word::known(address),
        None => Word::anything(),
    }
}

/// What a register holds.
fn register_by(global_pointer: Word, words: &[Word], r: usize) -> Word
    requires { pushed_size (length words.now) ≤ 2 ^ 24 }
    ensures { result ≡ register_by global_pointer words.now r }
{
    match r {
        0 => Word::known(0),
        1 => Word::known(RETURN_ADDRESS),
        2 => Word::known(stack_pointer(words.len())),
        3 => global_pointer,
        10..18 => words.get(r - 10).copied().unwrap_or(Word::anything()),
        _ => Word::anything(),
    }
}

/// The values of the registers, and masks of the bits that are not known.
#[derive(Clone, Copy)]
pub struct Registers {
    pub values: [u32; 32],
    pub unknown: [u32; 32],
}

impl Registers {
    /// Those with which a function begins, with this global pointer and these arguments.
    pub fn new(global_pointer: Word, words: &[Word]) -> Registers
        requires { pushed_size (length words.now) ≤ 2 ^ 24 }
        ensures values { (r : ℕ) → r < 32
            → slice_index result.values r ≡ (register_by global_pointer words.now r).value }
        ensures unknown { (r : ℕ) → r < 32
            → slice_index result.unknown r ≡ (register_by global_pointer words.now r).unknown }
    {
        let mut values = [0; 32];
        let mut unknown = [0; 32];
        'registers: for r in 0..32 {
            let word = register_by(global_pointer, words, r);
            values[r] = word.value;
            unknown[r] = word.unknown;
        }
        Registers { values, unknown }
    }
}
