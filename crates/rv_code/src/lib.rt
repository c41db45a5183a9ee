// Instructions of RV32IM, all of them, their words, and what their operations compute.
//
// It promises that `encode` gives an instruction the word that the RISC-V Unprivileged ISA gives
// it (`specs/Words.antt`), that `decode` gives back an instruction exactly for its word, and that
// two instructions have two words; that `expand` gives a 16-bit instruction the one instruction that it
// means (`specs/Compressed.antt`); that an operation computes what its row says (`specs/Operations.antt`);
// and that a register, an immediate or another field is made exactly where it can hold the number, and
// gives that number back. It stands on `word`.
#![tactic(auto)]

pub mod compressed;
pub mod decoding;
pub mod encoding;
mod field_text;
mod fields;
pub mod immediates;
pub mod instructions;
pub mod laws;
pub mod offsets;
pub mod operations;
pub mod registers;
mod signed;
pub mod small_fields;
mod text;
pub mod upper_immediates;

pub use compressed::{begins_word, expand};
pub use decoding::decode;
pub use encoding::encode;
pub use immediates::Immediate12;
pub use instructions::Instr;
pub use offsets::{BranchOffset, JumpOffset};
pub use operations::{
    BranchTest, DivideOperation, ImmediateOperation, LoadOperation, MultiplyOperation,
    RegisterOperation, ShiftOperation, StoreOperation, UpperOperation,
};
pub use registers::Reg;
pub use small_fields::{FenceBits, ShiftAmount};
pub use upper_immediates::UpperImmediate;
