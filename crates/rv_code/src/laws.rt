// Laws of the words and halfwords, which hold of the definitions alone.

ghost use Rattle.std.specs.Prelude.{◌≡◌, ℕ};
ghost use Rattle.rv_code.specs.Words.{word_of, IsInstr};
ghost use Rattle.rv_code.specs.Compressed.{Compressed, IsCompressed, halfword_of, ExpandsTo, BeginsWord};
ghost use Rattle.rv_code.specs.declared.instructions.Instr.{Instr};

/// No two instructions have one word.
pub fn words_differ()
    ensures { (i j : Instr) → IsInstr i → IsInstr j → word_of i ≡ word_of j → i ≡ j }
{}

/// No two 16-bit instructions have one halfword.
pub fn halfwords_differ()
    ensures { (a b : Compressed) → IsCompressed a → IsCompressed b → halfword_of a ≡ halfword_of b → a ≡ b }
{}

/// A halfword means one instruction at most, and one whose fields are in range.
pub fn one_expansion()
    ensures one { (halfword : ℕ) (i j : Instr) → ExpandsTo halfword i → ExpandsTo halfword j → i ≡ j }
    ensures in_range { (halfword : ℕ) (i : Instr) → ExpandsTo halfword i → IsInstr i }
{}

/// The low two bits tell the words of instructions from the halfwords of 16-bit ones.
pub fn lengths_differ()
    ensures words { (i : Instr) → IsInstr i → BeginsWord (word_of i) }
    ensures halfwords { (halfword : ℕ) (i : Instr) → ExpandsTo halfword i → ¬ BeginsWord halfword }
{}
