//! Each text gives one answer.

ghost use Rattle.std.specs.Prelude.{◌≡◌, ◌⊎◌, ℕ, List};
ghost use Rattle.input_files.specs.harts_file.Faults.{IsFault};
ghost use Rattle.input_files.specs.harts_file.Lines.{PlannedHart};
ghost use Rattle.input_files.specs.harts_file.Plans.{IsPlan};

use harts::HartsRule;

/// A text gives one plan, or has one first faulty line and one first rule that this breaks, and not both.
pub fn each_text_gives_one_answer()
    ensures some { (text : List ℕ)
        → ((harts : List PlannedHart) × (schedule : List ℕ) × IsPlan text harts schedule)
        ⊎ ((rule : HartsRule) × (line : ℕ) × IsFault text rule line) }
    ensures one_plan { (text : List ℕ) (harts harts' : List PlannedHart) (schedule schedule' : List ℕ)
        → IsPlan text harts schedule → IsPlan text harts' schedule' → (harts ≡ harts') × (schedule ≡ schedule') }
    ensures one_fault { (text : List ℕ) (rule rule' : HartsRule) (line line' : ℕ)
        → IsFault text rule line → IsFault text rule' line' → (rule ≡ rule') × (line ≡ line') }
    ensures not_both { (text : List ℕ) (harts : List PlannedHart) (schedule : List ℕ) (rule : HartsRule) (line : ℕ)
        → IsPlan text harts schedule → IsFault text rule line → ⊥ }
{}
