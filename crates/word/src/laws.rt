// Laws of the operators' formulas, and where texts begin.

ghost use Rattle.std.specs.Prelude.{◌≡◌, ℕ, ◌+◌, ◌-◌, ◌/◌, ◌%◌, ◌^◌, ◌≤◌, Bool, if◌then◌else◌, bit_and, bit_or};
ghost use Rattle.std.specs.Prelude.{bit_xor};
ghost use Rattle.word.specs.declared.place.TheConstants.Place.{ORIGIN};
ghost use Rattle.word.specs.declared.width.Width.{Width};
ghost use Rattle.word.specs.Places.{origin};
ghost use Rattle.word.specs.Widths.{bits, IsWord};
ghost use Rattle.word.specs.Operators.{wrapped, sum, negated, difference, product, quotient, remainder, complemented};
ghost use Rattle.word.specs.Operators.{shifted_left, shifted_right, rotated_left, converted, mask, selected};

use crate::width::Width;

/// What wraps gives words of the width, whatever it is given.
pub fn wrapping_gives_words()
    ensures wrapped { (w : Width) (n : ℕ) → IsWord w (wrapped w n) }
    ensures sum { (w : Width) (a b : ℕ) → IsWord w (sum w a b) }
    ensures negated { (w : Width) (a : ℕ) → IsWord w (negated w a) }
    ensures difference { (w : Width) (a b : ℕ) → IsWord w (difference w a b) }
    ensures product { (w : Width) (a b : ℕ) → IsWord w (product w a b) }
    ensures complemented { (w : Width) (a : ℕ) → IsWord w (complemented w a) }
    ensures shifted_left { (w : Width) (a k : ℕ) → IsWord w (shifted_left w a k) }
    ensures shifted_right { (w : Width) (a k : ℕ) → IsWord w (shifted_right w a k) }
    ensures rotated_left { (w : Width) (a k : ℕ) → IsWord w (rotated_left w a k) }
    ensures converted { (w : Width) (a : ℕ) → IsWord w (converted w a) }
{}

/// The other operators give words of a width where their operands are such words.
pub fn words_stay_words()
    ensures quotient { (w : Width) (a b : ℕ) → IsWord w a → IsWord w (quotient a b) }
    ensures remainder { (w : Width) (a b : ℕ) → IsWord w a → IsWord w (remainder a b) }
    ensures bit_and { (w : Width) (a b : ℕ) → IsWord w a → IsWord w (bit_and a b) }
    ensures bit_or { (w : Width) (a b : ℕ) → IsWord w a → IsWord w b → IsWord w (bit_or a b) }
    ensures bit_xor { (w : Width) (a b : ℕ) → IsWord w a → IsWord w b → IsWord w (bit_xor a b) }
    ensures selected { (w : Width) (m a b : ℕ) → IsWord w a → IsWord w b → IsWord w (selected m a b) }
{}

/// Where the operands are words of the width, nothing has to be reduced or cut first.
pub fn formulas_of_words()
    ensures negated { (w : Width) (a : ℕ) → IsWord w a → negated w a ≡ (2 ^ bits w - a) % 2 ^ bits w }
    ensures difference { (w : Width) (a b : ℕ) → IsWord w b → difference w a b ≡ (a + (2 ^ bits w - b)) % 2 ^ bits w }
    ensures complemented { (w : Width) (a : ℕ) → IsWord w a → complemented w a ≡ 2 ^ bits w - 1 - a }
    ensures shifted_right { (w : Width) (a k : ℕ) → IsWord w a → shifted_right w a k ≡ a / 2 ^ (k % 32) }
    ensures converted { (w v : Width) (a : ℕ) → IsWord w a → bits w ≤ bits v → converted v a ≡ a }
{}

/// What was added can be taken away again, and a word and its negation cancel.
pub fn differences_undo_sums()
    ensures taken { (w : Width) (a b : ℕ) → difference w (sum w a b) b ≡ wrapped w a }
    ensures added { (w : Width) (a b : ℕ) → sum w (difference w a b) b ≡ wrapped w a }
    ensures cancels { (w : Width) (a : ℕ) → sum w a (negated w a) ≡ 0 }
{}

/// With a condition's mask `select` takes the first word where the condition holds, else the second.
pub fn masks_select()
    ensures { (c : Bool) (a b : ℕ)
        → IsWord Width.W32 a
        → IsWord Width.W32 b
        → selected (mask c) a b ≡ (if c then a else b) }
{}

/// Where texts begin is the constant that code takes for it.
pub fn sources_begin_at_the_origin()
    ensures { ORIGIN ≡ origin }
{}
