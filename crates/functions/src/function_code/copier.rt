// The copier, which the arrays of a function share, and the calls of it.

ghost use Rattle.std.specs.Prelude.{◌≡◌, ◌≤◌, ◌<◌, ◌+◌, ◌*◌, ◌++◌, ◌∷◌, [], length, OnOk};
ghost use Rattle.functions.specs.Below.{by_alignment_code, call_code, called_code, copier_code, copier_of, divides};
ghost use Rattle.functions.specs.Below.{divides_all};
ghost use Rattle.functions.specs.Below.{goes_as_it_is, goes_by_call, goes_in_as_it_is, in_round, is_any_worth};
ghost use Rattle.functions.specs.Below.{is_near, is_worth, is_worth_a_call, least_for_call, per_word, round_of};
ghost use Rattle.functions.specs.Below.{Andi, Beq, Branch, Immediate, Or, over, Register, times};
ghost use Rattle.functions.specs.function_code.private.Ways.{goes_unchanged};

use crate::function_code::copying::{Way, bound, elements, looped, times};
use crate::function_code::pieces::wrapped;
use expression_code::image_fields::{ImageFields, Slot};
use language::{Form, Kind};
use linked_calls::{Pace, Round};
use rv_code::{
    BranchOffset, BranchTest, Immediate12, ImmediateOperation, Instr, JumpOffset, Reg,
    RegisterOperation,
};
use std::alloc::{AllocError, Global};

/// The bytes of a word.
const WORD: u32 = 4;

/// How large a function may be, in words with 128 for each of its slots, that each call reaches the copier.
const NEAR: usize = 65_536;

/// How many elements a word has.
fn per_word(kind: Kind) -> u32
    ensures words { result ≡ per_word kind }
    ensures some { 0 < result }
    ensures few { result ≤ 4 }
{
    match kind {
        Kind::Boolean | Kind::Uint8 => 4,
        Kind::Uint16 => 2,
        Kind::Uint32 => 1,
    }
}

/// And as many words as a round copies.
fn in_round(round: Round, kind: Kind) -> u32
    ensures round { result ≡ in_round round kind }
    ensures some { 0 < result }
    ensures few { result ≤ 16 }
{
    times(round) * per_word(kind)
}

/// Fewer elements are not worth a call.
fn least_for_call(kind: Kind) -> u32
    ensures { result ≡ least_for_call kind }
{
    match kind {
        Kind::Boolean | Kind::Uint8 => 4,
        Kind::Uint16 => 2,
        Kind::Uint32 => 5,
    }
}

/// Whether so many elements are worth a call.
fn is_worth_a_call(kind: Kind, count: u32) -> bool
    ensures { result ≡ is_worth_a_call kind count }
{
    least_for_call(kind) <= count
}

/// Whether elements go into their slot as they are: a bool that is passed means whether it is not 0, so it goes alone.
fn goes_in_as_it_is(kind: Kind) -> bool
    ensures { result ≡ goes_in_as_it_is kind }
{
    match kind {
        Kind::Boolean => false,
        Kind::Uint8 | Kind::Uint16 | Kind::Uint32 => true,
    }
}

/// Whether an array goes as it is, one way or the other.
fn goes_as_it_is(form: Form, kind: Kind) -> bool
    ensures { result ≡ goes_as_it_is form kind }
{
    match form {
        Form::SingleWord => false,
        Form::FixedArray => goes_in_as_it_is(kind),
        Form::MutableArray => true,
    }
}

/// Whether an array is worth a call, one way or the other.
fn is_worth(slot: Slot) -> bool
    ensures { result ≡ is_worth slot }
{
    goes_as_it_is(slot.param.form, slot.param.kind)
        && is_worth_a_call(slot.param.kind, u32::from(slot.param.length))
}

/// Whether one of the arrays is.
fn is_any_worth(slots: &[Slot]) -> bool
    ensures { result ≡ is_any_worth slots.now }
{
    for slot in slots {
        if is_worth(*slot) {
            return true;
        }
    }
    false
}

/// Whether the words of an array are a whole number of rounds; of an array of words those beside the rounds are few.
fn divides(round: Round, kind: Kind, count: u32) -> bool
    ensures { result ≡ divides (times round) kind count }
{
    match kind {
        Kind::Boolean | Kind::Uint8 | Kind::Uint16 => count / per_word(kind) % times(round) == 0,
        Kind::Uint32 => true,
    }
}

/// And so of all that are worth a call.
fn divides_all(round: Round, slots: &[Slot]) -> bool
    ensures { result ≡ divides_all (times round) slots.now }
{
    for slot in slots {
        if is_worth(*slot) && !divides(round, slot.param.kind, u32::from(slot.param.length)) {
            return false;
        }
    }
    true
}

/// How many words a round of the copier of such arrays copies.
fn round_of(slots: &[Slot]) -> Round
    ensures { result ≡ round_of slots.now }
{
    if divides_all(Round::Four, slots) {
        Round::Four
    } else if divides_all(Round::Two, slots) {
        Round::Two
    } else {
        Round::One
    }
}

/// Whether each jump of a function reaches as far as its end.
fn is_near(image: &ImageFields) -> bool
    ensures { result ≡ is_near image.now }
{
    let words = image.words().len();
    words < NEAR && words + 128 * image.slots().len() < NEAR
}

/// The copier of a function that has one.
pub fn copier_of(image: &ImageFields, pace: Pace) -> Option<Round>
    ensures { result ≡ copier_of image.now pace }
{
    match pace {
        Pace::Fast if is_near(image) && is_any_worth(image.slots()) => {
            Some(round_of(image.slots()))
        }
        Pace::Fast | Pace::Small => None,
    }
}

/// What x5 and x6 are beyond multiples of 4 into x28.
fn tested(code: &mut Vec<Instr>) -> Result<(), AllocError>
    ensures { OnOk result (code.new.items
        ≡ code.old.items ++ Register Or 28 5 6 ∷ Immediate Andi 28 28 3 ∷ []) }
{
    let test = Reg::X28;
    let low = Immediate12::from_bits(WORD - 1);
    code.push(Instr::Register(RegisterOperation::Or, test, Reg::X5, Reg::X6))?;
    code.push(Instr::Immediate(ImmediateOperation::Andi, test, test, low))?;
    Ok(())
}

/// One code where x28 is not 0, and another where it is.
fn forked(code: &mut Vec<Instr>, bytes: &[Instr], words: &[Instr]) -> Result<(), AllocError>
    requires bytes_short { length bytes.now ≤ 64 }
    requires words_short { length words.now ≤ 64 }
    ensures { OnOk result (code.new.items ≡ code.old.items
        ++ Branch Beq 28 0 (2 * length bytes.now + 4) ∷ bytes.now ++ over (length words.now) ∷ words.now) }
{
    let to_words = BranchOffset::from_halves(2 * bytes.len() as u32 + 4);
    code.push(Instr::Branch(BranchTest::Beq, Reg::X28, Reg::X0, to_words))?;
    code.extend_from_slice(bytes)?;
    let over_words = JumpOffset::from_halves(2 * words.len() as u32 + 2);
    code.push(Instr::Jump(Reg::X0, over_words))?;
    code.extend_from_slice(words)
}

/// One code where x5 or x6 is no multiple of 4, and another where both are.
fn by_alignment(code: &mut Vec<Instr>, bytes: &[Instr], words: &[Instr]) -> Result<(), AllocError>
    requires bytes_short { length bytes.now ≤ 64 }
    requires words_short { length words.now ≤ 64 }
    ensures { OnOk result (code.new.items ≡ code.old.items ++ by_alignment_code bytes.now words.now) }
{
    tested(code)?;
    forked(code, bytes, words)
}

/// From x5 on to where x6 is, up to x7, and back by x30.
pub fn copier(alloc: Global, code: &mut Vec<Instr>, round: Round) -> Result<(), AllocError>
    ensures { OnOk result (code.new.items ≡ code.old.items ++ copier_code round) }
{
    let mut bytes = Vec::new(alloc);
    looped(alloc, &mut bytes, Way::Out, Kind::Uint8, Round::One)?;
    let mut words = Vec::new(alloc);
    looped(alloc, &mut words, Way::Out, Kind::Uint32, round)?;
    by_alignment(code, bytes.as_slice(), words.as_slice())?;
    let here = Immediate12::from_bits(0);
    code.push(Instr::JumpRegister(Reg::X0, Reg::X30, here))?;
    Ok(())
}

/// Whether so many elements go by a copier: as they are, and at least a round of them.
pub fn goes_by_call(round: Round, way: Way, kind: Kind, count: u32) -> bool
    ensures { result ≡ goes_by_call round (goes_unchanged way kind) kind count }
{
    let goes = match way {
        Way::In => goes_in_as_it_is(kind),
        Way::Out => true,
    };
    goes && is_worth_a_call(kind, count) && in_round(round, kind) <= count
}

/// A call over so many instructions and so many more, as far as addresses go.
fn call(count: usize, behind: u32) -> Instr
    ensures { result ≡ call_code (count + behind) }
{
    let over = wrapped(count).wrapping_add(behind);
    let halves = over.wrapping_mul(2).wrapping_add(2);
    Instr::Jump(Reg::X30, JumpOffset::from_halves(halves))
}

/// A call over these and so many more, and these.
fn call_over(code: &mut Vec<Instr>, behind: u32, rest: &[Instr]) -> Result<(), AllocError>
    ensures { OnOk result (code.new.items
        ≡ code.old.items ++ call_code (length rest.now + behind) ∷ rest.now) }
{
    code.push(call(rest.len(), behind))?;
    code.extend_from_slice(rest)
}

/// So many elements by the copier, which stands so many instructions behind, and those that are no whole round.
pub fn called(
    alloc: Global,
    code: &mut Vec<Instr>,
    round: Round,
    behind: u32,
    kind: Kind,
    count: u32,
) -> Result<(), AllocError>
    requires { count < 65536 }
    ensures { OnOk result (code.new.items ≡ code.old.items ++ called_code round behind kind count) }
{
    let each = in_round(round, kind);
    bound(
        code,
        u32::from(kind.element_bytes()) * (count - count % each),
    )?;
    let mut rest = Vec::new(alloc);
    elements(&mut rest, Way::Out, kind, count % each)?;
    call_over(code, behind, rest.as_slice())
}
