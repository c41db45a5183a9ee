// The code of loops. One whose counter has a home, and whose body sets the counter nowhere and is short, counts there,
// and its test stands behind the body. In any other the next number lies in the frame, and the test comes first.

ghost use Rattle.std.specs.Prelude.{◌≡◌, ◌++◌, ◌+◌, ◌*◌, ◌<◌, ◌≤◌, [], ◌∷◌, length, None, Some, IfErr, IfSome, OnOk};
ghost use Rattle.codegen.specs.private.Loops.{bounds_code, test_code, count_code, below_number_code, below_word_code};
ghost use Rattle.codegen.specs.private.Loops.{begin_code, counted_code, last_number_code};
ghost use Rattle.codegen.specs.private.Loops.{counting_home, first_below, guarded_code, repeat_code, short_number};
ghost use Rattle.codegen.specs.private.Loops.{to_number_code, to_word_code, iterations_code};
ghost use Rattle.codegen.specs.private.Jumps.{IsFar};
ghost use Rattle.codegen.specs.private.Placed.{IsPlaced};
ghost use Rattle.codegen.specs.Below.{Addi, Immediate, term_tree};

use crate::jumping;
use crate::reading::{assign, read};
use crate::unemitted::Unemitted;
use expression_code::emit::{FIELDS, MINUS_ONE, NEAR, load, lower_part, store};
use expression_code::{Layout, Location, WORD_BYTES, move_register};
use inline::Term;
use rv_code::{Immediate12, ImmediateOperation, Instr, Reg, RegisterOperation};
use std::alloc::{AllocError, Global};

/// How many instructions the body of a loop that counts has less than.
const SHORT_BODY: usize = 1000;

/// A loop: its counter, the first number and the bound, and whether its body sets the counter.
#[derive(Drop)]
pub struct Loop<'a> {
    pub counter: u32,
    pub low: &'a Term,
    pub high: &'a Term,
    pub is_set: bool,
}

/// A loop that counts in a home, the code by which the home's mirror follows it, and the code of its body.
#[derive(Drop)]
struct Counting<'a> {
    home: Reg,
    mirror: &'a [Instr],
    body: &'a [Instr],
}

/// The home that a loop counts in, with the code of its body.
fn counting_home(counter: &Location, is_set: bool, body: &[Instr]) -> Option<Reg>
    ensures { result ≡ counting_home counter.now is_set body.now }
{
    match counter {
        Location::InRegister(home) if !is_set && body.len() < SHORT_BODY => Some(*home),
        _ => None,
    }
}

/// A bound that an instruction holds.
fn short_number(bound: &Term) -> Option<u32>
    ensures { result ≡ short_number (term_tree bound.now) }
{
    match bound {
        Term::Number(number, _) if *number < NEAR => Some(*number),
        _ => None,
    }
}

/// A first number that is known to be below the bound.
fn first_below(bound: u32, low: &Term) -> Option<u32>
    ensures number { result ≡ first_below bound (term_tree low.now) }
    ensures below { IfSome result (λ first_number. first_number < bound) }
{
    match low {
        Term::Number(number, _) if *number < bound => Some(*number),
        _ => None,
    }
}

/// A number that is added to a register, in its place.
fn add(code: &mut Vec<Instr>, register: Reg, field: u32) -> Result<(), AllocError>
    requires { field < 4096 }
    ensures { OnOk result (code.new.items ≡ code.old.items ++ Immediate Addi register register field ∷ []) }
{
    let number = Immediate12::from_bits(field);
    code.push(Instr::Immediate(ImmediateOperation::Addi, register, register, number))?;
    Ok(())
}

/// Whether a register is below a number.
fn below_number(
    code: &mut Vec<Instr>,
    target: Reg,
    register: Reg,
    bound: u32,
) -> Result<(), AllocError>
    requires { bound < 2048 }
    ensures { OnOk result (code.new.items ≡ code.old.items ++ below_number_code target register bound) }
{
    let below = ImmediateOperation::Sltiu;
    let bound = Immediate12::from_bits(bound);
    code.push(Instr::Immediate(below, target, register, bound))?;
    Ok(())
}

/// Whether a home is below the bound in the loop's second word.
fn below_word(code: &mut Vec<Instr>, home: Reg, next: u32) -> Result<(), AllocError>
    requires { next ≤ 65536 }
    ensures { OnOk result (code.new.items ≡ code.old.items ++ below_word_code home next) }
{
    load(code, Reg::X5, next + WORD_BYTES)?;
    let below = RegisterOperation::Sltu;
    code.push(Instr::Register(below, Reg::X5, home, Reg::X5))?;
    Ok(())
}

/// The iterations of a loop that counts, at least one: the test stands behind the body and the next number.
fn iterations(
    alloc: Global,
    code: &mut Vec<Instr>,
    test: &[Instr],
    counting: &Counting<'_>,
) -> Result<(), AllocError>
    requires test { length test.now ≤ 4 }
    requires body { length counting.now.body.now < 1000 }
    requires mirror { length counting.now.mirror.now ≤ 2 }
    ensures { OnOk result (code.new.items ≡ code.old.items
        ++ iterations_code counting.now.home counting.now.mirror.now test.now counting.now.body.now) }
{
    let home = counting.home;
    let mut round = Vec::new(alloc);
    round.extend_from_slice(counting.body)?;
    add(&mut round, home, 1)?;
    round.extend_from_slice(counting.mirror)?;
    round.extend_from_slice(test)?;
    jumping::again(code, Reg::X5, round.as_slice())?;
    add(code, home, MINUS_ONE)?;
    code.extend_from_slice(counting.mirror)?;
    Ok(())
}

/// The same from the number in a register on, where another is not 0.
fn guarded(
    alloc: Global,
    code: &mut Vec<Instr>,
    below: Reg,
    start: Reg,
    test: &[Instr],
    counting: &Counting<'_>,
) -> Result<(), AllocError>
    requires test { length test.now ≤ 4 }
    requires body { length counting.now.body.now < 1000 }
    requires mirror { length counting.now.mirror.now ≤ 2 }
    ensures { OnOk result (code.new.items ≡ code.old.items
        ++ guarded_code below counting.now.home counting.now.mirror.now start test.now counting.now.body.now) }
{
    let mut arm = Vec::new(alloc);
    move_register(&mut arm, counting.home, start)?;
    arm.extend_from_slice(counting.mirror)?;
    iterations(alloc, &mut arm, test, counting)?;
    jumping::branch(code, below, arm.as_slice(), &[])
}

/// One less than the first number into a home.
fn begin(code: &mut Vec<Instr>, home: Reg, first_number: u32) -> Result<(), AllocError>
    requires { first_number < 2048 }
    ensures { OnOk result (code.new.items ≡ code.old.items ++ begin_code home first_number) }
{
    let less_one = lower_part(first_number + MINUS_ONE);
    code.push(Instr::Immediate(ImmediateOperation::Addi, home, Reg::X0, less_one))?;
    Ok(())
}

/// How much a home is above the last number, which is 0 at that one alone.
fn last_number(code: &mut Vec<Instr>, target: Reg, home: Reg, last: u32) -> Result<(), AllocError>
    requires { last < 2048 }
    ensures { OnOk result (code.new.items ≡ code.old.items ++ last_number_code target home last) }
{
    let less_last = lower_part(FIELDS - last);
    code.push(Instr::Immediate(ImmediateOperation::Addi, target, home, less_last))?;
    Ok(())
}

/// The iterations from a number up to another: the next number comes first, and the test stands behind the body.
fn counted(
    alloc: Global,
    code: &mut Vec<Instr>,
    first_number: u32,
    last: u32,
    counting: &Counting<'_>,
) -> Result<(), AllocError>
    requires first_number { first_number < 2048 }
    requires last { last < 2048 }
    requires body { length counting.now.body.now < 1000 }
    requires mirror { length counting.now.mirror.now ≤ 2 }
    ensures { OnOk result (code.new.items ≡ code.old.items
        ++ counted_code counting.now.home counting.now.mirror.now first_number last counting.now.body.now) }
{
    let home = counting.home;
    let mut iteration = Vec::new(alloc);
    add(&mut iteration, home, 1)?;
    iteration.extend_from_slice(counting.mirror)?;
    iteration.extend_from_slice(counting.body)?;
    last_number(&mut iteration, Reg::X5, home, last)?;
    begin(code, home, first_number)?;
    jumping::again(code, Reg::X5, iteration.as_slice())
}

/// A loop that counts up to a number.
fn to_number(
    alloc: Global,
    code: &mut Vec<Instr>,
    layout: &Layout<'_>,
    low: &Term,
    bound: u32,
    counting: &Counting<'_>,
) -> Result<(), AllocError>
    requires low { IsPlaced layout.now 0 (term_tree low.now) }
    requires bound { bound < 2048 }
    requires body { length counting.now.body.now < 1000 }
    requires mirror { length counting.now.mirror.now ≤ 2 }
    ensures { OnOk result (code.new.items ≡ code.old.items
        ++ to_number_code layout.now counting.now.home counting.now.mirror.now (term_tree low.now) bound
        counting.now.body.now (first_below bound (term_tree low.now))) }
{
    if let Some(first_number) = first_below(bound, low) {
        return counted(alloc, code, first_number, bound - 1, counting);
    }
    let mut test = Vec::new(alloc);
    below_number(&mut test, Reg::X5, counting.home, bound)?;
    let start = read(code, layout, Reg::X5, 0, low)?;
    below_number(code, Reg::X6, start, bound)?;
    guarded(alloc, code, Reg::X6, start, test.as_slice(), counting)
}

/// Both bounds of a loop into its words.
fn bounds(
    code: &mut Vec<Instr>,
    layout: &Layout<'_>,
    next: u32,
    low: &Term,
    high: &Term,
) -> Result<(), AllocError>
    requires low { IsPlaced layout.now 0 (term_tree low.now) }
    requires high { IsPlaced layout.now 0 (term_tree high.now) }
    requires next { next ≤ 65536 }
    ensures { OnOk result (code.new.items ≡ code.old.items
        ++ bounds_code layout.now next (term_tree low.now) (term_tree high.now)) }
{
    assign(code, layout, low, next)?;
    assign(code, layout, high, next + WORD_BYTES)
}

/// Whether the next number of a loop is below its bound.
fn test(code: &mut Vec<Instr>, next: u32) -> Result<(), AllocError>
    requires { next ≤ 65536 }
    ensures { OnOk result (code.new.items ≡ code.old.items ++ test_code next) }
{
    load(code, Reg::X6, next)?;
    load(code, Reg::X5, next + WORD_BYTES)?;
    let below = RegisterOperation::Sltu;
    code.push(Instr::Register(below, Reg::X5, Reg::X6, Reg::X5))?;
    Ok(())
}

/// The next number into the counter, which its mirror follows, and one more for the iteration after this one.
fn count(
    code: &mut Vec<Instr>,
    next: u32,
    counter: &Location,
    mirror: &[Instr],
) -> Result<(), AllocError>
    ensures { OnOk result (code.new.items ≡ code.old.items ++ count_code next counter.now mirror.now) }
{
    match counter {
        Location::InRegister(home) => move_register(code, *home, Reg::X6)?,
        Location::InSlot(offset) => store(code, Reg::X6, *offset)?,
    }
    code.extend_from_slice(mirror)?;
    add(code, Reg::X6, 1)?;
    store(code, Reg::X6, next)
}

/// A loop whose next number lies in the frame, behind its bounds. A jump that does not reach refuses it, or want of
/// memory.
fn tested(
    alloc: Global,
    code: &mut Vec<Instr>,
    next: u32,
    counter: &Location,
    mirror: &[Instr],
    body: &[Instr],
) -> Result<(), Unemitted>
    requires next { next ≤ 65536 }
    ensures code { OnOk result (code.new.items ≡ code.old.items
        ++ to_word_code next counter.now mirror.now body.now None) }
    ensures far { IfErr result (IsFar (length (to_word_code next counter.now mirror.now body.now None))) }
{
    let mut head = Vec::new(alloc);
    test(&mut head, next)?;
    let mut iteration = Vec::new(alloc);
    count(&mut iteration, next, counter, mirror)?;
    iteration.extend_from_slice(body)?;
    jumping::reach(head.len(), iteration.len())?;
    Ok(jumping::repeat(code, head.as_slice(), iteration.as_slice())?)
}

/// A loop that counts up to the bound in its second word, behind its bounds.
fn to_word(
    alloc: Global,
    code: &mut Vec<Instr>,
    next: u32,
    counter: &Location,
    counting: &Counting<'_>,
) -> Result<(), AllocError>
    requires next { next ≤ 65536 }
    requires body { length counting.now.body.now < 1000 }
    requires mirror { length counting.now.mirror.now ≤ 2 }
    ensures { OnOk result (code.new.items ≡ code.old.items
        ++ to_word_code next counter.now counting.now.mirror.now counting.now.body.now (Some counting.now.home)) }
{
    test(code, next)?;
    let mut below = Vec::new(alloc);
    below_word(&mut below, counting.home, next)?;
    guarded(alloc, code, Reg::X5, Reg::X6, below.as_slice(), counting)
}

/// A loop that so many others are around, of the code of its body. A jump that does not reach refuses it, or want of
/// memory.
pub fn repeat(
    alloc: Global,
    code: &mut Vec<Instr>,
    layout: &Layout<'_>,
    depth: u32,
    repeat: &Loop<'_>,
    body: &[Instr],
) -> Result<(), Unemitted>
    requires counter { repeat.now.counter < length layout.now.declared }
    requires depth { depth < layout.now.depths }
    requires low { IsPlaced layout.now 0 (term_tree repeat.now.low.now) }
    requires high { IsPlaced layout.now 0 (term_tree repeat.now.high.now) }
    ensures code { OnOk result (code.new.items ≡ code.old.items
        ++ repeat_code layout.now depth repeat.now.counter (term_tree repeat.now.low.now)
        (term_tree repeat.now.high.now) repeat.now.is_set body.now) }
    ensures far { IfErr result (IsFar (length
        (repeat_code layout.now depth repeat.now.counter (term_tree repeat.now.low.now)
        (term_tree repeat.now.high.now) repeat.now.is_set body.now))) }
{
    let next = layout.next(depth);
    let counter = layout.variable_location(repeat.counter);
    let mut mirror = Vec::new(alloc);
    layout.mirror(&mut mirror, repeat.counter)?;
    let mirror = mirror.as_slice();
    let Some(home) = counting_home(&counter, repeat.is_set, body) else {
        bounds(code, layout, next, repeat.low, repeat.high)?;
        return tested(alloc, code, next, &counter, mirror, body);
    };
    let counting = Counting { home, mirror, body };
    match short_number(repeat.high) {
        Some(bound) => Ok(to_number(alloc, code, layout, repeat.low, bound, &counting)?),
        None => {
            bounds(code, layout, next, repeat.low, repeat.high)?;
            Ok(to_word(alloc, code, next, &counter, &counting)?)
        }
    }
}
