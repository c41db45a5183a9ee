// A statement's code, and how many slots and how many loops in one another statements take.

ghost use Rattle.std.specs.Prelude.{◌≡◌, ◌++◌, ◌+◌, ◌*◌, ◌<◌, ◌≤◌, map, length, IfErr, OnOk};
ghost use Rattle.codegen.specs.Below.{array_words, straight_block, straight_tree, term_tree, variable as variable_tree};
ghost use Rattle.branch_removal.specs.Straight as straight;
ghost use Rattle.codegen.specs.private.Emitted.{branching_code, set_code, statement_code, block_code};
ghost use Rattle.expression_code.specs.Layout.{variable_location};
ghost use Rattle.codegen.specs.private.Jumps.{AreNear, IsFar};
ghost use Rattle.codegen.specs.private.Placed.{IsPlaced, HasPlace, HavePlaces};
ghost use Rattle.codegen.specs.private.WordPuts.{word_code};

use crate::assigned::any_sets;
use crate::loops::Loop;
use crate::reading::{assign, gives_zero, read};
use crate::unemitted::Unemitted;
use crate::word_puts::{WordPut, word_put};
use crate::{arrays, comparing, jumping, loops, masking};
use branch_removal::StraightStatement;
use expression_code::{Layout, Location, emit, fetch, into};
use inline::Term;
use language::Kind;
use rv_code::{Instr, Reg};
use std::alloc::{AllocError, Global};

/// How many instructions an arm that a branch goes over has less than: a branch reaches 2^11 halves ahead, which are
/// 1,023 instructions, and there may be a jump behind the arm.
const SHORT_ARM: usize = 1000;

/// How many words an array of so many elements takes.
fn words(kind: Kind, size: u32) -> u32
    requires { size ≤ 65536 }
    ensures { result ≡ array_words kind size }
{
    (size * u32::from(kind.element_bytes())).div_ceil(4)
}

/// Sets a variable. Within a control value it is written in any case.
fn set(
    code: &mut Vec<Instr>,
    layout: &Layout<'_>,
    within: Option<u32>,
    variable: u32,
    value: &Term,
) -> Result<(), AllocError>
    requires { HasPlace layout.now 0 (straight.set within variable (term_tree value.now)) }
    ensures { OnOk result (code.new.items ≡ code.old.items
        ++ set_code layout.now within (variable_location layout.now.declared layout.now.allocation variable)
        (term_tree value.now)) }
{
    let variable = layout.variable_location(variable);
    let Some(control) = within else {
        return match variable {
            Location::InRegister(home) => into(layout, code, home, 0, value),
            Location::InSlot(offset) => assign(code, layout, value, offset),
        };
    };
    let control = layout.control_location(control);
    if gives_zero(layout, value) {
        return masking::erase_under(code, &variable, &control);
    }
    let value = read(code, layout, Reg::X5, 0, value)?;
    let mask = control.register(Reg::X7);
    match variable {
        Location::InRegister(home) => {
            fetch(code, &control, Reg::X7)?;
            masking::merge(code, home, Reg::X5, value, home, mask)
        }
        Location::InSlot(offset) => {
            emit::load(code, Reg::X6, offset)?;
            fetch(code, &control, Reg::X7)?;
            masking::merge(code, Reg::X5, Reg::X5, value, Reg::X6, mask)?;
            emit::store(code, Reg::X5, offset)
        }
    }
}

/// A new array of so many elements: its first values, or zeros where none are given.
fn array(
    alloc: Global,
    code: &mut Vec<Instr>,
    layout: &Layout<'_>,
    variable: u32,
    size: u32,
    values: &[Term],
) -> Result<(), AllocError>
    requires { HasPlace layout.now 0 (straight.array variable size (map term_tree values.now)) }
    ensures { OnOk result (code.new.items ≡ code.old.items
        ++ statement_code layout.now 0 (straight.array variable size (map term_tree values.now))) }
{
    let kind = layout.kind(variable);
    let offset = layout.variable(variable);
    if values.is_empty() {
        return arrays::clear(alloc, code, offset, words(kind, size));
    }
    arrays::fill(code, layout, kind, offset, values)
}

/// A condition, taken into a control value and the next.
fn take(
    code: &mut Vec<Instr>,
    layout: &Layout<'_>,
    control: u32,
    within: Option<u32>,
    condition: &Term,
) -> Result<(), AllocError>
    requires { HasPlace layout.now 0 (straight.take control within (term_tree condition.now)) }
    ensures { OnOk result (code.new.items ≡ code.old.items
        ++ statement_code layout.now 0 (straight.take control within (term_tree condition.now))) }
{
    let condition = read(code, layout, Reg::X5, 0, condition)?;
    let accepted = masking::target_of(layout, control, Reg::X7);
    let otherwise = masking::target_of(layout, control + 1, Reg::X5);
    masking::taken(code, layout, &accepted, &otherwise, condition, within)?;
    masking::keep(code, layout, control, Reg::X7)?;
    masking::keep(code, layout, control + 1, Reg::X5)
}

/// Of two arms one, by a condition, which a branch over a short arm tests where numbers go into instructions.
fn branch(
    code: &mut Vec<Instr>,
    layout: &Layout<'_>,
    condition: &Term,
    accepted: &[Instr],
    otherwise: &[Instr],
) -> Result<(), AllocError>
    requires condition { IsPlaced layout.now 0 (term_tree condition.now) }
    requires near { AreNear (length accepted.now) (length otherwise.now) }
    ensures { OnOk result (code.new.items ≡ code.old.items
        ++ branching_code layout.now (term_tree condition.now) accepted.now otherwise.now) }
{
    if layout.immediates() && accepted.len() < SHORT_ARM {
        let test = comparing::condition(code, layout, condition)?;
        return jumping::unless(code, &test, accepted, otherwise);
    }
    let register = read(code, layout, Reg::X5, 0, condition)?;
    jumping::branch(code, register, accepted, otherwise)
}

/// A variable into a word of the frame.
fn store_word(code: &mut Vec<Instr>, layout: &Layout<'_>, put: WordPut) -> Result<(), AllocError>
    requires { IsPlaced layout.now 0 (variable_tree put.variable) }
    ensures { OnOk result (code.new.items ≡ code.old.items ++ word_code layout.now put) }
{
    assign(code, layout, &Term::Variable(put.variable), put.offset)
}

/// A statement that so many loops are around. A jump that does not reach refuses it, or running out of memory.
#[cycle(statements)]
fn statement(
    alloc: Global,
    code: &mut Vec<Instr>,
    layout: &Layout<'_>,
    depth: u32,
    statement: &StraightStatement,
) -> Result<(), Unemitted>
    requires placed { HasPlace layout.now depth (straight_tree statement.now) }
    ensures code { OnOk result (code.new.items ≡ code.old.items
        ++ statement_code layout.now depth (straight_tree statement.now)) }
    ensures far { IfErr result (IsFar (length (statement_code layout.now depth (straight_tree statement.now)))) }
{
    match statement {
        StraightStatement::Set(within, variable, value) => {
            set(code, layout, *within, *variable, value)?;
            Ok(layout.mirror(code, *variable)?)
        }
        StraightStatement::Array(variable, size, values) => {
            Ok(array(alloc, code, layout, *variable, *size, values)?)
        }
        StraightStatement::Put(within, _, variable, _, index, value) => {
            Ok(arrays::put(code, layout, *within, *variable, index, value)?)
        }
        StraightStatement::Take(control, within, condition) => {
            Ok(take(code, layout, *control, *within, condition)?)
        }
        StraightStatement::Branch(condition, accepted, otherwise) => {
            let mut one = Vec::new(alloc);
            statements(alloc, &mut one, layout, depth, accepted)?;
            let mut other = Vec::new(alloc);
            statements(alloc, &mut other, layout, depth, otherwise)?;
            jumping::reach(one.len(), other.len())?;
            branch(code, layout, condition, one.as_slice(), other.as_slice())?;
            Ok(())
        }
        StraightStatement::Repeat(counter, low, high, body) => {
            let mut iteration = Vec::new(alloc);
            statements(alloc, &mut iteration, layout, depth + 1, body)?;
            let repeat = Loop {
                counter: *counter,
                low,
                high,
                is_set: any_sets(body, *counter),
            };
            loops::repeat(alloc, code, layout, depth, &repeat, iteration.as_slice())
        }
    }
}

/// Statements that so many loops are around, one after the other. Four that put the bytes of a word are one store.
#[cycle(statements)]
pub fn statements(
    alloc: Global,
    code: &mut Vec<Instr>,
    layout: &Layout<'_>,
    depth: u32,
    statements: &[StraightStatement],
) -> Result<(), Unemitted>
    requires placed { HavePlaces layout.now depth (straight_block statements.now) }
    ensures code { OnOk result (code.new.items ≡ code.old.items
        ++ block_code layout.now depth (straight_block statements.now)) }
    ensures far { IfErr result (IsFar (length (block_code layout.now depth (straight_block statements.now)))) }
{
    let mut rest = statements;
    while let Some((each, more)) = rest.split_first() {
        if let Some(put) = word_put(layout, rest) {
            store_word(code, layout, put)?;
            rest = &more[3..];
        } else {
            statement(alloc, code, layout, depth, each)?;
            rest = more;
        }
    }
    Ok(())
}
