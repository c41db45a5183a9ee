ghost use Rattle.std.specs.Prelude.{◌≡◌, [], ◌∷◌, ◌++◌, ◌+◌, ◌*◌, ◌<◌, ◌≤◌, ◌^◌, length, map, All, OnOk, IfOk, IfErr};
ghost use Rattle.std.specs.Prelude.{IfSome, IfNone};
ghost use Rattle.std.specs.Option.{option_map};
ghost use Rattle.codegen.specs.Exact.{fields_of, optimised_fields_of, optimised_variables};
ghost use Rattle.codegen.specs.Followed.{IsGenerated};
ghost use Rattle.codegen.specs.private.Fresh.{homes_but, starts_fresh};
ghost use Rattle.codegen.specs.Below.{Ecall, most_nodes, most_work, program_height, word_of};
ghost use Rattle.expression_code.specs.Allocation.{home_of, slots_to};
ghost use Rattle.expression_code.specs.Layout.{slotted};
ghost use Rattle.codegen.specs.private.Generated.{entry_code, first_code, mirrors_code, program_code, result_slot};
ghost use Rattle.codegen.specs.private.Generated.{most_words, step_limit, image_of, image_within};
ghost use Rattle.codegen.specs.private.Jumps.{IsFar};
ghost use Rattle.codegen.specs.private.Room.{HasRoom, IsFitting, frame_of};
ghost use Rattle.expression_code.specs.image_fields.Fields.{IsImage};
ghost use Rattle.language.specs.WantOfMemory.{IsWantOfMemory};

use crate::Code;
use crate::control_uses::unread_controls;
use crate::fresh::starts_fresh;
use crate::heights::{program_extent, temporary_registers};
use crate::homes::{is_no_array, word_homes};
use crate::reading::assign;
use crate::statements::statements;
use crate::unemitted::Unemitted;
use branch_removal::{Straight, StraightCode};
use expression_code::image_fields::{ImageFields, ResultSlot};
use expression_code::{
    Allocation, Layout, REGISTER_COUNT, WORD_BYTES, emit, offsets, slots, slotted,
};
use inline::FlatVariable;
use language::Refusal;
use rv_code::{Instr, Reg, encode};
use std::alloc::{AllocError, Global};

/// The register of the first temporary.
const FIRST_TEMPORARY: u32 = 5;

/// The words of instructions.
fn words(alloc: Global, code: &[Instr]) -> Result<Vec<u32>, AllocError>
    ensures words { IfOk result (λ words. words.items ≡ map word_of code.now) }
    ensures fit { IfOk result (λ words. All (λ word. word < 2 ^ 32) words.items) }
{
    let mut words = Vec::with_capacity(alloc, code.len())?;
    for instruction in code {
        words.push(encode(*instruction))?;
    }
    Ok(words)
}

/// What the home of a word gets first: what lies in its slot, and 0 where it has none.
fn begin(
    code: &mut Vec<Instr>,
    layout: &Layout<'_>,
    number: usize,
    home: Reg,
) -> Result<(), AllocError>
    requires { number < length layout.now.declared + layout.now.controls }
    ensures { OnOk result (code.new.items ≡ code.old.items ++ first_code layout.now.declared number home) }
{
    if is_no_array(layout.declared(), number) {
        emit::load(code, home, layout.word(number))
    } else {
        emit::constant(code, home, 0)
    }
}

/// The same of all words that have homes, but those that start fresh.
fn enter(
    code: &mut Vec<Instr>,
    straight: &StraightCode<'_>,
    layout: &Layout<'_>,
) -> Result<(), AllocError>
    requires { length layout.now.allocation.homes ≤ length layout.now.declared + layout.now.controls }
    ensures { OnOk result (code.new.items ≡ code.old.items
        ++ entry_code layout.now.declared 0 (homes_but (starts_fresh straight.now) 0 layout.now.allocation.homes)) }
{
    for (number, home) in layout.homes().iter().enumerate() {
        if let Some(register) = home {
            if !starts_fresh(straight, number) {
                begin(code, layout, number, *register)?;
            }
        }
    }
    Ok(())
}

/// The end of a program.
fn end(code: &mut Vec<Instr>) -> Result<(), AllocError>
    ensures { OnOk result (code.new.items ≡ code.old.items ++ Ecall ∷ []) }
{
    code.push(Instr::Ecall)?;
    Ok(())
}

/// The home of a word, where it has one.
fn home_of(homes: &[Option<Reg>], number: usize) -> Option<Reg>
    ensures { result ≡ home_of homes.now number }
{
    homes.get(number).copied().unwrap_or(None)
}

/// The mirrors of the same words follow them.
fn enter_mirrors(
    code: &mut Vec<Instr>,
    straight: &StraightCode<'_>,
    allocation: &Allocation<'_>,
) -> Result<(), AllocError>
    ensures { OnOk result (code.new.items ≡ code.old.items
        ++ mirrors_code (homes_but (starts_fresh straight.now) 0 allocation.now.homes) 0 allocation.now.mirrors) }
{
    for (number, mirror) in allocation.mirrors().iter().enumerate() {
        if !starts_fresh(straight, number) {
            emit::mirror(code, home_of(allocation.homes(), number), *mirror)?;
        }
    }
    Ok(())
}

/// The instructions of a program, in its layout.
fn program_code(
    alloc: Global,
    straight: &StraightCode<'_>,
    layout: &Layout<'_>,
) -> Result<Vec<Instr>, Unemitted>
    requires room { HasRoom straight.now }
    requires fitting { IsFitting straight.now layout.now.allocation }
    requires frame { layout.now ≡ frame_of layout.now.allocation straight.now }
    ensures code { IfOk result (λ code. code.items ≡ program_code layout.now.allocation straight.now) }
    ensures far { IfErr result (IsFar (length (program_code layout.now.allocation straight.now))) }
{
    let mut code = Vec::new(alloc);
    enter(&mut code, straight, layout)?;
    enter_mirrors(&mut code, straight, layout.allocation())?;
    statements(alloc, &mut code, layout, 0, straight.body())?;
    if let Some(value) = straight.value() {
        assign(&mut code, layout, value, layout.result())?;
    }
    end(&mut code)?;
    Ok(code)
}

/// How many words an image may have, by the nodes of the source.
fn most_words(nodes: u32) -> u32
    requires { nodes ≤ most_nodes }
    ensures { result ≡ most_words nodes }
{
    32 * nodes + 64
}

/// The same, where an image may have as many.
fn code_within(
    alloc: Global,
    straight: &StraightCode<'_>,
    layout: &Layout<'_>,
) -> Result<Option<Vec<Instr>>, Refusal>
    requires room { HasRoom straight.now }
    requires fitting { IsFitting straight.now layout.now.allocation }
    requires frame { layout.now ≡ frame_of layout.now.allocation straight.now }
    ensures code { IfOk result (λ made. IfSome made
        (λ code. code.items ≡ program_code layout.now.allocation straight.now)) }
    ensures within { IfOk result (λ made. IfSome made (λ code. length code.items ≤ most_words straight.now.nodes)) }
    ensures beyond { IfOk result (λ made. IfNone made
        (most_words straight.now.nodes < length (program_code layout.now.allocation straight.now))) }
    ensures memory { IfErr result (λ refusal. IsWantOfMemory refusal.rule refusal.place) }
{
    let limit = most_words(straight.nodes()) as usize;
    match program_code(alloc, straight, layout) {
        Ok(code) if code.len() <= limit => Ok(Some(code)),
        Ok(_) | Err(Unemitted::TooFar) => Ok(None),
        Err(Unemitted::Memory) => Err(Refusal::memory()),
    }
}

/// How many slots temporaries take, of which so many are there at once, beside the first.
fn temporary_slots(height: u32, layout: &Layout<'_>) -> u32
    requires { height ≤ 6000 }
    ensures { result ≡ slots_to layout.now.allocation.count height }
{
    (height + 1).saturating_sub(layout.register_count())
}

/// The slot of the result, where there is one.
fn result_slot(straight: &StraightCode<'_>, layout: &Layout<'_>) -> Option<ResultSlot>
    ensures { result ≡ option_map (result_slot layout.now.declared) straight.now.returned }
{
    let word = straight.returned()?;
    Some(ResultSlot {
        kind: word.kind,
        label: word.label,
        offset: layout.result(),
    })
}

/// How many instructions a run may take, by the work.
fn step_limit(work: u64) -> u64
    requires { work ≤ most_work }
    ensures { result ≡ step_limit work }
{
    32 * work + 64
}

/// The fields of the image of straight code in its layout, as the definition lists them.
fn listed(
    alloc: Global,
    straight: &StraightCode<'_>,
    layout: &Layout<'_>,
    height: u32,
    code: &[Instr],
) -> Result<ImageFields, AllocError>
    requires room { HasRoom straight.now }
    requires fitting { IsFitting straight.now layout.now.allocation }
    requires frame { layout.now ≡ frame_of layout.now.allocation straight.now }
    requires height { height ≡ program_height straight.now }
    requires few { height ≤ 6000 }
    requires code { code.now ≡ program_code layout.now.allocation straight.now }
    requires within { length code.now ≤ most_words straight.now.nodes }
    ensures exact { IfOk result (λ fields. fields ≡ image_of layout.now.allocation straight.now) }
    ensures allowed { IfOk result IsImage }
{
    let returned = result_slot(straight, layout);
    let slots = slots(alloc, straight.parameters())?;
    let words = words(alloc, code)?;
    let frame_bytes = layout.temporaries() + WORD_BYTES * temporary_slots(height, layout);
    let max_steps = step_limit(straight.work());
    let profile = straight.profile();
    Ok(ImageFields::new(profile, slots, returned, frame_bytes, max_steps, words))
}

/// A program's variables as they are laid out, where words have these homes.
fn laid_out(
    alloc: Global,
    straight: &StraightCode<'_>,
    homes: &[Option<Reg>],
) -> Result<Vec<FlatVariable>, AllocError>
    ensures { IfOk result (λ laid. laid.items
        ≡ slotted (length straight.now.parameters) homes.now straight.now.declared) }
{
    slotted(
        alloc,
        straight.parameters().len(),
        homes,
        straight.declared(),
    )
}

/// The code of a straight program, with registers given out so, where it has no more words than it may have.
fn generate_with(
    alloc: Global,
    straight: &StraightCode<'_>,
    allocation: Allocation<'_>,
) -> Result<Option<Code>, Refusal>
    requires { IsFitting straight.now allocation }
    ensures generated { IfOk result (λ made. IfSome made (IsGenerated straight.now)) }
    ensures exact { IfOk result (λ made. made ≡ image_within allocation.entry straight.now) }
    ensures allowed { IfOk result (λ made. IfSome made IsImage) }
    ensures memory { IfErr result (λ refusal. IsWantOfMemory refusal.rule refusal.place) }
{
    let extent = program_extent(straight);
    let laid = laid_out(alloc, straight, allocation.homes())?;
    let declared = laid.as_slice();
    let offsets = offsets(alloc, declared)?;
    let layout = Layout::new(
        declared,
        offsets.as_slice(),
        straight.controls(),
        extent.depth,
        allocation,
    );
    let Some(code) = code_within(alloc, straight, &layout)? else {
        return Ok(None);
    };
    let fields = listed(alloc, straight, &layout, extent.height, code.as_slice())?;
    Ok(Some(Code::new(fields)))
}

/// The code of a straight program. The machine, running it, follows the program: the outcome is that of the program,
/// and what it shows is decided by what the program's observer sees of the path. The program alone decides which code
/// it is. It is refused only when out of memory.
pub fn generate(alloc: Global, straight: &Straight<'_>) -> Result<Code, Refusal>
    ensures generated { IfOk result (IsGenerated straight.now) }
    ensures exact { IfOk result (λ code. code ≡ fields_of straight.now) }
    ensures allowed { IfOk result IsImage }
    ensures memory { IfErr result (λ refusal. IsWantOfMemory refusal.rule refusal.place) }
{
    let homes = Vec::new(alloc);
    let allocation = Allocation::new(REGISTER_COUNT, homes.as_slice());
    match generate_with(alloc, straight.code(), allocation)? {
        Some(code) => Ok(code),
        None => unreachable!(),
    }
}

/// The same with words in registers and numbers in instructions: the variables and control values that are used most
/// live in a register each, for the whole run, and a number gets none where an instruction holds it. A program may have
/// been made longer than its source, as by unrolling; there is no code where it has more words than are promised for
/// the nodes of the source.
pub fn generate_optimised(
    alloc: Global,
    straight: &StraightCode<'_>,
) -> Result<Option<Code>, Refusal>
    ensures generated { IfOk result (λ made. IfSome made (IsGenerated straight.now)) }
    ensures exact { IfOk result (λ made. made ≡ optimised_fields_of straight.now) }
    ensures allowed { IfOk result (λ made. IfSome made IsImage) }
    ensures memory { IfErr result (λ refusal. IsWantOfMemory refusal.rule refusal.place) }
{
    let count = temporary_registers(straight);
    let found = word_homes(alloc, straight, FIRST_TEMPORARY + count)?;
    let unread = unread_controls(alloc, straight)?;
    let allocation = Allocation::new(count, found.homes.as_slice()).with_immediates(
        unread.as_slice(),
        found.mirrors.as_slice(),
    );
    generate_with(alloc, straight, allocation)
}

/// The variables of a program as that image lays them out: one that lives in a register, and is no parameter, takes no
/// words.
pub fn optimised_variables(
    alloc: Global,
    straight: &StraightCode<'_>,
) -> Result<Vec<FlatVariable>, AllocError>
    ensures { IfOk result (λ laid. laid.items ≡ optimised_variables straight.now) }
{
    let count = temporary_registers(straight);
    let found = word_homes(alloc, straight, FIRST_TEMPORARY + count)?;
    laid_out(alloc, straight, found.homes.as_slice())
}
