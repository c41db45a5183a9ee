// Two runs of a function, each on secrets of its own, of which an observer sees not the same.

ghost use Rattle.std.specs.Prelude.{◌≡◌, ◌^◌, ◌<◌, [], None, IfErr, IfOk, IfSome, OnOk};
ghost use Rattle.elf_memory.specs.declared.asked.Asked.{Asked};
ghost use Rattle.elf_runs.specs.Needs.{first_unmet, IsTold, needs};
ghost use Rattle.elf_runs.specs.declared.fault.StartFault.{StartFault};
ghost use Rattle.elf_witnesses.specs.Drawn.{numbers_of, tries_of};
ghost use Rattle.elf_witnesses.specs.Witnessed.{FoundFirst, IsWitness, SetEachSecret, SetsBesides, ShowsSame};
ghost use Rattle.elf_runs.specs.Calls.{LeadThere};
ghost use Rattle.elf_runs.specs.Loading.{machine_program, state_at_start};
ghost use Rattle.elf_witnesses.specs.private.ComparedRuns.{ComparedBy, IsTried};
ghost use Rattle.elf_witnesses.specs.private.Loaded.{IsLoaded};

use crate::comparing::{Comparison, Reached, compare};
use crate::secrets::{first_secrets, other_secrets};
use elf::Program;
use elf_memory::{Asked, Setting};
use elf_runs::{
    Calls, LoadedFunction, RunOptions, StartFault, calls_behind_entries, load_function,
};
use rand_pcg::Pcg32;
use std::alloc::Global;

/// What the pseudo-random numbers begin with: state and stream of the demonstration of the generator's authors, `pcg32`
/// of pcg-random.org. They are the same in each call, so that what was found is found again.
const FIRST_STATE: u64 = 42;

const STREAM: u64 = 54;

/// Two runs that differ: what is secret in each of them, the first entry that differs, counted from 0, the last step of
/// the first run that begins before it, and the calls that lead there, the last one first.
#[derive(Drop)]
pub struct Witness {
    pub one: Vec<Setting>,
    pub other: Vec<Setting>,
    pub entry: u64,
    pub step: Reached,
    pub calls: Calls,
}

/// The function, loaded as it is asked for with more that is set. Afterwards that is not part of the request any more.
fn load_besides(
    alloc: Global,
    program: &Program<'_>,
    asked: &mut Asked,
    options: RunOptions,
    more: &mut Vec<Setting>,
) -> Result<LoadedFunction, StartFault>
    requires met { first_unmet (needs program.now asked.old) ≡ None }
    requires each { SetEachSecret program.now asked.old.secrets.items more.old.items }
    ensures loaded { IfOk result (λ loaded. (besides : Asked)
        × SetsBesides asked.old more.old.items besides
        × IsLoaded program.now besides options loaded) }
    ensures asked { OnOk result (SetsBesides asked.old [] asked.new) }
    ensures more { OnOk result (more.new.items ≡ more.old.items) }
    ensures fault { IfErr result (λ fault. fault ≡ StartFault.Memory) }
{
    let set = asked.settings.len();
    asked.settings.append(more)?;
    let loaded = load_function(alloc, program, asked, options)?;
    *more = asked.settings.split_off(set)?;
    Ok(loaded)
}

/// Two runs of the function, the one with these secrets and the other with those, compared.
fn compare_by(
    alloc: Global,
    program: &Program<'_>,
    asked: &mut Asked,
    options: RunOptions,
    one: &mut Vec<Setting>,
    other: &mut Vec<Setting>,
) -> Result<Comparison, StartFault>
    requires few { options.steps < 2 ^ 63 }
    requires met { first_unmet (needs program.now asked.old) ≡ None }
    requires each { SetEachSecret program.now asked.old.secrets.items one.old.items }
    requires each_other { SetEachSecret program.now asked.old.secrets.items other.old.items }
    ensures compared { IfOk result (ComparedBy program.now asked.old options one.old.items other.old.items) }
    ensures asked { OnOk result (SetsBesides asked.old [] asked.new) }
    ensures one { OnOk result (one.new.items ≡ one.old.items) }
    ensures other { OnOk result (other.new.items ≡ other.old.items) }
    ensures fault { IfErr result (λ fault. fault ≡ StartFault.Memory) }
{
    let mut first = load_besides(alloc, program, asked, options, one)?;
    let mut second = load_besides(alloc, program, asked, options, other)?;
    Ok(compare(
        &first.program,
        &mut first.run,
        &second.program,
        &mut second.run,
    ))
}

/// The calls that lead to the step behind so many entries of the function's run with these secrets.
fn calls_by(
    alloc: Global,
    program: &Program<'_>,
    asked: &mut Asked,
    options: RunOptions,
    secrets: &mut Vec<Setting>,
    entries: u64,
) -> Result<Calls, StartFault>
    requires met { first_unmet (needs program.now asked.old) ≡ None }
    requires each { SetEachSecret program.now asked.old.secrets.items secrets.old.items }
    ensures calls { IfOk result (λ calls. (besides : Asked)
        × SetsBesides asked.old secrets.old.items besides
        × LeadThere (machine_program program.now besides options.profile) (state_at_start program.now besides)
        entries calls.items) }
    ensures asked { OnOk result (SetsBesides asked.old [] asked.new) }
    ensures secrets { OnOk result (secrets.new.items ≡ secrets.old.items) }
    ensures fault { IfErr result (λ fault. fault ≡ StartFault.Memory) }
{
    let mut loaded = load_besides(alloc, program, asked, options, secrets)?;
    Ok(calls_behind_entries(
        &loaded.program,
        &mut loaded.run.hart,
        &mut loaded.run.memory,
        entries,
    ))
}

/// The witness that these secrets are, if they are one.
fn witness_by(
    alloc: Global,
    program: &Program<'_>,
    asked: &mut Asked,
    options: RunOptions,
    mut one: Vec<Setting>,
    mut other: Vec<Setting>,
) -> Result<Option<Witness>, StartFault>
    requires few { options.steps < 2 ^ 63 }
    requires met { first_unmet (needs program.now asked.old) ≡ None }
    requires each { SetEachSecret program.now asked.old.secrets.items one.items }
    requires each_other { SetEachSecret program.now asked.old.secrets.items other.items }
    ensures witness { IfOk result (λ found.
        IfSome found (λ witness. IsWitness program.now asked.old options witness)) }
    ensures given { IfOk result (λ found. IfSome found (λ witness.
        (witness.one.items ≡ one.items) × (witness.other.items ≡ other.items))) }
    ensures same { IfOk result (λ found.
        found ≡ None → ShowsSame program.now asked.old options one.items other.items) }
    ensures asked { OnOk result (SetsBesides asked.old [] asked.new) }
    ensures fault { IfErr result (λ fault. fault ≡ StartFault.Memory) }
{
    let compared = compare_by(alloc, program, asked, options, &mut one, &mut other)?;
    let Comparison::Differ { entry, step } = compared else {
        return Ok(None);
    };
    let calls = calls_by(alloc, program, asked, options, &mut one, step.entries)?;
    Ok(Some(Witness {
        one,
        other,
        entry,
        step,
        calls,
    }))
}

/// The witness that the secrets of a try are, if they are one.
fn witness_of_try(
    alloc: Global,
    program: &Program<'_>,
    asked: &mut Asked,
    options: RunOptions,
    random: &mut Pcg32,
    attempt: u64,
) -> Result<Option<Witness>, StartFault>
    requires few { options.steps < 2 ^ 63 }
    requires met { first_unmet (needs program.now asked.old) ≡ None }
    ensures tried { IfOk result (IsTried program.now asked.old options attempt (numbers_of random.old)
        (numbers_of random.new)) }
    ensures asked { OnOk result (SetsBesides asked.old [] asked.new) }
    ensures fault { IfErr result (λ fault. fault ≡ StartFault.Memory) }
{
    let one = first_secrets(alloc, program, &asked.secrets, random, attempt)?;
    let other = other_secrets(alloc, &one, random, attempt)?;
    witness_by(alloc, program, asked, options, one, other)
}

/// Two runs of a function that differ in what is secret alone, and of which an observer sees not the same: those of the
/// first of so many tries that has such runs, and none where no try has. In each try each secret has pseudo-random
/// bytes, or zeros, in both runs, the same ones in each call; all else that is not known (arguments that are any word,
/// other registers, the stack) stays as it stands when a run begins, as zeros. That none is found promises nothing of
/// other secrets. What the request does not meet is refused.
pub fn find_witness(
    alloc: Global,
    program: &Program<'_>,
    mut asked: Asked,
    options: RunOptions,
    tries: u64,
) -> Result<Option<Witness>, StartFault>
    requires { options.steps < 2 ^ 63 }
    ensures witness { IfOk result (λ found. IfSome found (λ witness. IsWitness program.now asked options witness)) }
    ensures first { IfOk result (λ found.
        FoundFirst program.now asked options (tries_of program.now asked tries) found) }
    ensures met { IfOk result (λ _. first_unmet (needs program.now asked) ≡ None) }
    ensures fault { IfErr result (λ fault. IsTold fault (needs program.now asked)) }
{
    // Before this no object's size makes anything grow.
    load_function(alloc, program, &asked, options)?;
    let mut random = Pcg32::new(FIRST_STATE, STREAM);
    'tries: for attempt in 0..tries {
        let found = witness_of_try(alloc, program, &mut asked, options, &mut random, attempt)?;
        if found.is_some() {
            return Ok(found);
        }
    }
    Ok(None)
}
