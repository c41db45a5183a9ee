// What a source is judged to be, for an observer: what is refused first, and the program, parameters and result of an
// accepted source.

ghost use Rattle.std.specs.Prelude.{◌≡◌, List, map, IfOk, IfErr};
ghost use Rattle.hepurita.specs.Below.{flattened, param_of, ProcedureTree, program_tree};
ghost use Rattle.hepurita.specs.Built.{IsSmall, Judges, JudgesProgram, IsRefusal, accepts};
ghost use Rattle.hepurita.specs.Told.{IsRefusalOf, IsToldOfProgram};

use crate::flattening::{Flattened, flatten};
use inline::{Flat, inline};
use labels::check_as;
use language::{Param, Profile, Program, Refusal, WordType};
use std::alloc::Global;

/// The export of a program that violates no rule on names, types and labels, with the bodies that it
/// calls as one body within the limits on size; or the first refusal.
pub(crate) fn flat_of(alloc: Global, program: &Program, profile: Profile) -> Result<Flat, Refusal>
    ensures accepted { IfOk result (λ flat. (before : List ProcedureTree) × (export : ProcedureTree)
        × IsSmall profile (program_tree program.now) before export
        × (flat ≡ flattened profile before export)) }
    ensures refused { IfErr result (IsRefusal (JudgesProgram profile (program_tree program.now))) }
    ensures told { IfErr result (IsToldOfProgram profile (program_tree program.now)) }
{
    let checked = check_as(alloc, program, profile)?;
    inline(alloc, &checked)
}

/// An accepted source's program, and of its export the parameters, and the type of the result where there is one.
#[derive(Drop)]
pub struct Accepted {
    pub program: Program,
    pub params: Vec<Param>,
    pub returned: Option<WordType>,
}

/// The program of a source that is accepted for an observer of profile 1, or the first refusal: the one that
/// `build` names, which tells what was found there.
pub fn judge(alloc: Global, source: &str) -> Result<Accepted, Refusal>
    ensures accepted { IfOk result (λ accepted. (before : List ProcedureTree) × (export : ProcedureTree)
        × Judges Profile.P1 source.now (accepts (program_tree accepted.program) before export)
        × (accepted.params.items ≡ map param_of export.parameters)
        × (accepted.returned ≡ export.result)) }
    ensures refused { IfErr result (IsRefusalOf Profile.P1 source.now) }
{
    judge_as(alloc, source, Profile::P1)
}

/// The same for an observer of this profile: the refusal is the one that `build_as` names.
pub fn judge_as(alloc: Global, source: &str, profile: Profile) -> Result<Accepted, Refusal>
    ensures accepted { IfOk result (λ accepted. (before : List ProcedureTree) × (export : ProcedureTree)
        × Judges profile source.now (accepts (program_tree accepted.program) before export)
        × (accepted.params.items ≡ map param_of export.parameters)
        × (accepted.returned ≡ export.result)) }
    ensures refused { IfErr result (IsRefusalOf profile source.now) }
{
    let flattened = flatten(alloc, source, profile)?;
    drop(flattened.ranged(alloc)?);
    let Flattened { program, flat } = flattened;
    let params = flat.parameters().to_vec(alloc)?;
    Ok(Accepted {
        program,
        params,
        returned: flat.returned(),
    })
}
