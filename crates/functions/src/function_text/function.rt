// The function of a source.

ghost use Rattle.std.specs.Prelude.{◌≡◌, false, List, [], ◌++◌, Some, map, IfOk, IfErr};
ghost use Rattle.std.specs.String.{string_bytes};
ghost use Rattle.functions.specs.function_text.Functions.{IsFunctionOf, IsFaultOf, IsUnlessMemory, named, pace_of};
ghost use Rattle.functions.specs.function_text.Functions.{parts_of};
ghost use Rattle.functions.specs.function_text.Functions.{written_parameter};
ghost use Rattle.functions.specs.function_text.Names.{is_taken_function};
ghost use Rattle.functions.specs.function_text.private.OfExport.{IsOfExport, NameIsTaken};
ghost use Rattle.functions.specs.Below.{exported, IsWantOfMemory, parameter_tree, procedure_tree, ProcedureTree};
ghost use Rattle.functions.specs.Below.{program_tree};
ghost use Rattle.compilation.specs.Needs.{needs_as};

use crate::function_text::fault::FunctionFault;
use crate::function_text::naming::{Macros, is_taken_function, macros_of, written_name};
use codegen::Code;
use expression_code::image_fields::ImageFields;
use hepurita::{Compiled, FrameNeeds, Optimisation, compile_with};
use language::{Name, Param, Parameter, Procedure, Profile, Program, Refusal};
use linked_calls::Pace;
use std::alloc::{AllocError, Global};

/// A parameter under the name that is written for it.
#[derive(Drop)]
pub struct NamedParam {
    pub name: String,
    pub param: Param,
}

/// A function for C: the code of the image of an accepted source, under the names of its export.
#[derive(Drop)]
pub struct Function {
    pub name: Name,
    pub parameters: Vec<NamedParam>,
    pub image: ImageFields,
    /// What the body needs of its frame where it begins.
    pub needs: FrameNeeds,
    /// What the code around the body is made for.
    pub pace: Pace,
}

/// Parameters under the names that are written for them.
fn named_params(
    alloc: Global,
    macros: &Macros<'_>,
    parameters: &[Parameter],
) -> Result<Vec<NamedParam>, AllocError>
    ensures { IfOk result (λ params. map named params.items
        ≡ map (written_parameter macros.now.function.now) (map parameter_tree parameters.now)) }
{
    let mut params = Vec::with_capacity(alloc, parameters.len())?;
    for parameter in parameters {
        let name = written_name(alloc, macros, parameter.name.as_str())?;
        params.push(NamedParam {
            name,
            param: parameter.param(),
        })?;
    }
    Ok(params)
}

/// The export of a program that has one.
fn export_of(program: &Program) -> &Procedure
    requires { (before : List ProcedureTree) × (export : ProcedureTree)
        × (exported [] (program_tree program.now).procedures ≡ Some (before, export)) }
    ensures { (before : List ProcedureTree)
        × (exported [] (program_tree program.now).procedures ≡ Some (before, procedure_tree result.now)) }
{
    match program.exported() {
        Some((_, export)) => export,
        None => unreachable!(),
    }
}

/// The name of a function: that of its export behind a prefix.
fn function_name(alloc: Global, prefix: &str, export: &str) -> Result<String, AllocError>
    ensures { IfOk result (λ name. string_bytes name ≡ prefix.now ++ export.now) }
{
    format!(in alloc; "{prefix}{export}")
}

/// The pace of the code around a body: few words where the body has few.
fn pace_of(optimisation: Optimisation) -> Pace
    ensures { result ≡ pace_of optimisation }
{
    match optimisation {
        Optimisation::Off | Optimisation::On => Pace::Fast,
        Optimisation::Small => Pace::Small,
    }
}

/// The function of an export and of its code, under a name that is free.
fn named_function(
    alloc: Global,
    name: &str,
    export: &Procedure,
    code: Code,
    needs: FrameNeeds,
    pace: Pace,
) -> Result<Function, Refusal>
    requires { is_taken_function name.now ≡ false }
    ensures made { IfOk result (λ function.
        IsOfExport name.now (procedure_tree export.now) code (needs_as needs) pace (parts_of function)) }
    ensures memory { IfErr result (λ refusal. IsWantOfMemory refusal.rule refusal.place) }
{
    let macros = macros_of(alloc, name)?;
    let parameters = named_params(alloc, &macros, export.parameters.as_slice())?;
    let name = Name::new(alloc, name)?;
    Ok(Function {
        name,
        parameters,
        image: code.into_fields(),
        needs,
        pace,
    })
}

/// The function of an export and of its code, under a name.
fn of_export(
    alloc: Global,
    name: &str,
    export: &Procedure,
    code: Code,
    needs: FrameNeeds,
    pace: Pace,
) -> Result<Function, FunctionFault<Refusal>>
    ensures made { IfOk result (λ function.
        IsOfExport name.now (procedure_tree export.now) code (needs_as needs) pace (parts_of function)) }
    ensures fault { IfErr result (λ fault. IsUnlessMemory fault (NameIsTaken name.now (procedure_tree export.now))) }
{
    if is_taken_function(name) {
        return Err(FunctionFault::Name(export.place));
    }
    Ok(named_function(alloc, name, export, code, needs, pace)?)
}

/// The function of a source that is accepted for an observer of this profile, with plain or optimised code; its name is
/// the export's behind a prefix. A source that is not accepted is refused as by `compile_with`, before its names are
/// looked at; then a name that C, its library, C++ or an assembler cannot take.
pub fn function_of(
    alloc: Global,
    source: &str,
    profile: Profile,
    optimisation: Optimisation,
    prefix: &str,
) -> Result<Function, FunctionFault<Refusal>>
    ensures made { IfOk result (λ function.
        IsFunctionOf optimisation profile prefix.now source.now (parts_of function)) }
    ensures fault { IfErr result (IsFaultOf profile prefix.now source.now) }
{
    let compiled = compile_with(alloc, source, profile, optimisation)?;
    let Compiled {
        program,
        code,
        needs,
    } = compiled;
    let export = export_of(&program);
    let name = function_name(alloc, prefix, export.name.as_str())?;
    of_export(
        alloc,
        name.as_str(),
        export,
        code,
        needs,
        pace_of(optimisation),
    )
}
