// The program.

ghost use Rattle.std.specs.Prelude.{◌≡◌, ◌≢◌, Err, Some, map, IfOk, IfErr, OnOk};
ghost use Rattle.std.specs.Option.{option_map};
ghost use Rattle.source_eval.specs.Below.{argument_value, empty, export_run, fault_of, final_arrays, holding};
ghost use Rattle.source_eval.specs.Below.{most_bodies, param_of, parameter_tree, procedure_tree, program_tree};
ghost use Rattle.source_eval.specs.Answer.{answer, judged_answer, params_of};
ghost use Rattle.source_eval.specs.Metering.{EndedWithin, Stopped};
ghost use Rattle.source_eval.specs.Views.{held, value_of, word_of};
ghost use Rattle.source_eval.specs.declared.fault.EvalFault.TheVariants.{Memory};

use crate::EvalFault;
use crate::statements::run_body;
use crate::values::{Value, Word};
use crate::variables::Variables;
use language::arguments::{ArgumentFault, first_fault_of};
use language::{
    Arg, Args, Form, Kind, MOST_BODIES, Numbers, Outcome, Parameter, Procedure, Program,
};
use std::alloc::Global;

/// What a parameter of this kind holds.
fn argument_value(alloc: Global, kind: Kind, arg: &Arg) -> Result<Value, EvalFault>
    ensures ok { IfOk result (λ value. value_of value ≡ argument_value kind arg.now) }
    ensures memory { IfErr result (λ fault. fault ≡ Memory) }
{
    match arg {
        Arg::Word(value) => Ok(Value::Single(Word {
            kind,
            value: *value,
        })),
        Arg::Array(words) => Ok(Value::Array(kind, words.as_slice().to_vec(alloc)?)),
    }
}

/// Gives the names of the export, which hold nothing, what they hold at first.
fn hold<'a>(
    alloc: Global,
    variables: &mut Variables<'a>,
    parameters: &'a [Parameter],
    args: &[Arg],
) -> Result<(), EvalFault>
    requires { held variables.old ≡ empty }
    ensures ok { OnOk result (held variables.new ≡ holding (map parameter_tree parameters.now) args.now) }
    ensures memory { IfErr result (λ fault. fault ≡ Memory) }
{
    for (index, parameter) in parameters.iter().enumerate() {
        let Some(arg) = args.get(index) else {
            return Ok(());
        };
        let value = argument_value(alloc, parameter.kind, arg)?;
        variables.set_first(&parameter.name, value)?;
    }
    Ok(())
}

/// What the names of the export hold at first.
fn holding<'a>(
    alloc: Global,
    parameters: &'a [Parameter],
    args: &[Arg],
) -> Result<Variables<'a>, EvalFault>
    ensures ok { IfOk result (λ variables. held variables ≡ holding (map parameter_tree parameters.now) args.now) }
    ensures memory { IfErr result (λ fault. fault ≡ Memory) }
{
    let mut variables = Variables::new(alloc);
    hold(alloc, &mut variables, parameters, args)?;
    Ok(variables)
}

/// The words of each `mut` array, in parameter order.
fn final_arrays(
    alloc: Global,
    variables: &Variables<'_>,
    parameters: &[Parameter],
) -> Result<Vec<Numbers>, EvalFault>
    ensures ok { IfOk result (λ arrays.
        arrays.items ≡ final_arrays (held variables.now) (map parameter_tree parameters.now)) }
    ensures memory { IfErr result (λ fault. fault ≡ Memory) }
{
    let mut arrays = Vec::new(alloc);
    for parameter in parameters {
        if parameter.form == Form::MutableArray {
            arrays.push(Numbers::new(variables.words(alloc, &parameter.name)?))?;
        }
    }
    Ok(arrays)
}

/// The number of a returned word.
fn number(word: Option<Word>) -> Option<u32>
    ensures { result ≡ option_map (λ w. w.value) (option_map word_of word) }
{
    match word {
        Some(word) => Some(word.value),
        None => None,
    }
}

/// Runs an export after the earlier procedures.
fn run_export(
    alloc: Global,
    earlier: &[Procedure],
    left: &mut u64,
    export: &Procedure,
    args: &[Arg],
) -> Result<Outcome, EvalFault>
    ensures ok { IfOk result (λ outcome. EndedWithin
        (export_run (map procedure_tree earlier.now) (procedure_tree export.now) args.now)
        left.old most_bodies outcome left.new) }
    ensures err { IfErr result (λ fault. Stopped
        (export_run (map procedure_tree earlier.now) (procedure_tree export.now) args.now)
        left.old most_bodies fault) }
{
    let parameters = export.parameters.as_slice();
    let variables = holding(alloc, parameters, args)?;
    let (word, ended) = run_body(alloc, earlier, MOST_BODIES - 1, left, variables, export)?;
    let arrays = final_arrays(alloc, &ended, parameters)?;
    Ok(Outcome::new(number(word), arrays))
}

/// What an export gives on arguments behind the earlier procedures, as `eval`.
fn eval_export(
    alloc: Global,
    earlier: &[Procedure],
    export: &Procedure,
    args: &Args,
    budget: u64,
) -> Result<Outcome, EvalFault>
    ensures answer { result ≢ Err Memory
        → result ≡ judged_answer (fault_of (map param_of (procedure_tree export.now).parameters) args.now)
        (export_run (map procedure_tree earlier.now) (procedure_tree export.now) args.now) budget }
    ensures judged { (fault : ArgumentFault)
        → fault_of (map param_of (procedure_tree export.now).parameters) args.now ≡ Some fault
        → result ≡ Err (EvalFault.Argument fault) }
{
    if let Some(fault) = first_fault_of(&export.parameters, args) {
        return Err(EvalFault::Argument(fault));
    }
    let mut left = budget;
    run_export(alloc, earlier, &mut left, export, args.as_slice())
}

/// What a program gives on arguments: the source's own meaning, with real branches. Else the first fault of the
/// arguments; else that more nodes are evaluated than the budget, or more than 64 bodies open, before the run ends
/// or meets its fault; else the fault that it meets.
pub fn eval(
    alloc: Global,
    program: &Program,
    args: &Args,
    budget: u64,
) -> Result<Outcome, EvalFault>
    ensures answer { result ≢ Err Memory → result ≡ answer (program_tree program.now) args.now budget }
    // Whatever memory does.
    ensures judged { (fault : ArgumentFault)
        → fault_of (params_of (program_tree program.now)) args.now ≡ Some fault
        → result ≡ Err (EvalFault.Argument fault) }
{
    if let Some((earlier, export)) = program.exported() {
        return eval_export(alloc, earlier, export, args, budget);
    }
    match first_fault_of(&[], args) {
        Some(fault) => Err(EvalFault::Argument(fault)),
        None => Ok(Outcome::new(None, Vec::new(alloc))),
    }
}
