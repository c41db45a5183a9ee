ghost use Rattle.std.specs.Prelude.{◌≡◌, Option, map};
ghost use Rattle.language.specs.Signature.{param_of};
ghost use Rattle.language.specs.Tree.{parameter_tree};
ghost use Rattle.language.specs.declared.arguments.fault.ArgumentRule.{ArgumentRule};
ghost use Rattle.language.specs.arguments.Faults.{JudgesBy, fault_by, fault_of, rule_of, rule_of_words};
ghost use Rattle.language.specs.arguments.Within.{greatest_of};

use crate::arguments::{ArgumentFault, ArgumentRule};
use crate::{Arg, Args, Form, Kind, Param, Parameter};

/// The greatest value that a word of a kind has.
pub(crate) fn greatest(kind: Kind) -> u32
    ensures { result ≡ greatest_of kind }
{
    match kind {
        Kind::Boolean => 1,
        Kind::Uint8 => u32::from(u8::MAX),
        Kind::Uint16 => u32::from(u16::MAX),
        Kind::Uint32 => u32::MAX,
    }
}

/// The rule that words of the right count break.
fn rule_of_values(kind: Kind, words: &[u32]) -> Option<ArgumentRule>
    ensures { result ≡ rule_of_words kind words.now }
{
    let greatest = greatest(kind);
    if words.iter().all(|word| *word <= greatest) {
        None
    } else {
        Some(ArgumentRule::Value)
    }
}

/// The rule that an argument breaks at its parameter.
pub fn broken_rule(param: &Param, arg: &Arg) -> Option<ArgumentRule>
    ensures { result ≡ rule_of param.now arg.now }
{
    match (param.form, arg) {
        (Form::SingleWord, Arg::Word(word)) => rule_of_values(param.kind, &[*word]),
        (Form::FixedArray | Form::MutableArray, Arg::Array(words)) => {
            let words = words.as_slice();
            if words.len() == usize::from(param.length) {
                rule_of_values(param.kind, words)
            } else {
                Some(ArgumentRule::Shape)
            }
        }
        _ => Some(ArgumentRule::Shape),
    }
}

/// The first fault of what is given for parameters: the count before all else, then the leftmost, by the rule that it
/// breaks at its parameter.
pub fn first_fault_by<P, A, F: Fn(&P, &A) -> Option<ArgumentRule>>(
    params: &[P],
    given: &[A],
    rule_at: F,
) -> Option<ArgumentFault>
    requires { F.IsAlwaysCallable rule_at }
    ensures { (rule : P → A → Option ArgumentRule)
        → JudgesBy (F.post rule_at) rule
        → result ≡ fault_by rule params.now given.now }
{
    if given.len() != params.len() {
        return Some(ArgumentFault::count());
    }
    for (index, param) in params.iter().enumerate() {
        if let Some(rule) = rule_at(param, &given[index]) {
            return Some(ArgumentFault::at(rule, index));
        }
    }
    None
}

/// The first fault of a procedure's arguments: of each argument its shape before its values.
pub fn first_fault_of(parameters: &[Parameter], args: &Args) -> Option<ArgumentFault>
    ensures { result ≡ fault_of (map param_of (map parameter_tree parameters.now)) args.now }
{
    first_fault_by(
        parameters,
        args.as_slice(),
        |parameter: &Parameter, arg: &Arg| broken_rule(&parameter.param(), arg),
    )
}
