// What is given of arguments, from texts.

ghost use Rattle.std.specs.Prelude.{◌≡◌, ◌≢◌, ◌↔◌, None, Some, Err, map, IfOk, OnOk};
ghost use Rattle.std.specs.Option.{option_map};
ghost use Rattle.image_reports.specs.Below.{ArgumentFault, fault_by, Stop, words_of};
ghost use Rattle.image_reports.specs.certificates.Given.{rule_of_given, fault_of_given};
ghost use Rattle.image_reports.specs.certificates.Texts.{numbers_given, rule_of_given_text, fault_of_given_texts};

use crate::certificates::faults::rule_without_value;
use hepurita::RunFault;
use language::arguments::{
    ArgumentFault, ArgumentRule, argument, broken_rule_of_text, first_fault_by,
};
use language::{Arg, Param};
use std::alloc::{AllocError, Global};

/// The text of an argument that is not given.
const UNKNOWN: &str = "?";

/// The rule that a text breaks at its parameter.
fn rule_of_text(param: &Param, text: &str) -> Option<ArgumentRule>
    ensures { result ≡ rule_of_given_text param.now text.now }
{
    if text == UNKNOWN {
        rule_without_value(param.label)
    } else {
        broken_rule_of_text(param, text)
    }
}

/// The first fault of texts.
fn first_fault(params: &[Param], texts: &[&str]) -> Option<ArgumentFault>
    ensures { result ≡ fault_by (λ param text. rule_of_given_text param text.now) params.now texts.now }
{
    first_fault_by(params, texts, |param: &Param, text: &&str| {
        rule_of_text(param, text)
    })
}

/// What a text without fault gives.
fn given_by(alloc: Global, param: &Param, text: &str) -> Result<Option<Arg>, AllocError>
    requires { rule_of_given_text param.now text.now ≡ None }
    ensures numbers { IfOk result (λ given. Some (option_map words_of given) ≡ numbers_given text.now) }
    ensures faultless { IfOk result (λ given. rule_of_given param.now given ≡ None) }
{
    if text == UNKNOWN {
        return Ok(None);
    }
    Ok(Some(argument(alloc, param, text)?))
}

/// What texts give of arguments for these parameters, or their first fault. A text is `?` for every value of a secret
/// parameter, or numbers as `read_args` of `hepurita` reads them.
pub fn read_given(
    alloc: Global,
    params: &[Param],
    texts: &[&str],
) -> Result<Vec<Option<Arg>>, RunFault>
    ensures found { IfOk result (λ given.
        map (λ one. Some (option_map words_of one)) given.items ≡ map (λ text. numbers_given text.now) texts.now) }
    ensures faultless { IfOk result (λ given. fault_of_given params.now given.items ≡ None) }
    ensures fault { (fault : ArgumentFault)
        → (result ≡ Err (RunFault.Argument fault.rule fault.index))
        ↔ (fault_of_given_texts params.now (map (λ text. text.now) texts.now) ≡ Some fault) }
    ensures only { OnOk result (fault_of_given_texts params.now (map (λ text. text.now) texts.now) ≡ None) }
    ensures unstopped { (stop : Stop) → result ≢ Err (RunFault.Stopped stop) }
{
    if let Some(fault) = first_fault(params, texts) {
        return Err(RunFault::from(fault));
    }
    let mut given = Vec::new(alloc);
    for (index, param) in params.iter().enumerate() {
        given.push(given_by(alloc, param, texts[index])?)?;
    }
    Ok(given)
}
