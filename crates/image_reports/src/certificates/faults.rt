// The first fault of what is given of arguments.

ghost use Rattle.std.specs.Prelude.{◌≡◌, map};
ghost use Rattle.image_reports.specs.certificates.Given.{rule_of_unknown, rule_of_given, fault_of_given};

use expression_code::image_fields::Slot;
use language::arguments::{ArgumentFault, ArgumentRule, broken_rule, first_fault_by};
use language::{Arg, Label};

/// The rule that is broken where a parameter of this label has no value.
pub(crate) fn rule_without_value(label: Label) -> Option<ArgumentRule>
    ensures { result ≡ rule_of_unknown label }
{
    match label {
        Label::Public => Some(ArgumentRule::Shape),
        Label::Secret => None,
    }
}

/// The rule that is broken at the parameter of a slot.
fn rule_at(slot: &Slot, given: &Option<Arg>) -> Option<ArgumentRule>
    ensures { result ≡ rule_of_given slot.now.param given.now }
{
    match given {
        Some(arg) => broken_rule(&slot.param, arg),
        None => rule_without_value(slot.param.label),
    }
}

/// The first fault of what is given: the count before all else, then the leftmost.
pub(crate) fn first_fault(slots: &[Slot], given: &[Option<Arg>]) -> Option<ArgumentFault>
    ensures { result ≡ fault_of_given (map (λ slot. slot.param) slots.now) given.now }
{
    first_fault_by(slots, given, rule_at)
}
