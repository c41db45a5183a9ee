// Arguments: what their texts spell, and whether they are within the parameter types.
// It promises the first fault exactly, and that what is read from texts is what they spell, within
// the types. It stands on the shapes of parameters and arguments.

mod bounds;
mod fault;
mod laws;
mod numerals;
mod texts;

pub use bounds::{broken_rule, first_fault_by, first_fault_of};
pub use fault::{ArgumentFault, ArgumentRule};
pub use laws::faultless_arguments;
pub use texts::{ReadError, argument, broken_rule as broken_rule_of_text, read, word_of};
