// The texts of a function for C: for an assembler, with each word as a number, and the C header. From a text it is as
// `hepurita` judges and builds it; its words are those of `function_code`, under the names of the text's export.

mod assembler;
mod fault;
mod function;
mod header;
mod laws;
mod lines;
mod naming;
mod notation;
mod prefix;
mod texts;

pub use assembler::assembler_text;
pub use fault::FunctionFault;
pub use function::{Function, NamedParam, function_of};
pub use header::header_text;
pub use laws::{functions_agree, functions_are_linked};
pub use naming::is_taken_function;
pub use notation::Notation;
pub use prefix::Prefix;
pub use texts::{Texts, texts_of};
