// The function of a source for C: its words (`function_code`), and its texts for an assembler and for C
// (`function_text`), under a name that C's library does not have (`library_names`). It promises exactly the words and
// the texts that are defined, or why there is no function; what a call of the words does is said in `linked_calls`. It
// stands on that, and on `hepurita`, which judges and builds the source.
#![tactic(auto)]

pub mod function_code;
pub mod function_text;
mod library_names;
