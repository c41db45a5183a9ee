// What is asked of runs of functions of executables, and what is printed of them: from the words of a command to lines.
//
// `read_asked` reads what the words of a command ask, and `part_word` gives the word that a part of a request was
// written as. `leak_function` writes what an observer sees of the run in which all that is not known is as it stands
// when the run begins. `certify_function_telling` makes one run for all that is not known, as
// `elf_runs::certify_function` does, and tells how far it is. Where runs may differ, `push_place` says by the symbols
// where the step is made and which calls lead there, `encoding_at` and `encoding_line` what stands there, and
// `explain_function` which registers are unknown there, and since when.
#![tactic(auto)]

mod asking;
mod encoding_lines;
mod encodings;
mod explaining;
mod laws;
mod leaking;
mod origin_lines;
mod part_words;
mod places;
mod telling;

pub use asking::{AskedWords, read_asked};
pub use encoding_lines::encoding_line;
pub use encodings::{Encoding, encoding_at};
pub use explaining::explain_function;
pub use laws::something_begins_at_each_instruction;
pub use leaking::{FunctionLeakFault, leak_function};
pub use part_words::part_word;
pub use places::push_place;
pub use telling::certify_function_telling;
