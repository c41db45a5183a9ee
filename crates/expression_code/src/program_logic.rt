// A logic of programs for the machine: what holds of machine code whatever it was made from.
//
// Straight-line code is run by symbols (`specs/program_logic/StraightCode.antt`): what it makes of registers and bytes
// is a function, and one law says that the machine does that. Pieces of code are put together
// (`specs/program_logic/Pieces.antt`): one after another, of two one, or one again and again. Of each piece it is known
// how many steps it takes, exactly or at most, what it shows, before any state is given, and what it makes of the
// state.

mod laws;

pub use laws::straight_code_is_run;
