// Errors of an evaluation, and the stops of a run.

ghost use Rattle.explanations.specs.Listed.{runs};
ghost use Rattle.explanations.specs.Table.{run_texts};
ghost use Rattle.explanations.specs.private.RowsFound.{IsRowOf};

use crate::finding::row_of;
use crate::row::Explanation;

// What the rules are, what usually breaks them and what to do, by their codes.

pub const E1: &str =
    "While a source was evaluated, an index was not below the length of its array, or a divisor was 0.\n\
    Only the library reports this, for programs that were not checked: a source that `eval` accepts has\n\
    no such index or divisor (I1, I2).";

pub const E2: &str =
    "More nodes of a source were evaluated than the budget allows, or more than 64 bodies were open at\n\
    once. Only the library reports this: the budget of `eval` is enough for each source that it accepts\n\
    (S1, S3).";

pub const ECALL: &str =
    "The code ended as it should, with the instruction ECALL. The slots of the result and of the `mut`\n\
    arrays hold the outcome.";

pub const BREAK: &str =
    "The code reached the instruction EBREAK. C compilers write it where the C code has undefined\n\
    behaviour. `build` writes none.";

pub const ILLEGAL: &str =
    "The code at the program counter is not an instruction of RV32IM, or of RV32IMC in an executable\n\
    whose header says that it has 16-bit instructions. Compile for these sets alone (`-march=rv32im`\n\
    or, for an executable, `-march=rv32imc`): atomics and floating point are not in them.";

pub const ACCESS_FAULT: &str =
    "There is no code at the program counter; or a load or a store goes to a byte that is no data: in an\n\
    image to one outside the frame, in an executable to one outside its segments and the stack; or a\n\
    store goes to bytes of an executable that may not be changed, those of code and of constants. In\n\
    code that a C compiler made, the stack has usually outgrown its room, which for an executable is\n\
    `--stack`. In an image it may also be the address of a table or a variable outside functions, which\n\
    have no place there.";

pub const MISALIGNED: &str =
    "The address of a load or store is not a multiple of its size; or the program counter would not be a\n\
    multiple of 4, or of 2 in an executable whose header says that it has 16-bit instructions. In code\n\
    that a C compiler made, compare for an image the layout of the frame with the slots, and look in an\n\
    executable for a pointer that was cast from one to a smaller type.";

pub const BUDGET: &str =
    "The run has made as many steps as the image allows (`max_steps`) and has not ended. Give `wrap` a\n\
    greater `--steps`, or look for an endless loop. What `build` compiled always ends in time.";

pub const RECORDER_REFUSED: &str =
    "There was no memory to record what the next instruction shows, and the run ended before it. Only\n\
    calls of the library with a recorder that keeps the trace report this.";

const ROWS: [Explanation; 9] = [
    Explanation {
        code: "E1",
        name: "no meaning",
        rule: E1,
        violates: "",
        corrected: "",
    },
    Explanation {
        code: "E2",
        name: "budget",
        rule: E2,
        violates: "",
        corrected: "",
    },
    Explanation {
        code: "Ecall",
        name: "end by ECALL",
        rule: ECALL,
        violates: "",
        corrected: "",
    },
    Explanation {
        code: "Break",
        name: "end by EBREAK",
        rule: BREAK,
        violates: "",
        corrected: "",
    },
    Explanation {
        code: "Illegal",
        name: "illegal instruction",
        rule: ILLEGAL,
        violates: "",
        corrected: "",
    },
    Explanation {
        code: "AccessFault",
        name: "access outside of code or data",
        rule: ACCESS_FAULT,
        violates: "",
        corrected: "",
    },
    Explanation {
        code: "Misaligned",
        name: "misaligned address",
        rule: MISALIGNED,
        violates: "",
        corrected: "",
    },
    Explanation {
        code: "Budget",
        name: "out of steps",
        rule: BUDGET,
        violates: "",
        corrected: "",
    },
    Explanation {
        code: "RecorderRefused",
        name: "trace out of memory",
        rule: RECORDER_REFUSED,
        violates: "",
        corrected: "",
    },
];

/// The row of a code of this group.
pub fn row(code: &str) -> Option<Explanation>
    ensures { IsRowOf runs run_texts code.now result }
{
    row_of(&ROWS, code)
}
