// Errors of code from elsewhere, executables, and functions for C.

ghost use Rattle.explanations.specs.Listed.{executables};
ghost use Rattle.explanations.specs.Table.{executable_texts};
ghost use Rattle.explanations.specs.private.RowsFound.{IsRowOf};

use crate::finding::row_of;
use crate::row::Explanation;

// What the rules are, what usually breaks them and what to do, by their codes.

pub const C1: &str =
    "The file of code is empty, its length is not a multiple of 4 bytes, or it has more than 192064\n\
    words. It must hold the bare code, as `objcopy -O binary` writes it, and not an object file.";

pub const C2: &str =
    "`--frame` is the size of the frame in bytes: a multiple of 4, at most 65536, with room for the\n\
    slots of all parameters and of the result. Code that a C compiler made needs room for its stack\n\
    too.";

pub const C3: &str =
    "`--steps` is the greatest number of steps that a run may make: 1 to 137438953536.";

pub const G1: &str =
    "The file is no executable that can be run here: ELF for 32 bits, little-endian, of type EXEC, for\n\
    RISC-V, without floating point in registers, not for RV32E, and not linked dynamically. The byte that\n\
    the error names is that of the field that is not allowed. Usual causes: an object file (`.o`) or an\n\
    archive, which has to be linked first; a file for 64 bits; a position-independent executable, which\n\
    is linked with `-static -no-pie` instead; `-mabi=ilp32f` or `ilp32d` in place of `ilp32`.";

pub const G2: &str =
    "A header, a table, a segment or the names of the symbols pass the end of the file: a copy is\n\
    incomplete, or the file was damaged. The byte that the error names is that of the field that is cut\n\
    off, or that says where the part should lie.";

pub const G3: &str =
    "Segments have an address in common, pass the end of the address space, are more than 64, or have\n\
    more than 16 MiB together; the byte that the error names is that of the field where this is seen.\n\
    Without a byte it is about the stack, which ends at fffffff0: it has no place behind the segments,\n\
    or has more than 16 MiB together with them. `--stack` gives its size.";

pub const G4: &str =
    "No symbol of this name is of use: FUNCTION has to be a function, the NAME of an argument has to have\n\
    an address, and that of `--secret` and `--set` has to be a variable or a table that has a size.\n\
    Names are those of the symbol table, as `nm` prints them. Usual causes: a `static` function was\n\
    inlined; what nothing uses was left out by the linker; the file was stripped.";

pub const G5: &str =
    "A word of the command cannot be used. An argument is a number, `?`, NAME or NAME+N; `--set` takes\n\
    NAME=hex:BYTES, with two digits for each byte and no more bytes than the variable has; the size of\n\
    the stack is a multiple of 16, with room for all arguments behind the eighth.";

pub const F1: &str =
    "The name of the export becomes the name of a function in C and in the assembly file, and it cannot\n\
    be this one: it is `main`, a keyword or a type of C or C++, a name of C's library such as `memcmp`, a\n\
    register such as `x5` or `a0`, or a name that C reserves, such as one that begins with `__`. Give the\n\
    export another name, or let `factc function --prefix NAME` put NAME before it.";

const ROWS: [Explanation; 9] = [
    Explanation {
        code: "C1",
        name: "code length",
        rule: C1,
        violates: "",
        corrected: "",
    },
    Explanation {
        code: "C2",
        name: "frame",
        rule: C2,
        violates: "",
        corrected: "",
    },
    Explanation {
        code: "C3",
        name: "steps",
        rule: C3,
        violates: "",
        corrected: "",
    },
    Explanation {
        code: "G1",
        name: "not a program for RV32",
        rule: G1,
        violates: "",
        corrected: "",
    },
    Explanation {
        code: "G2",
        name: "truncated",
        rule: G2,
        violates: "",
        corrected: "",
    },
    Explanation {
        code: "G3",
        name: "memory",
        rule: G3,
        violates: "",
        corrected: "",
    },
    Explanation {
        code: "G4",
        name: "symbol",
        rule: G4,
        violates: "",
        corrected: "",
    },
    Explanation {
        code: "G5",
        name: "argument",
        rule: G5,
        violates: "",
        corrected: "",
    },
    Explanation {
        code: "F1",
        name: "name",
        rule: F1,
        violates: "export secret uint32 a0(secret uint32 x) { return x + 1; }",
        corrected: "export secret uint32 add_one(secret uint32 x) { return x + 1; }",
    },
];

/// The row of a code of this group.
pub fn row(code: &str) -> Option<Explanation>
    ensures { IsRowOf executables executable_texts code.now result }
{
    row_of(&ROWS, code)
}
