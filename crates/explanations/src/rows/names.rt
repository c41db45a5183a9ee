// Rules on names.

ghost use Rattle.explanations.specs.Listed.{names};
ghost use Rattle.explanations.specs.Table.{name_texts};
ghost use Rattle.explanations.specs.private.RowsFound.{IsRowOf};

use crate::finding::row_of;
use crate::row::Explanation;

// What the rules are, what usually breaks them and what to do, by their codes.

pub const N1: &str =
    "The name is not a variable in scope here. It was never declared, is declared further down, was\n\
    declared in a block that has ended, or is the name of a procedure. Declare it before its first\n\
    use, in a block around all its uses.";

pub const N2: &str =
    "A name that is in scope cannot be declared again: there is no shadowing, and procedures,\n\
    parameters, variables and counters of loops share one name space. Choose another name. Two\n\
    blocks of which neither is inside the other may use the same name.";

pub const N3: &str =
    "A procedure can call only those that stand before it in the source: not itself, no later one and no\n\
    variable. So there is no recursion. Move the called procedure up. If it stands in a file of its own,\n\
    `--with` reads that file first.";

pub const N4: &str =
    "Exactly one procedure of a source has `export`: it is the one that is compiled, with all that it\n\
    calls. If none has it, the error is at 1:1; if several have it, it is at the second. A file that is\n\
    read by `--with` has none: it is checked together with one that has.";

const ROWS: [Explanation; 4] = [
    Explanation {
        code: "N1",
        name: "undeclared name",
        rule: N1,
        violates: "\
export secret uint32 f(secret bool c) {
    if (c) {
        secret uint32 y = 1;
    }
    return y;
}",
        corrected: "\
export secret uint32 f(secret bool c) {
    secret mut uint32 y = 0;
    if (c) {
        y = 1;
    }
    return y;
}",
    },
    Explanation {
        code: "N2",
        name: "name declared twice",
        rule: N2,
        violates: "\
export secret uint32 f(secret uint32 x) {
    secret uint32 x = 1;
    return x;
}",
        corrected: "\
export secret uint32 f(secret uint32 x) {
    secret uint32 y = x + 1;
    return y;
}",
    },
    Explanation {
        code: "N3",
        name: "procedure not declared earlier",
        rule: N3,
        violates: "\
export void f() {
    g();
}

void g() {
}",
        corrected: "\
void g() {
}

export void f() {
    g();
}",
    },
    Explanation {
        code: "N4",
        name: "not exactly one export",
        rule: N4,
        violates: "\
secret uint32 f(secret uint32 x) {
    return x + 1;
}",
        corrected: "\
export secret uint32 f(secret uint32 x) {
    return x + 1;
}",
    },
];

/// The row of a code of this group.
pub fn row(code: &str) -> Option<Explanation>
    ensures { IsRowOf names name_texts code.now result }
{
    row_of(&ROWS, code)
}
