// Limits on size and work, and what is known of indices and divisors.

ghost use Rattle.explanations.specs.Listed.{limits};
ghost use Rattle.explanations.specs.Table.{limit_texts};
ghost use Rattle.explanations.specs.private.RowsFound.{IsRowOf};

use crate::finding::row_of;
use crate::row::Explanation;

// What the rules are, what usually breaks them and what to do, by their codes.

pub const S1: &str =
    "With a copy of the called body in place of each call, the export has more than 6000 nodes (its\n\
    numbers, names, operators and statements), or more than 64 bodies are open at once. A body counts\n\
    once for each call in the source, and once for all iterations of a loop: to call something often,\n\
    call it in a loop.";

pub const S2: &str =
    "The export and all that it calls declare more than 32768 bytes: 4 for each word, counter and word\n\
    parameter, and for each array that they declare or that is a parameter of the export, its elements,\n\
    rounded up to a multiple of 4. What a called procedure declares counts again for each call. Use\n\
    smaller elements, or declare an array once and pass it to the procedures as an argument.";

pub const I1: &str =
    "Nothing is checked when a program runs, so the source must show that each index is below the array's\n\
    length, even in an arm that a run does not take. For each public number the compiler knows the least\n\
    and the greatest value that it can have; the greatest of this index is too large. A `mut` variable,\n\
    an element and a parameter of the export can have any value. Limit the index with `&` or `%`, or put\n\
    the access into an `if` on a public condition that has the index, a name without `mut`, on the left\n\
    of `<`.";

pub const I2: &str =
    "Nothing is checked when a program runs, so the source must show that a divisor is not 0, even in an\n\
    arm that a run does not take. The least value that the compiler knows for this one is 0. Divide in\n\
    the `else` arm of an `if` on a public condition `d < 1`, or by something that is at least 1, such as\n\
    `(d & 7) + 1`.";

pub const S3: &str =
    "A run could take too long: its work may be at most 4294967296. Work is the number of nodes (numbers,\n\
    names, operators and statements), about, with a loop's body counted for each iteration. A bound that\n\
    may have any value stands for 4294967295 iterations: limit it first, as in `0 to n & 1023`.";

pub const M1: &str =
    "The system refused memory that was asked for. This does not say whether the input is right or wrong.\n\
    Run the command again with more memory.";

const ROWS: [Explanation; 6] = [
    Explanation {
        code: "S1",
        name: "inlined size",
        rule: S1,
        violates: "\
void a() { }
void b() { a(); a(); a(); a(); a(); a(); a(); a(); }
void c() { b(); b(); b(); b(); b(); b(); b(); b(); }
void d() { c(); c(); c(); c(); c(); c(); c(); c(); }
void e() { d(); d(); d(); d(); d(); d(); d(); d(); }
export void f() { e(); e(); }",
        corrected: "\
void a() { }
void b() { for (uint32 i from 0 to 8) { a(); } }
void c() { for (uint32 i from 0 to 8) { b(); } }
void d() { for (uint32 i from 0 to 8) { c(); } }
void e() { for (uint32 i from 0 to 8) { d(); } }
export void f() { e(); e(); }",
    },
    Explanation {
        code: "S2",
        name: "declared bytes",
        rule: S2,
        violates: "\
export void f() {
    secret uint32[4096] a;
    secret uint32[4096] b;
    secret bool c = true;
}",
        corrected: "\
export void f() {
    secret uint32[4096] a;
    secret uint8[4096] b;
    secret bool c = true;
}",
    },
    Explanation {
        code: "I1",
        name: "index out of range",
        rule: I1,
        violates: "export public uint32 f(public uint32 i, public uint32[8] a) { return a[i]; }",
        corrected: "export public uint32 f(public uint32 i, public uint32[8] a) { return a[i & 7]; }",
    },
    Explanation {
        code: "I2",
        name: "divisor may be 0",
        rule: I2,
        violates: "export public uint32 f(public uint32 x, public uint32 d) { return x / d; }",
        corrected: "\
export public uint32 f(public uint32 x, public uint32 d) {
    public mut uint32 y = 0;
    if (d < 1) {
    } else {
        y = x / d;
    }
    return y;
}",
    },
    Explanation {
        code: "S3",
        name: "work",
        rule: S3,
        violates: "\
export secret uint32 f(public uint32 n, secret uint32 x) {
    secret mut uint32 y = x;
    for (uint32 i from 0 to n) {
        y = y + i;
    }
    return y;
}",
        corrected: "\
export secret uint32 f(public uint32 n, secret uint32 x) {
    secret mut uint32 y = x;
    for (uint32 i from 0 to n & 1023) {
        y = y + i;
    }
    return y;
}",
    },
    Explanation {
        code: "M1",
        name: "memory",
        rule: M1,
        violates: "",
        corrected: "",
    },
];

/// The row of a code of this group.
pub fn row(code: &str) -> Option<Explanation>
    ensures { IsRowOf limits limit_texts code.now result }
{
    row_of(&ROWS, code)
}
