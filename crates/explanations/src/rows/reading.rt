// Errors of lexer and parser.

ghost use Rattle.explanations.specs.Listed.{reading};
ghost use Rattle.explanations.specs.Table.{reading_texts};
ghost use Rattle.explanations.specs.private.RowsFound.{IsRowOf};

use crate::finding::row_of;
use crate::row::Explanation;

// What the rules are, what usually breaks them and what to do, by their codes.

pub const X1: &str =
    "No token begins with this byte, and it is not in a comment. It may be a character of C that the\n\
    language does not have, such as `?`, `.` or a quote, an accented letter, or a byte order mark at\n\
    1:1, which an editor does not show. Write what the language has in its place, and save the file as\n\
    UTF-8 without a byte order mark.";

pub const X2: &str =
    "A token that begins with a digit is a decimal number, or a hexadecimal one after `0x`, below\n\
    4294967296, with at most one of the suffixes `u8`, `u16` and `u32` after it. There is no `_` in a\n\
    number, no binary form, no `0X`, and none of C's suffixes such as `U` and `L`. Leading zeros change\n\
    nothing: `010` is 10.";

pub const X3: &str =
    "This token cannot stand here, or the source ends too early; with `--explain` the line `expected:`\n\
    lists what can. Look just before it for a missing `;`, bracket or operator. Write a call as a\n\
    statement or as a whole right side, braces around each arm and each loop's body, and `return` once,\n\
    last.";

pub const X4: &str =
    "Too much is nested here: more than 64 brackets, operators and `else`. A bracket counts until it is\n\
    closed, and an operator until the next `,` or `;` or the end of the bracket around it. Give parts of\n\
    a long expression names, by declarations, and split a long chain of `else if` into several `if`.";

pub const X5: &str =
    "A source has at most 262144 bytes. A generated table is the usual cause: compute it, or let the\n\
    caller pass it as a public array.";

const ROWS: [Explanation; 5] = [
    Explanation {
        code: "X1",
        name: "unknown character",
        rule: X1,
        violates: "export secret uint32 f(secret bool c) { return c ? 1 : 2; }",
        corrected: "export secret uint32 f(secret bool c) { return select(c, 1, 2); }",
    },
    Explanation {
        code: "X2",
        name: "bad number",
        rule: X2,
        violates: "export secret uint32 f(secret uint32 x) { return x + 1_000; }",
        corrected: "export secret uint32 f(secret uint32 x) { return x + 1000; }",
    },
    Explanation {
        code: "X3",
        name: "unexpected token",
        rule: X3,
        violates: "\
secret uint32 twice(secret uint32 x) {
    return x + x;
}

export secret uint32 f(secret uint32 x) {
    return twice(x);
}",
        corrected: "\
secret uint32 twice(secret uint32 x) {
    return x + x;
}

export secret uint32 f(secret uint32 x) {
    secret uint32 y = twice(x);
    return y;
}",
    },
    Explanation {
        code: "X4",
        name: "nesting",
        rule: X4,
        violates: "\
export public uint32 f() {
    return ((((((((((((((((((((((((((((((((
           ((((((((((((((((((((((((((((((((
           1
           ))))))))))))))))))))))))))))))))
           ))))))))))))))))))))))))))))))));
}",
        corrected: "\
export public uint32 f() {
    return 1;
}",
    },
    Explanation {
        code: "X5",
        name: "text too long",
        rule: X5,
        violates: "",
        corrected: "",
    },
];

/// The row of a code of this group.
pub fn row(code: &str) -> Option<Explanation>
    ensures { IsRowOf reading reading_texts code.now result }
{
    row_of(&ROWS, code)
}
