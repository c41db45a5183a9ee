// Rules on types.

ghost use Rattle.explanations.specs.Listed.{types};
ghost use Rattle.explanations.specs.Table.{type_texts};
ghost use Rattle.explanations.specs.private.RowsFound.{IsRowOf};

use crate::finding::row_of;
use crate::row::Explanation;

// What the rules are, what usually breaks them and what to do, by their codes.

pub const T1: &str =
    "Two numbers of different widths meet: the operands of an operator, the last two of `select`, or a\n\
    value and the type that is expected of it. An index, a bound of a loop and the right operand of a\n\
    shift are `uint32`. Nothing is converted implicitly, and a number without a suffix is a `uint32`.\n\
    Convert one side, as in `uint32(x)`, or give the number a suffix, as in `1u8`.";

pub const T2: &str =
    "The value is of the wrong kind: a bool instead of a number or a number instead of a bool, a word\n\
    instead of an array or an array instead of a word, or the result of a procedure that has none. A\n\
    condition is a bool: write `x != 0` and not `x`. For a bool `b`, `uint32(b)` is 0 or 1. The name of\n\
    an array stands before `[`, or alone as an argument.";

pub const T3: &str =
    "A number is too large for its suffix, or the amount of `<<<` is 0 or not below the width of its\n\
    operand. With `u8` a number is at most 255, with `u16` at most 65535.";

pub const T4: &str =
    "A call has one argument for each parameter of the called procedure, no more and no fewer.";

pub const T5: &str =
    "An array that is passed as an argument must have the element type, the length and the label of the\n\
    parameter. `public` for `secret` is refused too, since both names stand for one array. Declare both\n\
    alike, or copy the elements in a loop into an array of the parameter's type.";

pub const T6: &str =
    "Only what was declared with `mut` can be assigned to, and only such an array can be passed for a\n\
    `mut` parameter. A word parameter and the counter of a loop can never be assigned to: copy them into\n\
    a `mut` variable.";

pub const T7: &str =
    "A procedure with a result type ends with a `return`, and a `void` procedure has none. A `return`\n\
    comes last in a body: to choose between values, assign them to a variable in the arms of an `if`,\n\
    and return that.";

pub const T8: &str =
    "One array is passed for two parameters of a call, and at least one of them is `mut`. Two names would\n\
    then stand for one array that changes. Copy it into another array before the call.";

pub const T9: &str =
    "A list of initial values has one for each element of the array. Without a list all elements are\n\
    0, or false.";

const ROWS: [Explanation; 9] = [
    Explanation {
        code: "T1",
        name: "widths differ",
        rule: T1,
        violates: "export secret uint32 f(secret uint8 x) { return x + 1; }",
        corrected: "export secret uint32 f(secret uint8 x) { return uint32(x) + 1; }",
    },
    Explanation {
        code: "T2",
        name: "wrong kind",
        rule: T2,
        violates: "export secret uint32 f(secret uint32 x, secret bool c) { return x + c; }",
        corrected: "export secret uint32 f(secret uint32 x, secret bool c) { return x + uint32(c); }",
    },
    Explanation {
        code: "T3",
        name: "literal out of range",
        rule: T3,
        violates: "export secret uint16 f(secret uint16 x) { return x + 300u8; }",
        corrected: "export secret uint16 f(secret uint16 x) { return x + 300u16; }",
    },
    Explanation {
        code: "T4",
        name: "argument count",
        rule: T4,
        violates: "\
secret uint32 add(secret uint32 x, secret uint32 y) {
    return x + y;
}

export secret uint32 f(secret uint32 x) {
    secret uint32 z = add(x);
    return z;
}",
        corrected: "\
secret uint32 add(secret uint32 x, secret uint32 y) {
    return x + y;
}

export secret uint32 f(secret uint32 x) {
    secret uint32 z = add(x, 1);
    return z;
}",
    },
    Explanation {
        code: "T5",
        name: "array shape or label",
        rule: T5,
        violates: "\
void clear(secret mut uint32[2] a) {
    a[0] = 0;
    a[1] = 0;
}

export void f(public mut uint32[2] a) {
    clear(a);
}",
        corrected: "\
void clear(secret mut uint32[2] a) {
    a[0] = 0;
    a[1] = 0;
}

export void f(secret mut uint32[2] a) {
    clear(a);
}",
    },
    Explanation {
        code: "T6",
        name: "not mutable",
        rule: T6,
        violates: "\
export secret uint32 f(secret uint32 x) {
    x = x + 1;
    return x;
}",
        corrected: "\
export secret uint32 f(secret uint32 x) {
    secret mut uint32 y = x;
    y = y + 1;
    return y;
}",
    },
    Explanation {
        code: "T7",
        name: "return",
        rule: T7,
        violates: "\
export secret uint32 f(secret uint32 x) {
    secret uint32 y = x + 1;
}",
        corrected: "\
export secret uint32 f(secret uint32 x) {
    secret uint32 y = x + 1;
    return y;
}",
    },
    Explanation {
        code: "T8",
        name: "array passed twice",
        rule: T8,
        violates: "\
void add(secret uint32[2] a, secret mut uint32[2] sum) {
    sum[0] = sum[0] + a[0];
    sum[1] = sum[1] + a[1];
}

export void twice(secret mut uint32[2] a) {
    add(a, a);
}",
        corrected: "\
void add(secret uint32[2] a, secret mut uint32[2] sum) {
    sum[0] = sum[0] + a[0];
    sum[1] = sum[1] + a[1];
}

export void twice(secret mut uint32[2] a) {
    secret uint32[2] before = { a[0], a[1] };
    add(before, a);
}",
    },
    Explanation {
        code: "T9",
        name: "initialiser count",
        rule: T9,
        violates: "\
export secret uint32 f(secret uint32 x) {
    secret uint32[3] a = { x, 1 };
    return a[0];
}",
        corrected: "\
export secret uint32 f(secret uint32 x) {
    secret uint32[3] a = { x, 1, 0 };
    return a[0];
}",
    },
];

/// The row of a code of this group.
pub fn row(code: &str) -> Option<Explanation>
    ensures { IsRowOf types type_texts code.now result }
{
    row_of(&ROWS, code)
}
