// Rules on labels: what keeps secrets from public values and from what an observer sees.

ghost use Rattle.explanations.specs.Listed.{labels};
ghost use Rattle.explanations.specs.Table.{label_texts};
ghost use Rattle.explanations.specs.private.RowsFound.{IsRowOf};

use crate::finding::row_of;
use crate::row::Explanation;

// What the rules are, what usually breaks them and what to do, by their codes.

pub const L1: &str =
    "A secret value is used where a public one is expected. What is public may be seen, so nothing that\n\
    is computed from a secret becomes public. Declare the variable, the parameter or the result\n\
    `secret`. Nothing in the language makes a secret public: the caller alone decides what happens to a\n\
    secret result.";

pub const L2: &str =
    "In the arms of an `if` on a secret, nothing public may be assigned to or declared with `mut`:\n\
    whether it has changed would tell what the condition was. Declare the variable `secret`, or assign\n\
    to it outside the `if`.";

pub const L3: &str =
    "An index must be public, since an observer sees the address of each access. To take the element at a\n\
    secret index, go through all elements with a counter and keep the right one by `select` or `if`.";

pub const L4: &str =
    "The bounds of a loop must be public, since an observer sees how many iterations it has. Loop up to\n\
    the greatest value that the bound may have, and put the body into an `if` on the secret.";

pub const L5: &str =
    "Both operands of `/` and `%` must be public, since the time of a division depends on them and an\n\
    observer sees it. To divide a secret by a power of 2, use `>>` and `&`; for other divisors copy\n\
    `routines/divide_32`, which shifts and subtracts.";

pub const L6: &str =
    "In the arms of an `if` on a secret, no procedure may be called that may assign to something public:\n\
    one with a public `mut` array parameter, one that declares something public with `mut`, or one that\n\
    calls such a procedure. Make these secret, or call it outside the `if`.";

pub const L7: &str =
    "In profile 2, which is for processors on which the time of a multiplication depends on its operands,\n\
    both operands of `*` must be public. Multiply a secret by a constant with shifts and additions, or\n\
    compile for profile 1 if the processor multiplies in constant time.";

const ROWS: [Explanation; 7] = [
    Explanation {
        code: "L1",
        name: "secret to public",
        rule: L1,
        violates: "export public uint32 f(secret uint32 x) { return x; }",
        corrected: "export secret uint32 f(secret uint32 x) { return x; }",
    },
    Explanation {
        code: "L2",
        name: "public assigned under secret control",
        rule: L2,
        violates: "\
export public bool f(secret bool s) {
    public mut bool seen = false;
    if (s) {
        seen = true;
    }
    return seen;
}",
        corrected: "\
export secret bool f(secret bool s) {
    secret mut bool seen = false;
    if (s) {
        seen = true;
    }
    return seen;
}",
    },
    Explanation {
        code: "L3",
        name: "secret index",
        rule: L3,
        violates: "\
export secret uint32 f(secret uint32 place, secret uint32[8] table) {
    return table[place];
}",
        corrected: "\
export secret uint32 f(secret uint32 place, secret uint32[8] table) {
    secret mut uint32 found = 0;
    for (uint32 i from 0 to 8) {
        found = select(i == place, table[i], found);
    }
    return found;
}",
    },
    Explanation {
        code: "L4",
        name: "secret bound",
        rule: L4,
        violates: "\
export secret uint32 f(secret uint32 n, secret uint8[16] bytes) {
    secret mut uint32 sum = 0;
    for (uint32 i from 0 to n) {
        sum = sum + uint32(bytes[i]);
    }
    return sum;
}",
        corrected: "\
export secret uint32 f(secret uint32 n, secret uint8[16] bytes) {
    secret mut uint32 sum = 0;
    for (uint32 i from 0 to 16) {
        if (i < n) {
            sum = sum + uint32(bytes[i]);
        }
    }
    return sum;
}",
    },
    Explanation {
        code: "L5",
        name: "secret division operand",
        rule: L5,
        violates: "export secret uint32 f(secret uint32 x) { return x / 8 + x % 8; }",
        corrected: "export secret uint32 f(secret uint32 x) { return (x >> 3) + (x & 7); }",
    },
    Explanation {
        code: "L6",
        name: "call assigns public under secret control",
        rule: L6,
        violates: "\
void count(public mut uint32[1] total) {
    total[0] = total[0] + 1;
}

export void f(secret bool s, public mut uint32[1] total) {
    if (s) {
        count(total);
    }
}",
        corrected: "\
void count(secret mut uint32[1] total) {
    total[0] = total[0] + 1;
}

export void f(secret bool s, secret mut uint32[1] total) {
    if (s) {
        count(total);
    }
}",
    },
    Explanation {
        code: "L7",
        name: "secret multiplication operand",
        rule: L7,
        violates: "export secret uint32 f(secret uint32 x) { return x * 5; }",
        corrected: "export secret uint32 f(secret uint32 x) { return (x << 2) + x; }",
    },
];

/// The row of a code of this group.
pub fn row(code: &str) -> Option<Explanation>
    ensures { IsRowOf labels label_texts code.now result }
{
    row_of(&ROWS, code)
}
