// What to write in place of a habit of C, a line for each.

pub const COMMENT: &str = "a comment begins with `//` and ends with its line";

pub const STEP: &str = "there is no `++` and no `--`: write `x = x + 1;`";

pub const COMPOUND: &str = "an assignment has no operator: for `x += y;` write `x = x + y;`";

pub const COUNTED: &str =
    "write `for (uint32 i from 0 to 8) { .. }`: the counter goes up by one, and ends below the second bound";

pub const WHILE: &str =
    "the only loop is `for (uint32 i from 0 to 8) { .. }`, with an `if` in it for what is not always done";

pub const SWITCH: &str =
    "there is no `switch`: write `if (x == 1) { .. } else if (x == 2) { .. } else { .. }`";

pub const EARLY_RETURN: &str =
    "`return` stands once, last in a procedure: assign the result to a `mut` variable, and return that there";

pub const NO_RESULT: &str = "a `return` has a value: a void procedure ends at its `}`, without one";

pub const LEAVE: &str =
    "a loop runs to its end: let a `mut` bool say that it is done, and test that in an `if`";

pub const JUMP: &str = "there is no `goto`: write an `if` or a `for`";

pub const FIELDS: &str =
    "there are no structs and no other types of your own: use a variable or an array for each field";

pub const IMPORT: &str =
    "procedures of another file are given on the command line: `factc check FILE --with LIB`";

pub const WIDE: &str =
    "a number has at most 32 bits: use two `uint32`, the lower word and the upper one";

pub const QUALIFIER: &str =
    "leave `const`, `static` and the like out: only a `mut` variable changes";

pub const TYPE: &str =
    "the types are `bool`, `uint8`, `uint16` and `uint32`, with a label before them: `secret uint32 x = 1;`";

pub const NO_PARAMETERS: &str = "a procedure without parameters is declared by `void f() { .. }`";

pub const POINTER: &str =
    "there are no pointers: pass an array, which a `mut` parameter changes: `secret mut uint8[16] a`";

pub const GLOBAL: &str =
    "no variable stands outside procedures, and no result is an array: declare it in a body, and pass it on";

pub const LENGTH: &str = "the length stands behind the type: write `secret uint32[4] a`";

pub const MUTABLE_WORD: &str =
    "only an array parameter may be `mut`: return the word, or pass an array of one, `secret mut uint32[1] a`";

pub const FIRST_VALUE: &str = "a word has a first value: write `secret mut uint32 x = 0;`";

pub const ONE_VARIABLE: &str = "each variable has a declaration of its own: write two";

pub const LABEL: &str =
    "a label stands before `mut` and the type: write `public uint32 x` or `secret uint32 x`";

pub const KEYWORD: &str = "this word is a keyword: choose another name";

pub const CONVERSION: &str =
    "a conversion has its brackets behind the type: for `(uint8_t)x` write `uint8(x)`";

pub const UNSIGNED_SHIFT: &str =
    "numbers are unsigned: `x >> 7` fills with zeros, and `x <<< 25` rotates 32 bits to the right by 7";

pub const ROTATION: &str =
    "`<<<` takes a number without suffix, as in `x <<< 7`; by n bits write `x << n | x >> 32 - n`";

pub const ROTATED: &str =
    "put a rotation into brackets before an operator that binds more strongly: `(x <<< 7) + y`";

pub const CALL: &str =
    "a call is a statement or a whole right side: write `secret uint32 v = f(x);`, and use `v`";

pub const COMPARISON: &str =
    "put brackets around a comparison that is compared, and name a call's result before: `(x < y) == (y < z)`";

pub const BRACES: &str = "what an `if` or a `for` does stands in braces: `if (c) { y = x; }`";

pub const EQUALS: &str =
    "an assignment is no expression: compare with `==`, and assign to one variable in a statement";

pub const SEMICOLON: &str = "leave this `;` out: it stands behind a statement, not behind a block";
