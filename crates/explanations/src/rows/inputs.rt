// Errors of images, arguments, and files of harts and of vectors.

ghost use Rattle.explanations.specs.Listed.{inputs};
ghost use Rattle.explanations.specs.Table.{input_texts};
ghost use Rattle.explanations.specs.private.RowsFound.{IsRowOf};

use crate::finding::row_of;
use crate::row::Explanation;

// What the rules are, what usually breaks them and what to do, by their codes.

pub const B1: &str =
    "An image begins with the four bytes `FACI`, and this file does not. Often a source was given in\n\
    place of the image.";

pub const B2: &str =
    "Images have version 1 of the format, and this file states another one. It was damaged, or\n\
    another program made it.";

pub const B3: &str =
    "An image states for which observer its code was made, 1 or 2, and this file states something\n\
    else. It was damaged, or another program made it.";

pub const B4: &str =
    "The file ends before the image does: a copy is incomplete, or a write failed. Build or copy it\n\
    again.";

pub const B5: &str =
    "A field of the image has a value that is not allowed, for example an unknown type, a slot that\n\
    overlaps the one before it or lies outside the frame, or 0 for `max_steps`. The byte that the error\n\
    names is the field's first. `build` and `wrap` never write such a file: it was damaged, or another\n\
    program made it.";

pub const B6: &str =
    "There are bytes after the last code word of the image. It was damaged, or something was appended\n\
    to it.";

pub const A1: &str =
    "There must be one argument for each parameter of the export; for `pair`, and for a `picture` of two\n\
    runs, two: first those of the one run, then those of the other. An array is one argument: its\n\
    numbers, separated by `,` without spaces.";

pub const A2: &str =
    "The argument is not a number, or does not have as many numbers as the parameter has elements. A\n\
    number is decimal digits, or hexadecimal digits after `0x`; a bool is 0 or 1; the numbers of an\n\
    array are separated by `,` without spaces. Only `certify` and `picture` take `?`, for a secret\n\
    parameter.";

pub const A3: &str =
    "A number is above the greatest value of its type: 1 for a bool, 255 for a `uint8`, 65535 for a\n\
    `uint16`, 4294967295 for a `uint32`.";

pub const H1: &str =
    "A line of a file of harts is `hart PATH ARG ..`, `turns K N` or `round N`. There is one space\n\
    between two fields, and none at either end of the line; K and N are decimal; all `hart` lines come\n\
    before the others. An empty line and a carriage return are errors too.";

pub const H2: &str = "A file of harts names at least one hart and at most 8.";

pub const H3: &str =
    "The line gives turns to a hart that does not exist. The `hart` lines are numbered from 0.";

pub const H4: &str =
    "With this line there are more than 1048576 turns. `round N` counts as N turns of each hart,\n\
    whether it has stopped or not.";

pub const V1: &str =
    "A line of a file of vectors is `NAME: ARG .. = OUTCOME ..`: the name ends at the first `:`, and the\n\
    arguments end at the first `=` after it. A line that begins with `#` is a comment, and a line that is\n\
    empty or only spaces is skipped.";

pub const V2: &str =
    "A file of vectors has at most 4194304 bytes, and this one has more. Split it, and try the parts one\n\
    after another.";

const ROWS: [Explanation; 15] = [
    Explanation {
        code: "B1",
        name: "magic",
        rule: B1,
        violates: "",
        corrected: "",
    },
    Explanation {
        code: "B2",
        name: "version",
        rule: B2,
        violates: "",
        corrected: "",
    },
    Explanation {
        code: "B3",
        name: "profile",
        rule: B3,
        violates: "",
        corrected: "",
    },
    Explanation {
        code: "B4",
        name: "truncated",
        rule: B4,
        violates: "",
        corrected: "",
    },
    Explanation {
        code: "B5",
        name: "field out of range",
        rule: B5,
        violates: "",
        corrected: "",
    },
    Explanation {
        code: "B6",
        name: "trailing bytes",
        rule: B6,
        violates: "",
        corrected: "",
    },
    Explanation {
        code: "A1",
        name: "argument count",
        rule: A1,
        violates: "",
        corrected: "",
    },
    Explanation {
        code: "A2",
        name: "shape",
        rule: A2,
        violates: "",
        corrected: "",
    },
    Explanation {
        code: "A3",
        name: "value outside type",
        rule: A3,
        violates: "",
        corrected: "",
    },
    Explanation {
        code: "H1",
        name: "line form",
        rule: H1,
        violates: "",
        corrected: "",
    },
    Explanation {
        code: "H2",
        name: "hart count",
        rule: H2,
        violates: "",
        corrected: "",
    },
    Explanation {
        code: "H3",
        name: "no such hart",
        rule: H3,
        violates: "",
        corrected: "",
    },
    Explanation {
        code: "H4",
        name: "too many turns",
        rule: H4,
        violates: "",
        corrected: "",
    },
    Explanation {
        code: "V1",
        name: "line form",
        rule: V1,
        violates: "",
        corrected: "",
    },
    Explanation {
        code: "V2",
        name: "text too long",
        rule: V2,
        violates: "",
        corrected: "",
    },
];

/// The row of a code of this group.
pub fn row(code: &str) -> Option<Explanation>
    ensures { IsRowOf inputs input_texts code.now result }
{
    row_of(&ROWS, code)
}
