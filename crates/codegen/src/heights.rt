// How many temporaries, and how many loops in one another, statements have at once.

ghost use Rattle.std.specs.Prelude.{◌≡◌, ◌≤◌, map};
ghost use Rattle.codegen.specs.Below.{depth_in, depth_in_all, height_in, height_in_all, height_of_all, IsStraight};
ghost use Rattle.codegen.specs.Below.{program_height, straight_block, straight_tree, term_tree};
ghost use Rattle.codegen.specs.private.Homes.{temporary_registers};

use branch_removal::{StraightCode, StraightStatement};
use expression_code::height;
use inline::Term;

/// How many temporaries have registers at least and at most where words live in registers.
const FEWEST_TEMPORARIES: u32 = 3;

const MOST_TEMPORARIES: u32 = 16;

/// How many temporaries values have at once at most, beside the first.
fn height_of_all(values: &[Term]) -> u32
    requires { height_of_all (map term_tree values.now) ≤ 6000 }
    ensures { result ≡ height_of_all (map term_tree values.now) }
{
    let mut greatest = 0;
    for value in values {
        greatest = height(value).max(greatest);
    }
    greatest
}

/// What statements have at once at most.
#[derive(Clone, Copy)]
pub struct CodeExtent {
    /// How many temporaries, beside the first.
    pub height: u32,
    /// How many loops, one in the other.
    pub depth: u32,
}

/// The extent of a statement.
#[cycle(extents)]
fn extent_of(statement: &StraightStatement) -> CodeExtent
    requires height { height_in (straight_tree statement.now) ≤ 6000 }
    requires depth { depth_in (straight_tree statement.now) ≤ 6000 }
    ensures height { result.height ≡ height_in (straight_tree statement.now) }
    ensures depth { result.depth ≡ depth_in (straight_tree statement.now) }
{
    let height = match statement {
        StraightStatement::Set(_, _, value) => height(value),
        StraightStatement::Array(_, _, values) => height_of_all(values),
        StraightStatement::Put(_, _, _, _, index, value) => height(index).max(1 + height(value)),
        StraightStatement::Take(_, _, condition) => height(condition),
        StraightStatement::Branch(condition, accepted, otherwise) => {
            let one = extent_of_all(accepted);
            let other = extent_of_all(otherwise);
            return CodeExtent {
                height: height(condition).max(one.height.max(other.height)),
                depth: one.depth.max(other.depth),
            };
        }
        StraightStatement::Repeat(_, low, high, body) => {
            let iteration = extent_of_all(body);
            return CodeExtent {
                height: height(low).max(height(high)).max(iteration.height),
                depth: 1 + iteration.depth,
            };
        }
    };
    CodeExtent { height, depth: 0 }
}

/// The extent of statements, one after the other.
#[cycle(extents)]
fn extent_of_all(statements: &[StraightStatement]) -> CodeExtent
    requires height { height_in_all (straight_block statements.now) ≤ 6000 }
    requires depth { depth_in_all (straight_block statements.now) ≤ 6000 }
    ensures height { result.height ≡ height_in_all (straight_block statements.now) }
    ensures depth { result.depth ≡ depth_in_all (straight_block statements.now) }
{
    let mut height = 0;
    let mut depth = 0;
    for statement in statements {
        let one = extent_of(statement);
        height = one.height.max(height);
        depth = one.depth.max(depth);
    }
    CodeExtent { height, depth }
}

/// The extent of a program: that of its statements, and how many temporaries its result takes. The program is well
/// typed, and within the limits.
pub fn program_extent(straight: &StraightCode<'_>) -> CodeExtent
    ensures height { result.height ≡ program_height straight.now }
    ensures depth { result.depth ≡ depth_in_all straight.now.body }
    ensures few { result.height ≤ 6000 }
    ensures kept { IsStraight straight.now }
{
    let body = extent_of_all(straight.body());
    let result = match straight.value() {
        Some(value) => height(value),
        None => 0,
    };
    CodeExtent {
        height: body.height.max(result),
        depth: body.depth,
    }
}

/// How many temporaries have registers in optimised code: the others are for words.
pub fn temporary_registers(straight: &StraightCode<'_>) -> u32
    ensures count { result ≡ temporary_registers straight.now }
    ensures some { 3 ≤ result }
    ensures few { result ≤ 16 }
{
    (program_extent(straight).height + 1)
        .max(FEWEST_TEMPORARIES)
        .min(MOST_TEMPORARIES)
}
