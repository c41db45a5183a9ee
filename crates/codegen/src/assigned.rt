// Which statements set a variable.

ghost use Rattle.std.specs.Prelude.{◌≡◌};
ghost use Rattle.codegen.specs.Below.{straight_block, straight_tree};
ghost use Rattle.codegen.specs.private.Loops.{sets, any_sets};

use branch_removal::StraightStatement;

/// Whether a statement sets a variable, or an element of it.
#[cycle(assigned)]
fn sets(statement: &StraightStatement, variable: u32) -> bool
    ensures { result ≡ sets variable (straight_tree statement.now) }
{
    match statement {
        StraightStatement::Set(_, set, _)
        | StraightStatement::Array(set, _, _)
        | StraightStatement::Put(_, _, set, _, _, _) => *set == variable,
        StraightStatement::Take(_, _, _) => false,
        StraightStatement::Branch(_, accepted, otherwise) => {
            any_sets(accepted, variable) || any_sets(otherwise, variable)
        }
        StraightStatement::Repeat(counter, _, _, body) => {
            *counter == variable || any_sets(body, variable)
        }
    }
}

/// Whether one of the statements sets a variable, or an element of it.
#[cycle(assigned)]
pub fn any_sets(statements: &[StraightStatement], variable: u32) -> bool
    ensures { result ≡ any_sets variable (straight_block statements.now) }
{
    for statement in statements {
        if sets(statement, variable) {
            return true;
        }
    }
    false
}
