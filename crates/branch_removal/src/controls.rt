ghost use Rattle.std.specs.Prelude.{◌≡◌, ◌^◌, ◌<◌};
ghost use Rattle.branch_removal.specs.Below.{flat_block, flat_tree};
ghost use Rattle.branch_removal.specs.private.Removal.{own_controls, controls_in, controls_in_all};

use inline::FlatStatement;
use language::Label;

/// How many control values a conditional takes by itself, where its condition has this label.
fn own_controls(label: Label) -> u32
    ensures { result ≡ own_controls label }
{
    match label {
        Label::Public => 0,
        Label::Secret => 2,
    }
}

/// How many control values a statement takes.
#[cycle(controls)]
fn controls_in(statement: &FlatStatement) -> u32
    requires numbered { controls_in (flat_tree statement.now) < 2 ^ 32 }
    ensures { result ≡ controls_in (flat_tree statement.now) }
{
    match statement {
        FlatStatement::Declare(_, _, _, _)
        | FlatStatement::DeclareArray(_, _, _, _, _)
        | FlatStatement::Assign(_, _)
        | FlatStatement::AssignElement(_, _, _, _, _)
        | FlatStatement::Hold(_, _, _, _)
        | FlatStatement::Skip => 0,
        FlatStatement::Branch(label, _, accepted, otherwise) => {
            own_controls(*label) + controls_in_all(accepted).max(controls_in_all(otherwise))
        }
        FlatStatement::Loop(_, _, _, body) => controls_in_all(body),
    }
}

/// How many control values some statements take: each may take those of the one before it anew.
#[cycle(controls)]
pub fn controls_in_all(body: &[FlatStatement]) -> u32
    requires numbered { controls_in_all (flat_block body.now) < 2 ^ 32 }
    ensures { result ≡ controls_in_all (flat_block body.now) }
{
    let mut most = 0;
    for statement in body {
        most = controls_in(statement).max(most);
    }
    most
}
