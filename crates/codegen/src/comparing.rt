// Conditions that a branch tests: a comparison between its operands, read where they are, and any other condition
// against 0.

ghost use Rattle.std.specs.Prelude.{◌≡◌, ◌++◌, IfOk, OnOk};
ghost use Rattle.codegen.specs.private.Compared.{against_zero, between, condition_code, failing, operands_code};
ghost use Rattle.codegen.specs.private.Compared.{right_code, right_register, test_of};
ghost use Rattle.codegen.specs.private.Placed.{IsPlaced};
ghost use Rattle.codegen.specs.private.Words.{read_code, read_register};
ghost use Rattle.expression_code.specs.Registers.{value_register};
ghost use Rattle.codegen.specs.Below.{term_tree};

use crate::jumping::Test;
use crate::reading::{gives_zero, read};
use expression_code::Layout;
use inline::Term;
use language::BinaryOperator;
use rv_code::{BranchTest, Instr, Reg};
use std::alloc::AllocError;

/// The test that a branch makes of a comparison's operands, and whether it takes them swapped.
#[derive(Clone, Copy)]
pub struct Comparison {
    pub test: BranchTest,
    pub is_swapped: bool,
}

/// The test that operands pass where a comparison of them does not hold.
fn failing(operator: BinaryOperator) -> Option<Comparison>
    ensures { result ≡ failing operator }
{
    let (test, is_swapped) = match operator {
        BinaryOperator::Equal => (BranchTest::Bne, false),
        BinaryOperator::Unequal => (BranchTest::Beq, false),
        BinaryOperator::Less => (BranchTest::Bgeu, false),
        BinaryOperator::LessOrEqual => (BranchTest::Bltu, true),
        BinaryOperator::Greater => (BranchTest::Bgeu, true),
        BinaryOperator::GreaterOrEqual => (BranchTest::Bltu, false),
        _ => return None,
    };
    Some(Comparison { test, is_swapped })
}

/// That test of a left and a right register.
fn between(comparison: Comparison, left: Reg, right: Reg) -> Test
    ensures { result ≡ between comparison left right }
{
    let test = comparison.test;
    if comparison.is_swapped {
        Test {
            test,
            left: right,
            right: left,
        }
    } else {
        Test { test, left, right }
    }
}

/// A right operand, and its register: x0 where it is 0.
fn right_operand(code: &mut Vec<Instr>, layout: &Layout<'_>, term: &Term) -> Result<Reg, AllocError>
    requires { IsPlaced layout.now 1 (term_tree term.now) }
    ensures code { OnOk result (code.new.items ≡ code.old.items ++ right_code layout.now (term_tree term.now)) }
    ensures register { IfOk result (λ r. r ≡ right_register layout.now.allocation (term_tree term.now)) }
{
    if gives_zero(layout, term) {
        return Ok(Reg::X0);
    }
    read(code, layout, Reg::X6, 1, term)
}

/// Both operands of a comparison, and the test that they pass where it does not hold.
fn compared(
    code: &mut Vec<Instr>,
    layout: &Layout<'_>,
    comparison: Comparison,
    left: &Term,
    right: &Term,
) -> Result<Test, AllocError>
    requires left { IsPlaced layout.now 0 (term_tree left.now) }
    requires right { IsPlaced layout.now 1 (term_tree right.now) }
    ensures code { OnOk result (code.new.items ≡ code.old.items
        ++ operands_code layout.now (term_tree left.now) (term_tree right.now)) }
    ensures test { IfOk result (λ t. t ≡ between comparison
        (read_register layout.now.allocation value_register (term_tree left.now))
        (right_register layout.now.allocation (term_tree right.now))) }
{
    let left = read(code, layout, Reg::X5, 0, left)?;
    let right = right_operand(code, layout, right)?;
    Ok(between(comparison, left, right))
}

/// A condition that is no comparison, and the test that its register passes where it does not hold.
fn whole(code: &mut Vec<Instr>, layout: &Layout<'_>, condition: &Term) -> Result<Test, AllocError>
    requires { IsPlaced layout.now 0 (term_tree condition.now) }
    ensures code { OnOk result (code.new.items ≡ code.old.items
        ++ read_code layout.now value_register 0 (term_tree condition.now)) }
    ensures test { IfOk result (λ t. t ≡ against_zero
        (read_register layout.now.allocation value_register (term_tree condition.now))) }
{
    let left = read(code, layout, Reg::X5, 0, condition)?;
    Ok(Test {
        test: BranchTest::Beq,
        left,
        right: Reg::X0,
    })
}

/// What a branch tests of a condition, and the test that registers pass then where the condition does not hold.
pub fn condition(
    code: &mut Vec<Instr>,
    layout: &Layout<'_>,
    condition: &Term,
) -> Result<Test, AllocError>
    requires { IsPlaced layout.now 0 (term_tree condition.now) }
    ensures code { OnOk result (code.new.items ≡ code.old.items
        ++ condition_code layout.now (term_tree condition.now)) }
    ensures test { IfOk result (λ t. t ≡ test_of layout.now.allocation (term_tree condition.now)) }
{
    match condition {
        Term::Binary(_, operator, _, left, right) => match failing(*operator) {
            Some(comparison) => compared(code, layout, comparison, left, right),
            None => whole(code, layout, condition),
        },
        Term::Number(_, _)
        | Term::Truth(_)
        | Term::Variable(_)
        | Term::Prefix(_, _, _)
        | Term::Rotate(_, _, _)
        | Term::Convert(_, _)
        | Term::Select(_, _, _)
        | Term::Element(_, _, _, _) => whole(code, layout, condition),
    }
}
