// What the operators emit. An operator works on the registers of its operands, and its outcome comes into a target.

ghost use Rattle.std.specs.Prelude.{◌≡◌, ◌++◌, ◌∷◌, ◌<◌, [], OnOk};
ghost use Rattle.expression_code.specs.TermCode as terms;
ghost use Rattle.expression_code.specs.TermCode.{move_code, cut_code, narrow_code, narrowed_in, convert_code};
ghost use Rattle.expression_code.specs.TermCode.{is_zero_code, is_not_zero_code, negation_code, step_code};
ghost use Rattle.expression_code.specs.TermCode.{finish_code, operator_code, number_step_code, number_code};
ghost use Rattle.expression_code.specs.TermCode.{prefix_code, around_code, rotate_code, choice_code};
ghost use Rattle.expression_code.specs.TermCode.{choice_or_zero_code, complement_code, mask_code, sign_code};
ghost use Rattle.expression_code.specs.Below.{Addi, bits, Immediate, width_of};

use crate::emit::{MINUS_ONE, append};
use crate::locations::{SECOND_SPARE, move_register};
use crate::numbers::{Finish, NumberRow, NumberStep};
use language::{BinaryOperator, Kind, PrefixOperator};
use rv_code::{
    DivideOperation, Immediate12, ImmediateOperation, Instr, MultiplyOperation, Reg,
    RegisterOperation as Operation, ShiftAmount, ShiftOperation,
};
use std::alloc::AllocError;
use word::Width;

/// The registers of an operator between two operands: where its outcome comes, one that may be written as well, and
/// those of both operands.
#[derive(Drop)]
pub struct OperandRegisters {
    pub target: Reg,
    pub scratch: Reg,
    pub left: Reg,
    pub right: Reg,
}

impl OperandRegisters {
    /// An instruction between both operands.
    fn between(&self, operation: Operation) -> Instr
        ensures { result ∷ [] ≡ step_code self.now.target self.now.scratch self.now.left self.now.right
            (terms.between operation) }
    {
        Instr::Register(operation, self.target, self.left, self.right)
    }

    /// An instruction between both operands, swapped.
    fn swapped(&self, operation: Operation) -> Instr
        ensures { result ∷ [] ≡ step_code self.now.target self.now.scratch self.now.left self.now.right
            (terms.swapped operation) }
    {
        Instr::Register(operation, self.target, self.right, self.left)
    }

    /// A half of the product of both operands.
    fn product(&self, operation: MultiplyOperation) -> Instr
        ensures { result ∷ [] ≡ step_code self.now.target self.now.scratch self.now.left self.now.right
            (terms.product operation) }
    {
        Instr::Multiply(operation, self.target, self.left, self.right)
    }

    /// The quotient or the remainder of the first operand by the second.
    fn division(&self, operation: DivideOperation) -> Instr
        ensures { result ∷ [] ≡ step_code self.now.target self.now.scratch self.now.left self.now.right
            (terms.division operation) }
    {
        Instr::Divide(operation, self.target, self.left, self.right)
    }

    /// An instruction between two bools, each of which is 0 where its operand is 0, and else 1.
    fn of_truths(&self, code: &mut Vec<Instr>, operation: Operation) -> Result<(), AllocError>
        ensures { OnOk result (code.new.items ≡ code.old.items
            ++ step_code self.now.target self.now.scratch self.now.left self.now.right (terms.of_truths operation)) }
    {
        let right = Instr::Register(Operation::Sltu, self.scratch, Reg::X0, self.right);
        let left = Instr::Register(Operation::Sltu, self.target, Reg::X0, self.left);
        append(code, right)?;
        append(code, left)?;
        append(
            code,
            Instr::Register(operation, self.target, self.target, self.scratch),
        )
    }
}

/// The registers of a choice: those that get the mask and what differs, and those of the operands, of which the first
/// may be the condition's opposite.
#[derive(Drop)]
pub struct ChoiceOperands {
    pub is_opposite: bool,
    pub mask: Reg,
    pub scratch: Reg,
    pub condition: Reg,
    pub accepted: Reg,
    pub otherwise: Reg,
}

/// A register, cut to a width where that is a narrow one, into another.
fn narrow(code: &mut Vec<Instr>, d: Reg, r: Reg, width: Width) -> Result<(), AllocError>
    ensures { OnOk result (code.new.items ≡ code.old.items ++ narrow_code d r width) }
{
    match width {
        Width::W8 => {
            let ones = Immediate12::from_bits(255);
            append(code, Instr::Immediate(ImmediateOperation::Andi, d, r, ones))
        }
        Width::W16 => {
            let half = ShiftAmount::from_bits(16);
            append(code, Instr::Shift(ShiftOperation::Slli, d, r, half))?;
            append(code, Instr::Shift(ShiftOperation::Srli, d, d, half))
        }
        Width::W32 => Ok(()),
    }
}

/// The register that the cut is in then.
fn narrowed_in(d: Reg, r: Reg, width: Width) -> Reg
    ensures { result ≡ narrowed_in d r width }
{
    match width {
        Width::W8 | Width::W16 => d,
        Width::W32 => r,
    }
}

/// A register, cut to a width.
fn cut(code: &mut Vec<Instr>, r: Reg, width: Width) -> Result<(), AllocError>
    ensures { OnOk result (code.new.items ≡ code.old.items ++ cut_code r width) }
{
    narrow(code, r, r, width)
}

/// Into a register, 1 where another is 0, and else 0.
fn is_zero(code: &mut Vec<Instr>, d: Reg, r: Reg) -> Result<(), AllocError>
    ensures { OnOk result (code.new.items ≡ code.old.items ++ is_zero_code d r) }
{
    let one = Immediate12::from_bits(1);
    append(code, Instr::Immediate(ImmediateOperation::Sltiu, d, r, one))
}

/// 0 where a register is 0, and else 1.
fn is_not_zero(code: &mut Vec<Instr>, r: Reg) -> Result<(), AllocError>
    ensures { OnOk result (code.new.items ≡ code.old.items ++ is_not_zero_code r) }
{
    append(code, Instr::Register(Operation::Sltu, r, Reg::X0, r))
}

/// Into a register, 0 less another.
fn negate(code: &mut Vec<Instr>, d: Reg, r: Reg) -> Result<(), AllocError>
    ensures { OnOk result (code.new.items ≡ code.old.items ++ negation_code d r) }
{
    append(code, Instr::Register(Operation::Sub, d, Reg::X0, r))
}

/// One less than a register, into another.
fn less_one(d: Reg, r: Reg) -> Instr
    ensures { result ≡ Immediate Addi d r 4095 }
{
    Instr::Immediate(
        ImmediateOperation::Addi,
        d,
        r,
        Immediate12::from_bits(MINUS_ONE),
    )
}

/// An instruction, whose outcome in a register is cut where it is narrow.
fn narrowed(
    code: &mut Vec<Instr>,
    r: Reg,
    width: Width,
    instruction: Instr,
) -> Result<(), AllocError>
    ensures { OnOk result (code.new.items ≡ code.old.items ++ instruction ∷ cut_code r width) }
{
    append(code, instruction)?;
    cut(code, r, width)
}

/// Whether an instruction gives 0 in a register.
fn gives_zero(code: &mut Vec<Instr>, r: Reg, instruction: Instr) -> Result<(), AllocError>
    ensures { OnOk result (code.new.items ≡ code.old.items ++ instruction ∷ is_zero_code r r) }
{
    append(code, instruction)?;
    is_zero(code, r, r)
}

/// Whether an instruction gives another number than 0 in a register.
fn gives_more(code: &mut Vec<Instr>, r: Reg, instruction: Instr) -> Result<(), AllocError>
    ensures { OnOk result (code.new.items ≡ code.old.items ++ instruction ∷ is_not_zero_code r) }
{
    append(code, instruction)?;
    is_not_zero(code, r)
}

/// What is made of an outcome in a register.
fn finished(code: &mut Vec<Instr>, r: Reg, width: Width, finish: Finish) -> Result<(), AllocError>
    ensures { OnOk result (code.new.items ≡ code.old.items ++ finish_code r width finish) }
{
    match finish {
        Finish::Alone => Ok(()),
        Finish::GivesZero => is_zero(code, r, r),
        Finish::GivesMore => is_not_zero(code, r),
        Finish::Narrowed => cut(code, r, width),
    }
}

/// A step of a register and a number, into another register.
fn number_step(code: &mut Vec<Instr>, d: Reg, r: Reg, step: NumberStep) -> Result<(), AllocError>
    ensures { OnOk result (code.new.items ≡ code.old.items ++ number_step_code d r step) }
{
    match step {
        NumberStep::WithImmediate(operation, field) => {
            append(code, Instr::Immediate(operation, d, r, field))
        }
        NumberStep::ByAmount(operation, amount) => {
            append(code, Instr::Shift(operation, d, r, amount))
        }
        NumberStep::AboveZero => append(code, Instr::Register(Operation::Sltu, d, Reg::X0, r)),
        NumberStep::KeepsLow(others) => {
            append(code, Instr::Shift(ShiftOperation::Slli, d, r, others))?;
            append(code, Instr::Shift(ShiftOperation::Srli, d, d, others))
        }
    }
}

/// An operator between an operand and a number, of which this is the row, into a register.
pub fn with_number(
    code: &mut Vec<Instr>,
    d: Reg,
    r: Reg,
    width: Width,
    row: NumberRow,
) -> Result<(), AllocError>
    ensures { OnOk result (code.new.items ≡ code.old.items ++ number_code d r width row) }
{
    number_step(code, d, r, row.step)?;
    finished(code, d, width, row.finish)
}

/// An operator between two operands, into its target.
pub fn operator(
    code: &mut Vec<Instr>,
    o: &OperandRegisters,
    operator: BinaryOperator,
    width: Width,
) -> Result<(), AllocError>
    ensures { OnOk result (code.new.items ≡ code.old.items
        ++ operator_code o.now.target o.now.scratch o.now.left o.now.right operator width) }
{
    match operator {
        BinaryOperator::LogicalOr => o.of_truths(code, Operation::Or),
        BinaryOperator::LogicalAnd => o.of_truths(code, Operation::And),
        BinaryOperator::Equal => gives_zero(code, o.target, o.between(Operation::Sub)),
        BinaryOperator::Unequal => gives_more(code, o.target, o.between(Operation::Sub)),
        BinaryOperator::Less => append(code, o.between(Operation::Sltu)),
        BinaryOperator::LessOrEqual => gives_zero(code, o.target, o.swapped(Operation::Sltu)),
        BinaryOperator::Greater => append(code, o.swapped(Operation::Sltu)),
        BinaryOperator::GreaterOrEqual => gives_zero(code, o.target, o.between(Operation::Sltu)),
        BinaryOperator::BitOr => append(code, o.between(Operation::Or)),
        BinaryOperator::BitXor => append(code, o.between(Operation::Xor)),
        BinaryOperator::BitAnd => append(code, o.between(Operation::And)),
        BinaryOperator::ShiftLeft => narrowed(code, o.target, width, o.between(Operation::Sll)),
        BinaryOperator::ShiftRight => narrowed(code, o.target, width, o.between(Operation::Srl)),
        BinaryOperator::Add => narrowed(code, o.target, width, o.between(Operation::Add)),
        BinaryOperator::Subtract => narrowed(code, o.target, width, o.between(Operation::Sub)),
        BinaryOperator::Multiply => {
            narrowed(code, o.target, width, o.product(MultiplyOperation::Mul))
        }
        BinaryOperator::Divide => append(code, o.division(DivideOperation::Divu)),
        BinaryOperator::Remainder => append(code, o.division(DivideOperation::Remu)),
        BinaryOperator::HighProduct => append(code, o.product(MultiplyOperation::Mulhu)),
    }
}

/// Each bit of a register changed, into another: by all ones in the instruction, where numbers go there, and else as
/// one less than its negative.
fn complement(code: &mut Vec<Instr>, immediates: bool, d: Reg, r: Reg) -> Result<(), AllocError>
    ensures { OnOk result (code.new.items ≡ code.old.items ++ complement_code immediates d r) }
{
    if immediates {
        let ones = Immediate12::from_bits(MINUS_ONE);
        return append(code, Instr::Immediate(ImmediateOperation::Xori, d, r, ones));
    }
    negate(code, d, r)?;
    append(code, less_one(d, d))
}

/// An operator before an operand, into a register, where numbers go into instructions or not.
pub fn prefix(
    code: &mut Vec<Instr>,
    immediates: bool,
    d: Reg,
    r: Reg,
    operator: PrefixOperator,
    width: Width,
) -> Result<(), AllocError>
    ensures { OnOk result (code.new.items ≡ code.old.items ++ prefix_code immediates d r operator width) }
{
    match operator {
        PrefixOperator::Not => is_zero(code, d, r),
        PrefixOperator::Complement => {
            complement(code, immediates, d, r)?;
            cut(code, d, width)
        }
        PrefixOperator::Negate => {
            negate(code, d, r)?;
            cut(code, d, width)
        }
    }
}

/// The top bit of a register in the place of each, into another.
pub fn sign(code: &mut Vec<Instr>, d: Reg, r: Reg) -> Result<(), AllocError>
    ensures { OnOk result (code.new.items ≡ code.old.items ++ sign_code d r) }
{
    let others = ShiftAmount::from_bits(31);
    append(code, Instr::Shift(ShiftOperation::Srai, d, r, others))
}

/// A register's bits, moved up by an amount below the width and round its end, into another.
fn around(
    code: &mut Vec<Instr>,
    d: Reg,
    r: Reg,
    width: Width,
    amount: u32,
) -> Result<(), AllocError>
    requires { amount < bits width }
    ensures { OnOk result (code.new.items ≡ code.old.items ++ around_code d r width amount) }
{
    if amount == 0 {
        return move_register(code, d, r);
    }
    let moved = SECOND_SPARE;
    let up = ShiftAmount::from_bits(amount);
    let down = ShiftAmount::from_bits(width.bits() - amount);
    append(code, Instr::Shift(ShiftOperation::Slli, moved, r, up))?;
    append(code, Instr::Shift(ShiftOperation::Srli, d, r, down))?;
    let sum = Instr::Register(Operation::Add, d, moved, d);
    narrowed(code, d, width, sum)
}

/// An operand, rotated to the left within its width, into a register.
pub fn rotate(
    code: &mut Vec<Instr>,
    d: Reg,
    r: Reg,
    width: Width,
    amount: u32,
) -> Result<(), AllocError>
    ensures { OnOk result (code.new.items ≡ code.old.items ++ rotate_code d r width amount) }
{
    narrow(code, d, r, width)?;
    around(
        code,
        d,
        narrowed_in(d, r, width),
        width,
        amount % width.bits(),
    )
}

/// An operand, as a number of this kind, into a register.
pub fn convert(code: &mut Vec<Instr>, d: Reg, r: Reg, kind: Kind) -> Result<(), AllocError>
    ensures { OnOk result (code.new.items ≡ code.old.items ++ convert_code d r (width_of kind)) }
{
    let width = kind.width();
    narrow(code, d, r, width)?;
    move_register(code, d, narrowed_in(d, r, width))
}

/// The mask of a condition, or of the opposite of what is in its register, into a register.
fn mask(
    code: &mut Vec<Instr>,
    is_opposite: bool,
    mask: Reg,
    condition: Reg,
) -> Result<(), AllocError>
    ensures { OnOk result (code.new.items ≡ code.old.items ++ mask_code is_opposite mask condition) }
{
    if is_opposite {
        return append(code, less_one(mask, condition));
    }
    negate(code, mask, condition)
}

/// Of three operands, the second where the condition is true and the third where it is not, into a register.
pub fn choice(code: &mut Vec<Instr>, target: Reg, c: &ChoiceOperands) -> Result<(), AllocError>
    ensures { OnOk result (code.new.items ≡ code.old.items
        ++ choice_code c.now.is_opposite target c.now.mask c.now.scratch c.now.condition c.now.accepted
        c.now.otherwise) }
{
    let differing = Instr::Register(Operation::Xor, c.scratch, c.accepted, c.otherwise);
    let masked = Instr::Register(Operation::And, c.scratch, c.scratch, c.mask);
    let chosen = Instr::Register(Operation::Xor, target, c.otherwise, c.scratch);
    mask(code, c.is_opposite, c.mask, c.condition)?;
    append(code, differing)?;
    append(code, masked)?;
    append(code, chosen)
}

/// Of two operands, the second where the condition is true, and else 0, into a register. Another one gets the mask.
pub fn choice_or_zero(
    code: &mut Vec<Instr>,
    is_opposite: bool,
    target: Reg,
    masked: Reg,
    condition: Reg,
    accepted: Reg,
) -> Result<(), AllocError>
    ensures { OnOk result (code.new.items ≡ code.old.items
        ++ choice_or_zero_code is_opposite target masked condition accepted) }
{
    mask(code, is_opposite, masked, condition)?;
    append(
        code,
        Instr::Register(Operation::And, target, accepted, masked),
    )
}
