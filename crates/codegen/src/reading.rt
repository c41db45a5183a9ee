// Values of expressions, read where they are: one that has a home costs no instruction.

ghost use Rattle.std.specs.Prelude.{◌≡◌, ◌++◌, ◌+◌, ◌*◌, ◌≤◌, length, IfOk, OnOk};
ghost use Rattle.codegen.specs.private.Emitted.{assign_code, gives_zero, read_code, read_register};
ghost use Rattle.codegen.specs.private.Emitted.{stored_code, stored_register};
ghost use Rattle.expression_code.specs.Allocation.{slots_to};
ghost use Rattle.expression_code.specs.Layout.{temporaries_offset};
ghost use Rattle.expression_code.specs.TermCode.{IsAmong};
ghost use Rattle.codegen.specs.Below.{height_of, term_tree};

use expression_code::{Layout, emit, into, number};
use inline::Term;
use rv_code::{Instr, Reg};
use std::alloc::AllocError;

/// An expression into a register, with its temporaries in the places from this one on, unless it is at home; and the
/// register where it is then.
pub fn read(
    code: &mut Vec<Instr>,
    layout: &Layout<'_>,
    register: Reg,
    place: u32,
    term: &Term,
) -> Result<Reg, AllocError>
    requires among { IsAmong (length layout.now.declared) (term_tree term.now) }
    requires room { temporaries_offset layout.now
        + 4 * slots_to layout.now.allocation.count (height_of (term_tree term.now) + place) ≤ 65536 }
    ensures code { OnOk result (code.new.items ≡ code.old.items
        ++ read_code layout.now register place (term_tree term.now)) }
    ensures register { IfOk result (λ r. r ≡ read_register layout.now.allocation register (term_tree term.now)) }
{
    match layout.home_of_term(term) {
        Some(home) => Ok(home),
        None => {
            into(layout, code, register, place, term)?;
            Ok(register)
        }
    }
}

/// Whether an expression is the number 0, where numbers go into instructions.
pub fn gives_zero(layout: &Layout<'_>, term: &Term) -> bool
    ensures { result ≡ gives_zero layout.now.allocation (term_tree term.now) }
{
    layout.immediates() && matches!(number(term), Some(0))
}

/// An expression that is stored: its register, once its code is there. x0 has 0 without any.
pub fn stored(code: &mut Vec<Instr>, layout: &Layout<'_>, term: &Term) -> Result<Reg, AllocError>
    requires among { IsAmong (length layout.now.declared) (term_tree term.now) }
    requires room { temporaries_offset layout.now
        + 4 * slots_to layout.now.allocation.count (height_of (term_tree term.now)) ≤ 65536 }
    ensures code { OnOk result (code.new.items ≡ code.old.items ++ stored_code layout.now (term_tree term.now)) }
    ensures register { IfOk result (λ r. r ≡ stored_register layout.now.allocation (term_tree term.now)) }
{
    if gives_zero(layout, term) {
        return Ok(Reg::X0);
    }
    read(code, layout, Reg::X5, 0, term)
}

/// The value of an expression into a slot.
pub fn assign(
    code: &mut Vec<Instr>,
    layout: &Layout<'_>,
    term: &Term,
    offset: u32,
) -> Result<(), AllocError>
    requires among { IsAmong (length layout.now.declared) (term_tree term.now) }
    requires room { temporaries_offset layout.now
        + 4 * slots_to layout.now.allocation.count (height_of (term_tree term.now)) ≤ 65536 }
    ensures { OnOk result (code.new.items ≡ code.old.items ++ assign_code layout.now (term_tree term.now) offset) }
{
    let register = stored(code, layout, term)?;
    emit::store(code, register, offset)
}
