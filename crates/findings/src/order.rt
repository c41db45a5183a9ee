ghost use Rattle.std.specs.Prelude.{◌≡◌, IfOk};
ghost use Rattle.language.specs.Sooner.{comes_before};
ghost use Rattle.std.specs.Ordering.{is_lt};
ghost use Rattle.findings.specs.Order.{AreInOrder};

use language::Violation;
use std::alloc::AllocError;
use std::cmp::Ordering;

/// Which of two comes first.
fn compared(one: Violation, other: Violation) -> Ordering
    ensures { is_lt result ≡ comes_before one other }
{
    if one.precedes(other) {
        Ordering::Less
    } else if other.precedes(one) {
        Ordering::Greater
    } else {
        Ordering::Equal
    }
}

/// Violations in their order.
pub fn in_order(violations: Vec<Violation>) -> Result<Vec<Violation>, AllocError>
    ensures { IfOk result (λ ordered. AreInOrder violations.items ordered.items) }
{
    let mut ordered = violations;
    ordered.sort_by(|one, other| compared(*one, *other))?;
    Ok(ordered)
}
