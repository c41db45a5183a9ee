// What is put into an element for an expression: its store cuts a value to a byte or to a half by itself.

ghost use Rattle.std.specs.Prelude.{◌≡◌, ℕ};
ghost use Rattle.codegen.specs.private.Emitted.{cuts, stored_value, uncut};
ghost use Rattle.codegen.specs.private.Placed.{IsPlaced};
ghost use Rattle.expression_code.specs.Layout.{Frame};
ghost use Rattle.codegen.specs.Below.{term_tree};

use expression_code::Layout;
use inline::Term;
use language::Kind;

/// Whether the store of an element of one kind cuts a value as a conversion to the other does.
fn cuts(element: Kind, conversion: Kind) -> bool
    ensures { result ≡ cuts element conversion }
{
    match element {
        Kind::Uint8 => matches!(conversion, Kind::Uint8),
        Kind::Uint16 => matches!(conversion, Kind::Uint16),
        Kind::Boolean | Kind::Uint32 => false,
    }
}

/// An expression without the conversion that an element's store makes.
fn uncut(element: Kind, value: &Term) -> &Term
    ensures { term_tree result.now ≡ uncut element (term_tree value.now) }
{
    if let Term::Convert(conversion, operand) = value {
        if cuts(element, *conversion) {
            return operand;
        }
    }
    value
}

/// What is put into an element of a kind for an expression: in optimised code it is not cut twice.
pub fn stored_value<'a>(layout: &Layout<'_>, element: Kind, value: &'a Term) -> &'a Term
    ensures value { term_tree result.now ≡ stored_value layout.now.allocation element (term_tree value.now) }
    ensures placed { (frame : Frame) (place : ℕ) → IsPlaced frame place (term_tree value.now)
        → IsPlaced frame place (term_tree result.now) }
{
    if layout.immediates() {
        uncut(element, value)
    } else {
        value
    }
}
