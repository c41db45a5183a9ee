// How many nodes expressions have, about as they will be once counters are numbers: of indices a quarter counts.

ghost use Rattle.std.specs.Prelude.{◌≡◌, map};
ghost use Rattle.optimisation.specs.Below.{term_tree};
ghost use Rattle.optimisation.specs.private.Nodes.{counted, term_size, terms_size};

use inline::Term;

/// How many nodes an index has for each that counts: most of them become numbers.
pub const INDEX_NODES: u64 = 4;

/// How many nodes an expression has, of indices a quarter.
pub fn nodes_in(term: &Term) -> u64
    ensures { result ≡ counted (term_size (term_tree term.now)) }
{
    match term {
        Term::Number(_, _) => 1,
        Term::Truth(_) => 1,
        Term::Variable(_) => 1,
        Term::Prefix(_, _, operand) => nodes_in(operand).saturating_add(1),
        Term::Binary(_, _, _, left, right) => nodes_in(left)
            .saturating_add(nodes_in(right))
            .saturating_add(1),
        Term::Rotate(_, operand, _) => nodes_in(operand).saturating_add(1),
        Term::Convert(_, operand) => nodes_in(operand).saturating_add(1),
        Term::Select(condition, accepted, otherwise) => nodes_in(condition)
            .saturating_add(nodes_in(accepted))
            .saturating_add(nodes_in(otherwise))
            .saturating_add(1),
        Term::Element(_, _, _, index) => (nodes_in(index) / INDEX_NODES).saturating_add(1),
    }
}

/// How many nodes expressions have, of indices a quarter.
pub fn nodes_in_all(terms: &[Term]) -> u64
    ensures { result ≡ counted (terms_size (map term_tree terms.now)) }
{
    let mut sum = 0u64;
    for term in terms {
        sum = sum.saturating_add(nodes_in(term));
    }
    sum
}
