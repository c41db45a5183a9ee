ghost use Rattle.std.specs.Prelude.{◌≡◌, fold, map};
ghost use Rattle.intervals.specs.Below.{noted, term_tree, variable};
ghost use Rattle.intervals.specs.Intervals.{full_at, interval};
ghost use Rattle.intervals.specs.Ranges.{index_violations, term_violations, terms_violations};

use crate::Interval;
use crate::known::bound_of;
use crate::operators::{
    EITHER_TRUTH, converted_interval, full, full_of, hull, operated_interval, prefix_interval,
};
use findings::Findings;
use inline::{FlatVariable, Term};
use language::{IndexRange, Kind, Place, Rule, Why};

/// All that a variable, or an element of an array, may be.
pub fn full_at(declared: &[FlatVariable], variable: u32) -> Interval
    ensures { result ≡ full_at declared.now variable }
{
    match declared.get(variable as usize) {
        Some(declaration) => full_of(declaration.word.kind),
        None => full_of(Kind::Uint32),
    }
}

/// The interval of a variable.
fn interval_of(declared: &[FlatVariable], bounds: &[Option<Interval>], x: u32) -> Interval
    ensures { result ≡ interval declared.now bounds.now (variable x) }
{
    match bound_of(bounds, x) {
        Some(bound) => bound,
        None => full_at(declared, x),
    }
}

/// The interval of an expression, by what is known of the variables.
pub fn interval(declared: &[FlatVariable], bounds: &[Option<Interval>], term: &Term) -> Interval
    ensures { result ≡ interval declared.now bounds.now (term_tree term.now) }
{
    match term {
        Term::Number(value, _) => Interval {
            low: *value,
            high: *value,
        },
        Term::Truth(_) => EITHER_TRUTH,
        Term::Variable(x) => interval_of(declared, bounds, *x),
        Term::Prefix(operator, width, _) => prefix_interval(*operator, *width),
        Term::Binary(_, operator, width, left, right) => {
            let left = interval(declared, bounds, left);
            let right = interval(declared, bounds, right);
            operated_interval(*operator, *width, left, right)
        }
        Term::Rotate(width, _, _) => full(*width),
        Term::Convert(kind, operand) => {
            converted_interval(*kind, interval(declared, bounds, operand))
        }
        Term::Select(_, accepted, otherwise) => {
            let accepted = interval(declared, bounds, accepted);
            hull(accepted, interval(declared, bounds, otherwise))
        }
        Term::Element(_, x, _, _) => full_at(declared, *x),
    }
}

/// Notes an index of this interval that may not be below the size of its array.
pub fn note_index(findings: &mut Findings, place: Place, size: u32, index: Interval)
    ensures { findings.new ≡ fold noted findings.old (index_violations place size index) }
{
    let length = size;
    findings.note(
        length <= index.high,
        place,
        Rule::IndexOutOfRange,
        Why::Index(IndexRange { index, length }),
    );
}

/// Notes the indices and divisors of an expression that are out of range, and gives its interval.
pub fn note_term(
    findings: &mut Findings,
    declared: &[FlatVariable],
    bounds: &[Option<Interval>],
    term: &Term,
) -> Interval
    ensures interval { result ≡ interval declared.now bounds.now (term_tree term.now) }
    ensures findings { findings.new
        ≡ fold noted findings.old (term_violations declared.now bounds.now (term_tree term.now)) }
{
    match term {
        Term::Number(value, _) => Interval {
            low: *value,
            high: *value,
        },
        Term::Truth(_) => EITHER_TRUTH,
        Term::Variable(x) => interval_of(declared, bounds, *x),
        Term::Prefix(operator, width, operand) => {
            note_term(findings, declared, bounds, operand);
            prefix_interval(*operator, *width)
        }
        Term::Binary(place, operator, width, left, right) => {
            let left = note_term(findings, declared, bounds, left);
            let right = note_term(findings, declared, bounds, right);
            let may_be_zero = operator.divides() && right.low == 0;
            findings.note(
                may_be_zero,
                *place,
                Rule::DivisorMayBeZero,
                Why::Divisor(right),
            );
            operated_interval(*operator, *width, left, right)
        }
        Term::Rotate(width, operand, _) => {
            note_term(findings, declared, bounds, operand);
            full(*width)
        }
        Term::Convert(kind, operand) => {
            converted_interval(*kind, note_term(findings, declared, bounds, operand))
        }
        Term::Select(condition, accepted, otherwise) => {
            note_term(findings, declared, bounds, condition);
            let accepted = note_term(findings, declared, bounds, accepted);
            hull(accepted, note_term(findings, declared, bounds, otherwise))
        }
        Term::Element(place, x, size, index) => {
            let index = note_term(findings, declared, bounds, index);
            note_index(findings, *place, *size, index);
            full_at(declared, *x)
        }
    }
}

/// Notes what is out of range in expressions.
pub fn note_terms(
    findings: &mut Findings,
    declared: &[FlatVariable],
    bounds: &[Option<Interval>],
    terms: &[Term],
)
    ensures { findings.new
        ≡ fold noted findings.old (terms_violations declared.now bounds.now (map term_tree terms.now)) }
{
    for term in terms {
        note_term(findings, declared, bounds, term);
    }
}
