// What a body costs of the limit on work, and the first of the source's parts that cost most of it.

ghost use Rattle.std.specs.Prelude.{◌≡◌, None, drop, fold, map};
ghost use Rattle.std.specs.Option.{option_map};
ghost use Rattle.intervals.specs.Below.{counted_share, flat_block, larger, largest, term_tree};
ghost use Rattle.intervals.specs.Work.{behind, cost_by, first_of, shares_by, stretch_shares, value_shares};

use crate::work::{program_work, work_of_all, work_of_value};
use inline::{Flat, FlatStatement, Stretch, Term};
use language::{Cost, Place, Share, larger};

/// The first statements, so many, and those behind them.
fn split(body: &[FlatStatement], count: usize) -> (&[FlatStatement], &[FlatStatement])
    ensures own { flat_block result.0.now ≡ first_of count (flat_block body.now) }
    ensures rest { flat_block result.1.now ≡ behind count (flat_block body.now) }
{
    let length = body.len().min(count);
    (&body[..length], &body[length..])
}

/// The statement of the source that has most work, of those that became these stretches of the body.
fn largest_stretch(
    iterations: &[u32],
    stretches: &[Stretch],
    body: &[FlatStatement],
) -> Option<Share>
    ensures { result
        ≡ fold larger None (map counted_share (stretch_shares iterations.now stretches.now (flat_block body.now))) }
{
    let mut left = body;
    let mut most = None;
    for stretch in stretches {
        let (own, rest) = split(left, stretch.statements);
        let share = Share {
            place: stretch.place,
            count: work_of_all(iterations, own),
        };
        most = larger(most, share);
        left = rest;
    }
    most
}

/// The part that has most work of those before and of a result whose `return` stands there.
fn larger_value(most: Option<Share>, place: Option<Place>, value: Option<&Term>) -> Option<Share>
    ensures { result ≡ fold larger most
        (map counted_share (value_shares place (option_map (λ term. term_tree term.now) value.entry))) }
{
    match place {
        Some(place) => {
            let count = work_of_value(value);
            larger(most, Share { place, count })
        }
        None => most,
    }
}

/// The part of the source that has most work.
fn largest_part(iterations: &[u32], flat: &Flat) -> Option<Share>
    ensures { result ≡ largest (map counted_share (shares_by iterations.now flat.now)) }
{
    let most = largest_stretch(iterations, flat.stretches(), flat.body());
    larger_value(most, flat.return_place(), flat.value())
}

/// What a body for which these iterations are counted costs of the limit on work.
pub fn program_cost(iterations: &[u32], flat: &Flat) -> Cost
    ensures { result ≡ cost_by iterations.now flat.now }
{
    Cost {
        whole: program_work(iterations, flat),
        largest: largest_part(iterations, flat),
    }
}
