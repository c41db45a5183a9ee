ghost use Rattle.std.specs.Prelude.{◌≡◌, ◌<◌, ◌^◌, ◌&&◌, length, IfErr, IfOk, IfSome, OnOk};
ghost use Rattle.std.specs.Option.{option_map};
ghost use Rattle.straight_words.specs.Below.{IsReplaced, IsStraight, IsWantOfMemory, straight_block, term_tree};
ghost use Rattle.straight_words.specs.Below.{with_body};
ghost use Rattle.straight_words.specs.live_words.Exact.{shared_of};
ghost use Rattle.straight_words.specs.live_words.private.Held.{held_by};
ghost use Rattle.straight_words.specs.live_words.private.Whole.{all_fits, at_end, at_start, keep_counts, kept};
ghost use Rattle.straight_words.specs.live_words.private.Whole.{nothing_live, over};
ghost use Rattle.straight_words.specs.live_words.private.Whole.{table_for, with_results};

use crate::live_words::choice::{WordCandidates, choose, counted_for};
use crate::live_words::live::{Live, hold_own, share};
use crate::live_words::statements::statements;
use crate::live_words::terms::{read_any, renamed_any};
use branch_removal::{StraightCode, StraightStatement, variable_weights};
use inline::Term;
use language::{Form, Param, Refusal};
use std::alloc::{AllocError, Global};

/// So many words may share, the first ones, for each pair of them is looked at.
const MOST_SHARING: usize = 1024;

/// A parameter's elements are results: it is live at the end, and keeps its number.
fn keep(live: &mut Live, table: &[u32], parameter: u32)
    ensures { held_by live.new ≡ kept table.now (held_by live.old) parameter }
{
    live.live(table, parameter);
    live.require(share(table, parameter) == parameter);
}

/// The arrays among the parameters that are assigned to are live at the end.
fn keep_results(live: &mut Live, table: &[u32], parameters: &[Param])
    requires numbered { length parameters.now < 2 ^ 32 }
    ensures { held_by live.new ≡ with_results table.now 0 parameters.now (held_by live.old) }
{
    for (number, parameter) in parameters.iter().enumerate() {
        if matches!(parameter.form, Form::MutableArray) {
            keep(live, table, number as u32);
        }
    }
}

/// A body and a result.
#[derive(Drop)]
struct BodyAndResult {
    body: Vec<StraightStatement>,
    value: Option<Term>,
}

/// A program's body and result over the variables that words live in. What is live before it is noted.
fn over(
    alloc: Global,
    straight: &StraightCode<'_>,
    live: &mut Live,
    table: &[u32],
) -> Result<BodyAndResult, AllocError>
    ensures code { IfOk result (λ parts. with_body straight.now (straight_block parts.body.items)
        (option_map term_tree parts.value)
        ≡ over table.now (held_by live.old) straight.now) }
    ensures live { OnOk result (held_by live.new ≡ at_start table.now (held_by live.old) straight.now) }
    ensures straight { IsStraight straight.now }
{
    let code = straight.body();
    keep_results(live, table, straight.parameters());
    read_any(live, table, straight.value());
    let body = statements(alloc, live, table, code)?;
    let value = renamed_any(alloc, table, straight.value())?;
    Ok(BodyAndResult { body, value })
}

/// Whether sharing fits: no variable has to hold two words at once, and what is live at the beginning keeps its number.
fn all_fits(live: &Live) -> bool
    ensures { result ≡ all_fits (held_by live.now) }
{
    live.fits && hold_own(live.holders.as_slice())
}

/// Whether for the variable of each word as many iterations are counted as for its own at least.
fn keep_counts(iterations: &[u32], table: &[u32]) -> bool
    ensures { result ≡ keep_counts iterations.now 0 table.now }
{
    for (word, variable) in table.iter().enumerate() {
        if counted_for(iterations, *variable as usize) < counted_for(iterations, word) {
            return false;
        }
    }
    true
}

/// Whether sharing fits in every respect.
fn sharing_fits(live: &Live, iterations: &[u32], table: &[u32]) -> bool
    ensures { result ≡ (all_fits (held_by live.now) && keep_counts iterations.now 0 table.now) }
{
    all_fits(live) && keep_counts(iterations, table)
}

/// Nothing is live yet. Conflicts are noted of so many words.
fn nothing_live(alloc: Global, straight: &StraightCode<'_>, width: u32) -> Result<Live, AllocError>
    ensures { IfOk result (λ live. held_by live ≡ nothing_live straight.now width) }
{
    Live::nothing(alloc, straight.declared().len(), width)
}

/// The variables that words live in.
fn table_for(alloc: Global, straight: &StraightCode<'_>) -> Result<Vec<u32>, AllocError>
    ensures { IfOk result (λ table. table.items ≡ table_for straight.now) }
{
    let width = straight.declared().len().min(MOST_SHARING) as u32;
    let mut live = nothing_live(alloc, straight, width)?;
    over(alloc, straight, &mut live, &[])?;
    let weights = variable_weights(alloc, straight)?;
    let conflicts = live.conflicts;
    let words = WordCandidates {
        declared: straight.declared(),
        iterations: straight.iterations(),
        starts: live.holders.as_slice(),
        width: live.width,
    };
    choose(alloc, words, weights, conflicts)
}

/// Straight code in which a word that nobody reads is not set, and words that are never live at once share a variable.
/// It may stand in the place of the code that it is made of, which alone decides it; there is none where sharing does
/// not fit, or where it would not be well typed or not within the limits on size. Running out of memory alone refuses
/// it.
pub fn share_words<'f>(
    alloc: Global,
    straight: &StraightCode<'f>,
) -> Result<Option<StraightCode<'f>>, Refusal>
    ensures replaced { IfOk result (λ made. IfSome made (IsReplaced straight.now)) }
    ensures exact { IfOk result (λ made. made ≡ shared_of straight.now) }
    ensures memory { IfErr result (λ refusal. IsWantOfMemory refusal.rule refusal.place) }
{
    let table = table_for(alloc, straight)?;
    let shares = table.as_slice();
    let mut live = nothing_live(alloc, straight, 0)?;
    let parts = over(alloc, straight, &mut live, shares)?;
    if !sharing_fits(&live, straight.iterations(), shares) {
        return Ok(None);
    }
    Ok(straight.rewritten(straight.declared(), parts.body, parts.value))
}
