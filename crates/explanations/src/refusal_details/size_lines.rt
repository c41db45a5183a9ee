// A size of the export, or its work, that is above its limit.

ghost use Rattle.std.specs.Prelude.{◌≡◌, IfOk};
ghost use Rattle.std.specs.String.{string_bytes};
ghost use Rattle.explanations.specs.refusal_details.SizeLines.{excess_line, or_more, part_head, share_text};
ghost use Rattle.explanations.specs.refusal_details.SizeLines.{size_line, work_line};

use intervals::MOST_WORK;
use language::{Counted, Excess, MOST_BODIES, MOST_DECLARED_BYTES, MOST_NODES, Share};
use std::alloc::{AllocError, Global};

/// What is said of a count above its limit: how much there is, how much is allowed, and where the part stands that has
/// most.
pub fn excess_line(alloc: Global, excess: Excess) -> Result<String, AllocError>
    ensures { IfOk result (λ line. string_bytes line ≡ excess_line excess) }
{
    match excess.counted {
        Counted::Nodes => size_line(alloc, "nodes", MOST_NODES, excess),
        Counted::Bodies => size_line(alloc, "bodies open at once", MOST_BODIES, excess),
        Counted::DeclaredBytes => size_line(alloc, "declared bytes", MOST_DECLARED_BYTES, excess),
        Counted::Work => work_line(alloc, excess),
    }
}

/// A size, of which so much is allowed.
fn size_line(alloc: Global, things: &str, most: u32, excess: Excess) -> Result<String, AllocError>
    ensures { IfOk result (λ line. string_bytes line ≡ size_line things.now most excess) }
{
    let whole = excess.whole;
    let or_more = or_more(whole);
    let part = share_text(alloc, excess.largest)?;
    format!(in alloc;
        "  the export has {whole}{or_more} {things}, and at most {most} are allowed{part}\n"
    )
}

/// The work.
fn work_line(alloc: Global, excess: Excess) -> Result<String, AllocError>
    ensures { IfOk result (λ line. string_bytes line ≡ work_line excess) }
{
    let whole = excess.whole;
    let or_more = or_more(whole);
    let most = MOST_WORK;
    let part = share_text(alloc, excess.largest)?;
    format!(in alloc;
        "  the export's work is {whole}{or_more}, and at most {most} is allowed{part}\n"
    )
}

/// Where the part stands that has most, and how much it has.
fn share_text(alloc: Global, share: Option<Share>) -> Result<String, AllocError>
    ensures { IfOk result (λ text. string_bytes text ≡ share_text share) }
{
    match share {
        Some(share) => {
            let head = part_head(share.count);
            let place = share.place;
            let count = share.count;
            let or_more = or_more(count);
            format!(in alloc; "{head}{place}: {count}{or_more}")
        }
        None => Ok(String::new(alloc)),
    }
}

/// What stands before the place of a part that has so many.
fn part_head(count: u64) -> &'static str
    ensures { result.now ≡ part_head count }
{
    if count < u64::MAX {
        "; its largest part is at "
    } else {
        "; a part of it is at "
    }
}

/// What stands behind a count: the greatest number stands for those above it too.
fn or_more(count: u64) -> &'static str
    ensures { result.now ≡ or_more count }
{
    if count < u64::MAX { "" } else { " or more" }
}
