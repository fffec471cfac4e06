//! Putting the starts in.
ghost use Rattle.std.specs.Prelude.{◌≡◌, ◌≤◌, ◌+◌, true, List, length, IfOk};
ghost use Rattle.sg_base.specs.ByteStrings.{lacks};
ghost use Rattle.sg_base.specs.declared.reserved.TheConstants.{KEY_END};
ghost use Rattle.sg_context.specs.Queries.{IsQuery};
ghost use Rattle.sg_base.specs.declared.limits.TheConstants.{MOST_WEIGHT};
ghost use Rattle.fst_code.specs.Lists.{root_paths};
ghost use Rattle.fst_walk.specs.Starts.{most_steps};
ghost use Rattle.path_desk.specs.declared.entry.Entry.{Entry as PlainEntry};
ghost use Rattle.best_first.specs.Followed.{starts_of};
ghost use Rattle.best_first.specs.Parts.{AreDocuments, IsMapping};
ghost use Rattle.best_first.specs.Roots.{AreRoots, entry_of_start};
ghost use Rattle.best_first.specs.Segments.{started};
ghost use Rattle.best_first.specs.Steps.{put_all};

use crate::parts::SegParts;
use fst_walk::Start;
use path_desk::{Desk, Entry};
use sg_base::{MOST_WEIGHT, Steps};
use sg_context::Query;
use std::alloc::AllocError;

fn root(start: Start) -> Entry
    requires { start.spot.cost ≤ MOST_WEIGHT }
    ensures { result ≡ entry_of_start start }
{
    Entry {
        score: u64::from(MOST_WEIGHT - start.spot.cost) * u64::from(start.boost),
        start: start.number,
        boost: start.boost,
        node: start.spot.node,
        cost: start.spot.cost,
        ordinal: start.spot.ordinal,
    }
}

/// Puts the entries at a query's starts in, each with the query's key, and answers how many.
pub fn load_starts<S: SegParts<L>, L>(
    parts: &S,
    query: &Query,
    desk: &mut Desk,
    steps: &mut Steps<L>,
) -> Result<u32, AllocError>
    ensures stands { AreDocuments (S.listed parts.now)
        × IsMapping (S.nodes parts.now) (S.listed parts.now) }
    ensures query { IsQuery query.now × (lacks KEY_END query.now.prefix ≡ true) }
    ensures loaded { IfOk result (λ count. (roots : List PlainEntry)
        × AreRoots query.now (S.nodes parts.now) 0 (starts_of (S.nodes parts.now) query.now) roots
        × (desk.new ≡ put_all desk.old (started query.now.prefix roots))
        × (count ≡ length roots)) }
    ensures ticks { steps.new
        ≤ steps.old + most_steps (root_paths (S.nodes parts.now)) query.now }
    ensures lists { (desk.new.lists ≡ desk.old.lists) × (desk.new.need ≡ desk.old.need) }
{
    let prefix = query.prefix.as_slice();
    let mut starts = parts.starts(query);
    let mut count = 0;
    while let Some(start) = starts.next(steps) {
        desk.put_start(root(start), prefix)?;
        count += 1;
    }
    Ok(count)
}
