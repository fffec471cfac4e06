//! Following a path to its end.
ghost use Rattle.std.specs.Prelude.{◌≡◌, ◌<◌, ◌≤◌, ◌+◌, ◌-◌, ◌*◌, List, map, take, drop};
ghost use Rattle.std.specs.Prelude.{length, OnOk, IfOk, IsSome};
ghost use Rattle.sg_base.specs.declared.node.Edge.{Edge as PlainEdge};
ghost use Rattle.sg_base.specs.Lists.{In};
ghost use Rattle.fst_code.specs.Views.{edges_of};
ghost use Rattle.path_desk.specs.Entries.{queued};
ghost use Rattle.path_desk.specs.Desks.{put_entry, path_of};
ghost use Rattle.best_first.specs.Followed.{FollowsPath};
ghost use Rattle.best_first.specs.Matches.{Match};
ghost use Rattle.best_first.specs.PathMatches.{Setting};
ghost use Rattle.best_first.specs.Steps.{IsWithin, IsFree, HasFreeArc, child, child_entry};
ghost use Rattle.best_first.specs.Steps.{put_all, most_path_bytes};

use crate::parts::SegParts;
use fst_code::NodeRef;
use path_desk::{Desk, Entry};
use sg_base::{Edge, Steps};
use std::alloc::AllocError;

// The greatest score of a path behind an arc.
fn child_score(entry: Entry, edge: Edge) -> u64
    requires { IsWithin entry edge }
    ensures { result ≡ (child_entry entry edge).score }
{
    entry.score - u64::from(edge.cost) * u64::from(entry.boost)
}

fn child(entry: Entry, edge: Edge) -> Entry
    requires { IsWithin entry edge }
    ensures { result ≡ child_entry entry edge }
{
    Entry {
        score: child_score(entry, edge),
        start: entry.start,
        boost: entry.boost,
        node: edge.target,
        cost: entry.cost + edge.cost,
        ordinal: entry.ordinal + edge.before,
    }
}

// The first arc that costs nothing.
fn first_free(node: NodeRef<'_>) -> u32
    requires { HasFreeArc (edges_of node) }
    ensures within { result < length (edges_of node.entry) }
    ensures free { (us : List PlainEdge) × (vs : List PlainEdge) × (a : PlainEdge)
        × IsFree (edges_of node.entry) us vs a × (length us ≡ result) }
{
    let mut at = 0;
    while at < node.len() && node.edge(at).cost != 0 {
        at += 1;
    }
    at
}

// Puts the entry behind an arc in. One that would be dropped at once and change nothing costs one
// look at its score.
fn put_child(entry: Entry, edge: Edge, desk: &mut Desk) -> Result<(), AllocError>
    requires within { IsWithin entry edge }
    requires following { IsSome desk.old.followed }
    ensures value { OnOk result
        (desk.new ≡ put_entry desk.old (child (queued entry (path_of desk.old)) edge)) }
    ensures lists { (desk.new.lists ≡ desk.old.lists) × (desk.new.need ≡ desk.old.need) }
{
    if desk.is_behind(child_score(entry, edge)) {
        return Ok(());
    }
    desk.put(child(entry, edge), edge.label)
}

// Puts the entries behind some of a node's arcs in.
fn put_range(
    node: NodeRef<'_>,
    entry: Entry,
    from: u32,
    to: u32,
    desk: &mut Desk,
) -> Result<(), AllocError>
    requires range { (from ≤ to) × (to ≤ length (edges_of node)) }
    requires following { IsSome desk.old.followed }
    requires within { (a : PlainEdge) → In a (edges_of node) → IsWithin entry a }
    ensures value { OnOk result (desk.new
        ≡ put_all desk.old (map (child (queued entry (path_of desk.old)))
        (take (to - from) (drop from (edges_of node.entry))))) }
    ensures followed { OnOk result (desk.new.followed ≡ desk.old.followed) }
    ensures fixed { OnOk result
        ((desk.new.reached ≡ desk.old.reached) × (desk.new.room ≡ desk.old.room)) }
    ensures lists { (desk.new.lists ≡ desk.old.lists) × (desk.new.need ≡ desk.old.need) }
{
    let mut at = from;
    while at < to {
        put_child(entry, node.edge(at), desk)?;
        at += 1;
    }
    Ok(())
}

// Goes one arc on.
fn follow_arc<S: SegParts<L>, L>(
    parts: &S,
    entry: Entry,
    desk: &mut Desk,
    steps: &mut Steps<L>,
) -> Result<Entry, AllocError>
    requires follows { (s : Setting) × (r : List Match)
        × FollowsPath s (S.nodes parts.now) (S.listed parts.now) r desk.old entry }
    requires inner { entry.node.0 ≡ 0 → ⊥ }
    ensures follows { (s : Setting) (r : List Match)
        → FollowsPath s (S.nodes parts.now) (S.listed parts.now) r desk.old entry
        → IfOk result (λ e. FollowsPath s (S.nodes parts.now) (S.listed parts.now) r desk.new e) }
    ensures longer { OnOk result (length (path_of desk.new) ≡ length (path_of desk.old) + 1) }
    ensures within { length (path_of desk.old) < most_path_bytes (S.nodes parts.now) }
    ensures fixed { OnOk result
        ((desk.new.reached ≡ desk.old.reached) × (desk.new.room ≡ desk.old.room)) }
    ensures tick { steps.new ≡ steps.old + 1 }
    ensures lists { (desk.new.lists ≡ desk.old.lists) × (desk.new.need ≡ desk.old.need) }
{
    let node = parts.node(entry.node, steps);
    let count = node.len();
    let at = first_free(node);
    put_range(node, entry, 0, at, desk)?;
    put_range(node, entry, at + 1, count, desk)?;
    let edge = node.edge(at);
    desk.step(edge.label)?;
    Ok(child(entry, edge))
}

/// Follows an entry along the first arc that costs nothing, to the end, and puts the entries behind
/// the other arcs in.
pub fn follow_to_end<S: SegParts<L>, L>(
    parts: &S,
    first: Entry,
    desk: &mut Desk,
    steps: &mut Steps<L>,
) -> Result<Entry, AllocError>
    requires follows { (s : Setting) × (r : List Match)
        × FollowsPath s (S.nodes parts.now) (S.listed parts.now) r desk.old first }
    ensures follows { (s : Setting) (r : List Match)
        → FollowsPath s (S.nodes parts.now) (S.listed parts.now) r desk.old first
        → IfOk result (λ e. FollowsPath s (S.nodes parts.now) (S.listed parts.now) r desk.new e
        × (e.node.0 ≡ 0)) }
    ensures fixed { OnOk result
        ((desk.new.reached ≡ desk.old.reached) × (desk.new.room ≡ desk.old.room)) }
    ensures ticks { steps.new
        ≤ steps.old + (most_path_bytes (S.nodes parts.now) - length (path_of desk.old)) }
    ensures lists { (desk.new.lists ≡ desk.old.lists) × (desk.new.need ≡ desk.old.need) }
{
    let mut entry = first;
    while entry.node.0 != 0 {
        entry = follow_arc(parts, entry, desk, steps)?;
    }
    Ok(entry)
}
