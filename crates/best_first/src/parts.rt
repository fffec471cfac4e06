//! What a search sees of a segment.
ghost use Rattle.std.specs.Prelude.{◌≡◌, ◌<◌, ◌+◌, List, [], length, get_or};
ghost use Rattle.sg_base.specs.declared.hit.Hit.{Hit as PlainHit};
ghost use Rattle.sg_base.specs.declared.node.Edge.{Edge as PlainEdge};
ghost use Rattle.sg_paths.specs.AllPaths.{FullPath, all_paths};
ghost use Rattle.sg_paths.specs.Operations.{PlainNumbered};
ghost use Rattle.seg_table.specs.Owners.{owner_of, most_paths};
ghost use Rattle.fst_code.specs.Lists.{root_paths};
ghost use Rattle.fst_code.specs.Views.{edges_of};
ghost use Rattle.fst_walk.specs.Starts.{start_contexts, most_steps};
ghost use Rattle.best_first.specs.Parts.{AreDocuments, IsMapping, HasSuggestion, key_at};
ghost use Rattle.best_first.specs.PathMatches.{seq_at};

use collector::Keys;
use fst_code::NodeRef;
use fst_walk::Starts;
use seg_table::Owner;
use sg_base::{NodeId, Steps};
use sg_context::Query;

/// What a search sees of a segment: its documents, deleted ones too, and the transducer that maps
/// their paths to costs.
pub trait SegParts<L>: Keys {
    /// The documents, by place.
    ghost listed: { Self → List PlainNumbered };

    /// The nodes of the transducer.
    ghost nodes: { Self → List (List PlainEdge) };

    /// The start nodes of a query.
    fn starts<'a>(&'a self, query: &'a Query) -> Starts<'a, L>
        ensures stands { AreDocuments (listed self.entry.now)
            × IsMapping (nodes self.entry.now) (listed self.entry.now) }
        ensures nodes { result.nodes ≡ nodes self.entry.now }
        ensures query { result.query ≡ query.entry.now }
        ensures contexts { result.contexts
            ≡ start_contexts (root_paths (nodes self.entry.now)) query.entry.now }
        ensures given { result.given ≡ 0 }
        ensures budget { result.budget
            ≡ most_steps (root_paths (nodes self.entry.now)) query.entry.now };

    /// A node, which is one step.
    fn node(&self, id: NodeId, steps: &mut Steps<L>) -> NodeRef<'_>
        requires { id.0 < length (nodes self.now) }
        ensures node { edges_of result ≡ get_or (nodes self.now) id.0 [] }
        ensures tick { steps.new ≡ steps.old + 1 };

    /// The owner of a path, which is one step.
    fn owner(&self, ordinal: u32, steps: &mut Steps<L>) -> Owner
        requires { ordinal < length (all_paths (listed self.now)) }
        ensures owner { (p : FullPath)
            → result ≡ owner_of (get_or (all_paths (listed self.now)) ordinal p) }
        ensures tick { steps.new ≡ steps.old + 1 };

    /// How many documents there are.
    fn documents(&self) -> u32
        ensures { result ≡ length (listed self.now) };

    /// The greatest number of paths of one document.
    fn most_paths(&self) -> u32
        ensures { result ≡ most_paths (listed self.now) };

    /// The number of the operation that added the document at a place.
    fn seq(&self, doc: u32) -> u64
        requires { doc < length (listed self.now) }
        ensures { result ≡ seq_at (listed self.now) doc };

    /// The key of a hit is that of the suggestion at its place of the document at its place.
    ghost keyed: { (s : Self) (h : PlainHit) → HasSuggestion (listed s) h.doc h.place
        → Self.known s h × (Self.key_of s h ≡ key_at (listed s) h.doc h.place) };
}
