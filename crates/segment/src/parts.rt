//! The pieces of an index, and what views and merges hold of them.
use crate::segment::Segment;
use seg_live::Live;
use sg_base::List;
use sg_paths::Batch;
use std::marker::Model;
use std::sync::Arc;

/// What a piece is made of. Contracts see it through `body_of`.
#[derive(Drop)]
pub enum Kind {
    /// A batch of operations that no segment is built of yet.
    Raw(Arc<Batch>),
    Built(Arc<Segment>),
}

/// A generation of the index.
#[derive(Drop)]
pub struct Piece {
    pub generation: u32,
    pub kind: Kind,
    /// The live docs. There are none of an unbuilt batch, and where all documents are live.
    pub live: Option<Arc<Live>>,
    /// The number of the operation through which deletes are applied to the live docs; of an
    /// unbuilt batch, of the one before its first.
    pub applied: u64,
}

impl Model for Piece {
    ghost use Rattle.std.specs.Prelude.{option_map};
    ghost use Rattle.segment.specs.Pieces.{PlainPiece, body_of};

    ghost Value = { PlainPiece };

    ghost view = { λ p. record {
      generation = p.generation;
      body = body_of p.kind;
      live_docs = option_map (λ l. l.value) p.live;
      applied = p.applied;
    } };
}

/// What a view holds until its end is told to the index: it can't be dropped.
pub struct ViewParts {
    /// The number of the view.
    pub view: u64,
    /// How many operations it sees.
    pub upto: u64,
    /// In the order of generations.
    pub pieces: List<Piece>,
    /// All operations over the least applied number of the pieces, up to `upto`.
    pub batches: List<Arc<Batch>>,
    /// The generations of the pieces.
    pub gens: List<u32>,
}

impl Model for ViewParts {
    ghost use Rattle.std.specs.Prelude.{map};
    ghost use Rattle.segment.specs.Views.{PlainParts};

    ghost Value = { PlainParts };

    ghost view = { λ p. record {
      number = p.view;
      upto = p.upto;
      pieces = p.pieces.items;
      batches = map (λ b. b.value) p.batches.items;
      generations = p.gens.items;
    } };
}

/// What a merge holds until it is committed or dropped.
pub struct MergeParts {
    /// The number of the merge.
    pub merge: u64,
    /// How many operations the merged documents are live after.
    pub upto: u64,
    /// Those that are merged, in the order of generations.
    pub pieces: List<Piece>,
    /// All operations over the least applied number of the pieces, up to `upto`.
    pub batches: List<Arc<Batch>>,
    /// The generations of the pieces.
    pub gens: List<u32>,
}

impl Model for MergeParts {
    ghost use Rattle.std.specs.Prelude.{map};
    ghost use Rattle.segment.specs.Views.{PlainParts};

    ghost Value = { PlainParts };

    ghost view = { λ p. record {
      number = p.merge;
      upto = p.upto;
      pieces = p.pieces.items;
      batches = map (λ b. b.value) p.batches.items;
      generations = p.gens.items;
    } };
}
