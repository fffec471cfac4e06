//! What the core tells of its current pieces.
use segment::Piece;
use sg_base::List;
use sg_paths::Batch;
use std::marker::Model;
use std::sync::Arc;

/// The current pieces, over what is frozen. Contracts see them as the parts of a view with the
/// number 0, which no view has.
#[derive(Drop)]
pub struct CurrentParts {
    /// How many operations are frozen.
    pub upto: u64,
    /// In the order of generations.
    pub pieces: List<Piece>,
    /// All operations over the least applied number of the pieces, up to `upto`.
    pub batches: List<Arc<Batch>>,
}

impl Model for CurrentParts {
    ghost use Rattle.std.specs.Prelude.{map};
    ghost use Rattle.segment.specs.Views.{PlainParts};

    ghost Value = { PlainParts };

    ghost view = { λ p. record {
      number = 0;
      upto = p.upto;
      pieces = p.pieces.items;
      batches = map (λ b. b.value) p.batches.items;
      generations = map (λ piece. piece.generation) p.pieces.items;
    } };
}
