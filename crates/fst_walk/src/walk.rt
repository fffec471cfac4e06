//! How far the contexts were walked.
ghost use Rattle.std.specs.Prelude.{◌≡◌, ◌≤◌, ◌<◌, ◌+◌, ◌++◌, ◌∷◌, [], ℕ, take, get_or, length};
ghost use Rattle.fst_walk.specs.declared.spot.Spot.{Spot};
ghost use Rattle.fst_walk.specs.declared.walk.Stage.TheVariants.{Fresh, At, Within, Past};
ghost use Rattle.fst_walk.specs.Walks.{is_within};

use crate::children::Child;
use crate::limits::MOST_CONTEXT_FRONTS;
use crate::spot::Spot;
use sg_base::NodeId;

/// How far the walk is.
#[derive(Clone, Copy)]
pub(crate) enum Stage {
    /// No query context was taken up.
    Fresh,
    /// At the context at hand. What comes after it is left.
    At,
    /// The same, among all that goes on from a query context.
    Within,
    /// All that goes on from the bytes at hand was walked.
    Past,
}

/// A context at hand, with the cursors of its fronts from those of the query context that it goes
/// on from.
#[derive(Drop)]
pub(crate) struct Walk {
    pub stage: Stage,
    /// How many bytes the query context has.
    pub base: usize,
    /// How many bytes the context at hand has.
    pub len: usize,
    pub at: [u8; MOST_CONTEXT_FRONTS],
    pub frames: [Spot; MOST_CONTEXT_FRONTS],
}

impl Walk {
    pub(crate) fn new() -> Walk
        ensures stage { result.stage ≡ Fresh }
        ensures len { result.len ≡ 0 }
    {
        let nowhere = Spot {
            node: NodeId(0),
            cost: 0,
            ordinal: 0,
        };
        Walk {
            stage: Stage::Fresh,
            base: 0,
            len: 0,
            at: [0; MOST_CONTEXT_FRONTS],
            frames: [nowhere; MOST_CONTEXT_FRONTS],
        }
    }

    /// Whether the walk stands among all that goes on from a query context.
    pub(crate) fn is_within(&self) -> bool
        ensures { result ≡ is_within self.now.stage }
    {
        matches!(self.stage, Stage::Within)
    }

    pub(crate) fn top(&self) -> Spot
        requires { self.now.len ≤ 63 }
        ensures { (d : Spot) → result ≡ get_or self.now.frames self.now.len d }
    {
        self.frames[self.len]
    }

    pub(crate) fn push(&mut self, child: Child)
        requires { self.old.len ≤ 62 }
        ensures stage { self.new.stage ≡ self.old.stage }
        ensures base { self.new.base ≡ self.old.base }
        ensures len { self.new.len ≡ self.old.len + 1 }
        ensures room { length self.new.at ≡ length self.old.at }
        ensures bytes { take self.new.len self.new.at
            ≡ take self.old.len self.old.at ++ child.label ∷ [] }
        ensures fronts { (i : ℕ) → i ≤ self.old.len → take i self.new.at ≡ take i self.old.at }
        ensures top { (d : Spot) → get_or self.new.frames self.new.len d ≡ child.spot }
        ensures below { (i : ℕ) (d : Spot) → i ≤ self.old.len
            → get_or self.new.frames i d ≡ get_or self.old.frames i d }
    {
        self.at[self.len] = child.label;
        self.len += 1;
        self.frames[self.len] = child.spot;
    }

    /// Takes the last byte off.
    pub(crate) fn pop(&mut self) -> u8
        requires some { 0 < self.old.len }
        requires fits { self.old.len ≤ 63 }
        ensures stage { self.new.stage ≡ self.old.stage }
        ensures base { self.new.base ≡ self.old.base }
        ensures len { self.new.len + 1 ≡ self.old.len }
        ensures at { self.new.at ≡ self.old.at }
        ensures frames { self.new.frames ≡ self.old.frames }
        ensures bytes { take self.old.len self.old.at
            ≡ take self.new.len self.new.at ++ result ∷ [] }
    {
        self.len -= 1;
        self.at[self.len]
    }

    /// Leaves the group: all that goes on from the bytes was walked.
    pub(crate) fn leave(&mut self)
        ensures stage { self.new.stage ≡ Past }
        ensures len { self.new.len ≡ self.old.len }
        ensures at { self.new.at ≡ self.old.at }
    {
        self.stage = Stage::Past;
    }

    /// Takes up a query context, on its own.
    pub(crate) fn place(&mut self, context: &[u8])
        requires { length context.now ≤ 63 }
        ensures stage { self.new.stage ≡ At }
        ensures len { self.new.len ≡ length context.now }
        ensures base { self.new.base ≡ length context.now }
        ensures room { length self.new.at ≡ 64 }
        ensures bytes { take self.new.len self.new.at ≡ context.now }
    {
        self.stage = Stage::At;
        self.len = context.len();
        self.base = context.len();
        self.at[..context.len()].copy_from_slice(context);
    }

    /// With all that goes on from it.
    pub(crate) fn open(&mut self, spot: Spot)
        requires { self.old.len ≤ 63 }
        ensures stage { self.new.stage ≡ Within }
        ensures len { self.new.len ≡ self.old.len }
        ensures base { self.new.base ≡ self.old.base }
        ensures at { self.new.at ≡ self.old.at }
        ensures top { (d : Spot) → get_or self.new.frames self.new.len d ≡ spot }
    {
        self.stage = Stage::Within;
        self.frames[self.len] = spot;
    }
}
