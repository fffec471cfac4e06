//! The cursors along a path.
ghost use Rattle.std.specs.Prelude.{◌≡◌, ◌≤◌, ◌<◌, ◌+◌, ◌++◌, ◌∷◌, [], ℕ, take, get_or, length};
ghost use Rattle.fst_walk.specs.declared.spot.Spot.{Spot};

use crate::limits::{MOST_PATH_BYTES, MOST_PATH_FRONTS};
use crate::spot::Spot;

/// Where a trail stands.
#[derive(Clone, Copy)]
pub(crate) enum TrailStage {
    /// At the root, before the first path.
    Fresh,
    /// At the path that was given last.
    AtPath,
    /// Behind the last path.
    Past,
}

/// The bytes of a path, with the cursor of each front of them.
#[derive(Drop)]
pub(crate) struct Trail {
    pub len: usize,
    pub bytes: [u8; MOST_PATH_BYTES],
    pub frames: [Spot; MOST_PATH_FRONTS],
}

impl Trail {
    /// At a cursor of no bytes.
    pub(crate) fn new(root: Spot) -> Trail
        ensures len { result.len ≡ 0 }
        ensures room { length result.bytes ≡ 324 }
        ensures top { (d : Spot) → get_or result.frames 0 d ≡ root }
    {
        Trail {
            len: 0,
            bytes: [0; MOST_PATH_BYTES],
            frames: [root; MOST_PATH_FRONTS],
        }
    }

    pub(crate) fn top(&self) -> Spot
        requires { self.now.len ≤ 324 }
        ensures { (d : Spot) → result ≡ get_or self.now.frames self.now.len d }
    {
        self.frames[self.len]
    }

    pub(crate) fn push(&mut self, label: u8, spot: Spot)
        requires { self.old.len ≤ 323 }
        ensures len { self.new.len ≡ self.old.len + 1 }
        ensures room { length self.new.bytes ≡ length self.old.bytes }
        ensures bytes { take self.new.len self.new.bytes
            ≡ take self.old.len self.old.bytes ++ label ∷ [] }
        ensures fronts { (i : ℕ) → i ≤ self.old.len
            → take i self.new.bytes ≡ take i self.old.bytes }
        ensures top { (d : Spot) → get_or self.new.frames self.new.len d ≡ spot }
        ensures below { (i : ℕ) (d : Spot) → i ≤ self.old.len
            → get_or self.new.frames i d ≡ get_or self.old.frames i d }
    {
        self.bytes[self.len] = label;
        self.len += 1;
        self.frames[self.len] = spot;
    }

    /// Takes the last byte off.
    pub(crate) fn pop(&mut self) -> u8
        requires some { 0 < self.old.len }
        requires fits { self.old.len ≤ 324 }
        ensures len { self.new.len + 1 ≡ self.old.len }
        ensures at { self.new.bytes ≡ self.old.bytes }
        ensures frames { self.new.frames ≡ self.old.frames }
        ensures bytes { take self.old.len self.old.bytes
            ≡ take self.new.len self.new.bytes ++ result ∷ [] }
    {
        self.len -= 1;
        self.bytes[self.len]
    }
}
