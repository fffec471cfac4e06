//! The builder.
ghost use Rattle.std.specs.Prelude.{◌≡◌, ◌<◌, ◌≤◌, ◌++◌, ◌∷◌, [], length, IfOk, OnOk, OnErr};
ghost use Rattle.fst_code.specs.Bytes.{nodes_of};
ghost use Rattle.fst_code.specs.Lists.{IsCanonical, IsOnlyText, list_of};
ghost use Rattle.fst_build.specs.Sorted.{MayFollow};

use crate::frontier::Frontier;
use fst_code::Transducer;
use sg_base::{Bytes, Cost};
use std::alloc::{AllocError, Global};
use std::marker::Model;

/// A transducer that is being built. Contracts see the paths that were added, with their costs.
/// Where the next path branches off from the last one, the last one's nodes below are frozen. So
/// what is kept grows with the nodes of the transducer, and not with the paths.
#[derive(Drop)]
pub struct Builder {
    alloc: Global,
    frontier: Frontier,
}

impl Model for Builder {
    ghost use Rattle.std.specs.Prelude.{List};
    ghost use Rattle.fst_code.specs.Tails.{Tail};
    ghost use Rattle.fst_build.specs.Levels.{IsDraft, added};

    ghost Value = { List Tail };

    ghost view = { λ b. added b.frontier };

    ghost invariant = { λ b. IsDraft b.frontier };
}

impl Builder {
    /// A builder without paths.
    pub fn new(alloc: Global) -> Result<Builder, AllocError>
        ensures { IfOk result (λ b. b ≡ []) }
    {
        let frontier = Frontier::new(alloc)?;
        Ok(Builder { alloc, frontier })
    }

    /// Adds a path with its cost; `goes_on` tests whether it may follow. Time in proportion to its
    /// bytes, and to the nodes of the last path that are frozen. After an Err the next call may fail
    /// too, also with ample memory: some of the last path's nodes are frozen by then.
    pub fn add(&mut self, path: &[u8], cost: Cost) -> Result<(), AllocError>
        requires some { 0 < length path.now }
        requires long { length path.now ≤ 324 }
        requires follows { MayFollow self.old path.now }
        requires cost { cost ≤ 2147483647 }
        requires few { length self.old < 4194304 }
        ensures ok { OnOk result (self.new ≡ self.old ++ (path.now, cost) ∷ []) }
        ensures err { OnErr result (self.new ≡ self.old) }
    {
        if self.frontier.is_empty() {
            self.frontier.begin(path, cost)
        } else {
            self.frontier.go_on(path, cost)
        }
    }

    /// The transducer of the paths that were added. Each arc is written once.
    pub fn finish(self) -> Result<Transducer, AllocError>
        ensures maps { IfOk result (λ t. list_of t ≡ self) }
        ensures canonical { IfOk result (λ t. IsCanonical (nodes_of t)) }
        ensures only { IfOk result (IsOnlyText self) }
    {
        let Builder {
            alloc,
            mut frontier,
        } = self;
        if frontier.is_empty() {
            finish_empty(alloc)
        } else {
            frontier.finish(alloc)
        }
    }
}

/// The transducer of no path.
fn finish_empty(alloc: Global) -> Result<Transducer, AllocError>
    ensures maps { IfOk result (λ t. list_of t ≡ []) }
    ensures canonical { IfOk result (λ t. IsCanonical (nodes_of t)) }
    ensures only { IfOk result (IsOnlyText []) }
{
    let bytes = Bytes::of(alloc, b"SGT1\0\0\0\0\0\0\0\0\0\0\0\0")?;
    Ok(Transducer::of_valid(bytes))
}
