//! The nodes along the last path, and the frozen ones behind it.
ghost use Rattle.std.specs.Prelude.{◌≡◌, ◌<◌, ◌≤◌, ◌+◌, ◌++◌, ◌∷◌, ◌-◌, ◌↔◌, [], length, take};
ghost use Rattle.std.specs.Prelude.{IsTrue, IfOk, OnOk, OnErr};
ghost use Rattle.fst_code.specs.Bytes.{nodes_of};
ghost use Rattle.fst_code.specs.Lists.{IsCanonical, IsOnlyText, list_of};
ghost use Rattle.fst_build.specs.Levels.{IsDraft, IsOpenDraft, added, empty_draft, represented};
ghost use Rattle.fst_build.specs.Sorted.{MayFollow};

use crate::branching::{branch, extend, shared_front};
use crate::carried::{Carried, at_end};
use crate::level::Level;
use crate::nodes::{edges_from, hold, least_cost, make_node};
use crate::writing::encode_nodes;
use fst_code::Transducer;
use fst_register::Register;
use sg_base::{Bytes, Cost, Edge};
use std::alloc::{AllocError, Global};
use std::marker::Model;

/// What stands for the paths so far, after each single step: nodes that are frozen from the deepest
/// one up, and those above them.
#[derive(Drop)]
pub struct Frontier {
    /// The frozen nodes.
    register: Register,
    /// The nodes along the last path, the root first, as far as they aren't frozen.
    levels: Vec<Level>,
    /// The finished arcs of all levels, with the whole cost of the cheapest path under each.
    edges: Vec<Edge>,
    /// Where the last path goes on behind the levels.
    carried: Carried,
    /// Room for the node that is frozen next.
    node: Vec<Edge>,
}

impl Model for Frontier {
    ghost use Rattle.fst_build.specs.Levels.{Draft};

    ghost Value = { Draft };

    ghost view = { λ f. record {
      nodes = f.register;
      levels = f.levels.items;
      edges = f.edges.items;
      carried = f.carried;
    } };
}

impl Frontier {
    /// The end alone, which is frozen from the start.
    pub fn new(alloc: Global) -> Result<Frontier, AllocError>
        ensures { IfOk result (λ f. f ≡ empty_draft) }
    {
        let mut register = Register::new(alloc);
        register.add(&[])?;
        Ok(Frontier {
            register,
            levels: Vec::new(alloc),
            edges: Vec::new(alloc),
            carried: at_end(0),
            node: Vec::new(alloc),
        })
    }

    /// Whether no path was added.
    pub fn is_empty(&self) -> bool
        ensures { IsTrue result ↔ (length self.now.levels ≡ 0) }
    {
        self.levels.len() == 0
    }

    /// Takes the first path.
    pub fn begin(&mut self, path: &[u8], cost: Cost) -> Result<(), AllocError>
        requires draft { IsDraft self.old }
        requires none { length self.old.levels ≡ 0 }
        requires some { 0 < length path.now }
        requires long { length path.now ≤ 324 }
        requires cost { cost ≤ 2147483647 }
        ensures draft { IsDraft self.new }
        ensures ok { OnOk result (added self.new ≡ added self.old ++ (path.now, cost) ∷ []) }
        ensures err { OnErr result (self.new ≡ self.old) }
    {
        self.levels.reserve(path.len())?;
        extend(&mut self.levels, path, 0);
        self.carried = at_end(cost);
        Ok(())
    }

    /// Takes a path that branches off from the last one.
    pub fn go_on(&mut self, path: &[u8], cost: Cost) -> Result<(), AllocError>
        requires draft { IsDraft self.old }
        requires levels { 0 < length self.old.levels }
        requires follows { MayFollow (added self.old) path.now }
        requires long { length path.now ≤ 324 }
        requires cost { cost ≤ 2147483647 }
        requires few { length (added self.old) < 4194304 }
        ensures draft { IsDraft self.new }
        ensures ok { OnOk result (added self.new ≡ added self.old ++ (path.now, cost) ∷ []) }
        ensures err { OnErr result (added self.new ≡ added self.old) }
    {
        let kept = shared_front(&self.levels, path);
        if kept >= self.levels.len() {
            // The last call failed for want of memory after it had frozen too much.
            return Err(AllocError);
        }
        self.freeze_to(kept + 1)?;
        self.levels.reserve(path.len())?;
        self.edges.reserve(1)?;
        let level = self.levels[kept];
        branch(
            &mut self.levels,
            &mut self.edges,
            level,
            self.carried,
            kept,
            path,
        );
        self.carried = at_end(cost);
        Ok(())
    }

    /// Freezes the deepest level's node: its least cost is taken out of its arcs and carried up.
    fn freeze(&mut self) -> Result<(), AllocError>
        requires draft { IsOpenDraft self.old }
        requires some { 0 < length self.old.levels }
        ensures ok { OnOk result (IsOpenDraft self.new) }
        ensures paths { OnOk result (represented self.new ≡ represented self.old) }
        ensures levels { OnOk result
            (self.new.levels ≡ take (length self.old.levels - 1) self.old.levels) }
        ensures err { OnErr result (self.new ≡ self.old) }
    {
        let top = self.levels.len() - 1;
        let level = self.levels[top];
        let start = self.edges.len() - level.held as usize;
        let last = Edge {
            label: level.label,
            cost: self.carried.cost,
            before: level.count,
            target: self.carried.target,
        };
        let finished = edges_from(&self.edges, start);
        let base = least_cost(finished, last);
        make_node(&mut self.node, finished, last, base)?;
        let target = hold(&mut self.register, &self.node)?;
        self.levels.truncate(top);
        self.edges.truncate(start);
        self.carried = Carried {
            target,
            cost: base,
            count: level.count + self.carried.count,
        };
        Ok(())
    }

    /// Freezes the nodes of all levels from a depth on. An Err comes between two nodes, so that the
    /// paths stay.
    fn freeze_to(&mut self, depth: usize) -> Result<(), AllocError>
        requires draft { IsOpenDraft self.old }
        requires depth { depth ≤ length self.old.levels }
        ensures draft { IsOpenDraft self.new }
        ensures paths { represented self.new ≡ represented self.old }
        ensures depth { depth ≤ length self.new.levels }
        ensures ok { OnOk result (self.new.levels ≡ take depth self.old.levels) }
    {
        while self.levels.len() > depth {
            self.freeze()?;
        }
        Ok(())
    }

    /// Freezes all nodes but the root, which keeps its costs, and encodes all.
    pub fn finish(&mut self, alloc: Global) -> Result<Transducer, AllocError>
        requires draft { IsOpenDraft self.old }
        requires some { 0 < length self.old.levels }
        ensures maps { IfOk result (λ t. list_of t ≡ represented self.old) }
        ensures canonical { IfOk result (λ t. IsCanonical (nodes_of t)) }
        ensures only { IfOk result (IsOnlyText (represented self.old)) }
    {
        self.freeze_to(1)?;
        let level = self.levels[0];
        self.edges.push(Edge {
            label: level.label,
            cost: self.carried.cost,
            before: level.count,
            target: self.carried.target,
        })?;
        let count = level.count + self.carried.count;
        let bytes = encode_nodes(alloc, &self.register, &self.edges, count)?;
        Ok(Transducer::of_valid(Bytes::from_vec(bytes)))
    }
}
