//! The arcs of a node, read from its bytes.
ghost use Rattle.std.specs.Prelude.{◌≡◌, ◌<◌, ◌≤◌, ◌+◌, length, get_or};
ghost use Rattle.sg_base.specs.declared.node.Edge.{Edge};
ghost use Rattle.fst_code.specs.Bytes.{arc_at, first_form};
ghost use Rattle.fst_code.specs.Views.{edges_of};

use crate::layout::{ARC, BEFORE, COST, TARGET};
use crate::node_ref::NodeRef;
use crate::numbers::number_at;
use sg_base::{Edge, NodeId};

impl<'t> NodeRef<'t> {
    /// How many arcs there are.
    pub fn len(&self) -> u32
        ensures { result ≡ length (edges_of self.now) }
    {
        (self.arcs.len() / ARC) as u32
    }

    /// The arc at a place from 0, by rising labels.
    pub fn edge(&self, at: u32) -> Edge
        requires { at < length (edges_of self.now) }
        ensures { (d : Edge) → result ≡ get_or (edges_of self.now) at d }
    {
        edge_at(self.arcs, ARC * at as usize)
    }

    /// How many arcs there are.
    pub(crate) fn count(&self) -> usize
        ensures { result ≡ length (edges_of self.now) }
    {
        self.arcs.len() / ARC
    }

    /// The arc at a place.
    pub(crate) fn arc(&self, at: usize) -> Edge
        requires { at < length (edges_of self.now) }
        ensures { (d : Edge) → result ≡ get_or (edges_of self.now) at d }
    {
        let _bytes = self.arcs.len();
        edge_at(self.arcs, ARC * at)
    }
}

/// The arc at an offset.
fn edge_at(bytes: &[u8], at: usize) -> Edge
    requires { at + 13 ≤ length bytes.now }
    ensures { result ≡ arc_at first_form at bytes.now }
{
    Edge {
        label: bytes[at],
        cost: number_at(bytes, at + COST),
        before: number_at(bytes, at + BEFORE),
        target: NodeId(number_at(bytes, at + TARGET)),
    }
}
