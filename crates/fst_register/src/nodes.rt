//! Nodes one behind the other in one vector of arcs.
ghost use Rattle.std.specs.Prelude.{◌≡◌, ◌<◌, ◌++◌, [], ◌∷◌, length, get_or, OnErr, OnOk};
ghost use Rattle.fst_register.specs.NodeLists.{AreContiguous, begins_at, nodes_between};

use sg_base::Edge;
use std::alloc::{AllocError, Global};
use std::marker::Model;

/// Nodes in the order in which they were added.
#[derive(Drop)]
pub struct Nodes {
    /// Where the arcs of each node end.
    ends: Vec<usize>,
    edges: Vec<Edge>,
}

impl Model for Nodes {
    ghost use Rattle.std.specs.Prelude.{List};
    ghost use Rattle.sg_base.specs.declared.node.Edge.{Edge};
    ghost use Rattle.fst_register.specs.NodeLists.{AreContiguous, nodes_between};

    ghost Value = { List (List Edge) };

    ghost view = { λ n. nodes_between 0 n.ends.items n.edges.items };

    ghost invariant = { λ n. AreContiguous n.ends.items n.edges.items };
}

impl Nodes {
    pub fn new(alloc: Global) -> Nodes
        ensures { result ≡ [] }
    {
        Nodes {
            ends: Vec::new(alloc),
            edges: Vec::new(alloc),
        }
    }

    pub fn len(&self) -> usize
        ensures { result ≡ length self.now }
    {
        self.ends.len()
    }

    pub fn node(&self, id: u32) -> &[Edge]
        requires { id < length self.now }
        ensures { result.now ≡ get_or self.now id [] }
    {
        node_of(&self.ends, &self.edges, id)
    }

    /// Appends a node.
    pub fn push(&mut self, node: &[Edge]) -> Result<(), AllocError>
        ensures ok { OnOk result (self.new ≡ self.old ++ node.now ∷ []) }
        ensures err { OnErr result (self.new ≡ self.old) }
    {
        self.ends.reserve(1)?;
        self.edges.extend_from_slice(node)?;
        self.ends.push_reserved(self.edges.len());
        Ok(())
    }
}

fn node_of<'a>(ends: &[usize], edges: &'a [Edge], id: u32) -> &'a [Edge]
    requires there { id < length ends.now }
    requires contiguous { AreContiguous ends.now edges.now }
    ensures { result.now ≡ get_or (nodes_between 0 ends.now edges.now) id [] }
{
    let from = start_of(ends, id);
    let upto = ends[id as usize];
    &edges[from..upto]
}

/// Where a node's arcs begin.
fn start_of(ends: &[usize], id: u32) -> usize
    requires { id < length ends.now }
    ensures { result ≡ begins_at 0 ends.now id }
{
    if id == 0 { 0 } else { ends[id as usize - 1] }
}
