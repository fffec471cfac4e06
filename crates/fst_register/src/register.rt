//! The register of frozen nodes.
ghost use Rattle.std.specs.Prelude.{◌≡◌, ◌<◌, ◌≤◌, ◌+◌, ◌++◌, ◌-◌, [], ◌∷◌, length, get_or, false};
ghost use Rattle.std.specs.Prelude.{IfSome, IfNone, IfOk, OnErr, OnOk};
ghost use Rattle.std.specs.Vec.{vec_len, vec_capacity};
ghost use Rattle.sg_base.specs.Nodes.{holds_same};
ghost use Rattle.sg_base.specs.Chains.{Chained, bucket_in};
ghost use Rattle.fst_register.specs.Registers.{IsOnlyEqual, IsRegister};

use crate::hashing::{node_bucket, same};
use crate::nodes::Nodes;
use sg_base::{Edge, NodeId};
use std::alloc::{AllocError, Global};
use std::marker::Model;

/// Nodes in the order in which they were added, no two of them equal, in chains by their hashes.
#[derive(Drop)]
pub struct Register {
    alloc: Global,
    nodes: Nodes,
    /// For each bucket the cell of its last node: the node's number plus 1, or 0 for none.
    heads: Vec<u32>,
    /// For each node the cell of the node before it in its bucket.
    chain: Vec<u32>,
}

impl Model for Register {
    ghost use Rattle.std.specs.Prelude.{List};
    ghost use Rattle.sg_base.specs.declared.node.Edge.{Edge};
    ghost use Rattle.fst_register.specs.Registers.{IsRegister};

    ghost Value = { List (List Edge) };

    ghost view = { λ r. r.nodes };

    ghost invariant = { λ r. IsRegister r.heads.items r.chain.items r.nodes };
}

impl Register {
    /// A register that holds no node.
    pub fn new(alloc: Global) -> Register
        ensures { result ≡ [] }
    {
        Register {
            alloc,
            nodes: Nodes::new(alloc),
            heads: Vec::new(alloc),
            chain: Vec::new(alloc),
        }
    }

    /// How many nodes are held.
    pub fn len(&self) -> usize
        ensures { result ≡ length self.now }
    {
        self.nodes.len()
    }

    /// The arcs of the node with this number.
    pub fn node(&self, id: u32) -> &[Edge]
        requires { id < length self.now }
        ensures { result.now ≡ get_or self.now id [] }
    {
        self.nodes.node(id)
    }

    /// The number of the node that is equal to the arcs. One hash, and about one comparison.
    pub fn find(&self, edges: &[Edge]) -> Option<NodeId>
        ensures found { IfSome result (λ id. IsOnlyEqual self.now edges.now id.0) }
        ensures none { IfNone result (holds_same edges.now self.now ≡ false) }
    {
        find_in(&self.heads, &self.chain, &self.nodes, edges)
    }

    /// Appends a node and answers its number. Where there are as many nodes as buckets, there are
    /// twice as many buckets afterwards, and each node is hashed again.
    pub fn add(&mut self, edges: &[Edge]) -> Result<NodeId, AllocError>
        requires absent { holds_same edges.now self.old ≡ false }
        requires few { length self.old < 4294967295 }
        ensures id { IfOk result (λ id. id.0 ≡ length self.old) }
        ensures ok { OnOk result (self.new ≡ self.old ++ edges.now ∷ []) }
        ensures err { OnErr result (self.new ≡ self.old) }
    {
        make_buckets(self.alloc, &mut self.heads, &mut self.chain, &self.nodes)?;
        self.chain.reserve(1)?;
        let id = self.nodes.len() as u32;
        append(&mut self.heads, &mut self.chain, &mut self.nodes, edges)?;
        Ok(NodeId(id))
    }
}

/// Where there are as many nodes as buckets, makes more buckets.
fn make_buckets(
    alloc: Global,
    heads: &mut Vec<u32>,
    chain: &mut [u32],
    nodes: &Nodes,
) -> Result<(), AllocError>
    requires register { IsRegister heads.old.items chain.old nodes.now }
    requires few { length nodes.now < 4294967295 }
    ensures ok { OnOk result (length nodes.now < length heads.new.items) }
    ensures register { IsRegister heads.new.items chain.new nodes.now }
{
    if nodes.len() < heads.len() {
        return Ok(());
    }
    let buckets = more_buckets(heads.len());
    *heads = make_chains(alloc, chain, nodes, buckets)?;
    Ok(())
}

/// How many buckets come after so many.
fn more_buckets(buckets: usize) -> usize
    requires { buckets < 4294967295 }
    ensures more { buckets < result }
    ensures few { result < 4294967296 }
{
    if buckets < 16 {
        16
    } else if buckets < 2147483648 {
        2 * buckets
    } else {
        4294967295
    }
}

/// Makes the chains of all nodes anew over so many buckets, and answers their heads.
fn make_chains(
    alloc: Global,
    chain: &mut [u32],
    nodes: &Nodes,
    buckets: usize,
) -> Result<Vec<u32>, AllocError>
    requires cells { length chain.old ≡ length nodes.now }
    requires nodes { length nodes.now < 4294967295 }
    requires some { 0 < buckets }
    requires few { buckets < 4294967296 }
    ensures buckets { IfOk result (λ heads. length heads.items ≡ buckets) }
    ensures ok { IfOk result (λ heads. Chained heads.items (λ i. get_or chain.new i 0)
        (bucket_in buckets nodes.now) (length nodes.now)) }
    ensures err { OnErr result (chain.new ≡ chain.old) }
{
    let mut heads = vec![in alloc; 0u32; buckets]?;
    for id in 0..nodes.len() {
        let bucket = node_bucket(nodes.node(id as u32), buckets);
        chain[id] = heads[bucket];
        heads[bucket] = id as u32 + 1;
    }
    Ok(heads)
}

/// Puts a node behind the others and at the head of its bucket's chain.
fn append(
    heads: &mut [u32],
    chain: &mut Vec<u32>,
    nodes: &mut Nodes,
    node: &[Edge],
) -> Result<(), AllocError>
    requires register { IsRegister heads.old chain.old.items nodes.old }
    requires absent { holds_same node.now nodes.old ≡ false }
    requires few { length nodes.old < 4294967295 }
    requires buckets { length nodes.old < length heads.old }
    requires room { vec_len chain.old < vec_capacity chain.old }
    ensures register { IsRegister heads.new chain.new.items nodes.new }
    ensures ok { OnOk result (nodes.new ≡ nodes.old ++ node.now ∷ []) }
    ensures err { OnErr result (nodes.new ≡ nodes.old) }
{
    let cell = nodes.len() as u32 + 1;
    nodes.push(node)?;
    let bucket = node_bucket(node, heads.len());
    chain.push_reserved(heads[bucket]);
    heads[bucket] = cell;
    Ok(())
}

/// Looks for an equal node along the chain of its bucket.
fn find_in(heads: &[u32], chain: &[u32], nodes: &Nodes, node: &[Edge]) -> Option<NodeId>
    requires { IsRegister heads.now chain.now nodes.now }
    ensures found { IfSome result (λ id. IsOnlyEqual nodes.now node.now id.0) }
    ensures none { IfNone result (holds_same node.now nodes.now ≡ false) }
{
    if heads.len() == 0 {
        return None;
    }
    let mut cell = heads[node_bucket(node, heads.len())];
    while cell != 0 {
        let id = cell - 1;
        if same(nodes.node(id), node) {
            return Some(NodeId(id));
        }
        cell = chain[id as usize];
    }
    None
}
