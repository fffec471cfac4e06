//! Checked bytes.
ghost use Rattle.std.specs.Prelude.{◌≡◌};
ghost use Rattle.std.specs.Prelude.{◌<◌, ◌≤◌, ◌+◌, ◌*◌, ◌-◌, [], length, get_or, take, drop, IfErr};
ghost use Rattle.std.specs.Prelude.{IfOk, IfSome, IsNone, ◌↔◌};
ghost use Rattle.fst_code.specs.Faults.{Refuses};
ghost use Rattle.fst_code.specs.Bytes.{arcs_before_node, first_form, nodes_of};
ghost use Rattle.fst_code.specs.Lists.{list_of};
ghost use Rattle.fst_code.specs.Transducers.{IsTransducer};
ghost use Rattle.fst_code.specs.Rules.{IsFramed, IsValid};
ghost use Rattle.fst_code.specs.Views.{edges_of};

use crate::error::CodeError;
use crate::faults::first_fault;
use crate::layout::{ARC, ENTRY, HEADER, NODE_COUNT, PATH_COUNT};
use crate::node_ref::NodeRef;
use crate::numbers::number_at;
use sg_base::{Bytes, NodeId, Steps};
use std::alloc::Global;
use std::marker::Model;

/// The bytes of a transducer, which meet all rules. Contracts see the bytes.
#[derive(Drop)]
pub struct Transducer {
    bytes: Bytes,
}

impl Model for Transducer {
    ghost use Rattle.std.specs.Prelude.{List, ℕ};
    ghost use Rattle.fst_code.specs.Rules.{IsValid};

    ghost Value = { List ℕ };

    ghost view = { λ t. t.bytes.items };

    ghost invariant = { λ t. IsValid t.bytes.items };
}

impl Transducer {
    /// Takes over bytes that are known to meet all rules. Takes no memory.
    pub fn of_valid(bytes: Bytes) -> Transducer
        requires { IsValid bytes.items }
        ensures { result ≡ bytes.items }
    {
        Transducer { bytes }
    }

    /// Takes over bytes that meet all rules, and else says which is broken first, and where.
    pub fn check(alloc: Global, bytes: Bytes) -> Result<Transducer, CodeError>
        ensures ok { IfOk result (λ t. (t ≡ bytes.items) × IsValid bytes.items) }
        ensures err { IfErr result (λ e. Refuses bytes.items e) }
    {
        match first_fault(alloc, bytes.as_slice()) {
            Err(_) => Err(CodeError::Memory),
            Ok(None) => Ok(Transducer { bytes }),
            Ok(Some((rule, at))) => Err(CodeError::Bad {
                rule,
                at: at as u64,
            }),
        }
    }

    /// A view of a node, which copies nothing. Takes one step.
    pub fn node<L>(&self, id: NodeId, steps: &mut Steps<L>) -> NodeRef<'_>
        requires { id.0 < length (nodes_of self.now) }
        ensures sound { IsTransducer (nodes_of self.now) }
        ensures node { edges_of result ≡ get_or (nodes_of self.now) id.0 [] }
        ensures tick { steps.new ≡ steps.old + 1 }
    {
        steps.tick();
        valid_node_in(self.bytes.as_slice(), id.0)
    }

    /// The number of the root, which is the last node, and None where there is no path.
    pub fn root(&self) -> Option<NodeId>
        ensures sound { IsTransducer (nodes_of self.now) }
        ensures none { IsNone result ↔ (list_of self.now ≡ []) }
        ensures some { IfSome result (λ id. id.0 + 1 ≡ length (nodes_of self.now)) }
    {
        root_in(self.bytes.as_slice())
    }

    /// How many paths there are.
    pub fn paths(&self) -> u32
        ensures { result ≡ length (list_of self.now) }
    {
        paths_in(self.bytes.as_slice())
    }

    pub fn bytes(&self) -> &[u8]
        ensures value { result.now ≡ self.now }
        ensures valid { IsValid self.now }
    {
        self.bytes.as_slice()
    }
}

/// The arcs of a node of valid bytes.
fn valid_node_in(bytes: &[u8], id: u32) -> NodeRef<'_>
    requires valid { IsValid bytes.now }
    requires there { id < length (nodes_of bytes.now) }
    ensures sound { IsTransducer (nodes_of bytes.now) }
    ensures node { edges_of result ≡ get_or (nodes_of bytes.now) id [] }
{
    node_in(bytes, id)
}

/// The arcs of a node, of bytes that say where the nodes stand.
pub(crate) fn node_in(bytes: &[u8], id: u32) -> NodeRef<'_>
    requires framed { IsFramed bytes.now }
    requires there { id < length (nodes_of bytes.now) }
    ensures width { length result.arcs.now ≡ 13 * length (edges_of result) }
    ensures edges { edges_of result ≡ get_or (nodes_of bytes.now) id [] }
{
    let start = HEADER + ENTRY * number_at(bytes, NODE_COUNT) as usize;
    let from = arcs_before(bytes, id) as usize;
    let upto = number_at(bytes, HEADER + ENTRY * id as usize) as usize;
    NodeRef {
        arcs: part(bytes, start + ARC * from, start + ARC * upto),
    }
}

fn part(bytes: &[u8], from: usize, upto: usize) -> &[u8]
    requires rises { from ≤ upto }
    requires within { upto ≤ length bytes.now }
    ensures { result.now ≡ take (upto - from) (drop from bytes.now) }
{
    &bytes[from..upto]
}

/// How many arcs the nodes before a node have.
fn arcs_before(bytes: &[u8], id: u32) -> u32
    requires { 16 + 4 * id ≤ length bytes.now }
    ensures { result ≡ arcs_before_node id bytes.now }
{
    if id == 0 {
        0
    } else {
        number_at(bytes, HEADER + ENTRY * id as usize - ENTRY)
    }
}

fn root_in(bytes: &[u8]) -> Option<NodeId>
    requires { IsValid bytes.now }
    ensures sound { IsTransducer (nodes_of bytes.now) }
    ensures none { IsNone result ↔ (list_of bytes.now ≡ []) }
    ensures some { IfSome result (λ id. id.0 + 1 ≡ length (nodes_of bytes.now)) }
{
    let count = number_at(bytes, NODE_COUNT);
    if count == 0 {
        return None;
    }
    Some(NodeId(count - 1))
}

fn paths_in(bytes: &[u8]) -> u32
    requires { IsValid bytes.now }
    ensures { result ≡ length (list_of bytes.now) }
{
    number_at(bytes, PATH_COUNT)
}
