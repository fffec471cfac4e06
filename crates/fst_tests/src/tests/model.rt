//! A plain table of a transducer's paths, by a walk over its nodes.
use crate::Row;
use fst_code::Transducer;
use sg_base::{Edge, NodeId, Plain, Steps};
use std::alloc::{AllocError, Global};
use std::test::Fail;

/// A node on the way: the arc to take next, the cost so far, and how many paths came before.
#[derive(Clone, Copy)]
struct Step {
    node: NodeId,
    at: u32,
    cost: u32,
    before: usize,
}

/// More steps than a walk over any list of these tests has.
const MOST_STEPS: usize = 100_000;

/// The paths so far, the bytes of the way, and the nodes on it.
#[derive(Drop)]
struct Walk {
    rows: Vec<Row>,
    path: Vec<u8>,
    steps: Vec<Step>,
}

fn push_row(walk: &mut Walk, cost: u32) -> Result<(), Fail> {
    let path = Vec::from_slice(*walk.path.allocator(), walk.path.as_slice())?;
    walk.rows.push(Row { path, cost })?;
    Ok(())
}

/// The step behind an arc, which says how many paths come before it.
fn step_by(step: Step, edge: Edge, before: usize) -> Option<Step> {
    if step.before.checked_add(edge.before as usize)? != before {
        return None;
    }
    Some(Step {
        node: edge.target,
        at: 0,
        cost: step.cost.checked_add(edge.cost)?,
        before,
    })
}

fn push_edge(walk: &mut Walk, step: Step, edge: Edge) -> Result<(), Fail> {
    let Some(next) = step_by(step, edge, walk.rows.len()) else {
        return Err("an arc says another number of paths before it, or too great a cost".into());
    };
    let at = step.at.saturating_add(1);
    walk.steps.push(Step { at, ..step })?;
    walk.steps.push(next)?;
    walk.path.push(edge.label)?;
    Ok(())
}

/// A node without arcs is the end of a path.
fn leave(walk: &mut Walk, step: Step) -> Result<(), Fail> {
    if step.node.0 == 0 {
        push_row(walk, step.cost)?;
    }
    let _ = walk.path.pop();
    Ok(())
}

fn go(walk: &mut Walk, transducer: &Transducer, step: Step) -> Result<(), Fail> {
    let Some(root) = transducer.root() else {
        return Err("no root".into());
    };
    if step.node.0 > root.0 {
        return Err("an arc leads past the root".into());
    }
    let mut counter = Steps::new(Plain);
    let node = transducer.node(step.node, &mut counter);
    if step.at < node.len() {
        push_edge(walk, step, node.edge(step.at))
    } else {
        leave(walk, step)
    }
}

fn new_walk(alloc: Global) -> Walk {
    Walk {
        rows: Vec::new(alloc),
        path: Vec::new(alloc),
        steps: Vec::new(alloc),
    }
}

fn begin(walk: &mut Walk, transducer: &Transducer) -> Result<(), AllocError> {
    let Some(node) = transducer.root() else {
        return Ok(());
    };
    walk.steps.push(Step {
        node,
        at: 0,
        cost: 0,
        before: 0,
    })?;
    Ok(())
}

/// All paths in the order in which a walk meets them, with the sums of their arcs' costs. Each arc
/// says how many paths come before it.
pub fn rows_of(alloc: Global, transducer: &Transducer) -> Result<Vec<Row>, Fail> {
    let mut walk = new_walk(alloc);
    begin(&mut walk, transducer)?;
    for _ in 0..MOST_STEPS {
        let Some(step) = walk.steps.pop() else {
            return Ok(walk.rows);
        };
        go(&mut walk, transducer, step)?;
    }
    Err("the walk has no end".into())
}
