//! Lists of paths through the builder, the check, and a walk over what came out.
use crate::tests::model::rows_of;
use crate::{Row, transducer_of};
use fst_code::Transducer;
use sg_base::Bytes;
use std::alloc::Global;
use std::test::Fail;

/// Lists with a blank line between them. A list's first line has its numbers of nodes and arcs,
/// worked out by hand; each other line is a path with its cost.
const LISTS: &str = "\
3 3
ab 5
ac 3

4 3
abc 7

3 3
ax 1
bx 1

3 4
ax 1
ay 2
bx 3
by 4

4 6
ax 1
ay 2
bx 3
by 5

3 4
aa 0
ab 0
ba 0
bb 0

3 4
aa 2
ab 2
b 2

6 7
tap. 3
taps. 1
top. 2
tops. 0

2 2
a 2147483647
b 0

4 6
abx 9
aby 9
ac 4
bbx 6
bby 6
bc 1";

/// The numbers of nodes and arcs of a transducer's bytes.
fn counts_of(bytes: &[u8]) -> Option<(u32, u32)> {
    match bytes {
        [_, _, _, _, a, b, c, d, e, f, g, h, ..] => Some((
            u32::from_be_bytes([*a, *b, *c, *d]),
            u32::from_be_bytes([*e, *f, *g, *h]),
        )),
        _ => None,
    }
}

/// The transducer that is built of the rows, from its bytes.
fn built(alloc: Global, rows: &[Row]) -> Result<Transducer, Fail> {
    let built = transducer_of(alloc, rows)?;
    let bytes = Bytes::of(alloc, built.bytes())?;
    Ok(Transducer::check(alloc, bytes)?)
}

fn same(one: &Row, other: &Row) -> bool {
    one.path.as_slice() == other.path.as_slice() && one.cost == other.cost
}

fn are_same(found: &[Row], rows: &[Row]) -> bool {
    if found.len() != rows.len() {
        return false;
    }
    for (one, other) in found.iter().zip(rows) {
        if !same(one, other) {
            return false;
        }
    }
    true
}

/// Whether the transducer of the rows has these numbers of nodes and arcs, and a walk over it meets
/// the rows. It is built, and its bytes are checked.
fn comes_back(alloc: Global, rows: &[Row], counts: (u32, u32)) -> Result<bool, Fail> {
    let transducer = built(alloc, rows)?;
    let found = rows_of(alloc, &transducer)?;
    Ok(
        counts_of(transducer.bytes()) == Some(counts)
            && transducer.paths() as usize == rows.len()
            && are_same(found.as_slice(), rows),
    )
}

fn counts_from(line: &str) -> Option<(u32, u32)> {
    let (nodes, arcs) = line.split_once(' ')?;
    Some((nodes.parse().ok()?, arcs.parse().ok()?))
}

fn row_parts(line: &str) -> Option<(&str, u32)> {
    let (path, cost) = line.split_once(' ')?;
    Some((path, cost.parse::<u32>().ok()?))
}

fn row_from(alloc: Global, line: &str) -> Result<Row, Fail> {
    let Some((path, cost)) = row_parts(line) else {
        return Err("no cost".into());
    };
    let path = Vec::from_slice(alloc, path.as_bytes())?;
    Ok(Row { path, cost })
}

fn rows_from(alloc: Global, lines: &str) -> Result<Vec<Row>, Fail> {
    let mut rows = Vec::new(alloc);
    for line in lines.lines() {
        rows.push(row_from(alloc, line)?)?;
    }
    Ok(rows)
}

fn list_parts(list: &str) -> Option<((u32, u32), &str)> {
    let (counts, lines) = list.split_once('\n')?;
    Some((counts_from(counts)?, lines))
}

fn list_comes_back(alloc: Global, list: &str) -> Result<bool, Fail> {
    let Some((counts, lines)) = list_parts(list) else {
        return Err("no list".into());
    };
    let rows = rows_from(alloc, lines)?;
    comes_back(alloc, rows.as_slice(), counts)
}

#[test]
fn lists_come_back_from_as_few_nodes_as_can_be(rt: HostRuntime) -> Result<(), Fail> {
    for list in LISTS.split("\n\n") {
        let back = list_comes_back(rt.alloc(), list)?;
        assert!(rt; back, "{list}");
    }
    Ok(())
}

/// A path of 324 bytes.
fn push_long(rows: &mut Vec<Row>, last: u8, cost: u32) -> Result<(), Fail> {
    let mut path = vec![in *rows.allocator(); b'a'; 323]?;
    path.push(last)?;
    rows.push(Row { path, cost })?;
    Ok(())
}

/// Two that differ in the last byte, with the greatest cost and the least.
fn long_rows(alloc: Global) -> Result<Vec<Row>, Fail> {
    let mut rows = Vec::new(alloc);
    push_long(&mut rows, b'x', 2_147_483_647)?;
    push_long(&mut rows, b'y', 0)?;
    Ok(rows)
}

#[test]
fn paths_may_have_324_bytes(rt: HostRuntime) -> Result<(), Fail> {
    let rows = long_rows(rt.alloc())?;
    let back = comes_back(rt.alloc(), rows.as_slice(), (325, 325))?;
    assert!(rt; back);
    Ok(())
}

fn push_wide(rows: &mut Vec<Row>, labels: &[u8], cost: u32) -> Result<(), Fail> {
    let path = Vec::from_slice(*rows.allocator(), labels)?;
    rows.push(Row { path, cost })?;
    Ok(())
}

/// All labels under the label 7.
fn push_seventh(rows: &mut Vec<Row>) -> Result<(), Fail> {
    for label in 0..=255u8 {
        push_wide(rows, &[7, label], 2 * label as u32)?;
    }
    Ok(())
}

/// Under the label 7 all labels, and beside it all others.
fn wide_rows(alloc: Global) -> Result<Vec<Row>, Fail> {
    let mut rows = Vec::new(alloc);
    for label in 0..=255u8 {
        if label == 7 {
            push_seventh(&mut rows)?;
        } else {
            push_wide(&mut rows, &[label], label as u32)?;
        }
    }
    Ok(rows)
}

#[test]
fn a_node_may_have_all_labels(rt: HostRuntime) -> Result<(), Fail> {
    let rows = wide_rows(rt.alloc())?;
    let back = comes_back(rt.alloc(), rows.as_slice(), (3, 512))?;
    assert!(rt; back);
    Ok(())
}
