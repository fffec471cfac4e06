//! `Transducer::check`: the worked examples, a text for each rule, and each byte of two small texts
//! damaged.
ghost use Rattle.std.specs.Prelude.{◌<◌, length};

use crate::tests::same::assert_same;
use crate::tests::texts::{
    FIRST, NO_NODE_BUT_A_PATH, NO_NODE_BUT_AN_ARC, NO_PATH, ONE_NODE, SECOND, SWAPPED, THIRD,
    UNREACHED, bytes_of,
};
use fst_code::{CodeError, Transducer};
use sg_base::{Bytes, NodeId, Plain, Steps};
use std::alloc::{AllocError, Global};
use std::test::Fail;

fn push_answer(told: &mut String, bytes: &[u8], place: usize) -> Result<(), AllocError> {
    let bytes = Bytes::of(*told.allocator(), bytes)?;
    match Transducer::check(*told.allocator(), bytes) {
        Ok(_) => told.push_str(" ok"),
        Err(CodeError::Bad { rule, at }) if at == place as u64 => write!(told, " {rule}@="),
        Err(CodeError::Bad { rule, at }) => write!(told, " {rule}@{at}"),
        Err(CodeError::Memory) => told.push_str(" no memory"),
    }
}

fn push_text(told: &mut String, text: &str) -> Result<(), AllocError> {
    let bytes = bytes_of(*told.allocator(), text)?;
    push_answer(told, bytes.as_slice(), 0)
}

fn push_taken(told: &mut String) -> Result<(), AllocError> {
    push_text(told, FIRST)?;
    push_text(told, THIRD)?;
    push_text(told, NO_PATH)
}

// Equal nodes, another numbering, and a node that isn't reached.
fn push_wrong_nodes(told: &mut String) -> Result<(), AllocError> {
    push_text(told, SECOND)?;
    push_text(told, SWAPPED)?;
    push_text(told, UNREACHED)
}

// No node but an arc or a path, and one node.
fn push_wrong_counts(told: &mut String) -> Result<(), AllocError> {
    push_text(told, NO_NODE_BUT_AN_ARC)?;
    push_text(told, NO_NODE_BUT_A_PATH)?;
    push_text(told, ONE_NODE)
}

#[test]
fn texts_that_are_taken_and_texts_that_break_a_rule(rt: HostRuntime) -> Result<(), Fail> {
    let mut told = String::new(rt.alloc());
    push_taken(&mut told)?;
    push_wrong_nodes(&mut told)?;
    push_wrong_counts(&mut told)?;
    assert_same(
        &rt,
        told.as_str(),
        " ok ok ok 8@24 12@20 12@24 4@8 4@12 4@4",
    );
    Ok(())
}

// What is answered where a byte of a text is made 0 and 128, one more and one less: a line from each
// offset on where the answers change. An answer is the rule and the offset, which is `=` where it is
// that of the byte. Worked out from the table of rules by a program in another language.
const DAMAGES_OF_FIRST: &str = "\
0: 2@= 2@= 2@= 2@=
4: ok 3@67 3@67 3@67
7: 3@55 3@67 3@67 3@63
8: ok 3@67 3@67 3@67
11: 3@28 3@67 3@67 3@54
12: ok 7@= 7@= 7@=
13: ok 7@12 7@12 7@12
15: 7@12 7@12 7@12 7@12
16: ok 4@= 4@= 4@=
17: ok 4@16 4@16 4@16
20: ok 4@= 4@= 4@=
21: ok 4@20 4@20 4@20
23: 4@20 4@24 4@24 5@54
24: ok 4@= 4@= 4@=
25: ok 4@24 4@24 4@24
27: 4@24 4@24 4@24 4@24
28: ok 5@41 5@41 ok
29: ok 10@20 ok 10@20
30: ok ok ok ok
33: ok 7@= 7@= 7@=
34: ok 7@33 7@33 7@33
37: ok 6@= 6@= 6@=
38: ok 6@37 6@37 6@37
41: 5@= ok ok 5@=
42: ok 9@20 9@20 9@20
46: ok 7@= 7@= 7@=
47: ok 7@46 7@46 7@46
49: 7@46 7@46 7@46 7@46
50: ok 6@= 6@= 6@=
51: ok 6@50 6@50 6@50
54: ok ok ok ok
55: ok 10@24 ok 10@24
56: ok ok ok ok
59: ok 7@= 7@= 7@=
60: ok 7@59 7@59 7@59
63: ok 6@= 6@= 6@=
64: ok 6@63 6@63 6@63
66: 7@12 6@63 6@63 7@12
";

const DAMAGES_OF_THIRD: &str = "\
0: 2@= 2@= 2@= 2@=
4: ok 3@97 3@97 3@97
7: 3@81 3@97 3@97 3@93
8: ok 3@97 3@97 3@97
11: 3@32 3@97 3@97 3@84
12: ok 7@= 7@= 7@=
13: ok 7@12 7@12 7@12
15: 7@12 7@12 7@12 7@12
16: ok 4@= 4@= 4@=
17: ok 4@16 4@16 4@16
20: ok 4@= 4@= 4@=
21: ok 4@20 4@20 4@20
23: 4@20 4@24 5@45 4@20
24: ok 4@= 4@= 4@=
25: ok 4@24 4@24 4@24
27: 4@24 4@28 7@76 7@63
28: ok 4@= 4@= 4@=
29: ok 4@28 4@28 4@28
31: 4@28 4@28 4@28 4@28
32: ok ok ok ok
33: ok 9@20 9@20 9@20
37: ok 7@= 7@= 7@=
38: ok 7@37 7@37 7@37
41: ok 6@= 6@= 6@=
42: ok 6@41 6@41 6@41
45: ok 5@58 5@58 ok
46: ok 9@24 9@24 9@24
50: ok 7@= 7@= 7@=
51: ok 7@50 7@50 7@50
54: ok 6@= 6@= 6@=
55: ok 6@54 6@54 6@54
57: ok 6@54 ok 6@54
58: 5@= ok ok 5@=
59: ok 10@24 ok 10@24
60: ok ok ok ok
63: ok 7@= 7@= 7@=
64: ok 7@63 7@63 7@63
66: 7@63 7@63 7@63 7@63
67: ok 6@= 6@= 6@=
68: ok 6@67 6@67 6@67
70: ok 6@67 ok 6@67
71: ok 5@84 5@84 ok
72: ok 10@28 ok 10@28
73: ok ok ok ok
76: ok 7@= 7@= 7@=
77: ok 7@76 7@76 7@76
80: ok 6@= 6@= 6@=
81: ok 6@80 6@80 6@80
83: 12@20 6@80 7@89 12@20
84: 5@= ok ok 5@=
85: ok 10@28 ok 10@28
86: ok ok ok ok
89: ok 7@= 7@= 7@=
90: ok 7@89 7@89 7@89
92: 7@89 7@89 7@89 7@89
93: ok 6@= 6@= 6@=
94: ok 6@93 6@93 6@93
96: 7@12 6@93 6@93 7@12
";

fn push_damage(told: &mut String, bytes: &[u8], place: usize, value: u8) -> Result<(), AllocError>
    requires { place < length bytes.now }
{
    let mut changed = Vec::from_slice(*told.allocator(), bytes)?;
    changed[place] = value;
    push_answer(told, changed.as_slice(), place)
}

fn damages_at(alloc: Global, bytes: &[u8], place: usize) -> Result<String, AllocError>
    requires { place < length bytes.now }
{
    let byte = bytes[place];
    let mut told = String::new(alloc);
    for value in [0, 128, byte.wrapping_add(1), byte.wrapping_sub(1)] {
        push_damage(&mut told, bytes, place, value)?;
    }
    Ok(told)
}

// A line where the answers are others than the last ones.
fn push_change(
    told: &mut String,
    last: &mut String,
    at: usize,
    row: String,
) -> Result<(), AllocError> {
    if row.as_str() != last.as_str() {
        write!(told, "{at}:{row}\n")?;
        *last = row;
    }
    Ok(())
}

fn damages_of(alloc: Global, text: &str) -> Result<String, AllocError> {
    let bytes = bytes_of(alloc, text)?;
    let mut told = String::new(alloc);
    let mut last = String::new(alloc);
    for place in 0..bytes.len() {
        let row = damages_at(alloc, bytes.as_slice(), place)?;
        push_change(&mut told, &mut last, place, row)?;
    }
    Ok(told)
}

#[test]
fn each_damage_breaks_its_rule(rt: HostRuntime) -> Result<(), Fail> {
    let told = damages_of(rt.alloc(), FIRST)?;
    assert_same(&rt, told.as_str(), DAMAGES_OF_FIRST);
    let told = damages_of(rt.alloc(), THIRD)?;
    assert_same(&rt, told.as_str(), DAMAGES_OF_THIRD);
    Ok(())
}

fn answer_to_front(alloc: Global, bytes: &[u8], count: usize) -> Result<String, AllocError>
    requires { count < length bytes.now }
{
    let mut told = String::new(alloc);
    push_answer(&mut told, &bytes[..count], count)?;
    Ok(told)
}

fn cuts_of(alloc: Global, text: &str) -> Result<String, AllocError> {
    let bytes = bytes_of(alloc, text)?;
    let mut told = String::new(alloc);
    let mut last = String::new(alloc);
    for count in 0..bytes.len() {
        let row = answer_to_front(alloc, bytes.as_slice(), count)?;
        push_change(&mut told, &mut last, count, row)?;
    }
    Ok(told)
}

// The rule is the first up to 15 bytes, and the third from there on.
#[test]
fn each_cut_of_the_first_example_is_short(rt: HostRuntime) -> Result<(), Fail> {
    let told = cuts_of(rt.alloc(), FIRST)?;
    assert_same(&rt, told.as_str(), "0: 1@=\n16: 3@=\n");
    Ok(())
}

/// A text of so many nodes, each with one arc of cost 0 to the one before.
fn chain_of(alloc: Global, nodes: u32) -> Result<Vec<u8>, AllocError> {
    let mut bytes = bytes_of(alloc, "53475431")?;
    for count in [nodes, nodes.saturating_sub(1), 1, 0] {
        bytes.extend_from_slice(&count.to_be_bytes())?;
    }
    for id in 1..nodes {
        bytes.extend_from_slice(&id.to_be_bytes())?;
    }
    for target in 0..nodes.saturating_sub(1) {
        bytes.extend_from_slice(b"a\0\0\0\0\0\0\0\0")?;
        bytes.extend_from_slice(&target.to_be_bytes())?;
    }
    Ok(bytes)
}

fn push_chain(told: &mut String, nodes: u32) -> Result<(), AllocError> {
    let chain = chain_of(*told.allocator(), nodes)?;
    push_answer(told, chain.as_slice(), 0)
}

#[test]
fn a_path_has_at_most_324_labels(rt: HostRuntime) -> Result<(), Fail> {
    let mut told = String::new(rt.alloc());
    push_chain(&mut told, 325)?;
    push_chain(&mut told, 326)?;
    assert_same(&rt, told.as_str(), " ok 11@1316");
    Ok(())
}

// A node's arcs: label, cost, ordinal offset and target.
fn push_node(told: &mut String, transducer: &Transducer, id: u32) -> Result<(), Fail> {
    let Some(root) = transducer.root() else {
        return Err("no root".into());
    };
    if id > root.0 {
        return Err("no such node".into());
    }
    let mut steps = Steps::new(Plain);
    let node = transducer.node(NodeId(id), &mut steps);
    for at in 0..node.len() {
        let arc = node.edge(at);
        write!(
            told,
            "{} {} {} {};",
            arc.label, arc.cost, arc.before, arc.target.0
        )?;
    }
    Ok(())
}

fn push_two_nodes(told: &mut String, text: &str) -> Result<(), Fail> {
    let bytes = Bytes::from_vec(bytes_of(*told.allocator(), text)?);
    let transducer = Transducer::check(*told.allocator(), bytes)?;
    push_node(told, &transducer, 2)?;
    push_node(told, &transducer, 1)
}

#[test]
fn a_view_shows_the_arcs_of_a_node(rt: HostRuntime) -> Result<(), Fail> {
    let mut told = String::new(rt.alloc());
    push_two_nodes(&mut told, FIRST)?;
    assert_same(&rt, told.as_str(), "97 3 0 1;98 2 0 0;99 0 1 0;");
    Ok(())
}

#[test]
fn an_error_says_the_rule_and_the_offset(rt: HostRuntime) -> Result<(), Fail> {
    let bad = CodeError::Bad { rule: 8, at: 24 };
    let mut told = String::new(rt.alloc());
    write!(told, "{bad}, {}", CodeError::Memory)?;
    assert_same(
        &rt,
        told.as_str(),
        "the bytes break rule 8 at 24, out of memory",
    );
    Ok(())
}
