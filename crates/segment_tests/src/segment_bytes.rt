ghost use Rattle.std.specs.Prelude.{◌<◌, length};

use crate::making::bytes_of;
use crate::table::assert_same;
use fst_code::CodeError;
use segment::Segment;
use sg_base::{Bytes, Key, Text};
use sg_paths::{Document, MOST_SEGMENT_PATHS, Numbered, Suggestion, paths_at_most};
use std::alloc::{AllocError, Global};
use std::test::Fail;

// Number 1, the id "a", the text "B" with the key "b", weight 1, no context.
const EXAMPLE: &str = "
    53475331 00000001 00000001 000000000000008b
    0000000000000001 01 61 01 0001 42 01 62 00000001 00
    00000000 00
    00000000
    53475431 00000008 00000007 00000001
    00000000 00000001 00000002 00000003 00000004 00000005 00000006 00000007
    00 00000000 00000000 00000000
    00 00000000 00000000 00000001
    00 00000000 00000000 00000002
    00 00000000 00000000 00000003
    00 00000000 00000000 00000004
    62 00000000 00000000 00000005
    1d 7ffffffe 00000000 00000006";

// What is answered where a byte of the example is made 00, ff and one more: a line from each offset
// on where the answers change. An answer is the rule and the offset, which is `=` where it is that
// of the byte. Worked out from the table of rules by a program in another language.
const DAMAGES: &str = "\
0: 2@= 2@= 2@=
4: ok 3@= 3@=
5: ok 3@4 4@49
6: ok 4@49 4@49
7: 6@8 4@49 4@49
8: ok 3@= 3@=
9: ok 3@8 6@8
10: ok 6@8 6@8
11: 6@8 6@8 6@8
12: ok 6@189 6@189
19: 6@189 6@189 6@189
20: ok 5@= 5@=
21: ok 5@20 5@20
25: ok 5@20 ok
26: ok ok ok
27: 5@20 ok ok
28: 4@= 4@= 4@31
29: ok 4@28 ok
30: 4@= 4@= 4@43
31: ok 4@= 4@=
32: 4@33 4@31 4@35
33: ok 4@31 ok
34: 4@= 4@= 4@=
35: 4@34 7@163 7@163
36: ok 4@= 7@177
37: ok 7@178 7@178
38: ok 7@179 7@179
39: 7@180 7@180 7@180
40: ok 4@= 6@189
41: ok 7@= 7@=
50: 7@= 7@= 7@=
54: ok 7@= 7@=
57: 7@= 7@= 7@=
58: ok 7@= 7@=
61: 7@= 7@= 7@=
62: ok 7@= 7@=
65: 7@= 7@= 7@=
66: ok 7@= 7@=
73: 7@= 7@= 7@=
74: ok 7@= 7@=
77: 7@= 7@= 7@=
78: ok 7@= 7@=
81: 7@= 7@= 7@=
82: ok 7@= 7@=
85: 7@= 7@= 7@=
86: ok 7@= 7@=
89: 7@= 7@= 7@=
90: ok 7@= 7@=
93: 7@= 7@= 7@=
94: ok 7@= 7@=
97: 7@= 7@= 7@=
98: ok 7@= 7@=
123: 7@= 7@= 7@=
124: ok 7@= 7@=
136: 7@= 7@= 7@=
137: ok 7@= 7@=
149: 7@= 7@= 7@=
150: ok 7@= 7@=
162: 7@= 7@= 7@=
164: ok 7@= 7@=
175: 7@= 7@= 7@=
178: 7@= ok 7@=
180: 7@= 7@= 7@=
181: ok 7@= 7@=
188: 7@= 7@= 7@=
";

// The same where the example is cut to so many bytes.
const CUTS: &str = "\
0: 1@=
20: 4@=
21: 4@20
28: 4@=
29: 4@28
30: 4@=
32: 4@31
34: 4@=
35: 4@34
36: 4@=
37: 4@36
40: 4@=
41: 6@=
";

fn push_answer(told: &mut String, bytes: &[u8], offset: usize) -> Result<(), AllocError> {
    let bytes = Bytes::of(*told.allocator(), bytes)?;
    match Segment::check(*told.allocator(), bytes) {
        Ok(_) => told.push_str(" ok"),
        Err(CodeError::Bad { rule, at }) if at == offset as u64 => write!(told, " {rule}@="),
        Err(CodeError::Bad { rule, at }) => write!(told, " {rule}@{at}"),
        Err(CodeError::Memory) => told.push_str(" no memory"),
    }
}

fn push_damage(told: &mut String, bytes: &[u8], offset: usize, value: u8) -> Result<(), AllocError>
    requires { offset < length bytes.now }
{
    let mut other = Vec::from_slice(*told.allocator(), bytes)?;
    other[offset] = value;
    push_answer(told, other.as_slice(), offset)
}

fn damages_at(alloc: Global, bytes: &[u8], offset: usize) -> Result<String, AllocError>
    requires { offset < length bytes.now }
{
    let mut told = String::new(alloc);
    for value in [0, 255, bytes[offset].wrapping_add(1)] {
        push_damage(&mut told, bytes, offset, value)?;
    }
    Ok(told)
}

fn answer_to_front(alloc: Global, bytes: &[u8], count: usize) -> Result<String, AllocError>
    requires { count < length bytes.now }
{
    let mut told = String::new(alloc);
    push_answer(&mut told, &bytes[..count], count)?;
    Ok(told)
}

// A line where the answer is another than the last one.
fn push_change(
    told: &mut String,
    last: &mut String,
    at: usize,
    row: String,
) -> Result<(), AllocError> {
    if row.as_str() != last.as_str() {
        write!(told, "{at}:{row}\n")?;
        *last = row;
    }
    Ok(())
}

fn damages_of(alloc: Global, text: &str) -> Result<String, AllocError> {
    let bytes = bytes_of(alloc, text)?;
    let mut told = String::new(alloc);
    let mut last = String::new(alloc);
    for offset in 0..bytes.len() {
        let row = damages_at(alloc, bytes.as_slice(), offset)?;
        push_change(&mut told, &mut last, offset, row)?;
    }
    Ok(told)
}

#[test]
fn each_damage_names_its_rule(rt: HostRuntime) -> Result<(), Fail> {
    let told = damages_of(rt.alloc(), EXAMPLE)?;
    assert_same(&rt, told.as_str(), DAMAGES);
    Ok(())
}

fn cuts_of(alloc: Global, text: &str) -> Result<String, AllocError> {
    let bytes = bytes_of(alloc, text)?;
    let mut told = String::new(alloc);
    let mut last = String::new(alloc);
    for count in 0..bytes.len() {
        let row = answer_to_front(alloc, bytes.as_slice(), count)?;
        push_change(&mut told, &mut last, count, row)?;
    }
    Ok(told)
}

#[test]
fn each_cut_names_its_rule(rt: HostRuntime) -> Result<(), Fail> {
    let told = cuts_of(rt.alloc(), EXAMPLE)?;
    assert_same(&rt, told.as_str(), CUTS);
    Ok(())
}

fn example_suggestion(alloc: Global) -> Result<Suggestion, Fail> {
    let text = Text::of(alloc, "B")?;
    let key = Key::of(Bytes::of(alloc, b"b")?)?;
    Ok(Suggestion::new(text, key, 1, Vec::new(alloc))?)
}

fn example_document(alloc: Global) -> Result<Numbered, Fail> {
    let suggestions = vec![in alloc; example_suggestion(alloc)?]?;
    let document = Document::new(Text::of(alloc, "a")?, suggestions)?;
    Ok(Numbered { seq: 1, document })
}

fn example_segment(alloc: Global) -> Result<Segment, Fail> {
    let docs = vec![in alloc; example_document(alloc)?]?;
    if paths_at_most(docs.as_slice()) > MOST_SEGMENT_PATHS {
        return Err("too many paths".into());
    }
    Ok(Segment::of_docs(alloc, docs)?)
}

fn written_example(alloc: Global) -> Result<Bytes, Fail> {
    let segment = example_segment(alloc)?;
    Ok(segment.write()?)
}

#[test]
fn one_document_has_189_bytes(rt: HostRuntime) -> Result<(), Fail> {
    let bytes = bytes_of(rt.alloc(), EXAMPLE)?;
    let written = written_example(rt.alloc())?;
    assert!(rt; written.as_slice() == bytes.as_slice());
    Ok(())
}
