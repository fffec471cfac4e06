//! Lines of flushes and merges, and an error of each kind of faulty line.
use crate::run_tests::{assert_output, output_of};
use std::alloc::{AllocError, Global};
use std::test::Fail;

// What is buffered becomes a segment once.
#[test]
fn a_flush_builds_what_is_buffered(rt: HostRuntime) -> Result<(), Fail> {
    let input = br#"{"op":"flush"}
{"op":"add","id":"x","suggest":"Alpha"}
{"op":"add","id":"y","suggest":"Alpine"}
{"op":"flush"}
{"op":"flush"}
{"op":"suggest","prefix":"alph"}
"#;
    let wanted = r#"{"built":0,"line":1}
{"line":2,"seq":1}
{"line":3,"seq":2}
{"built":1,"line":4}
{"built":0,"line":5}
{"complete":true,"line":6,"rows":[{"id":"x","score":1,"seq":1,"text":"Alpha"}],"upto":2}
"#;
    assert_output(&rt, rt.alloc(), input, wanted)
}

// Of the first segment no document is live, so its merge brings nothing; the view holds it still.
#[test]
fn a_view_stays_where_its_segments_are_merged(rt: HostRuntime) -> Result<(), Fail> {
    let input = br#"{"op":"add","id":"x","suggest":"Alpha"}
{"op":"open","view":"v"}
{"op":"update","id":"x","suggest":"Alpine"}
{"op":"flush"}
{"op":"merge"}
{"op":"suggest","prefix":"al","view":"v"}
{"op":"suggest","prefix":"al"}
{"op":"close","view":"v"}
"#;
    let wanted = r#"{"line":1,"seq":1}
{"line":2,"upto":1,"view":"v"}
{"line":3,"seq":2}
{"built":1,"line":4}
{"line":5,"merged":1}
{"complete":true,"line":6,"rows":[{"id":"x","score":1,"seq":1,"text":"Alpha"}],"upto":1}
{"complete":true,"line":7,"rows":[{"id":"x","score":1,"seq":2,"text":"Alpine"}],"upto":2}
{"closed":"v","line":8}
"#;
    assert_output(&rt, rt.alloc(), input, wanted)
}

fn push_segment(input: &mut String, n: u32) -> Result<(), AllocError> {
    input.push_str("{\"op\":\"merge\"}\n")?;
    write!(
        input,
        "{{\"op\":\"add\",\"id\":\"t{n}\",\"suggest\":\"Ten\"}}\n"
    )?;
    input.push_str("{\"op\":\"flush\"}\n")
}

fn ten_segments(alloc: Global) -> Result<String, AllocError> {
    let mut input = String::new(alloc);
    for n in 1..11u32 {
        push_segment(&mut input, n)?;
    }
    input.push_str(
        r#"{"op":"merge"}
{"op":"merge"}
{"op":"suggest","prefix":"ten","k":1}
"#,
    )?;
    Ok(input)
}

// Ten segments of one document each become one.
#[test]
fn ten_segments_are_merged_into_one(rt: HostRuntime) -> Result<(), Fail> {
    let input = ten_segments(rt.alloc())?;
    let wanted = r#"{"line":28,"merged":0}
{"line":29,"seq":10}
{"built":1,"line":30}
{"line":31,"merged":10}
{"line":32,"merged":0}
{"complete":true,"line":33,"rows":[{"id":"t1","score":1,"seq":1,"text":"Ten"}],"upto":10}
"#;
    let output = output_of(&rt, rt.alloc(), input.as_bytes())?;
    assert!(rt; output.as_str().ends_with(wanted));
    Ok(())
}

// No object, an empty id, a worker that there isn't, a prefix that is too long for a key, and bytes
// that are no text.
fn faulty_lines(alloc: Global) -> Result<Vec<u8>, AllocError> {
    let prefix = vec![in alloc; b'a'; 300]?;
    let mut input = Vec::new(alloc);
    input.extend_from_slice(
        br#"[1]
{"op":"add","id":"","suggest":"a"}
{"op":"flush","lane":1}
{"op":"suggest","prefix":""#,
    )?;
    input.extend_from_slice(prefix.as_slice())?;
    input.extend_from_slice(b"\"}\n\xff\n")?;
    Ok(input)
}

#[test]
fn each_faulty_line_has_its_own_error(rt: HostRuntime) -> Result<(), Fail> {
    let input = faulty_lines(rt.alloc())?;
    let wanted = r#"{"error":"shape","line":1}
{"error":"id","line":2}
{"error":"lane","line":3}
{"error":"key","line":4}
{"error":"json","line":5}
"#;
    assert_output(&rt, rt.alloc(), input.as_slice(), wanted)
}
