//! Views of lines: no more of them are open than the index allows.
use crate::run_tests::{assert_last, assert_output};
use std::alloc::{AllocError, Global};
use std::test::Fail;

fn open_lines(alloc: Global) -> Result<String, AllocError> {
    let mut input = String::new(alloc);
    for n in 1..257u32 {
        write!(input, "{{\"op\":\"open\",\"view\":\"v{n}\"}}\n")?;
    }
    input.push_str("{\"op\":\"suggest\",\"prefix\":\"a\"}\n")?;
    Ok(input)
}

fn open_replies(alloc: Global) -> Result<String, AllocError> {
    let mut output = String::new(alloc);
    for n in 1..257u32 {
        write!(output, "{{\"line\":{n},\"upto\":0,\"view\":\"v{n}\"}}\n")?;
    }
    output.push_str("{\"error\":\"views\",\"line\":257}\n")?;
    Ok(output)
}

// A query takes a view of its own, so it is refused as one more named view is.
#[test]
fn lines_open_no_more_than_256_views(rt: HostRuntime) -> Result<(), Fail> {
    let input = open_lines(rt.alloc())?;
    let wanted = open_replies(rt.alloc())?;
    assert_output(&rt, rt.alloc(), input.as_bytes(), wanted.as_str())
}

// A named view stays as it is: an update behind it isn't in it, and a query without one sees it.
#[test]
fn a_named_view_stays_as_it_is(rt: HostRuntime) -> Result<(), Fail> {
    let input = br#"{"op":"add","id":"x","suggest":"Alpha"}
{"op":"open","view":"v"}
{"op":"update","id":"x","suggest":"Alpine"}
{"op":"suggest","prefix":"al","view":"v"}
{"op":"suggest","prefix":"al"}
{"op":"close","view":"v"}
"#;
    let wanted = r#"{"line":1,"seq":1}
{"line":2,"upto":1,"view":"v"}
{"line":3,"seq":2}
{"complete":true,"line":4,"rows":[{"id":"x","score":1,"seq":1,"text":"Alpha"}],"upto":1}
{"complete":true,"line":5,"rows":[{"id":"x","score":1,"seq":2,"text":"Alpine"}],"upto":2}
{"closed":"v","line":6}
"#;
    assert_output(&rt, rt.alloc(), input, wanted)
}

#[test]
fn only_open_views_are_closed_and_only_others_are_opened(rt: HostRuntime) -> Result<(), Fail> {
    let input = br#"{"op":"close","view":"v"}
{"op":"open","view":"v"}
{"op":"open","view":"v"}
{"op":"suggest","prefix":"","view":"w"}
"#;
    let wanted = r#"{"error":"view","line":1}
{"line":2,"upto":0,"view":"v"}
{"error":"view","line":3}
{"error":"view","line":4}
"#;
    assert_output(&rt, rt.alloc(), input, wanted)
}

fn push_equal_documents(input: &mut String) -> Result<(), AllocError> {
    for n in 1..13u32 {
        write!(
            input,
            "{{\"op\":\"add\",\"id\":\"e{n}\",\"suggest\":\"Oy\"}}\n"
        )?;
    }
    Ok(())
}

fn push_deletes(input: &mut String) -> Result<(), AllocError> {
    for n in 1..12u32 {
        write!(input, "{{\"op\":\"delete\",\"id\":\"e{n}\"}}\n")?;
    }
    Ok(())
}

fn push_wide_query(input: &mut String) -> Result<(), AllocError> {
    push_equal_documents(input)?;
    push_deletes(input)?;
    input.push_str("{\"op\":\"suggest\",\"prefix\":\"oy\",\"k\":1}\n")
}

// Deleted documents widen the queue, so that the one that is live is found.
#[test]
fn deleted_documents_widen_the_queue(rt: HostRuntime) -> Result<(), Fail> {
    let mut input = String::new(rt.alloc());
    push_wide_query(&mut input)?;
    let wanted =
        r#"{"complete":true,"line":24,"rows":[{"id":"e12","score":1,"seq":12,"text":"Oy"}],"upto":23}"#;
    assert_last(&rt, rt.alloc(), input.as_bytes(), wanted)
}

// Two paths fill the queue where the first document has two; with one path each it is cut.
#[test]
fn a_queue_of_one_truncates(rt: HostRuntime) -> Result<(), Fail> {
    let input =
        br#"{"op":"add","id":"d1","suggest":[{"input":"abz","weight":5,"contexts":"a"},{"input":"zzz","weight":1,"contexts":"a"}]}
{"op":"add","id":"d2","suggest":{"input":"abc","weight":5,"contexts":"b"}}
{"op":"suggest","prefix":"ab","k":1}
"#;
    let wanted =
        r#"{"complete":true,"line":3,"rows":[{"id":"d2","score":5,"seq":2,"text":"abc"}],"upto":2}"#;
    assert_last(&rt, rt.alloc(), input, wanted)?;
    let input = br#"{"op":"add","id":"d1","suggest":{"input":"abz","weight":5,"contexts":"a"}}
{"op":"add","id":"d2","suggest":{"input":"abc","weight":5,"contexts":"b"}}
{"op":"suggest","prefix":"ab","k":1}
"#;
    let wanted =
        r#"{"complete":false,"cut":{"key":"6162","room":1,"score":5,"segment":1},"line":3,"rows":[],"upto":2}"#;
    assert_last(&rt, rt.alloc(), input, wanted)
}
