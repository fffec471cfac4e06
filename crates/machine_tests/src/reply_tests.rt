//! Replies as lines, by RFC 8259 and by hand.
use sg_base::{Bytes, Cut, List, Text};
use std::alloc::Global;
use std::test::Fail;
use wire_replies::{ErrorKind, OutRow, Reply, reply};

const LINES: &str = r#"{"line":1,"seq":18446744073709551615}
{"built":4,"line":2}
{"line":3,"merged":4294967295}
{"accepted":0,"line":4}
{"error":"full","line":5}
{"closed":"\"\\/\b\t\n\f\r\u0000\u001f","line":6}
{"line":7,"upto":9,"view":"é東😀"}
{"complete":true,"line":8,"rows":[],"upto":0}
{"complete":true,"line":8,"rows":[{"id":"é\n","score":6,"seq":3,"text":"D"}],"upto":0}
{"complete":false,"cut":{"key":"000fa0ff","room":7,"score":5,"segment":4},"line":8,
 "rows":[{"id":"b","score":6,"seq":3,"text":"D"},{"id":"a","score":6,"seq":3,"text":"D"}],
 "upto":0}
"#;

fn push(alloc: Global, lines: &mut Vec<u8>, answer: &Reply) -> Result<(), Fail> {
    let line = reply(alloc, answer)?;
    lines.extend_from_slice(line.as_slice())?;
    Ok(())
}

fn push_counts(alloc: Global, lines: &mut Vec<u8>) -> Result<(), Fail> {
    let seq = 18_446_744_073_709_551_615;
    let count = 4_294_967_295;
    push(alloc, lines, &Reply::Seq { line: 1, seq })?;
    push(alloc, lines, &Reply::Built { line: 2, count: 4 })?;
    push(alloc, lines, &Reply::Merged { line: 3, count })?;
    push(alloc, lines, &Reply::Accepted { line: 4, count: 0 })?;
    let error = ErrorKind::Full;
    push(alloc, lines, &Reply::Error { line: 5, error })
}

fn push_names(alloc: Global, lines: &mut Vec<u8>) -> Result<(), Fail> {
    let closed = Reply::Closed {
        line: 6,
        view: Text::of(alloc, "\"\\/\u{8}\t\n\u{c}\r\u{0}\u{1f}")?,
    };
    push(alloc, lines, &closed)?;
    let opened = Reply::Opened {
        line: 7,
        view: Text::of(alloc, "é東😀")?,
        upto: 9,
    };
    push(alloc, lines, &opened)
}

fn push_rows(alloc: Global, lines: &mut Vec<u8>, ids: &str, cut: Option<Cut>) -> Result<(), Fail> {
    let mut rows = Vec::new(alloc);
    for id in ids.split(' ').skip(1) {
        rows.push(OutRow {
            id: Text::of(alloc, id)?,
            score: 6,
            seq: 3,
            text: Text::of(alloc, "D")?,
        })?;
    }
    let answer = Reply::Rows {
        line: 8,
        upto: 0,
        rows: List::of(rows),
        cut,
    };
    push(alloc, lines, &answer)
}

#[test]
fn replies_are_lines(rt: HostRuntime) -> Result<(), Fail> {
    let alloc = rt.alloc();
    let mut lines = Vec::new(alloc);
    push_counts(alloc, &mut lines)?;
    push_names(alloc, &mut lines)?;
    push_rows(alloc, &mut lines, "", None)?;
    push_rows(alloc, &mut lines, " é\n", None)?;
    let cut = Cut {
        score: 5,
        key: Bytes::of(alloc, b"\x00\x0f\xa0\xff")?,
        generation: 4,
        room: 7,
    };
    push_rows(alloc, &mut lines, " b a", Some(cut))?;
    let wanted = LINES.replace(alloc, "\n ", "")?;
    assert_eq!(rt; std::str::from_utf8(lines.as_slice())?, wanted.as_str());
    Ok(())
}

#[test]
fn errors_are_shown_by_their_names(rt: HostRuntime) -> Result<(), Fail> {
    assert_eq!(rt;
        ErrorKind::Contexts.to_string(rt.alloc())?.as_str(),
        "contexts"
    );
    Ok(())
}
