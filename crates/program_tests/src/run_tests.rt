//! Whole runs: a long one, whose replies are known from the numbers of its lines.
use crate::table::assert_same;
use sg_base::Text;
use sg_edge::{MemorySink, MemorySource};
use sg_shell::{Status, run};
use std::alloc::{AllocError, Global};
use std::process::Abort;
use std::sync::Wait;
use std::test::Fail;

fn words_of(alloc: Global) -> Result<Vec<Text>, AllocError> {
    let mut words = Vec::new(alloc);
    words.push(Text::of(alloc, "run")?)?;
    Ok(words)
}

fn status_into(
    sink: &mut MemorySink,
    wait: &impl Wait,
    alloc: Global,
    input: &[u8],
) -> Result<Status, AllocError> {
    let words = words_of(alloc)?;
    let mut source = MemorySource::new(input.to_vec(alloc)?, false, Vec::new(alloc));
    Ok(run(wait, alloc, words.as_slice(), &mut source, sink))
}

/// The output to an input, of a run that is done.
pub fn output_of(wait: &impl Wait, alloc: Global, input: &[u8]) -> Result<String, Fail> {
    let mut sink = MemorySink::new(Vec::new(alloc));
    if status_into(&mut sink, wait, alloc, input)? != Status::Done {
        return Err("the run isn't done".into());
    }
    Ok(String::from_str(alloc, str::from_utf8(sink.given())?)?)
}

/// An input has this output.
pub fn assert_output<R: Abort + Wait>(
    rt: &R,
    alloc: Global,
    input: &[u8],
    wanted: &str,
) -> Result<(), Fail> {
    let output = output_of(rt, alloc, input)?;
    assert_same(rt, output.as_str(), wanted);
    Ok(())
}

/// The last line of an input has this reply.
pub fn assert_last<R: Abort + Wait>(
    rt: &R,
    alloc: Global,
    input: &[u8],
    wanted: &str,
) -> Result<(), Fail> {
    let output = output_of(rt, alloc, input)?;
    assert_same(rt, output.lines().last().unwrap_or(""), wanted);
    Ok(())
}

// Lines so far, and the replies that they must have.
#[derive(Drop)]
struct Script {
    input: String,
    output: String,
    line: u64,
    seq: u64,
}

impl Script {
    // The reply to an operation.
    fn push_reply(&mut self) -> Result<(), AllocError> {
        self.line = self.line.saturating_add(1);
        self.seq = self.seq.saturating_add(1);
        write!(
            self.output,
            "{{\"line\":{},\"seq\":{}}}\n",
            self.line, self.seq
        )
    }

    fn push_query(&mut self, k: u32, rows: &str) -> Result<(), AllocError> {
        self.line = self.line.saturating_add(1);
        write!(
            self.input,
            "{{\"op\":\"suggest\",\"prefix\":\"t\",\"k\":{k}}}\n"
        )?;
        write!(
            self.output,
            "{{\"complete\":true,\"line\":{},\"rows\":[{rows}],\"upto\":{}}}\n",
            self.line, self.seq
        )
    }
}

fn push_add(script: &mut Script, n: u32) -> Result<(), AllocError> {
    write!(
        script.input,
        "{{\"op\":\"add\",\"id\":\"d{n}\",\"suggest\":{{\"input\":\"t\",\"weight\":{n}}}}}\n"
    )?;
    script.push_reply()
}

fn push_delete(script: &mut Script, n: u32) -> Result<(), AllocError> {
    write!(script.input, "{{\"op\":\"delete\",\"id\":\"d{n}\"}}\n")?;
    script.push_reply()
}

// The n-th document of the run is the best one so far. Behind each tenth one the first of the ten
// is deleted.
fn push_document(script: &mut Script, n: u32) -> Result<(), AllocError> {
    push_add(script, n)?;
    if n % 10 == 0 {
        push_delete(script, n.saturating_sub(9))?;
    }
    Ok(())
}

fn push_row(rows: &mut String, n: u32) -> Result<(), AllocError> {
    let deletes = n.saturating_sub(1) / 10;
    let seq = n.saturating_add(deletes);
    let between = if rows.is_empty() { "" } else { "," };
    write!(
        rows,
        "{between}{{\"id\":\"d{n}\",\"score\":{n},\"seq\":{seq},\"text\":\"t\"}}"
    )
}

// The rows of the best thousand of 6,000 documents: without those that are deleted.
fn best_rows(alloc: Global) -> Result<String, AllocError> {
    let mut rows = String::new(alloc);
    let mut count = 0u32;
    for back in 0..2_000u32 {
        let n = 6_000 - back;
        if n % 10 != 1 && count < 1_000 {
            push_row(&mut rows, n)?;
            count += 1;
        }
    }
    Ok(rows)
}

fn push_query_for_best(script: &mut Script, alloc: Global, n: u32) -> Result<(), AllocError> {
    let mut row = String::new(alloc);
    push_row(&mut row, n)?;
    script.push_query(1, row.as_str())
}

fn push_documents(script: &mut Script, alloc: Global) -> Result<(), AllocError> {
    for n in 1..6_001u32 {
        push_document(script, n)?;
        if n <= 2_000 && n % 50 == 0 {
            push_query_for_best(script, alloc, n)?;
        }
    }
    Ok(())
}

fn long_script(alloc: Global) -> Result<Script, AllocError> {
    let mut script = Script {
        input: String::new(alloc),
        output: String::new(alloc),
        line: 0,
        seq: 0,
    };
    push_documents(&mut script, alloc)?;
    let rows = best_rows(alloc)?;
    script.push_query(1_000, rows.as_str())?;
    Ok(script)
}

#[test]
fn a_long_run_is_done(rt: HostRuntime) -> Result<(), Fail> {
    let script = long_script(rt.alloc())?;
    let output = output_of(&rt, rt.alloc(), script.input.as_bytes())?;
    assert!(rt; output.as_str() == script.output.as_str(), "another output");
    Ok(())
}

#[test]
fn lines_are_split_at_line_feeds(rt: HostRuntime) -> Result<(), Fail> {
    assert_output(&rt, rt.alloc(), b"", "")?;
    assert_output(&rt, rt.alloc(), b"\n\n \n\t", "")?;
    let wanted = r#"{"error":"json","line":2}
{"error":"shape","line":5}
{"error":"json","line":7}
"#;
    assert_output(&rt, rt.alloc(), b"\n[\n\n \t\r\n[]\r\n\n{", wanted)
}
