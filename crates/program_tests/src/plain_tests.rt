//! A run beside the plain program for live documents.
use crate::journals::op_of;
use crate::run_tests::assert_last;
use sg_paths::{Numbered, Op, live_documents_of};
use std::alloc::{AllocError, Global};
use std::process::Abort;
use std::sync::Wait;
use std::test::Fail;

// Journals as they are spelled: `+x` adds, `=x` updates and `-x` deletes the id `x`. A query stands
// at each `|`, and freezes what is buffered.
const JOURNALS: &str = "+x
+x +x
+x +y | -x
+x -x | +x
+x =x +y
+x | +x | =x | +y
+x | -x -y |
=x | -x -x
+a +b =a | -b +b -c | =c -a +a";

fn journal_of(alloc: Global, spelled: &str) -> Result<Vec<Op>, Fail> {
    let mut journal = Vec::new(alloc);
    for word in spelled.split_whitespace() {
        let (kind, id) = kind_and_id(word);
        if kind != "|" {
            journal.push(op_of(alloc, kind, id)?)?;
        }
    }
    Ok(journal)
}

fn kind_and_id(word: &str) -> (&str, &str) {
    word.split_at_checked(1).unwrap_or(("|", ""))
}

fn push_line(input: &mut String, kind: &str, id: &str) -> Result<(), AllocError> {
    match kind {
        "+" => write!(
            input,
            "{{\"op\":\"add\",\"id\":\"{id}\",\"suggest\":\"a\"}}\n"
        ),
        "=" => write!(
            input,
            "{{\"op\":\"update\",\"id\":\"{id}\",\"suggest\":\"a\"}}\n"
        ),
        "-" => write!(input, "{{\"op\":\"delete\",\"id\":\"{id}\"}}\n"),
        _ => input.push_str("{\"op\":\"suggest\",\"prefix\":\"\",\"k\":1000}\n"),
    }
}

fn input_of(alloc: Global, spelled: &str) -> Result<String, AllocError> {
    let mut input = String::new(alloc);
    for word in spelled.split_whitespace() {
        let (kind, id) = kind_and_id(word);
        push_line(&mut input, kind, id)?;
    }
    push_line(&mut input, "|", "")?;
    Ok(input)
}

// The rows of documents that all have one text and one weight: by number.
fn push_rows(reply: &mut String, live: &[Numbered]) -> Result<(), AllocError> {
    let mut between = "";
    for numbered in live {
        let id = numbered.document.id.as_str();
        let seq = numbered.seq;
        write!(
            reply,
            "{between}{{\"id\":\"{id}\",\"score\":1,\"seq\":{seq},\"text\":\"a\"}}"
        )?;
        between = ",";
    }
    Ok(())
}

fn push_reply(reply: &mut String, journal: &[Op], line: usize) -> Result<(), AllocError> {
    let live = live_documents_of(*reply.allocator(), journal)?;
    write!(reply, "{{\"complete\":true,\"line\":{line},\"rows\":[")?;
    push_rows(reply, live.as_slice())?;
    write!(reply, "],\"upto\":{}}}", journal.len())
}

fn reply_to_all(alloc: Global, spelled: &str, line: usize) -> Result<String, Fail> {
    let journal = journal_of(alloc, spelled)?;
    let mut reply = String::new(alloc);
    push_reply(&mut reply, journal.as_slice(), line)?;
    Ok(reply)
}

fn compare<R: Abort + Wait>(rt: &R, alloc: Global, spelled: &str) -> Result<(), Fail> {
    let input = input_of(alloc, spelled)?;
    let wanted = reply_to_all(alloc, spelled, input.lines().count())?;
    assert_last(rt, alloc, input.as_bytes(), wanted.as_str())
}

#[test]
fn a_query_over_all_finds_what_the_plain_program_finds(rt: HostRuntime) -> Result<(), Fail> {
    for spelled in JOURNALS.lines() {
        compare(&rt, rt.alloc(), spelled)?;
    }
    Ok(())
}
