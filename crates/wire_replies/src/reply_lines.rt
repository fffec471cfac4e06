//! The lines that replies are written as.
ghost use Rattle.std.specs.Prelude.{◌≡◌, IfOk, IsUtf8, map, Some, None, codes, option_map};
ghost use Rattle.serde_json.specs.View.{view};
ghost use Rattle.serde_json.specs.Read.{read};
ghost use Rattle.serde_json.specs.Written.{compact_text};
ghost use Rattle.wire_replies.specs.Replies.{row_data, row_list, reply_data, reply_text, cut_data};
ghost use Rattle.wire_replies.specs.Replies.{counted_behind, counted_before, named_before};
ghost use Rattle.wire_replies.specs.Replies.{rows_data};
ghost use Rattle.wire_replies.specs.Replies.{opened_data};
ghost use Rattle.wire_replies.specs.ReplyForms.{plain_reply};
ghost use Rattle.wire_replies.specs.WrittenReplies.{IsLine, read_line, DataTellTheReply};

use crate::replies::{OutRow, Reply};
use serde_json::{Value, json};
use sg_base::Cut;
use std::alloc::{AllocError, Global};

fn row_value(alloc: Global, row: &OutRow) -> Result<Value, AllocError>
    ensures { IfOk result (λ v. view v ≡ row_data row.now) }
{
    let id = row.id.as_str();
    let text = row.text.as_str();
    let score = row.score;
    let seq = row.seq;
    json!(in alloc; {"id": id, "score": score, "seq": seq, "text": text})
}

fn row_values(alloc: Global, rows: &[OutRow]) -> Result<Vec<Value>, AllocError>
    ensures { IfOk result (λ v. map view v.items ≡ map row_data rows.now) }
{
    let mut values = Vec::with_capacity(alloc, rows.len())?;
    for row in rows {
        values.push(row_value(alloc, row)?)?;
    }
    Ok(values)
}

fn row_list(alloc: Global, rows: &[OutRow]) -> Result<Value, AllocError>
    ensures { IfOk result (λ v. view v ≡ row_list rows.now) }
{
    Ok(Value::Array(row_values(alloc, rows)?))
}

fn cut_value(alloc: Global, cut: &Cut) -> Result<Value, AllocError>
    ensures { IfOk result (λ v. view v ≡ cut_data cut.now) }
{
    let key = hex::encode(alloc, cut.key.as_slice())?;
    let key = key.as_str();
    let room = cut.room;
    let score = cut.score;
    let generation = cut.generation;
    json!(in alloc; {"key": key, "room": room, "score": score, "segment": generation})
}

fn all_rows_value(alloc: Global, line: u64, upto: u64, rows: &[OutRow]) -> Result<Value, AllocError>
    ensures { IfOk result (λ v. view v ≡ rows_data line upto rows.now None) }
{
    let rows = row_list(alloc, rows)?;
    json!(in alloc; {"complete": true, "line": line, "rows": rows, "upto": upto})
}

fn cut_rows_value(
    alloc: Global,
    line: u64,
    upto: u64,
    rows: &[OutRow],
    cut: &Cut,
) -> Result<Value, AllocError>
    ensures { IfOk result (λ v. view v ≡ rows_data line upto rows.now (Some cut.now)) }
{
    let rows = row_list(alloc, rows)?;
    let cut = cut_value(alloc, cut)?;
    json!(in alloc; {"complete": false, "cut": cut, "line": line, "rows": rows, "upto": upto})
}

fn numbered_value(alloc: Global, line: u64, seq: u64) -> Result<Value, AllocError>
    ensures { IfOk result (λ v. view v ≡ counted_behind (codes "seq") line seq) }
{
    json!(in alloc; {"line": line, "seq": seq})
}

fn opened_value(alloc: Global, line: u64, name: &str, upto: u64) -> Result<Value, AllocError>
    ensures { IfOk result (λ v. view v ≡ opened_data line name.now upto) }
{
    json!(in alloc; {"line": line, "upto": upto, "view": name})
}

fn closed_value(alloc: Global, line: u64, name: &str) -> Result<Value, AllocError>
    ensures { IfOk result (λ v. view v ≡ named_before (codes "closed") line name.now) }
{
    json!(in alloc; {"closed": name, "line": line})
}

fn built_value(alloc: Global, line: u64, count: u32) -> Result<Value, AllocError>
    ensures { IfOk result (λ v. view v ≡ counted_before (codes "built") line count) }
{
    json!(in alloc; {"built": count, "line": line})
}

fn merged_value(alloc: Global, line: u64, count: u32) -> Result<Value, AllocError>
    ensures { IfOk result (λ v. view v ≡ counted_behind (codes "merged") line count) }
{
    json!(in alloc; {"line": line, "merged": count})
}

fn accepted_value(alloc: Global, line: u64, count: u64) -> Result<Value, AllocError>
    ensures { IfOk result (λ v. view v ≡ counted_before (codes "accepted") line count) }
{
    json!(in alloc; {"accepted": count, "line": line})
}

fn failed_value(alloc: Global, line: u64, name: &str) -> Result<Value, AllocError>
    ensures { IfOk result (λ v. view v ≡ named_before (codes "error") line name.now) }
{
    json!(in alloc; {"error": name, "line": line})
}

fn rows_value(
    alloc: Global,
    line: u64,
    upto: u64,
    rows: &[OutRow],
    cut: Option<&Cut>,
) -> Result<Value, AllocError>
    ensures { IfOk result (λ v. view v
        ≡ rows_data line upto rows.now (option_map (λ c. c.now) cut.entry)) }
{
    match cut {
        Some(cut) => cut_rows_value(alloc, line, upto, rows, cut),
        None => all_rows_value(alloc, line, upto, rows),
    }
}

fn reply_value(alloc: Global, reply: &Reply) -> Result<Value, AllocError>
    ensures { IfOk result (λ v. view v ≡ reply_data (plain_reply reply.now)) }
{
    match reply {
        Reply::Seq { line, seq } => numbered_value(alloc, *line, *seq),
        Reply::Rows {
            line,
            upto,
            rows,
            cut,
        } => rows_value(alloc, *line, *upto, rows.items(), cut.as_ref()),
        Reply::Opened { line, view, upto } => opened_value(alloc, *line, view.as_str(), *upto),
        Reply::Closed { line, view } => closed_value(alloc, *line, view.as_str()),
        Reply::Built { line, count } => built_value(alloc, *line, *count),
        Reply::Merged { line, count } => merged_value(alloc, *line, *count),
        Reply::Accepted { line, count } => accepted_value(alloc, *line, *count),
        Reply::Error { line, error } => failed_value(alloc, *line, error.name()),
    }
}

// The reply as compact JSON, without a line feed.
fn reply_json(alloc: Global, reply: &Reply) -> Result<Vec<u8>, AllocError>
    ensures text { IfOk result (λ text. text.items
        ≡ compact_text (reply_data (plain_reply reply.now))) }
    ensures utf8 { IfOk result (λ text. IsUtf8 text.items) }
    ensures reads_back { IfOk result (λ text. read text.items
        ≡ Some (reply_data (plain_reply reply.now))) }
{
    let value = reply_value(alloc, reply)?;
    let text = value.to_vec(alloc)?;
    Ok(text)
}

/// The reply as one line of compact JSON, members in ascending order of name, with its line feed.
pub fn reply(alloc: Global, reply: &Reply) -> Result<Vec<u8>, AllocError>
    ensures text { IfOk result (λ line. line.items ≡ reply_text (plain_reply reply.now)) }
    ensures one_line { IfOk result (λ line. IsLine line.items) }
    ensures utf8 { IfOk result (λ line. IsUtf8 line.items) }
    ensures reads_back { IfOk result (λ line. read_line line.items
        ≡ Some (reply_data (plain_reply reply.now))) }
{
    let mut line = reply_json(alloc, reply)?;
    line.push(b'\n')?;
    Ok(line)
}

/// Nothing of a reply is lost in its data: replies with the same data are the same.
pub fn replies_with_the_same_data_are_the_same()
    ensures { DataTellTheReply }
{}
