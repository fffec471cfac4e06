//! Operations and batches for tests, from short texts.

use sg_base::{Bytes, Key, List, Text};
use sg_paths::{Batch, Document, Op, Suggestion};
use std::alloc::Global;
use std::sync::Arc;
use std::test::Fail;

/// A document with an id.
pub fn document_of(alloc: Global, id: &str) -> Result<Document, Fail> {
    let key = Key::of(Bytes::of(alloc, b"k")?)?;
    let suggestion = Suggestion::new(Text::of(alloc, "k")?, key, 1, Vec::new(alloc))?;
    let suggestions = vec![in alloc; suggestion]?;
    Ok(Document::new(Text::of(alloc, id)?, suggestions)?)
}

// An operation: + adds, = updates, - deletes.
fn op_of(alloc: Global, word: &str) -> Result<Op, Fail> {
    if let Some(id) = word.strip_prefix('-') {
        return Ok(Op::Delete(Text::of(alloc, id)?));
    }
    if let Some(id) = word.strip_prefix('=') {
        return Ok(Op::Update(document_of(alloc, id)?));
    }
    let id = word.strip_prefix('+').ok_or("no operation")?;
    Ok(Op::Add(document_of(alloc, id)?))
}

/// Operations with blanks between them.
pub fn ops_of(alloc: Global, spelled: &str) -> Result<Vec<Op>, Fail> {
    let mut ops = Vec::new(alloc);
    for word in spelled.split_whitespace() {
        ops.push(op_of(alloc, word)?)?;
    }
    Ok(ops)
}

// A batch: the number of its first operation, and its operations.
fn batch_of(alloc: Global, spelled: &str) -> Result<Batch, Fail> {
    let (from, words) = spelled.split_once(' ').ok_or("no operations")?;
    let from = from.parse::<u64>()?;
    let ops = ops_of(alloc, words)?;
    let upto = from.saturating_add(ops.len() as u64).saturating_sub(1);
    Ok(Batch {
        from,
        upto,
        ops: List::of(ops),
    })
}

/// Batches with ` / ` between them.
pub fn batches_of(alloc: Global, spelled: &str) -> Result<Vec<Arc<Batch>>, Fail> {
    let mut batches = Vec::new(alloc);
    for part in spelled.split(" / ") {
        let batch = batch_of(alloc, part)?;
        batches.push(Arc::new(alloc, batch)?)?;
    }
    Ok(batches)
}
