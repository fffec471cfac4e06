//! Operations by their kind: `+` adds, `=` updates and `-` deletes the documents of an id.
use sg_base::{Bytes, Key, Text};
use sg_paths::{Document, Op, Suggestion};
use std::alloc::Global;
use std::test::Fail;

fn suggestion(alloc: Global) -> Result<Suggestion, Fail> {
    let text = Text::of(alloc, "a")?;
    let key = Key::of(Bytes::of(alloc, b"a")?)?;
    Ok(Suggestion::new(text, key, 1, Vec::new(alloc))?)
}

fn document(alloc: Global, id: &str) -> Result<Document, Fail> {
    let suggestions = vec![in alloc; suggestion(alloc)?]?;
    Ok(Document::new(Text::of(alloc, id)?, suggestions)?)
}

pub fn op_of(alloc: Global, kind: &str, id: &str) -> Result<Op, Fail> {
    Ok(match kind {
        "+" => Op::Add(document(alloc, id)?),
        "=" => Op::Update(document(alloc, id)?),
        _ => Op::Delete(Text::of(alloc, id)?),
    })
}
