//! Reports for tests, as short texts.

use path_desk::SegReport;
use sg_base::{Cut, Hit, Key, Rank};
use sg_paths::Numbered;
use std::alloc::Global;
use std::test::Fail;

fn key_of_hit<'d>(docs: &'d [Numbered], hit: &Hit) -> Option<&'d Key> {
    let numbered = docs.get(hit.doc as usize)?;
    let document = &numbered.document;
    let suggestions = document.suggestions.items();
    let suggestion = suggestions.get(hit.place as usize)?;
    Some(&suggestion.key)
}

/// A row behind those that are told.
pub fn push_row(
    told: &mut String,
    key: &[u8],
    score: u64,
    seq: u64,
    place: u8,
) -> Result<(), Fail> {
    let between = if told.is_empty() { "" } else { ", " };
    let key = str::from_utf8(key)?;
    write!(told, "{between}{score} {key} {seq}/{place}")?;
    Ok(())
}

fn push_hit(told: &mut String, docs: &[Numbered], hit: &Hit) -> Result<(), Fail> {
    let Some(key) = key_of_hit(docs, hit) else {
        return Err("no suggestion".into());
    };
    push_row(told, key.as_slice(), hit.score, hit.seq, hit.place)
}

/// The rows of hits: score, key, number and place.
pub fn shown_hits(alloc: Global, docs: &[Numbered], hits: &[Hit]) -> Result<String, Fail> {
    let mut told = String::new(alloc);
    for hit in hits {
        push_hit(&mut told, docs, hit)?;
    }
    Ok(told)
}

/// The same of ranks.
pub fn shown_ranks(alloc: Global, ranks: &[Rank]) -> Result<String, Fail> {
    let mut told = String::new(alloc);
    for rank in ranks {
        push_row(
            &mut told,
            rank.key.as_slice(),
            rank.score,
            rank.seq,
            rank.place,
        )?;
    }
    Ok(told)
}

/// A truncation point behind the rows.
pub fn push_cut(told: &mut String, cut: &Cut) -> Result<(), Fail> {
    let between = if told.is_empty() { "" } else { ", " };
    let key = str::from_utf8(cut.key.as_slice())?;
    let (score, generation, room) = (cut.score, cut.generation, cut.room);
    write!(
        told,
        "{between}cut at {score} {key} of {generation}, {room} queued"
    )?;
    Ok(())
}

/// The rows of a report, and its truncation point with the generation and the queue size.
pub fn shown_report(alloc: Global, docs: &[Numbered], report: &SegReport) -> Result<String, Fail> {
    let mut told = shown_hits(alloc, docs, report.hits.items())?;
    if let Some(cut) = &report.cut {
        push_cut(&mut told, cut)?;
    }
    Ok(told)
}
