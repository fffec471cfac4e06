use crate::making::document_of;
use crate::table::{assert_same, given};
use sg_base::{List, Text};
use sg_paths::{Document, Numbered, Op, Suggestion, live_documents_of};
use std::alloc::Global;
use std::test::Fail;

// A row each: what it shows, the operations, and the numbers of the live documents. `+x` adds, `=x`
// updates and `-x` deletes the id `x`.
const JOURNALS: &str = "\
nothing||
two adds of one id are both live|+x +x|1 2
a delete reaches both|+x +x -x|
it doesn't reach a later add|-x +x|2
nor another id|+x +y -x|2
an id is no prefix|+x +xx -x|2
an update leaves its own|+x +x =x|3
an update of a new id adds|=x|1
one after the other|+a +b =a -b +b -c =c -a +a|5 7 9
";

fn op_of(alloc: Global, word: &str) -> Result<Op, Fail> {
    let Some((kind, id)) = word.split_at_checked(1) else {
        return Err("no kind".into());
    };
    if kind == "-" {
        return Ok(Op::Delete(Text::of(alloc, id)?));
    }
    let document = document_of(alloc, id, "bern:1")?;
    Ok(if kind == "+" {
        Op::Add(document)
    } else {
        Op::Update(document)
    })
}

fn journal_of(alloc: Global, spelled: &str) -> Result<List<Op>, Fail> {
    let mut journal = Vec::new(alloc);
    for word in spelled.split_whitespace() {
        journal.push(op_of(alloc, word)?)?;
    }
    Ok(List::of(journal))
}

fn push_numbers(told: &mut String, documents: &[Numbered]) -> Result<(), Fail> {
    let mut between = "";
    for numbered in documents {
        write!(told, "{between}{}", numbered.seq)?;
        between = " ";
    }
    Ok(())
}

fn push_live(told: &mut String, spelled: &str) -> Result<(), Fail> {
    let journal = journal_of(*told.allocator(), spelled)?;
    let live = live_documents_of(*told.allocator(), journal.items())?;
    push_numbers(told, live.as_slice())
}

fn push_row(told: &mut String, row: &str) -> Result<(), Fail> {
    let Some((front, spelled)) = given(row) else {
        return Err("no numbers".into());
    };
    write!(told, "{front}|")?;
    push_live(told, spelled)?;
    told.push_str("\n")?;
    Ok(())
}

fn rows_again(alloc: Global) -> Result<String, Fail> {
    let mut told = String::new(alloc);
    for row in JOURNALS.lines() {
        push_row(&mut told, row)?;
    }
    Ok(told)
}

#[test]
fn deletes_reach_what_came_before(rt: HostRuntime) -> Result<(), Fail> {
    let told = rows_again(rt.alloc())?;
    assert_same(&rt, told.as_str(), JOURNALS);
    Ok(())
}

fn push_suggestion(told: &mut String, suggestion: &Suggestion) -> Result<(), Fail> {
    write!(told, " {}:{}", suggestion.text.as_str(), suggestion.weight)?;
    for context in suggestion.contexts.items() {
        write!(told, "@{}", context.as_str())?;
    }
    Ok(())
}

fn push_document(told: &mut String, document: &Document) -> Result<(), Fail> {
    told.push_str(document.id.as_str())?;
    for suggestion in document.suggestions.items() {
        let copy = suggestion.copy()?;
        push_suggestion(told, &copy)?;
    }
    Ok(())
}

fn copied(alloc: Global, id: &str, spelled: &str) -> Result<String, Fail> {
    let document = document_of(alloc, id, spelled)?;
    let copy = document.copy()?;
    let mut told = String::new(alloc);
    push_document(&mut told, &copy)?;
    Ok(told)
}

#[test]
fn a_copy_is_whole(rt: HostRuntime) -> Result<(), Fail> {
    let told = copied(rt.alloc(), "ch-1", "bern:2147483647@town")?;
    assert_same(&rt, told.as_str(), "ch-1 bern:2147483647@town");
    Ok(())
}
