ghost use Rattle.std.specs.Prelude.{◌≡◌, ◌<◌, [], None, OnOk, MatchOption, length};

use crate::table::{assert_same, given};
use path_desk::{Desk, Entry};
use sg_base::{Cut, NodeId};
use std::alloc::{AllocError, Global};
use std::test::Fail;

fn entry_of(score: u64, start: u32) -> Entry {
    Entry {
        score,
        start,
        boost: 1,
        node: NodeId(0),
        cost: 0,
        ordinal: 0,
    }
}

// Takes the next entry, whose path ends at once.
fn taken(desk: &mut Desk) -> Option<Entry>
    requires { desk.old.followed ≡ None }
    ensures followed { desk.new.followed ≡ None }
    ensures fewer { MatchOption result (desk.new.waiting ≡ [])
        (λ _. length desk.new.waiting < length desk.old.waiting) }
{
    let entry = desk.follow()?;
    desk.reached();
    Some(entry)
}

// The scores and starts of all entries, in the order in which they are taken.
fn push_order(told: &mut String, desk: &mut Desk) -> Result<(), AllocError>
    requires { desk.old.followed ≡ None }
    ensures { OnOk result (desk.new.waiting ≡ []) }
{
    while let Some(entry) = taken(desk) {
        let Entry { score, start, .. } = entry;
        write!(told, " {score}.{start}")?;
    }
    Ok(())
}

fn push_point(told: &mut String, cut: &Cut) -> Result<(), Fail> {
    let key = str::from_utf8(cut.key.as_slice())?;
    let (score, generation, room) = (cut.score, cut.generation, cut.room);
    write!(told, "{score} {key} of segment {generation} with {room}")?;
    Ok(())
}

fn push_cut(told: &mut String, desk: &mut Desk) -> Result<(), Fail>
    requires { desk.old.waiting ≡ [] }
{
    match desk.cut(7)? {
        None => Ok(told.push_str("none")?),
        Some(cut) => push_point(told, &cut),
    }
}

// The score, the number and the key bytes of a start.
fn start_parts(word: &str) -> Option<(u64, u32, &str)> {
    let (score, rest) = word.split_once('.')?;
    let (start, key) = rest.split_once('.')?;
    Some((score.parse::<u64>().ok()?, start.parse::<u32>().ok()?, key))
}

fn put_starts(desk: &mut Desk, spelled: &str) -> Result<(), Fail>
    requires { desk.old.followed ≡ None }
    ensures { OnOk result (desk.new.followed ≡ None) }
{
    for word in spelled.split_whitespace() {
        let Some((score, start, key)) = start_parts(word) else {
            return Err("no start".into());
        };
        desk.put_start(entry_of(score, start), key.as_bytes())?;
    }
    Ok(())
}

// What becomes of starts in a queue: the order in which they are taken, and the truncation point.
fn push_run(told: &mut String, room: u32, starts: &str) -> Result<(), Fail> {
    let mut desk = Desk::new(*told.allocator());
    desk.begin(room);
    put_starts(&mut desk, starts)?;
    push_order(told, &mut desk)?;
    told.push_str("; ")?;
    push_cut(told, &mut desk)
}

fn run_parts(given: &str) -> Option<(u32, &str)> {
    let (room, starts) = given.split_once('|')?;
    Some((room.parse::<u32>().ok()?, starts))
}

fn push_row(told: &mut String, row: &str) -> Result<(), Fail> {
    let Some((front, given)) = given(row) else {
        return Err("no answer".into());
    };
    let Some((room, starts)) = run_parts(given) else {
        return Err("no room".into());
    };
    write!(told, "{front}|")?;
    push_run(told, room, starts)?;
    told.push_str("\n")?;
    Ok(())
}

// A row each: what it shows, the room, the starts that are put in with score, number and key bytes,
// the order in which they are taken, and the truncation point.
const STARTS: &str = "\
scores, then keys, then starts|4|5.1.ab 7.2.b 5.0.ab 5.3.aa| 7.2 5.3 5.0 5.1; none
as many as there is room for|2|5.1.ab 5.0.ab| 5.0 5.1; none
one of equal ones is dropped|1|5.1.ab 5.0.ab| 5.0; 5 ab of segment 7 with 1
the first of those that are dropped|2|3.0.c 1.0.a 2.0.b 4.0.d| 4.0 3.0; 2 b of segment 7 with 2
no room|0|3.0.c 4.0.d|; 4 d of segment 7 with 0
";

fn rows_again(alloc: Global) -> Result<String, Fail> {
    let mut told = String::new(alloc);
    for row in STARTS.lines() {
        push_row(&mut told, row)?;
    }
    Ok(told)
}

#[test]
fn starts_are_taken_in_order(rt: HostRuntime) -> Result<(), Fail> {
    let told = rows_again(rt.alloc())?;
    assert_same(&rt, told.as_str(), STARTS);
    Ok(())
}
