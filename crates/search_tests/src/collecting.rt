ghost use Rattle.std.specs.Prelude.{◌≡◌, ◌<◌, All, IfOk, length};
ghost use Rattle.sg_base.specs.Ranking.{IsKept};
ghost use Rattle.collector.specs.Hits.{rows_of};
ghost use Rattle.search_tests.specs.Tables.{key_in};

use crate::table::{assert_same, given};
use collector::{Keys, Report, Top};
use sg_base::{Bytes, Cut, Hit};
use std::alloc::{AllocError, Global};
use std::test::Fail;

// The keys of documents, which have one suggestion each.
#[derive(Drop)]
struct Names {
    keys: Vec<Bytes>,
}

impl Keys for Names {
    ghost use Rattle.std.specs.Prelude.{◌<◌, length};
    ghost use Rattle.search_tests.specs.Tables.{key_in};

    ghost key_of = { λ n h. key_in n.keys.items h };

    ghost known = { λ n h. h.doc < length n.keys.items };

    fn key(&self, hit: &Hit) -> &[u8] {
        self.keys[hit.doc as usize].as_slice()
    }
}

fn names_of(alloc: Global, spelled: &str) -> Result<Names, Fail> {
    let mut keys = Vec::new(alloc);
    for word in spelled.split_whitespace() {
        keys.push(Bytes::of(alloc, word.as_bytes())?)?;
    }
    Ok(Names { keys })
}

fn hit_of(score: u64, doc: u32) -> Hit
    ensures { result.doc ≡ doc }
{
    Hit {
        score,
        seq: doc as u64 + 1,
        piece: 0,
        doc,
        place: 0,
    }
}

// A collector of two with the rows 9 `ab` of document 2 and 7 `abd` of document 1.
fn two_rows(alloc: Global, names: &Names) -> Result<Top, Fail>
    requires { 2 < length names.now.keys.items }
    ensures { IfOk result (λ top. All (λ h. h.doc < length names.now.keys.items) top.hits
        × IsKept (rows_of (λ h. key_in names.now.keys.items h) top.hits)) }
{
    let mut top = Top::new(Vec::with_capacity(alloc, 2)?, 2);
    top.put(names, hit_of(5, 0));
    top.put(names, hit_of(7, 1));
    top.put(names, hit_of(6, 0));
    top.put(names, hit_of(9, 2));
    Ok(top)
}

fn cut_at(alloc: Global, score: u64, key: &str) -> Result<Cut, Fail> {
    Ok(Cut {
        score,
        key: Bytes::of(alloc, key.as_bytes())?,
        generation: 1,
        room: 4,
    })
}

// A row each: what it shows, the score and the key of a truncation point, and what it leaves of the
// rows 9 `ab` and 7 `abd`.
const CUTS: &str = "\
a lesser score|5 abd|9:2 7:1 complete
an equal score, a greater key|7 abe|9:2 7:1 complete
an equal key doesn't precede|7 abd|9:2 cut
an equal score, a lesser key|7 ab|9:2 cut
between the scores|8 abd|9:2 cut
before all|10 abd|cut
";

// The rows of a report, and whether it is complete.
fn push_report(told: &mut String, report: &Report) -> Result<(), AllocError> {
    for hit in report.hits.items() {
        write!(told, "{}:{} ", hit.score, hit.doc)?;
    }
    told.push_str(match &report.cut {
        Some(_) => "cut\n",
        None => "complete\n",
    })
}

// What a collector of these two rows gives back, closed by a truncation point.
fn push_close(told: &mut String, score: u64, key: &str) -> Result<(), Fail> {
    let names = names_of(*told.allocator(), "abc abd ab")?;
    if names.keys.len() != 3 {
        return Err("not three keys".into());
    }
    let top = two_rows(*told.allocator(), &names)?;
    let cut = cut_at(*told.allocator(), score, key)?;
    push_report(told, &top.close(&names, Some(cut)))?;
    Ok(())
}

fn point_in(given: &str) -> Option<(u64, &str)> {
    let (score, key) = given.split_once(' ')?;
    Some((score.parse::<u64>().ok()?, key))
}

fn push_row(told: &mut String, row: &str) -> Result<(), Fail> {
    let Some((front, given)) = given(row) else {
        return Err("no rows".into());
    };
    let Some((score, key)) = point_in(given) else {
        return Err("no truncation point".into());
    };
    write!(told, "{front}|")?;
    push_close(told, score, key)
}

fn rows_again(alloc: Global) -> Result<String, Fail> {
    let mut told = String::new(alloc);
    for row in CUTS.lines() {
        push_row(&mut told, row)?;
    }
    Ok(told)
}

#[test]
fn rows_that_precede_a_truncation_point_stay(rt: HostRuntime) -> Result<(), Fail> {
    let told = rows_again(rt.alloc())?;
    assert_same(&rt, told.as_str(), CUTS);
    Ok(())
}
