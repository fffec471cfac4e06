use crate::making::asked_of;
use crate::table::{assert_same, given};
use sg_context::boost_of;
use std::alloc::Global;
use std::test::Fail;

// A row each: what it shows, the query contexts, a context, and its boost.
const BOOSTS: &str = "\
nothing is asked for||fr|1
nor in the empty context|||1
the same context|fr=2|fr|2
another context|fr=2|de|-
none of several|fr=2 it*=3|de|-
the greatest comes second|fr=2 fr=7 fr=3|fr|7
a greater one doesn't match|de=9 fr=2 it=8|fr|2
a beginning with a greater boost|fr=2 f*=3|fr|3
one that is longer|fr*=4|f|-
the empty beginning|*=5|köln|5
the empty context|=5|köln|-
the empty context in itself|=5||5
the greatest boost of all|x=2147483647|x|2147483647
";

fn push_boost(told: &mut String, asked: &str, context: &str) -> Result<(), Fail> {
    let asked = asked_of(*told.allocator(), asked)?;
    match boost_of(asked.as_slice(), context.as_bytes()) {
        Some(boost) => write!(told, "|{boost}\n")?,
        None => told.push_str("|-\n")?,
    }
    Ok(())
}

fn push_row(told: &mut String, row: &str) -> Result<(), Fail> {
    let Some((front, given)) = given(row) else {
        return Err("no boost".into());
    };
    let Some((asked, context)) = given.split_once('|') else {
        return Err("no context".into());
    };
    told.push_str(front)?;
    push_boost(told, asked, context)
}

fn rows_again(alloc: Global) -> Result<String, Fail> {
    let mut told = String::new(alloc);
    for row in BOOSTS.lines() {
        push_row(&mut told, row)?;
    }
    Ok(told)
}

#[test]
fn the_greatest_boost_that_matches_counts(rt: HostRuntime) -> Result<(), Fail> {
    let told = rows_again(rt.alloc())?;
    assert_same(&rt, told.as_str(), BOOSTS);
    Ok(())
}
