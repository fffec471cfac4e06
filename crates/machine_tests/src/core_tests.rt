//! The core by itself: its events where views overlap other calls, and its first full batch.
ghost use Rattle.std.specs.Prelude.{◌≡◌, Contains};
ghost use Rattle.index_core.specs.Histories.{View};
ghost use Rattle.index_core.specs.Records.{open_views};

use index_core::{Core, Event, ViewError, ViewParts};
use sg_base::Text;
use sg_paths::Op;
use std::alloc::{AllocError, Global};
use std::test::Fail;

const EVENTS: &str = "[Accept { caller: 1, seq: 1 }, Accept { caller: 2, seq: 2 }, \
    Seal { caller: 3, generation: 1, from: 1, upto: 2 }, \
    Begin { view: 1, caller: 4, upto: 2, gens: List { vec: [1] } }, \
    Accept { caller: 1, seq: 3 }, Seal { caller: 3, generation: 2, from: 3, upto: 3 }, \
    Accept { caller: 1, seq: 4 }, Seal { caller: 5, generation: 3, from: 4, upto: 4 }, \
    Begin { view: 2, caller: 5, upto: 4, gens: List { vec: [1, 2, 3] } }, \
    End { caller: 5, view: 2, freed: List { vec: [] } }, \
    Begin { view: 3, caller: 6, upto: 4, gens: List { vec: [1, 2, 3] } }, \
    End { caller: 4, view: 1, freed: List { vec: [] } }, \
    Accept { caller: 1, seq: 5 }, Seal { caller: 3, generation: 4, from: 5, upto: 5 }, \
    Accept { caller: 1, seq: 6 }]";

fn delete(alloc: Global, id: &str) -> Result<Op, AllocError> {
    Ok(Op::Delete(Text::of(alloc, id)?))
}

// Two accepts, and a freeze between them.
fn change(core: &mut Core, alloc: Global) -> Result<(), Fail>
    ensures { open_views core.new ≡ open_views core.old }
{
    core.accept(1, delete(alloc, "y")?)?;
    core.seal(3)?;
    core.accept(1, delete(alloc, "y")?)?;
    Ok(())
}

// A view that begins and ends.
fn begin_and_end(core: &mut Core) -> Result<(), ViewError>
    ensures { open_views core.new ≡ open_views core.old }
{
    let parts = core.begin_view(5)?;
    core.end_view(5, parts);
    Ok(())
}

// A view that begins and isn't given back.
fn leave_open(core: &mut Core) -> Result<(), ViewError>
    ensures { (v : View) → Contains (open_views core.old) v → Contains (open_views core.new) v }
{
    let ViewParts {
        view: _,
        upto: _,
        pieces: _,
        batches: _,
        gens: _,
    } = core.begin_view(6)?;
    Ok(())
}

#[test]
fn views_overlap_other_calls(rt: HostRuntime) -> Result<(), Fail> {
    let alloc = rt.alloc();
    let mut core = Core::new(alloc);
    assert_eq!(rt; core.accept(1, delete(alloc, "x")?)?, 1);
    assert_eq!(rt; core.accept(2, delete(alloc, "x")?)?, 2);
    assert_eq!(rt; core.seal(3)?, Some(1));
    assert_eq!(rt; core.seal(3)?, None, "nothing is buffered");
    let first = core.begin_view(4)?;
    let changed = change(&mut core, alloc);
    let ended = begin_and_end(&mut core);
    let left = leave_open(&mut core);
    core.end_view(4, first);
    changed?;
    ended?;
    left?;
    change(&mut core, alloc)?;
    assert_eq!(rt; core.open_views(), 1);
    assert_eq!(rt; core.accepted(), 6);
    let told = format!(in alloc; "{:?}", core.history())?;
    assert_eq!(rt; told.as_str(), EVENTS);
    Ok(())
}

#[test]
fn the_first_full_batch_has_16384_operations(rt: HostRuntime) -> Result<(), Fail> {
    let mut core = Core::new(rt.alloc());
    for _ in 0..16_385 {
        core.accept(0, delete(rt.alloc(), "a")?)?;
    }
    let mut told = String::new(rt.alloc());
    for event in core.history() {
        if let Event::Seal { .. } = event {
            told.push_str(format!(in rt.alloc(); "{event:?}")?.as_str())?;
        }
    }
    assert_eq!(rt;
        told.as_str(),
        "Seal { caller: 0, generation: 1, from: 1, upto: 16384 }"
    );
    Ok(())
}

#[test]
fn no_more_than_256_views_are_open(rt: HostRuntime) -> Result<(), Fail> {
    let mut core = Core::new(rt.alloc());
    core.accept(0, delete(rt.alloc(), "x")?)?;
    for _ in 0..256 {
        leave_open(&mut core)?;
    }
    match leave_open(&mut core) {
        Ok(()) => assert!(rt; false, "begun"),
        Err(error) => {
            assert_eq!(rt; error, ViewError::TooMany { count: 256 });
            let told = format!(in rt.alloc(); "{error}")?;
            assert_eq!(rt; told.as_str(), "256 views are open");
        }
    }
    Ok(())
}
