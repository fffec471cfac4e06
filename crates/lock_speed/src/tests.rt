ghost use Rattle.std.specs.Prelude.{◌<◌, ℕ, length, slice_index_or};
ghost use Rattle.std.specs.Thread.{IsSync};
ghost use Rattle.turn_lock.specs.Handles.{Handle};
ghost use Rattle.lock_speed.specs.Visiting.{IsOutside};

use crate::run;
use crate::visits::{Visits, numbers_found, visit};
use std::alloc::{AllocError, Global};
use std::sync::Wait;
use std::test::Fail;
use std::thread::{Threads, join_mut};
use turn_lock::{Pass, TurnLock};

const TIMES: u32 = 1_000;

// Comes by so often, and looks after each visit. Whether all that it saw was in front each time.
fn comes_by(
    wait: &impl Wait,
    alloc: Global,
    lock: &TurnLock<Visits>,
    pass: &mut Pass<Visits>,
) -> Result<bool, AllocError>
    requires outside { IsOutside lock.now pass.old }
    ensures outside { IsOutside lock.now pass.new }
{
    let mut seen = Vec::new(alloc);
    let mut in_front = true;
    for _round in 0..TIMES {
        visit(wait, lock, pass)?;
        let numbers = numbers_found(wait, alloc, lock, pass)?;
        in_front &= numbers.as_slice().starts_with(seen.as_slice());
        seen = numbers;
    }
    Ok(in_front)
}

// Both come by, each in a thread of its own, and meet. All numbers, if each saw its own in front.
fn both_come_by<R: Threads + Wait + Sync>(
    rt: &R,
    alloc: Global,
    lock: &TurnLock<Visits>,
    left: &mut Pass<Visits>,
    right: &mut Pass<Visits>,
) -> Result<Option<Vec<u32>>, AllocError>
    requires outside { IsOutside lock.now left.old × IsOutside lock.now right.old }
{
    let (one, other) = join_mut(
        rt,
        &mut || -> Result<bool, AllocError>
            requires { IsSync R.row × IsOutside lock.now left.now }
            ensures { IsOutside lock.entry.now left.exit.now }
        { comes_by(rt, alloc, lock, left) },
        &mut || -> Result<bool, AllocError>
            requires { IsSync R.row × IsOutside lock.now right.now }
            ensures { IsOutside lock.entry.now right.exit.now }
        { comes_by(rt, alloc, lock, right) },
    );
    let in_front = one? && other?;
    lock.meet(left, right);
    let numbers = numbers_found(rt, alloc, lock, right)?;
    Ok(if in_front { Some(numbers) } else { None })
}

fn first_two_come_by<R: Threads + Wait + Sync>(
    rt: &R,
    alloc: Global,
    lock: &TurnLock<Visits>,
    passes: &mut [Pass<Visits>],
) -> Result<Option<Vec<u32>>, AllocError>
    requires two { 1 < length passes.old }
    requires outside { (k : ℕ) (h : Handle ℕ ℕ) → k < length passes.old
        → IsOutside lock.now (slice_index_or passes.old k h) }
{
    let (left, right) = passes.split_at_mut(1);
    both_come_by(rt, alloc, lock, &mut left[0], &mut right[0])
}

#[test]
fn each_section_finds_what_its_handle_has_observed(rt: HostRuntime) -> Result<(), Fail> {
    let alloc = rt.alloc();
    let visits = Visits::with_room(alloc, 0)?;
    let (lock, mut passes) = TurnLock::new(alloc, visits, 2)?;
    let Some(numbers) = first_two_come_by(&rt, alloc, &lock, passes.as_mut_slice())? else {
        return Err(Fail::new("a section didn't find what its handle had seen"));
    };
    assert_eq!(rt; numbers.len(), 2_000);
    assert_eq!(rt;
        numbers.iter().filter(|number| **number == 1).count(),
        1_000
    );
    Ok(())
}

#[test]
fn as_many_handles_as_seats(rt: HostRuntime) -> Result<(), Fail> {
    let alloc = rt.alloc();
    for seats in [1u32, 2, 17] {
        let visits = Visits::with_room(alloc, 0)?;
        let (_lock, passes) = TurnLock::new(alloc, visits, seats)?;
        assert_eq!(rt; passes.len(), seats as usize);
        for (number, pass) in passes.iter().enumerate() {
            assert_eq!(rt; pass.number() as usize, number);
        }
        let counts = run(&rt, alloc, seats, 100)?;
        assert!(rt; counts.iter().all(|count| *count == 100), "{seats} seats");
    }
    Ok(())
}
