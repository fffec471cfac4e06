//! A list under the lock, to which each critical section appends the number of its handle.
ghost use Rattle.std.specs.Prelude.{◌≡◌, ◌++◌, ◌∷◌, [], ℕ, List, length, slice_index_or};
ghost use Rattle.std.specs.Prelude.{◌<◌, IfOk, IfErr, OnErr};
ghost use Rattle.std.specs.Thread.{IsSync};
ghost use Rattle.turn_lock.specs.Handles.{Handle, IsPrefix};
ghost use Rattle.lock_speed.specs.Visiting.{IsOutside, CameBy};

use std::alloc::{AllocError, Global};
use std::marker::Model;
use std::sync::Wait;
use std::thread::{Threads, join_mut};
use turn_lock::{Counted, Pass, TurnLock};

/// The numbers of the handles that came by, in order.
#[derive(Drop)]
pub struct Visits {
    numbers: Vec<u32>,
}

impl Model for Visits {
    ghost use Rattle.std.specs.Prelude.{ℕ, List};

    ghost Value = { List ℕ };

    ghost view = { λ v. v.numbers.items };
}

impl Counted for Visits {
    type Event = u32;

    type Operation = u32;

    ghost history = { λ numbers. numbers };

    ghost journal = { λ _. [] };

    ghost caller = { λ number. number };

    fn count(&self) -> u64 {
        self.numbers.len() as u64
    }
}

impl Visits {
    /// No visits, with room for so many.
    pub fn with_room(alloc: Global, room: usize) -> Result<Visits, AllocError>
        ensures ok { IfOk result (λ visits. visits ≡ []) }
    {
        let numbers = Vec::with_capacity(alloc, room)?;
        Ok(Visits { numbers })
    }

    /// The numbers of the handles, in the order of their visits.
    pub fn numbers(&self) -> &[u32]
        ensures value { result.now ≡ self.now }
    {
        self.numbers.as_slice()
    }

    fn append(&mut self, number: u32) -> Result<(), AllocError>
        ensures ok { IfOk result (λ _. self.new ≡ self.old ++ number ∷ []) }
        ensures err { OnErr result (self.new ≡ self.old) }
    {
        self.numbers.push(number)?;
        Ok(())
    }
}

/// One visit, unless there is no memory.
pub fn visit(
    wait: &impl Wait,
    lock: &TurnLock<Visits>,
    pass: &mut Pass<Visits>,
) -> Result<(), AllocError>
    requires outside { IsOutside lock.now pass.old }
    ensures outside { IsOutside lock.now pass.new }
    ensures ok { IfOk result (λ _. CameBy 1 pass.old pass.new) }
    ensures err { IfErr result (λ _. CameBy 0 pass.old pass.new) }
{
    let mut hold = lock.take(wait, pass);
    let result = hold.value().append(pass.number());
    lock.give(pass, hold);
    result
}

/// So many visits, or fewer where there is no memory.
pub fn visit_often(
    wait: &impl Wait,
    lock: &TurnLock<Visits>,
    pass: &mut Pass<Visits>,
    times: u32,
) -> Result<(), AllocError>
    requires outside { IsOutside lock.now pass.old }
    ensures outside { IsOutside lock.now pass.new }
    ensures ok { IfOk result (λ _. CameBy times pass.old pass.new) }
{
    for _round in 0..times {
        visit(wait, lock, pass)?;
    }
    Ok(())
}

/// So many visits of each handle, each in a thread of its own. Whether there was memory for all.
pub fn visit_beside<R: Threads + Wait + Sync>(
    rt: &R,
    lock: &TurnLock<Visits>,
    passes: &mut [Pass<Visits>],
    times: u32,
) -> bool
    requires outside { (k : ℕ) (h : Handle ℕ ℕ) → k < length passes.old
        → IsOutside lock.now (slice_index_or passes.old k h) }
    ensures outside { (k : ℕ) (h : Handle ℕ ℕ) → k < length passes.old
        → IsOutside lock.now (slice_index_or passes.new k h) }
{
    if passes.is_empty() {
        return true;
    }
    if passes.len() == 1 {
        return visit_often(rt, lock, &mut passes[0], times).is_ok();
    }
    let half = passes.len() / 2;
    let (left, right) = passes.split_at_mut(half);
    let (one, other) = join_mut(
        rt,
        &mut || -> bool
            requires { IsSync R.row × ((k : ℕ) (h : Handle ℕ ℕ) → k < length left.now
                → IsOutside lock.now (slice_index_or left.now k h)) }
            ensures { (k : ℕ) (h : Handle ℕ ℕ) → k < length left.entry.now
                → IsOutside lock.entry.now (slice_index_or left.exit.now k h) }
        { visit_beside(rt, lock, left, times) },
        &mut || -> bool
            requires { IsSync R.row × ((k : ℕ) (h : Handle ℕ ℕ) → k < length right.now
                → IsOutside lock.now (slice_index_or right.now k h)) }
            ensures { (k : ℕ) (h : Handle ℕ ℕ) → k < length right.entry.now
                → IsOutside lock.entry.now (slice_index_or right.exit.now k h) }
        { visit_beside(rt, lock, right, times) },
    );
    one && other
}

/// The numbers of the handles that came by, as this handle finds them.
pub fn numbers_found(
    wait: &impl Wait,
    alloc: Global,
    lock: &TurnLock<Visits>,
    pass: &mut Pass<Visits>,
) -> Result<Vec<u32>, AllocError>
    requires outside { IsOutside lock.now pass.old }
    ensures outside { IsOutside lock.now pass.new }
    ensures ok { IfOk result (λ numbers. numbers.items ≡ pass.new.history) }
    ensures in_front { IsPrefix pass.old.history pass.new.history }
{
    let mut hold = lock.take(wait, pass);
    let numbers = Vec::from_slice(alloc, hold.value().numbers());
    lock.give(pass, hold);
    numbers
}
