//! Steps of the core that buffer operations and freeze them as batches.
ghost use Rattle.std.specs.Prelude.{◌≡◌, ◌<◌, ◌≤◌, ◌+◌, ◌*◌, true, false, nat_lt, IfErr, OnOk};
ghost use Rattle.std.specs.Prelude.{OnErr, length};
ghost use Rattle.sg_paths.specs.Operations.{plain_op};
ghost use Rattle.index_holds.specs.Holders.{is_held};
ghost use Rattle.index_core.specs.declared.limits.TheConstants.{MOST_OPERATIONS};
ghost use Rattle.index_core.specs.Fields.{with_places, with_closed, accepting};
ghost use Rattle.index_core.specs.Fields.{accepting_one, freezing, freezing_all};

use crate::batching::{shared_batch, take_last};
use crate::event::Event;
use crate::limits::BATCH_OPERATIONS;
use crate::slot::Slot;
use crate::store::Store;
use sg_paths::{Batch, Op};
use std::alloc::AllocError;
use std::mem;
use std::sync::Arc;

impl Store {
    /// What is buffered is a batch, if anything is.
    pub(crate) fn close(&mut self) -> Result<(), AllocError>
        requires most { self.old.frozen_count + length self.old.buffer ≤ MOST_OPERATIONS }
        requires few { self.old.lists.merges_open ≤ 3 * MOST_OPERATIONS }
        ensures ok { OnOk result (self.new.closed ≡ nat_lt 0 (length self.old.buffer)) }
        ensures same { self.new ≡ with_closed self.new.closed self.old }
    {
        if self.closed.is_some() {
            return Ok(());
        }
        if self.buffered.is_empty() {
            return Ok(());
        }
        self.batches.reserve(1)?;
        self.slots.reserve(self.merging as usize + 1)?;
        self.holds.reserve(self.merging + 1)?;
        let from = self.frozen + 1;
        let upto = self.frozen + self.buffered.len() as u64;
        let ops = mem::replace(&mut self.buffered, Vec::new(self.alloc));
        match shared_batch(self.alloc, from, upto, ops) {
            Ok(batch) => {
                self.closed = Some(batch);
                Ok(())
            }
            Err(ops) => {
                self.buffered = ops;
                Err(AllocError)
            }
        }
    }

    /// What is buffered isn't a batch.
    pub(crate) fn reopen(&mut self) -> Result<(), AllocError>
        ensures ok { OnOk result (self.new.closed ≡ false) }
        ensures same { self.new ≡ with_closed self.new.closed self.old }
    {
        let Some(batch) = self.closed.take() else {
            return Ok(());
        };
        match Arc::try_unwrap(batch) {
            Ok(
                Batch {
                    from: _,
                    upto: _,
                    ops,
                },
            ) => {
                self.buffered = ops.into_vec();
                Ok(())
            }
            Err(batch) => {
                self.closed = Some(batch);
                Err(AllocError)
            }
        }
    }

    /// Room for so many events, and what is buffered isn't a batch.
    pub(crate) fn make_room(&mut self, places: usize) -> Result<(), AllocError>
        ensures room { OnOk result (length self.new.history + places ≤ self.new.places) }
        ensures closed { OnOk result (self.new.closed ≡ false) }
        ensures same { self.new
            ≡ with_closed self.new.closed (with_places self.new.places self.old) }
        ensures more { self.old.places ≤ self.new.places }
    {
        self.reserve(places)?;
        self.reopen()
    }

    /// Buffers one operation more. An error hands it back.
    pub(crate) fn buffer(&mut self, caller: u32, op: Op) -> Result<(), Op>
        requires closed { self.old.closed ≡ false }
        requires room { length self.old.history < self.old.places }
        requires most { self.old.frozen_count + length self.old.buffer < MOST_OPERATIONS }
        ensures ok { OnOk result (self.new ≡ accepting caller (plain_op op) self.old) }
        ensures returned { IfErr result (λ o. plain_op o ≡ plain_op op) }
        ensures err { OnErr result (self.new ≡ self.old) }
    {
        let seq = self.frozen + self.buffered.len() as u64 + 1;
        let Ok(()) = self.buffered.reserve(1) else {
            return Err(op);
        };
        self.buffered.push_reserved(op);
        self.events.push_reserved(Event::Accept { caller, seq });
        Ok(())
    }

    /// Freezes what is buffered.
    pub(crate) fn freeze(&mut self, caller: u32)
        requires closed { self.old.closed ≡ true }
        requires room { length self.old.history < self.old.places }
        requires most { self.old.frozen_count + length self.old.buffer ≤ MOST_OPERATIONS }
        requires few { self.old.drawn_count ≤ 3 * MOST_OPERATIONS }
        requires new { is_held self.old.held (self.old.drawn_count + 1) ≡ false }
        ensures { self.new ≡ freezing caller self.old }
    {
        let Some(batch) = self.closed.take() else {
            unreachable!()
        };
        let generation = self.drawn + 1;
        let from = batch.from;
        let upto = batch.upto;
        let at = self.batches.len();
        self.slots.push_reserved(Slot {
            generation,
            at,
            segment: None,
            live: None,
            applied: self.frozen,
        });
        self.batches.push_reserved(batch);
        self.holds.bring(generation);
        self.events.push_reserved(Event::Seal {
            caller,
            generation,
            from,
            upto,
        });
        self.frozen = upto;
        self.drawn = generation;
    }

    /// Freezes the closed batch, if there is one.
    pub(crate) fn freeze_all(&mut self, caller: u32)
        requires room { length self.old.history < self.old.places }
        requires most { self.old.frozen_count + length self.old.buffer ≤ MOST_OPERATIONS }
        requires few { self.old.drawn_count ≤ 3 * MOST_OPERATIONS }
        requires new { is_held self.old.held (self.old.drawn_count + 1) ≡ false }
        ensures { self.new ≡ freezing_all caller self.old }
    {
        if self.closed.is_some() {
            self.freeze(caller);
        }
    }

    /// Freezes what is buffered with one operation more. An error hands it back.
    pub(crate) fn freeze_with(&mut self, caller: u32, op: Op) -> Result<(), Op>
        requires closed { self.old.closed ≡ false }
        requires room { length self.old.history + 2 ≤ self.old.places }
        requires most { self.old.frozen_count + length self.old.buffer < MOST_OPERATIONS }
        requires few { self.old.drawn_count ≤ 3 * MOST_OPERATIONS }
        requires few_merges { self.old.lists.merges_open ≤ 3 * MOST_OPERATIONS }
        requires new { is_held self.old.held (self.old.drawn_count + 1) ≡ false }
        ensures ok { OnOk result (self.new
            ≡ freezing caller (accepting caller (plain_op op) self.old)) }
        ensures returned { IfErr result (λ o. plain_op o ≡ plain_op op) }
        ensures err { OnErr result (self.new ≡ self.old) }
    {
        let from = self.frozen + 1;
        let upto = self.frozen + self.buffered.len() as u64 + 1;
        let Ok(()) = self.batches.reserve(1) else {
            return Err(op);
        };
        let Ok(()) = self.slots.reserve(self.merging as usize + 1) else {
            return Err(op);
        };
        let Ok(()) = self.holds.reserve(self.merging + 1) else {
            return Err(op);
        };
        let Ok(()) = self.buffered.reserve(1) else {
            return Err(op);
        };
        self.buffered.push_reserved(op);
        let ops = mem::replace(&mut self.buffered, Vec::new(self.alloc));
        match shared_batch(self.alloc, from, upto, ops) {
            Ok(batch) => {
                self.closed = Some(batch);
                self.events
                    .push_reserved(Event::Accept { caller, seq: upto });
                self.freeze(caller);
                Ok(())
            }
            Err(ops) => {
                self.buffered = ops;
                Err(take_last(&mut self.buffered))
            }
        }
    }

    /// Buffers one operation more, or freezes it with what is buffered where that is then full. An
    /// error hands it back.
    pub(crate) fn accept(&mut self, caller: u32, op: Op) -> Result<(), Op>
        requires closed { self.old.closed ≡ false }
        requires room { length self.old.history + 2 ≤ self.old.places }
        requires most { self.old.frozen_count + length self.old.buffer < MOST_OPERATIONS }
        requires few { self.old.drawn_count ≤ 3 * MOST_OPERATIONS }
        requires few_merges { self.old.lists.merges_open ≤ 3 * MOST_OPERATIONS }
        requires new { is_held self.old.held (self.old.drawn_count + 1) ≡ false }
        ensures ok { OnOk result (self.new ≡ accepting_one caller (plain_op op) self.old) }
        ensures returned { IfErr result (λ o. plain_op o ≡ plain_op op) }
        ensures err { OnErr result (self.new ≡ self.old) }
    {
        if self.buffered.len() + 1 < BATCH_OPERATIONS {
            return self.buffer(caller, op);
        }
        self.freeze_with(caller, op)
    }
}
