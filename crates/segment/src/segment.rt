//! Segments.
ghost use Rattle.std.specs.Prelude.{◌≡◌, ◌≤◌, ◌+◌, IfErr, IfOk, length, map};
ghost use Rattle.std.specs.List.{All, AllByRecursion};
ghost use Rattle.sg_paths.specs.declared.limits.TheConstants.{MOST_SEGMENT_DOCUMENTS};
ghost use Rattle.sg_paths.specs.declared.limits.TheConstants.{MOST_SEGMENT_PATHS};
ghost use Rattle.sg_paths.specs.AllPaths.{all_paths, path_bytes, path_entries};
ghost use Rattle.sg_paths.specs.PathLaws.{IsLegal, Rises};
ghost use Rattle.sg_paths.specs.Operations.{documents_from};
ghost use Rattle.fst_code.specs.Bytes.{nodes_of};
ghost use Rattle.fst_code.specs.Lists.{list_of, IsCanonical};
ghost use Rattle.fst_code.specs.Shapes.{IsBytes};
ghost use Rattle.fst_code.specs.Transducers.{IsTransducer};
ghost use Rattle.fst_walk.specs.Starts.{AllHaveContexts};
ghost use Rattle.segment.specs.Faults.{Accepts, Refuses};
ghost use Rattle.segment.specs.declared.limits.TheConstants.{MOST_BATCH_OPERATIONS};
ghost use Rattle.segment.specs.Laws.{IsNumbered};
ghost use Rattle.segment.specs.Represents.{IsTextOf, NumbersRise, path_tails};
ghost use Rattle.segment.specs.SegmentBytes.{IsWritten};

use crate::building::transducer_of;
use crate::checking::checked;
use crate::documents::documents_of;
use crate::laws::what_was_written_is_accepted;
use crate::writing::written;
use fst_code::{CodeError, Transducer};
use seg_table::SegTable;
use sg_base::Bytes;
use sg_paths::{Batch, MOST_SEGMENT_PATHS, Numbered, Path, paths_at_most, paths_of};
use std::alloc::{AllocError, Global};
use std::marker::Model;

/// Documents by rising numbers, with the transducer of their paths. Contracts see their list.
#[derive(Drop)]
pub struct Segment {
    alloc: Global,
    table: SegTable,
    transducer: Transducer,
}

impl Model for Segment {
    ghost use Rattle.std.specs.Prelude.{List};
    ghost use Rattle.sg_paths.specs.Operations.{PlainNumbered};
    ghost use Rattle.segment.specs.Represents.{Represents};

    ghost Value = { List PlainNumbered };

    ghost view = { λ s. s.table };

    ghost invariant = { λ s. Represents s.table s.transducer };
}

impl Segment {
    /// Takes the documents over; a refusal drops them. Sorts their paths, n log n comparisons of n.
    pub fn of_docs(alloc: Global, docs: Vec<Numbered>) -> Result<Segment, AllocError>
        requires rise { NumbersRise docs.items }
        requires documents { length docs.items ≤ MOST_SEGMENT_DOCUMENTS }
        requires paths { length (path_entries 0 docs.items) ≤ MOST_SEGMENT_PATHS }
        ensures { IfOk result (λ s. s ≡ docs.items) }
    {
        let paths = paths_of(alloc, docs.as_slice())?;
        Segment::of_paths(alloc, docs, paths.as_slice())
    }

    /// The same of documents whose paths are known.
    pub(crate) fn of_paths(
        alloc: Global,
        docs: Vec<Numbered>,
        paths: &[Path],
    ) -> Result<Segment, AllocError>
        requires rise { NumbersRise docs.items }
        requires documents { length docs.items ≤ MOST_SEGMENT_DOCUMENTS }
        requires paths { paths.now ≡ all_paths docs.items }
        requires legal { All (λ p. IsLegal p.entry) paths.now }
        requires rises { Rises (map path_bytes paths.now) }
        requires many { length paths.now ≤ MOST_SEGMENT_PATHS }
        ensures { IfOk result (λ s. s ≡ docs.items) }
    {
        let transducer = transducer_of(alloc, paths)?;
        let table = SegTable::of(docs, paths)?;
        Ok(Segment {
            alloc,
            table,
            transducer,
        })
    }

    /// The documents that the operations of a batch add, deleted ones too, copied.
    pub fn of_batch(alloc: Global, batch: &Batch) -> Result<Segment, AllocError>
        requires some { 1 ≤ length batch.now.operations }
        requires most { length batch.now.operations ≤ MOST_BATCH_OPERATIONS }
        requires from { 1 ≤ batch.now.from }
        requires upto { batch.now.upto + 1 ≡ batch.now.from + length batch.now.operations }
        ensures { IfOk result (λ s. s ≡ documents_from batch.now.from batch.now.operations) }
    {
        prove!(batch.from <= batch.upto);
        let docs = documents_of(alloc, batch.ops.items(), batch.from)?;
        prove!(paths_at_most(docs.as_slice()) <= MOST_SEGMENT_PATHS);
        Segment::of_docs(alloc, docs)
    }

    /// The bytes, in room that is taken at once.
    pub fn write(&self) -> Result<Bytes, AllocError>
        ensures { IfOk result (λ b. IsWritten self.now b.items) }
    {
        Ok(Bytes::from_vec(written(self.alloc, &self.table, self.text())?))
    }

    /// Takes over bytes that break no rule, and else says which is broken first, and where. Memory
    /// in proportion to the bytes, whatever their counts say.
    pub fn check(alloc: Global, bytes: Bytes) -> Result<Segment, CodeError>
        ensures ok { IfOk result (Accepts bytes.items) }
        ensures err { IfErr result (Refuses bytes.items) }
    {
        checked(alloc, bytes.as_slice())
    }

    /// What `check` answers of the bytes that `write` gives: the same documents, or want of memory.
    pub fn read_back(&self) -> Result<Segment, AllocError>
        requires { AllByRecursion IsNumbered self.now }
        ensures { IfOk result (λ s. s ≡ self.now) }
    {
        let bytes = self.write()?;
        let _ = bytes.as_slice();
        let _ = self.table.bytes();
        what_was_written_is_accepted();
        match Segment::check(self.alloc, bytes) {
            Ok(segment) => Ok(segment),
            Err(CodeError::Bad { .. }) => unreachable!(),
            Err(CodeError::Memory) => Err(AllocError),
        }
    }

    /// The bytes of the transducer.
    pub(crate) fn text(&self) -> &[u8]
        ensures { IsTextOf self.now result.now }
    {
        known_bytes(self.transducer.bytes())
    }

    /// The documents with the owners of their paths.
    pub fn table(&self) -> &SegTable
        ensures documents { result.now ≡ self.now }
        ensures rise { NumbersRise self.now }
        ensures legal { All (λ p. IsLegal p.entry) (all_paths self.now) }
        ensures most { length (all_paths self.now) ≤ MOST_SEGMENT_PATHS }
    {
        &self.table
    }

    /// The paths of the documents, by ordinal, with their costs.
    pub fn transducer(&self) -> &Transducer
        ensures maps { list_of result.now ≡ path_tails self.now }
        ensures canonical { IsCanonical (nodes_of result.now) }
        ensures sound { IsTransducer (nodes_of result.now) }
        ensures contexts { AllHaveContexts (list_of result.now) }
    {
        let _ = self.transducer.root();
        &self.transducer
    }
}

/// The same bytes.
fn known_bytes(bytes: &[u8]) -> &[u8]
    ensures same { result.now ≡ bytes.now }
    ensures bytes { IsBytes bytes.now }
{
    bytes
}
