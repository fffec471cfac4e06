//! The table of a segment.
ghost use Rattle.std.specs.Prelude.{◌≡◌, ◌≤◌, ◌<◌, ◌+◌, ◌-◌, ◌*◌, ℕ, IfOk, length, get_or};
ghost use Rattle.std.specs.Prelude.{bytes_eq, take, drop, map};
ghost use Rattle.std.specs.List.{AllByRecursion};
ghost use Rattle.sg_paths.specs.declared.limits.TheConstants.{MOST_SEGMENT_DOCUMENTS};
ghost use Rattle.sg_paths.specs.declared.limits.TheConstants.{MOST_SEGMENT_PATHS};
ghost use Rattle.sg_paths.specs.Documents.{PlainSuggestion};
ghost use Rattle.sg_paths.specs.Operations.{PlainNumbered};
ghost use Rattle.seg_bytes.specs.DocumentBytes.{documents_bytes};
ghost use Rattle.seg_bytes.specs.Laws.{IsWritable};
ghost use Rattle.sg_paths.specs.AllPaths.{FullPath, all_paths};
ghost use Rattle.seg_table.specs.Owners.{most_paths, owner_of};
ghost use Rattle.seg_table.specs.Ids.{id_index, places_from};

use crate::counting::most_owned;
use crate::finding::{Reach, count_within};
use crate::indexing::id_index;
use crate::owner::{Owner, owners_of};
use crate::run::IdRun;
use seg_bytes::PackedDocuments;
use sg_base::Steps;
use sg_paths::{Numbered, Path};
use std::alloc::AllocError;
use std::marker::Model;

/// The documents of a segment by place, by path and by id. Contracts see their list.
#[derive(Debug, Drop)]
pub struct SegTable {
    docs: PackedDocuments,
    /// By ordinal.
    owners: Vec<Owner>,
    /// Places by id, then by place.
    ids: Vec<u32>,
    /// The greatest number of paths of one document.
    most: u32,
}

impl Model for SegTable {
    ghost use Rattle.std.specs.Prelude.{List};
    ghost use Rattle.sg_paths.specs.Operations.{PlainNumbered};
    ghost use Rattle.seg_table.specs.Table.{IsTable};

    ghost Value = { List PlainNumbered };

    ghost view = { λ t. t.docs };

    ghost invariant = { λ t. IsTable t.docs t.owners.items t.ids.items t.most };
}

impl SegTable {
    /// Over the paths that `paths_of` gives for the documents: n log n comparisons of ids. Keeps
    /// their bytes, and drops the documents, on a refusal too.
    pub fn of(docs: Vec<Numbered>, paths: &[Path]) -> Result<SegTable, AllocError>
        requires few { length docs.items ≤ MOST_SEGMENT_DOCUMENTS }
        requires many { length paths.now ≤ MOST_SEGMENT_PATHS }
        requires paths { paths.now ≡ all_paths docs.items }
        ensures { IfOk result (λ t. t ≡ docs.items) }
    {
        let alloc = *docs.allocator();
        let owners = owners_of(alloc, paths)?;
        let ids = id_index(alloc, docs.as_slice())?;
        let most = most_owned(alloc, docs.len(), owners.as_slice())?;
        let packed = PackedDocuments::of(alloc, docs.as_slice())?;
        Ok(SegTable {
            docs: packed,
            owners,
            ids,
            most,
        })
    }

    /// Whose the path with an ordinal is.
    pub fn owner<L>(&self, ordinal: u32, steps: &mut Steps<L>) -> Owner
        requires { ordinal < length (all_paths self.now) }
        ensures owner { (p : FullPath) → result ≡ owner_of (get_or (all_paths self.now) ordinal p) }
        ensures ticks { steps.new ≡ steps.old + 1 }
    {
        steps.tick();
        self.owners[ordinal as usize]
    }

    /// The number of the document at a place.
    pub fn seq(&self, doc: u32) -> u64
        requires { doc < length self.now }
        ensures { (d : PlainNumbered) → result ≡ (get_or self.now doc d).seq }
    {
        self.docs.seq(doc)
    }

    /// The id of the document at a place. Whether it is UTF-8 is looked at again.
    pub fn id(&self, doc: u32) -> &str
        requires { doc < length self.now }
        ensures { (d : PlainNumbered) → result.now ≡ (get_or self.entry.now doc d).document.id }
    {
        self.docs.id(doc)
    }

    /// The text of the suggestion at a place of the document at a place, behind a step over each
    /// suggestion before it. Whether it is UTF-8 is looked at again.
    pub fn text(&self, doc: u32, place: u8) -> &str
        requires document { doc < length self.now }
        requires suggestion { (d : PlainNumbered)
            → place < length (get_or self.now doc d).document.suggestions }
        ensures { (d : PlainNumbered) (s : PlainSuggestion) → result.now
            ≡ (get_or (get_or self.entry.now doc d).document.suggestions place s).text }
    {
        self.docs.text(doc, place)
    }

    /// Its key, behind a step over each suggestion before it.
    pub fn key(&self, doc: u32, place: u8) -> &[u8]
        requires document { doc < length self.now }
        requires suggestion { (d : PlainNumbered)
            → place < length (get_or self.now doc d).document.suggestions }
        ensures { (d : PlainNumbered) (s : PlainSuggestion) → result.now
            ≡ (get_or (get_or self.entry.now doc d).document.suggestions place s).key }
    {
        self.docs.key(doc, place)
    }

    /// A copy of the document at a place.
    pub fn document(&self, doc: u32) -> Result<Numbered, AllocError>
        requires { doc < length self.now }
        ensures { IfOk result (λ n. (d : PlainNumbered) → n ≡ get_or self.now doc d) }
    {
        self.docs.document(doc)
    }

    /// The bytes of all documents, by place, which can hold them.
    pub fn bytes(&self) -> &[u8]
        ensures value { result.now ≡ documents_bytes self.entry.now }
        ensures most { length result.now ≤ 65536 * length self.now }
        ensures writable { AllByRecursion IsWritable self.now }
    {
        self.docs.bytes()
    }

    /// The owners of all paths, by ordinal, for who writes the table; a search asks for one by
    /// `owner`, which is a step.
    pub fn owners(&self) -> &[Owner]
        ensures { result.now ≡ map owner_of (all_paths self.now) }
    {
        self.owners.as_slice()
    }

    /// The places of the documents by id, then by place.
    pub fn ids(&self) -> &[u32]
        ensures { result.now ≡ id_index self.now }
    {
        self.ids.as_slice()
    }

    /// How many documents there are.
    pub fn len(&self) -> u32
        ensures value { result ≡ length self.now }
        ensures most { result ≤ MOST_SEGMENT_DOCUMENTS }
    {
        self.docs.len() as u32
    }

    /// The greatest number of paths of one document.
    pub fn most_paths(&self) -> u32
        ensures { result ≡ most_paths self.now }
    {
        self.most
    }

    /// The places of the documents with an id, rising: two halvings of the documents.
    pub fn with_id(&self, id: &str) -> IdRun<'_>
        ensures { result ≡ places_from 0 (λ d. bytes_eq d.document.id id.now) self.now }
    {
        let docs = &self.docs;
        let ids = self.ids.as_slice();
        let low = count_within(docs, ids, Reach::Before, id);
        let high = count_within(docs, ids, Reach::Through, id);
        IdRun::of(&ids[low..high])
    }
}
