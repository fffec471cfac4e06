//! Documents that are kept as their bytes.
ghost use Rattle.std.specs.Prelude.{◌≡◌, ◌≤◌, ◌<◌, ◌+◌, ◌*◌, IfOk, true, length, get_or, drop};
ghost use Rattle.std.specs.List.{AllByRecursion};
ghost use Rattle.std.specs.Str.{is_utf8};
ghost use Rattle.sg_paths.specs.Documents.{PlainSuggestion};
ghost use Rattle.sg_paths.specs.Operations.{PlainNumbered};
ghost use Rattle.sg_paths.specs.declared.limits.TheConstants.{MOST_SEGMENT_DOCUMENTS};
ghost use Rattle.seg_bytes.specs.DocumentBytes.{documents_bytes};
ghost use Rattle.seg_bytes.specs.Laws.{IsWritable};
ghost use Rattle.seg_bytes.specs.Packed.{BeginsWith, starts_from};

use crate::error::ReadError;
use crate::lengths::document_len;
use crate::pushing::push;
use crate::reading::document_at;
use crate::stepping::{
    SuggestionParts, behind, behind_suggestions, id_in, seq_in, suggestion_parts, suggestions_in,
};
use crate::texts::known_text;
use crate::writing::put_documents;
use sg_paths::Numbered;
use std::alloc::{AllocError, Global};
use std::marker::Model;

/// Documents as the format's bytes, with the offset at which each begins: nothing else is taken for
/// a document. Contracts see their list.
#[derive(Debug, Drop)]
pub struct PackedDocuments {
    bytes: Vec<u8>,
    starts: Vec<usize>,
}

impl Model for PackedDocuments {
    ghost use Rattle.std.specs.Prelude.{List, length};
    ghost use Rattle.sg_paths.specs.Operations.{PlainNumbered};
    ghost use Rattle.seg_bytes.specs.Packed.{IsPacked, documents_in};

    ghost Value = { List PlainNumbered };

    ghost view = { λ p. documents_in (length p.starts.items) p.bytes.items };

    ghost invariant = { λ p. IsPacked (documents_in (length p.starts.items) p.bytes.items)
        p.bytes.items p.starts.items };
}

/// Where each document begins.
fn starts_of(alloc: Global, docs: &[Numbered]) -> Result<Vec<usize>, AllocError>
    requires { length docs.now ≤ MOST_SEGMENT_DOCUMENTS }
    ensures value { IfOk result (λ starts. starts.items ≡ starts_from 0 docs.now) }
    ensures most { IfOk result
        (λ _. length (documents_bytes docs.now) ≤ 65536 * length docs.now) }
    ensures writable { IfOk result (λ _. AllByRecursion IsWritable docs.now) }
{
    let mut starts = Vec::with_capacity(alloc, docs.len())?;
    let mut end = 0;
    for numbered in docs {
        push(&mut starts, end)?;
        end += document_len(numbered);
    }
    Ok(starts)
}

fn start_at(starts: &[usize], doc: u32) -> usize
    requires { doc < length starts.now }
    ensures { result ≡ get_or starts.now doc 0 }
{
    starts[doc as usize]
}

impl PackedDocuments {
    /// Copies documents, in room that is taken at once.
    pub fn of(alloc: Global, docs: &[Numbered]) -> Result<PackedDocuments, AllocError>
        requires { length docs.now ≤ MOST_SEGMENT_DOCUMENTS }
        ensures { IfOk result (λ p. p ≡ docs.now) }
    {
        let starts = starts_of(alloc, docs)?;
        let mut bytes = Vec::new(alloc);
        put_documents(&mut bytes, docs)?;
        Ok(PackedDocuments { bytes, starts })
    }

    /// How many documents there are.
    pub fn len(&self) -> usize
        ensures value { result ≡ length self.now }
        ensures most { result ≤ MOST_SEGMENT_DOCUMENTS }
    {
        self.starts.len()
    }

    /// The bytes of all documents.
    pub fn bytes(&self) -> &[u8]
        ensures value { result.now ≡ documents_bytes self.entry.now }
        ensures most { length result.now ≤ 65536 * length self.now }
        ensures writable { AllByRecursion IsWritable self.now }
    {
        self.bytes.as_slice()
    }

    /// The bytes from the document at a place on.
    fn bytes_from(&self, doc: u32) -> &[u8]
        requires { doc < length self.now }
        ensures { (d : PlainNumbered) → BeginsWith (get_or self.entry.now doc d)
            (documents_bytes (drop (doc + 1) self.entry.now)) result.now }
    {
        behind(self.bytes.as_slice(), start_at(self.starts.as_slice(), doc))
    }

    /// The number of the document at a place.
    pub fn seq(&self, doc: u32) -> u64
        requires { doc < length self.now }
        ensures { (d : PlainNumbered) → result ≡ (get_or self.now doc d).seq }
    {
        seq_in(self.bytes_from(doc))
    }

    /// The bytes of the id of the document at a place.
    pub fn id_bytes(&self, doc: u32) -> &[u8]
        requires { doc < length self.now }
        ensures value { (d : PlainNumbered)
            → result.now ≡ (get_or self.entry.now doc d).document.id }
        ensures utf8 { is_utf8 result.now ≡ true }
    {
        id_in(self.bytes_from(doc)).front
    }

    /// The id of the document at a place; it is gone through once.
    pub fn id(&self, doc: u32) -> &str
        requires { doc < length self.now }
        ensures { (d : PlainNumbered) → result.now ≡ (get_or self.entry.now doc d).document.id }
    {
        known_text(self.id_bytes(doc))
    }

    /// What the suggestion at a place of the document at a place begins with.
    fn parts(&self, doc: u32, place: u8) -> SuggestionParts<'_>
        requires document { doc < length self.now }
        requires suggestion { (d : PlainNumbered)
            → place < length (get_or self.now doc d).document.suggestions }
        ensures text { (d : PlainNumbered) (s : PlainSuggestion) → result.text.now
            ≡ (get_or (get_or self.entry.now doc d).document.suggestions place s).text }
        ensures key { (d : PlainNumbered) (s : PlainSuggestion) → result.key.now
            ≡ (get_or (get_or self.entry.now doc d).document.suggestions place s).key }
        ensures utf8 { is_utf8 result.text.now ≡ true }
    {
        let suggestions = suggestions_in(self.bytes_from(doc));
        suggestion_parts(behind_suggestions(suggestions, place))
    }

    /// The text of the suggestion at a place of the document at a place, behind a step over each
    /// suggestion before it; it is gone through once.
    pub fn text(&self, doc: u32, place: u8) -> &str
        requires document { doc < length self.now }
        requires suggestion { (d : PlainNumbered)
            → place < length (get_or self.now doc d).document.suggestions }
        ensures { (d : PlainNumbered) (s : PlainSuggestion) → result.now
            ≡ (get_or (get_or self.entry.now doc d).document.suggestions place s).text }
    {
        known_text(self.parts(doc, place).text)
    }

    /// The key of the suggestion at a place of the document at a place, behind a step over each
    /// suggestion before it.
    pub fn key(&self, doc: u32, place: u8) -> &[u8]
        requires document { doc < length self.now }
        requires suggestion { (d : PlainNumbered)
            → place < length (get_or self.now doc d).document.suggestions }
        ensures { (d : PlainNumbered) (s : PlainSuggestion) → result.now
            ≡ (get_or (get_or self.entry.now doc d).document.suggestions place s).key }
    {
        self.parts(doc, place).key
    }

    /// A copy of the document at a place.
    pub fn document(&self, doc: u32) -> Result<Numbered, AllocError>
        requires { doc < length self.now }
        ensures { IfOk result (λ n. (d : PlainNumbered) → n ≡ get_or self.now doc d) }
    {
        match document_at(*self.bytes.allocator(), self.bytes_from(doc), 0) {
            Ok(field) => Ok(field.value),
            Err(ReadError::Bad { .. }) => unreachable!(),
            Err(ReadError::Memory) => Err(AllocError),
        }
    }
}
