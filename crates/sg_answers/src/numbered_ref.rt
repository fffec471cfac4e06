//! Documents with their numbers, borrowed.
ghost use Rattle.std.specs.Prelude.{◌≡◌, ◌<◌, ◌≤◌, ◌==◌, find, slice_get};
ghost use Rattle.std.specs.Option.{option_copied};
ghost use Rattle.std.specs.List.Sorted.{IsNonDecreasingBy, IsPartitionPoint};
ghost use Rattle.sg_answers.specs.Scans.{if_numbered};

use sg_paths::Document;
use std::marker::Model;

/// A document with the number of the operation that added it.
#[derive(Drop)]
pub struct NumberedRef<'p> {
    /// From 1.
    pub seq: u64,
    pub document: &'p Document,
}

impl<'p> Model for NumberedRef<'p> {
    ghost use Rattle.sg_paths.specs.Operations.{PlainNumbered};

    ghost Value = { PlainNumbered };

    ghost view = { λ d. record { seq = d.seq; document = d.document.now } };
}

// How many documents have a lesser number.
fn place_of(documents: &[NumberedRef<'_>], seq: u64) -> usize
    requires { IsNonDecreasingBy (λ d. d.seq) documents.now }
    ensures { IsPartitionPoint (λ d. d.seq < seq) (λ d. seq ≤ d.seq) documents.now result }
{
    documents.partition_point(|document| document.seq < seq)
}

fn document_at<'d, 'p>(
    documents: &'d [NumberedRef<'p>],
    at: usize,
    seq: u64,
) -> Option<&'d NumberedRef<'p>>
    ensures { option_copied result ≡ if_numbered seq (slice_get documents.now at) }
{
    let document = documents.get(at)?;
    if document.seq == seq {
        Some(document)
    } else {
        None
    }
}

/// The first document with a number, found by halving.
pub fn document_with<'d, 'p>(
    documents: &'d [NumberedRef<'p>],
    seq: u64,
) -> Option<&'d NumberedRef<'p>>
    requires rising { IsNonDecreasingBy (λ d. d.seq) documents.now }
    ensures { option_copied result ≡ find (λ d. d.seq == seq) documents.now }
{
    document_at(documents, place_of(documents, seq), seq)
}
