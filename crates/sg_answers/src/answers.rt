//! The answer to a query, by a scan over all documents.
ghost use Rattle.std.specs.Prelude.{◌≡◌, ◌≤◌, [], ◌∷◌, IfOk, length, filter_map};
ghost use Rattle.sg_paths.specs.declared.limits.TheConstants.{MOST_SUGGESTIONS};
ghost use Rattle.sg_base.specs.Ranking.{rank_cmp};
ghost use Rattle.sg_context.specs.Queries.{IsQuery};
ghost use Rattle.sg_answers.specs.Answers.{document_row, first_rows, AreFirst};
ghost use Rattle.sg_answers.specs.Scans.{given_contexts, greatest_boost, first_entry, sooner};

use crate::numbered_ref::NumberedRef;
use sg_base::{Context, Rank, RankRef};
use sg_context::{Boost, Query, QueryContext, boost_of};
use sg_paths::Suggestion;
use std::alloc::{AllocError, Global};

fn greatest_of_several(asked: &[QueryContext], contexts: &[Context]) -> Option<Boost>
    ensures { result ≡ greatest_boost asked.now contexts.now }
{
    contexts
        .iter()
        .filter_map(|context| boost_of(asked, context.as_str().as_bytes()))
        .max()
}

// The greatest boost of a suggestion with these contexts.
fn greatest_boost(asked: &[QueryContext], contexts: &[Context]) -> Option<Boost>
    ensures { result ≡ greatest_boost asked.now (given_contexts contexts.now) }
{
    if contexts.is_empty() {
        return boost_of(asked, b"");
    }
    greatest_of_several(asked, contexts)
}

// The first by rank of what a suggestion has in its contexts: the one with the greatest boost.
fn candidate_of<'d>(
    query: &Query,
    seq: u64,
    place: u8,
    suggestion: &'d Suggestion,
) -> Option<RankRef<'d>>
    ensures { result ≡ first_entry query.now seq place (suggestion.now ∷ []) }
{
    let key = &suggestion.key;
    if !key.as_slice().starts_with(query.prefix.as_slice()) {
        return None;
    }
    let boost = greatest_boost(query.contexts.items(), suggestion.contexts.items())?;
    Some(RankRef {
        score: u64::from(suggestion.weight) * u64::from(boost),
        key,
        seq,
        place,
    })
}

// Of two that there may be the one that stands first.
fn sooner<'d>(one: Option<RankRef<'d>>, other: Option<RankRef<'d>>) -> Option<RankRef<'d>>
    ensures { result ≡ sooner rank_cmp one.entry other.entry }
{
    match (one, other) {
        (None, other) => other,
        (Some(one), None) => Some(one),
        (Some(one), Some(other)) => Some(one.min(other)),
    }
}

fn first_candidate<'d>(
    query: &Query,
    seq: u64,
    suggestions: &'d [Suggestion],
) -> Option<RankRef<'d>>
    requires { length suggestions.now ≤ MOST_SUGGESTIONS }
    ensures { result ≡ first_entry query.now seq 0 suggestions.now }
{
    let mut first = None;
    let mut place = 0u8;
    for suggestion in suggestions {
        first = sooner(first, candidate_of(query, seq, place, suggestion));
        place += 1;
    }
    first
}

// The row of a document, if one of its suggestions matches.
fn row_of_document<'p>(query: &Query, document: &NumberedRef<'p>) -> Option<RankRef<'p>>
    requires { IsQuery query.now }
    ensures { result ≡ document_row query.now document.now }
{
    let found = document.document;
    first_candidate(query, document.seq, found.suggestions.items())
}

fn rows_of<'p>(
    alloc: Global,
    query: &Query,
    documents: &[NumberedRef<'p>],
) -> Result<Vec<RankRef<'p>>, AllocError>
    requires { IsQuery query.now }
    ensures { IfOk result (λ rows. rows.items
        ≡ filter_map (document_row query.now) documents.now) }
{
    documents
        .iter()
        .filter_map(|document| row_of_document(query, document))
        .collect(alloc)
}

fn ranks_of(alloc: Global, rows: &[RankRef<'_>]) -> Result<Vec<Rank>, AllocError>
    ensures { IfOk result (λ ranks. ranks.items ≡ rows.now) }
{
    let mut ranks = Vec::with_capacity(alloc, rows.len())?;
    for row in rows {
        ranks.push(row.to_rank()?)?;
    }
    Ok(ranks)
}

/// The first rows of the answer, as many as the query asks for. Looks at each suggestion of each
/// document once and, where its key matches, at each of its contexts beside each of the query's;
/// sorts what matched, one row a document, and copies the keys of the rows that it answers alone.
pub fn first_rows(
    alloc: Global,
    query: &Query,
    documents: &[NumberedRef<'_>],
) -> Result<Vec<Rank>, AllocError>
    ensures value { IfOk result (λ rows. rows.items ≡ first_rows query.now documents.now) }
    ensures first { IfOk result (λ rows. AreFirst query.now.k
        (filter_map (document_row query.now) documents.now) rows.items) }
{
    // A field is read first: with it the query's limits are known, which the rows ask for.
    let most = query.k as usize;
    let mut rows = rows_of(alloc, query, documents)?;
    rows.sort()?;
    rows.truncate(most);
    ranks_of(alloc, rows.as_slice())
}
