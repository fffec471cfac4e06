//! The keys of texts in lines.
ghost use Rattle.std.specs.Prelude.{◌≡◌, ◌<◌, IsTrue, if◌then◌else◌, nat_le, Ok, Err, IfOk, All};
ghost use Rattle.std.specs.Prelude.{length, map};
ghost use Rattle.wire_json.specs.declared.keys.KeyFault.TheVariants.{TooLong};
ghost use Rattle.std.specs.List.{list_any};
ghost use Rattle.sg_analysis.specs.Analysis.{analysis_of};
ghost use Rattle.sg_paths.specs.declared.limits.TheConstants.{MOST_TEXT_BYTES};
ghost use Rattle.wire_json.specs.LineErrors.{keyed_by, input_key, prefix_key, is_refused_as_empty};
ghost use Rattle.wire_json.specs.LineErrors.{is_refused_as_reserved};
ghost use Rattle.wire_json.specs.LineErrors.{is_refused_as_too_long};
ghost use Rattle.wire_json.specs.EntryForms.{plain_entry};

use crate::suggested::Entry;
use sg_analysis::{Analyzer, KeyError};
use sg_base::Key;
use sg_paths::MOST_TEXT_BYTES;
use std::alloc::{AllocError, Global};

/// Why a text has no key.
#[derive(Clone, Copy, Debug, PartialEq, Eq)]
pub enum KeyFault {
    /// A reserved byte in the folded text.
    Reserved,
    /// No token.
    Empty,
    /// More than 1,024 bytes, or a key of more than 255.
    TooLong,
}

/// The key of a text, or the first reason why it has none.
pub type Keyed = Result<Key, KeyFault>;

fn unless_long(text: &str, key: Key) -> Keyed
    ensures value { result
        ≡ if nat_le (length text.now) MOST_TEXT_BYTES then Ok key else Err TooLong }
    ensures same { IfOk result (λ k. k ≡ key) }
{
    if text.len() <= MOST_TEXT_BYTES {
        Ok(key)
    } else {
        Err(KeyFault::TooLong)
    }
}

fn keyed(alloc: Global, analyzer: &Analyzer, text: &str, cut: bool) -> Result<Keyed, AllocError>
    ensures value { IfOk result (λ r.
        r ≡ keyed_by text.now (analysis_of analyzer.now text.now cut)) }
    ensures filled { IfOk result (λ r. IsTrue cut → IfOk r (λ k. 0 < length k)) }
{
    match analyzer.key(alloc, text, cut) {
        Ok(key) => Ok(unless_long(text, key)),
        Err(KeyError::Reserved { .. }) => Ok(Err(KeyFault::Reserved)),
        Err(KeyError::Empty) => Ok(Err(KeyFault::Empty)),
        Err(KeyError::TooLong { .. }) => Ok(Err(KeyFault::TooLong)),
        Err(KeyError::Memory) => Err(AllocError),
    }
}

/// The key of a query's prefix, which is read whole.
pub fn prefix_key(alloc: Global, analyzer: &Analyzer, text: &str) -> Result<Keyed, AllocError>
    ensures { IfOk result (λ k. k ≡ prefix_key analyzer.now text.now) }
{
    keyed(alloc, analyzer, text, false)
}

fn input_key(alloc: Global, analyzer: &Analyzer, text: &str) -> Result<Keyed, AllocError>
    ensures value { IfOk result (λ r. r ≡ input_key analyzer.now text.now) }
    ensures filled { IfOk result (λ r. IfOk r (λ k. 0 < length k)) }
{
    keyed(alloc, analyzer, text, true)
}

/// The keys of entries, in their order.
pub fn input_keys(
    alloc: Global,
    analyzer: &Analyzer,
    entries: &[Entry<'_>],
) -> Result<Vec<Keyed>, AllocError>
    ensures value { IfOk result (λ rs. rs.items
        ≡ map (λ e. input_key analyzer.now e.text) (map plain_entry entries.now)) }
    ensures filled { IfOk result (λ rs. All (λ r. IfOk r (λ k. 0 < length k)) rs.items) }
{
    let mut keys = Vec::with_capacity(alloc, entries.len())?;
    for entry in entries {
        keys.push(input_key(alloc, analyzer, entry.text)?)?;
    }
    Ok(keys)
}

fn is_refused_as_empty(key: &Keyed) -> bool
    ensures { result ≡ is_refused_as_empty key.now }
{
    matches!(key, Err(KeyFault::Empty))
}

fn is_refused_as_reserved(key: &Keyed) -> bool
    ensures { result ≡ is_refused_as_reserved key.now }
{
    matches!(key, Err(KeyFault::Reserved))
}

fn is_refused_as_too_long(key: &Keyed) -> bool
    ensures { result ≡ is_refused_as_too_long key.now }
{
    matches!(key, Err(KeyFault::TooLong))
}

pub fn any_is_empty(keys: &[Keyed]) -> bool
    ensures { result ≡ list_any is_refused_as_empty keys.now }
{
    keys.iter().any(|key| is_refused_as_empty(key))
}

pub fn any_is_reserved(keys: &[Keyed]) -> bool
    ensures { result ≡ list_any is_refused_as_reserved keys.now }
{
    keys.iter().any(|key| is_refused_as_reserved(key))
}

pub fn any_is_too_long(keys: &[Keyed]) -> bool
    ensures { result ≡ list_any is_refused_as_too_long keys.now }
{
    keys.iter().any(|key| is_refused_as_too_long(key))
}
