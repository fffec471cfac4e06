//! Steps over the bytes of documents that are known to stand there: nothing is tested again.
ghost use Rattle.std.specs.Prelude.{◌≡◌, ◌≤◌, ◌<◌, ◌++◌, ◌∷◌, ℕ, List, length, drop};
ghost use Rattle.std.specs.Int.{from_be_bytes, to_be_bytes, w16, w64};
ghost use Rattle.std.specs.List.{flat_map};
ghost use Rattle.sg_paths.specs.Documents.{PlainSuggestion};
ghost use Rattle.sg_paths.specs.Operations.{PlainNumbered};
ghost use Rattle.seg_bytes.specs.DocumentBytes.{short_bytes, suggestion_bytes};
ghost use Rattle.seg_bytes.specs.Packed.{BeginWith, BeginsWith, behind_id, behind_key};

/// Bytes, and those behind them.
#[derive(Clone, Copy, Debug)]
pub(crate) struct Split<'b> {
    pub(crate) front: &'b [u8],
    pub(crate) rest: &'b [u8],
}

/// What a suggestion begins with.
#[derive(Clone, Copy, Debug)]
pub(crate) struct SuggestionParts<'b> {
    pub(crate) text: &'b [u8],
    pub(crate) key: &'b [u8],
    /// From the weight on.
    pub(crate) rest: &'b [u8],
}

fn first_u16(bytes: &[u8]) -> u16
    requires { 2 ≤ length bytes.now }
    ensures { result ≡ from_be_bytes w16 bytes.now }
{
    u16::from_be_bytes([bytes[0], bytes[1]])
}

fn first_u64(bytes: &[u8]) -> u64
    requires { 8 ≤ length bytes.now }
    ensures { result ≡ from_be_bytes w64 bytes.now }
{
    u64::from_be_bytes([
        bytes[0], bytes[1], bytes[2], bytes[3], bytes[4], bytes[5], bytes[6], bytes[7],
    ])
}

/// The bytes from an offset on.
pub(crate) fn behind(bytes: &[u8], count: usize) -> &[u8]
    requires { count ≤ length bytes.now }
    ensures { result.now ≡ drop count bytes.entry.now }
{
    &bytes[count..]
}

/// So many bytes, and those behind them.
fn split_at(bytes: &[u8], count: usize) -> Split<'_>
    requires { (part : List ℕ) × (rest : List ℕ)
        × (length part ≡ count) × (bytes.now ≡ part ++ rest) }
    ensures front { (part rest : List ℕ) → length part ≡ count → bytes.entry.now ≡ part ++ rest
        → result.front.now ≡ part }
    ensures rest { (part rest : List ℕ) → length part ≡ count → bytes.entry.now ≡ part ++ rest
        → result.rest.now ≡ rest }
{
    let (front, rest) = bytes.split_at(count);
    Split { front, rest }
}

/// The bytes behind their length, which takes one byte.
pub(crate) fn short(bytes: &[u8]) -> Split<'_>
    requires { (text : List ℕ) × (rest : List ℕ) × (bytes.now ≡ short_bytes text ++ rest) }
    ensures front { (text rest : List ℕ) → bytes.entry.now ≡ short_bytes text ++ rest
        → result.front.now ≡ text }
    ensures rest { (text rest : List ℕ) → bytes.entry.now ≡ short_bytes text ++ rest
        → result.rest.now ≡ rest }
{
    let length = bytes[0] as usize;
    split_at(behind(bytes, 1), length)
}

/// The bytes behind their length, which takes two bytes.
fn long(bytes: &[u8]) -> Split<'_>
    requires { (text : List ℕ) × (rest : List ℕ) × (length text < 65536)
        × (bytes.now ≡ to_be_bytes w16 (length text) ++ (text ++ rest)) }
    ensures front { (text rest : List ℕ) → length text < 65536
        → bytes.entry.now ≡ to_be_bytes w16 (length text) ++ (text ++ rest)
        → result.front.now ≡ text }
    ensures rest { (text rest : List ℕ) → length text < 65536
        → bytes.entry.now ≡ to_be_bytes w16 (length text) ++ (text ++ rest)
        → result.rest.now ≡ rest }
{
    let length = first_u16(bytes) as usize;
    split_at(behind(bytes, 2), length)
}

/// The bytes behind so many contexts.
fn behind_contexts(bytes: &[u8], count: u8) -> &[u8]
    requires { (cs : List (List ℕ)) × (rest : List ℕ)
        × (length cs ≡ count) × (bytes.now ≡ flat_map short_bytes cs ++ rest) }
    ensures { (cs : List (List ℕ)) (rest : List ℕ)
        → length cs ≡ count → bytes.entry.now ≡ flat_map short_bytes cs ++ rest
        → result.now ≡ rest }
{
    let mut rest = bytes;
    for _ in 0..count {
        rest = short(rest).rest;
    }
    rest
}

/// What a suggestion begins with.
pub(crate) fn suggestion_parts(bytes: &[u8]) -> SuggestionParts<'_>
    requires { (s : PlainSuggestion) × (ss : List PlainSuggestion) × (rest : List ℕ)
        × BeginWith (s ∷ ss) rest bytes.now }
    ensures text { (s : PlainSuggestion) (ss : List PlainSuggestion) (rest : List ℕ)
        → BeginWith (s ∷ ss) rest bytes.entry.now → result.text.now ≡ s.text }
    ensures key { (s : PlainSuggestion) (ss : List PlainSuggestion) (rest : List ℕ)
        → BeginWith (s ∷ ss) rest bytes.entry.now → result.key.now ≡ s.key }
    ensures rest { (s : PlainSuggestion) (ss : List PlainSuggestion) (rest : List ℕ)
        → BeginWith (s ∷ ss) rest bytes.entry.now
        → result.rest.now ≡ behind_key s (flat_map suggestion_bytes ss ++ rest) }
{
    let text = long(bytes);
    let key = short(text.rest);
    SuggestionParts {
        text: text.front,
        key: key.front,
        rest: key.rest,
    }
}

/// The bytes behind a suggestion.
fn behind_suggestion(bytes: &[u8]) -> &[u8]
    requires { (s : PlainSuggestion) × (ss : List PlainSuggestion) × (rest : List ℕ)
        × BeginWith (s ∷ ss) rest bytes.now }
    ensures { (s : PlainSuggestion) (ss : List PlainSuggestion) (rest : List ℕ)
        → BeginWith (s ∷ ss) rest bytes.entry.now → BeginWith ss rest result.now }
{
    let parts = suggestion_parts(bytes);
    let count = parts.rest[4];
    behind_contexts(behind(parts.rest, 5), count)
}

/// The bytes behind so many suggestions.
pub(crate) fn behind_suggestions(bytes: &[u8], count: u8) -> &[u8]
    requires { (ss : List PlainSuggestion) × (rest : List ℕ)
        × (count ≤ length ss) × BeginWith ss rest bytes.now }
    ensures { (ss : List PlainSuggestion) (rest : List ℕ)
        → count ≤ length ss → BeginWith ss rest bytes.entry.now
        → BeginWith (drop count ss) rest result.now }
{
    let mut rest = bytes;
    for _ in 0..count {
        rest = behind_suggestion(rest);
    }
    rest
}

/// The number of a document.
pub(crate) fn seq_in(bytes: &[u8]) -> u64
    requires { (d : PlainNumbered) × (rest : List ℕ) × BeginsWith d rest bytes.now }
    ensures { (d : PlainNumbered) (rest : List ℕ) → BeginsWith d rest bytes.now → result ≡ d.seq }
{
    first_u64(bytes)
}

/// The id of a document, and what stands behind it.
pub(crate) fn id_in(bytes: &[u8]) -> Split<'_>
    requires { (d : PlainNumbered) × (rest : List ℕ) × BeginsWith d rest bytes.now }
    ensures front { (d : PlainNumbered) (rest : List ℕ) → BeginsWith d rest bytes.entry.now
        → result.front.now ≡ d.document.id }
    ensures rest { (d : PlainNumbered) (rest : List ℕ) → BeginsWith d rest bytes.entry.now
        → result.rest.now ≡ behind_id d rest }
{
    short(behind(bytes, 8))
}

/// The suggestions of a document.
pub(crate) fn suggestions_in(bytes: &[u8]) -> &[u8]
    requires { (d : PlainNumbered) × (rest : List ℕ) × BeginsWith d rest bytes.now }
    ensures { (d : PlainNumbered) (rest : List ℕ) → BeginsWith d rest bytes.entry.now
        → BeginWith d.document.suggestions rest result.now }
{
    let id = id_in(bytes);
    behind(id.rest, 1)
}
