//! Keys of texts, and why a text has none.
ghost use Rattle.std.specs.Prelude.{◌≡◌, ◌<◌, true, IsTrue, IfOk, chars, length};
ghost use Rattle.std.specs.List.{list_all, position_from};
ghost use Rattle.sg_base.specs.Gives.{Gives};
ghost use Rattle.sg_base.specs.Keys.{is_key_byte};
ghost use Rattle.sg_base.specs.ReservedBytes.{is_reserved};
ghost use Rattle.sg_analysis.specs.Analysis.{analysis_of, analysis_of_folded, analysis_of_tokens};
ghost use Rattle.sg_analysis.specs.Analysis.{analysis_of_joined, tokens, is_memory};
ghost use Rattle.sg_analysis.specs.declared.analyzer.KeyError.TheVariants.{Memory};

use crate::folding::folded_text;
use crate::joining::joined_tokens;
use sg_base::{Bytes, Key, first_reserved, saturated_u32};
use std::alloc::{AllocError, Global};
use std::error::Error;
use std::fmt;

/// Makes keys of texts.
#[derive(Debug, Drop)]
pub struct Analyzer {
    /// Whether a separator stands between two tokens of a key.
    pub separators: bool,
}

/// Why a text has no key.
#[derive(Clone, Copy, Debug, PartialEq, Eq)]
pub enum KeyError {
    /// The first reserved byte of the folded text, with its offset there.
    Reserved { byte: u8, at: u32 },
    /// With the cut: no token.
    Empty,
    /// More than 255 bytes, once the tokens are joined.
    TooLong { bytes: u32 },
    Memory,
}

impl fmt::Display for KeyError {
    fn fmt<W: fmt::Write>(&self, f: &mut fmt::Formatter<W>) -> fmt::Result {
        match self {
            KeyError::Reserved { byte, at } => {
                write!(f, "the folded text has the reserved byte {byte} at {at}")
            }
            KeyError::Empty => write!(f, "the text has no token"),
            KeyError::TooLong { bytes } => write!(f, "the key has {bytes} bytes"),
            KeyError::Memory => write!(f, "out of memory"),
        }
    }
}

impl Error for KeyError {}

impl From<AllocError> for KeyError {
    ghost from_gives = { λ _ e. e ≡ Memory };

    fn from(_error: AllocError) -> KeyError {
        KeyError::Memory
    }
}

// The bytes as a key, unless there are too many.
fn key_of_joined(joined: Vec<u8>) -> Result<Key, KeyError>
    requires { list_all is_key_byte joined.items ≡ true }
    ensures given { Gives is_memory result (analysis_of_joined joined.items) }
    ensures same { IfOk result (λ k. k ≡ joined.items) }
{
    let bytes = joined.len();
    match Key::of(Bytes::from_vec(joined)) {
        Ok(key) => Ok(key),
        Err(_) => Err(KeyError::TooLong {
            bytes: saturated_u32(bytes),
        }),
    }
}

// The key of a folded text without a reserved byte.
fn key_of_tokens(alloc: Global, folded: &str, separators: bool, cut: bool) -> Result<Key, KeyError>
    requires { position_from is_reserved 0 folded.now ≡ None }
    ensures given { Gives is_memory result
        (analysis_of_tokens separators (tokens (chars folded.now)) cut) }
    ensures filled { IfOk result (λ k. IsTrue cut → 0 < length k) }
{
    let joined = joined_tokens(alloc, folded, separators)?;
    if cut && joined.is_empty() {
        return Err(KeyError::Empty);
    }
    key_of_joined(joined)
}

// The key of a folded text.
fn key_of_folded(alloc: Global, folded: &str, separators: bool, cut: bool) -> Result<Key, KeyError>
    ensures given { Gives is_memory result
        (analysis_of_folded separators (chars folded.now) cut) }
    ensures filled { IfOk result (λ k. IsTrue cut → 0 < length k) }
{
    let bytes = folded.as_bytes();
    match first_reserved(bytes) {
        Some(at) => Err(KeyError::Reserved {
            byte: bytes[at],
            at: saturated_u32(at),
        }),
        None => key_of_tokens(alloc, folded, separators, cut),
    }
}

impl Analyzer {
    /// The key of a text: of an input with the cut, of a query's prefix without it. The errors in
    /// order: `Reserved`, `Empty`, `TooLong`, `Memory`.
    pub fn key(&self, alloc: Global, text: &str, cut: bool) -> Result<Key, KeyError>
        ensures given { Gives is_memory result (analysis_of self.now text.now cut) }
        ensures filled { IfOk result (λ k. IsTrue cut → 0 < length k) }
    {
        let folded = folded_text(alloc, text, cut)?;
        key_of_folded(alloc, folded.as_str(), self.separators, cut)
    }
}
