//! What is suggested, and why parts make no suggestion.
ghost use Rattle.std.specs.Prelude.{◌≡◌, IfErr, IfOk};
ghost use Rattle.sg_paths.specs.Documents.{IsSuggestion, RefusesSuggestion};

use crate::limits::{MOST_CONTEXTS, MOST_TEXT_BYTES};
use sg_base::{Context, Key, List, MOST_WEIGHT, Text, Weight, saturated_u32};
use std::alloc::AllocError;
use std::error::Error;
use std::fmt;
use std::marker::Model;

/// A text to suggest. Without contexts it stands in the empty context alone.
#[derive(Debug, Drop)]
pub struct Suggestion {
    /// As it is shown: at most 1,024 bytes.
    pub text: Text,
    /// What a query's key is matched against. Not empty.
    pub key: Key,
    pub weight: Weight,
    /// At most 16; one that is given twice counts once.
    pub contexts: List<Context>,
}

/// Why the parts make no suggestion.
#[derive(Clone, Copy, Debug, PartialEq, Eq)]
pub enum SuggestionError {
    /// More than 1,024 bytes of text.
    TextLong { bytes: u32 },
    EmptyKey,
    /// A weight over `MOST_WEIGHT`.
    Weight { weight: Weight },
    /// More than 16 contexts.
    Contexts { count: u32 },
}

impl fmt::Display for SuggestionError {
    fn fmt<W: fmt::Write>(&self, f: &mut fmt::Formatter<W>) -> fmt::Result {
        match self {
            SuggestionError::TextLong { bytes } => write!(f, "the text has {bytes} bytes"),
            SuggestionError::EmptyKey => write!(f, "the key is empty"),
            SuggestionError::Weight { weight } => write!(f, "the weight is {weight}"),
            SuggestionError::Contexts { count } => write!(f, "there are {count} contexts"),
        }
    }
}

impl Error for SuggestionError {}

impl Model for Suggestion {
    ghost use Rattle.sg_paths.specs.Documents.{PlainSuggestion, IsSuggestion};

    ghost Value = { PlainSuggestion };

    ghost view = { λ s. record {
      text = s.text;
      key = s.key;
      weight = s.weight;
      contexts = s.contexts.items;
    } };

    ghost invariant = { λ s. IsSuggestion (record {
      text = s.text;
      key = s.key;
      weight = s.weight;
      contexts = s.contexts.items;
    }) };
}

fn copied_contexts(contexts: &List<Context>) -> Result<List<Context>, AllocError>
    ensures { IfOk result (λ copies. copies.items ≡ contexts.now.items) }
{
    let mut copies = Vec::with_capacity(contexts.allocator(), contexts.items().len())?;
    for context in contexts.items() {
        copies.push(context.copy()?)?;
    }
    Ok(List::of(copies))
}

impl Suggestion {
    /// The errors in order: `TextLong`, `EmptyKey`, `Weight`, `Contexts`. Takes no memory.
    pub fn new(
        text: Text,
        key: Key,
        weight: Weight,
        contexts: Vec<Context>,
    ) -> Result<Suggestion, SuggestionError>
        ensures value { IfOk result (λ s. s ≡ record {
          text = text;
          key = key;
          weight = weight;
          contexts = contexts.items;
        }) }
        ensures ok { IfOk result (λ s. IsSuggestion s) }
        ensures refused { IfErr result (RefusesSuggestion (record {
          text = text;
          key = key;
          weight = weight;
          contexts = contexts.items;
        })) }
    {
        let text_bytes = text.as_str().len();
        if text_bytes > MOST_TEXT_BYTES {
            return Err(SuggestionError::TextLong {
                bytes: saturated_u32(text_bytes),
            });
        }
        if key.as_slice().is_empty() {
            return Err(SuggestionError::EmptyKey);
        }
        if weight > MOST_WEIGHT {
            return Err(SuggestionError::Weight { weight });
        }
        if contexts.len() > MOST_CONTEXTS {
            return Err(SuggestionError::Contexts {
                count: saturated_u32(contexts.len()),
            });
        }
        Ok(Suggestion {
            text,
            key,
            weight,
            contexts: List::of(contexts),
        })
    }

    /// An equal suggestion of its own.
    pub fn copy(&self) -> Result<Suggestion, AllocError>
        ensures { IfOk result (λ s. s ≡ self.now) }
    {
        let text = self.text.copy()?;
        let key = self.key.copy()?;
        let contexts = copied_contexts(&self.contexts)?;
        Ok(Suggestion {
            text,
            key,
            weight: self.weight,
            contexts,
        })
    }
}
