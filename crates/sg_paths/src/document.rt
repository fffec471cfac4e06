//! What is added and deleted as one, and why parts make no document.
ghost use Rattle.std.specs.Prelude.{◌≡◌, IfErr, IfOk};
ghost use Rattle.sg_paths.specs.Documents.{IsDocument, RefusesDocument, is_id};

use crate::limits::{MOST_ID_BYTES, MOST_SUGGESTIONS};
use crate::suggestion::Suggestion;
use sg_base::{List, Text, saturated_u32};
use std::alloc::AllocError;
use std::error::Error;
use std::fmt;
use std::marker::Model;

/// Suggestions under one id, by which they are updated and deleted.
#[derive(Debug, Drop)]
pub struct Document {
    /// 1 to 255 bytes. Several documents may have one id.
    pub id: Text,
    /// 1 to 16, whose places are numbered from 0.
    pub suggestions: List<Suggestion>,
}

/// Why the parts make no document.
#[derive(Clone, Copy, Debug, PartialEq, Eq)]
pub enum DocumentError {
    /// An id that hasn't 1 to 255 bytes.
    Id { bytes: u32 },
    NoSuggestion,
    /// More than 16 suggestions.
    TooMany { count: u32 },
}

impl fmt::Display for DocumentError {
    fn fmt<W: fmt::Write>(&self, f: &mut fmt::Formatter<W>) -> fmt::Result {
        match self {
            DocumentError::Id { bytes } => write!(f, "the id has {bytes} bytes"),
            DocumentError::NoSuggestion => write!(f, "there is no suggestion"),
            DocumentError::TooMany { count } => write!(f, "there are {count} suggestions"),
        }
    }
}

impl Error for DocumentError {}

impl Model for Document {
    ghost use Rattle.sg_paths.specs.Documents.{PlainDocument, IsDocument};

    ghost Value = { PlainDocument };

    ghost view = { λ d. record { id = d.id; suggestions = d.suggestions.items } };

    ghost invariant = { λ d. IsDocument (record {
      id = d.id;
      suggestions = d.suggestions.items;
    }) };
}

/// Whether a text has the length of an id.
pub fn is_id(text: &str) -> bool
    ensures { result ≡ is_id text.now }
{
    1 <= text.len() && text.len() <= MOST_ID_BYTES
}

fn copied_suggestions(suggestions: &List<Suggestion>) -> Result<List<Suggestion>, AllocError>
    ensures { IfOk result (λ copies. copies.items ≡ suggestions.now.items) }
{
    let mut copies = Vec::with_capacity(suggestions.allocator(), suggestions.items().len())?;
    for suggestion in suggestions.items() {
        copies.push(suggestion.copy()?)?;
    }
    Ok(List::of(copies))
}

impl Document {
    /// The errors in order: `Id`, `NoSuggestion`, `TooMany`. Takes no memory.
    pub fn new(id: Text, suggestions: Vec<Suggestion>) -> Result<Document, DocumentError>
        ensures value { IfOk result (λ d. d ≡ record { id = id; suggestions = suggestions.items }) }
        ensures ok { IfOk result (λ d. IsDocument d) }
        ensures refused { IfErr result (RefusesDocument (record {
          id = id;
          suggestions = suggestions.items;
        })) }
    {
        if !is_id(id.as_str()) {
            return Err(DocumentError::Id {
                bytes: saturated_u32(id.as_str().len()),
            });
        }
        if suggestions.is_empty() {
            return Err(DocumentError::NoSuggestion);
        }
        if suggestions.len() > MOST_SUGGESTIONS {
            return Err(DocumentError::TooMany {
                count: saturated_u32(suggestions.len()),
            });
        }
        Ok(Document {
            id,
            suggestions: List::of(suggestions),
        })
    }

    /// An equal document of its own.
    pub fn copy(&self) -> Result<Document, AllocError>
        ensures { IfOk result (λ d. d ≡ self.now) }
    {
        let id = self.id.copy()?;
        let suggestions = copied_suggestions(&self.suggestions)?;
        Ok(Document { id, suggestions })
    }
}
