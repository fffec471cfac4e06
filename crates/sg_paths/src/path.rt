//! Paths.
use sg_base::{Context, Key, Weight};
use std::marker::Model;

/// A key in a context, of a suggestion of a document: the bytes `context 0x1D key 0x00 n`, with the
/// number n in four bytes, big-endian.
#[derive(Debug, Drop)]
pub struct Path {
    pub context: Context,
    pub key: Key,
    /// Its place from 0 among those with the same context and key, by weight descending, then by
    /// document.
    pub n: u32,
    pub weight: Weight,
    /// The place of the document in its list.
    pub doc: u32,
    /// The place of the suggestion in the document.
    pub place: u8,
}

impl Model for Path {
    ghost use Rattle.sg_paths.specs.AllPaths.{FullPath, Entry};

    ghost Value = { FullPath };

    ghost view = { λ p. record {
      entry = record {
        context = p.context;
        key = p.key;
        weight = p.weight;
        doc = p.doc;
        place = p.place;
      };
      n = p.n;
    } };
}
