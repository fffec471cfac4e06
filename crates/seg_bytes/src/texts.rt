//! What bytes may be: texts, ids, keys and contexts, each with its test.
ghost use Rattle.std.specs.Prelude.{◌≡◌, true, false, MatchOption};
ghost use Rattle.std.specs.Str.{is_utf8};
ghost use Rattle.seg_bytes.specs.Answers.{Takes};
ghost use Rattle.seg_bytes.specs.DocumentsRead.{may_be_context, may_be_id, may_be_key};
ghost use Rattle.seg_bytes.specs.DocumentsRead.{may_be_text};

use crate::error::ReadError;
use sg_base::{Bytes, Context, ContextError, Key, Text};
use sg_paths::{MOST_TEXT_BYTES, is_id};
use std::alloc::Global;

/// The text that bytes are, if they are UTF-8.
fn utf8(bytes: &[u8]) -> Option<&str>
    ensures { MatchOption result
        (is_utf8 bytes.now ≡ false)
        (λ text. (text.now ≡ bytes.now) × (is_utf8 bytes.now ≡ true)) }
{
    match std::str::from_utf8(bytes) {
        Ok(text) => Some(text),
        Err(_) => None,
    }
}

/// The text that bytes are.
pub(crate) fn known_text(bytes: &[u8]) -> &str
    requires { is_utf8 bytes.now ≡ true }
    ensures { result.now ≡ bytes.entry.now }
{
    let Some(text) = utf8(bytes) else {
        unreachable!()
    };
    text
}

/// The text of a field that begins at `start`.
pub(crate) fn text_of(alloc: Global, bytes: &[u8], start: usize) -> Result<Text, ReadError>
    ensures { Takes may_be_text bytes.now start result }
{
    let Some(text) = utf8(bytes) else {
        return Err(ReadError::bad(start));
    };
    if text.len() > MOST_TEXT_BYTES {
        return Err(ReadError::bad(start));
    }
    Ok(Text::of(alloc, text)?)
}

/// The id of a field that begins at `start`.
pub(crate) fn id_of(alloc: Global, bytes: &[u8], start: usize) -> Result<Text, ReadError>
    ensures { Takes may_be_id bytes.now start result }
{
    let Some(text) = utf8(bytes) else {
        return Err(ReadError::bad(start));
    };
    if !is_id(text) {
        return Err(ReadError::bad(start));
    }
    Ok(Text::of(alloc, text)?)
}

/// The context of a field that begins at `start`.
pub(crate) fn context_of(alloc: Global, bytes: &[u8], start: usize) -> Result<Context, ReadError>
    ensures { Takes may_be_context bytes.now start result }
{
    let Some(text) = utf8(bytes) else {
        return Err(ReadError::bad(start));
    };
    match Context::new(alloc, text) {
        Ok(context) => Ok(context),
        Err(ContextError::Memory) => Err(ReadError::Memory),
        Err(_) => Err(ReadError::bad(start)),
    }
}

/// The key of a field that begins at `start`.
pub(crate) fn key_of(alloc: Global, bytes: &[u8], start: usize) -> Result<Key, ReadError>
    ensures { Takes may_be_key bytes.now start result }
{
    if bytes.is_empty() {
        return Err(ReadError::bad(start));
    }
    match Key::of(Bytes::of(alloc, bytes)?) {
        Ok(key) => Ok(key),
        Err(_) => Err(ReadError::bad(start)),
    }
}
