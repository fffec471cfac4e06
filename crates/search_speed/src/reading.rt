//! The documents of standard input.

use crate::timing::invalid;
use sg_base::{Bytes, Context, ContextError, Key, Text};
use sg_paths::{Document, Numbered, Suggestion};
use std::alloc::Global;
use std::io;
use std::io::{BufRead, ErrorKind};

/// The next line, without its line feed. None where it is empty or nothing is left.
pub fn next_line<R: BufRead>(alloc: Global, source: &mut R) -> io::Result<Option<String>> {
    let mut line = String::new(alloc);
    source.read_line(&mut line)?;
    if line.as_str().ends_with('\n') {
        line.pop();
    }
    if line.is_empty() {
        Ok(None)
    } else {
        Ok(Some(line))
    }
}

/// How many segments are built in all: a number on a line of its own.
pub fn read_count<R: BufRead>(alloc: Global, source: &mut R) -> io::Result<u32> {
    let Some(line) = next_line(alloc, source)? else {
        return Err(invalid());
    };
    match line.as_str().parse::<u32>() {
        Ok(count) => Ok(count),
        Err(_) => Err(invalid()),
    }
}

/// The documents up to an empty line, numbered from 1. A line has a key, a weight and contexts with
/// commas between them, and tabs between the three.
pub fn read_documents<R: BufRead>(alloc: Global, source: &mut R) -> io::Result<Vec<Numbered>> {
    let mut documents = Vec::new(alloc);
    for seq in 1..u64::MAX {
        let Some(line) = next_line(alloc, source)? else {
            break;
        };
        let document = document_of(alloc, line.as_str(), seq)?;
        documents.push(Numbered { seq, document })?;
    }
    Ok(documents)
}

/// A key as bytes, which was analysed before.
pub fn key_of(alloc: Global, text: &str) -> io::Result<Key> {
    match Key::of(Bytes::of(alloc, text.as_bytes())?) {
        Ok(key) => Ok(key),
        Err(_) => Err(invalid()),
    }
}

pub fn context_of(alloc: Global, text: &str) -> io::Result<Context> {
    match Context::new(alloc, text) {
        Ok(context) => Ok(context),
        Err(ContextError::Memory) => Err(io::Error::from(ErrorKind::OutOfMemory)),
        Err(_) => Err(invalid()),
    }
}

fn contexts_of(alloc: Global, text: &str) -> io::Result<Vec<Context>> {
    let mut contexts = Vec::new(alloc);
    for name in text.split(',') {
        contexts.push(context_of(alloc, name)?)?;
    }
    Ok(contexts)
}

fn suggestion_of(alloc: Global, line: &str) -> io::Result<Suggestion> {
    let Some((key, rest)) = line.split_once('\t') else {
        return Err(invalid());
    };
    let Some((weight, contexts)) = rest.split_once('\t') else {
        return Err(invalid());
    };
    let Ok(weight) = weight.parse::<u32>() else {
        return Err(invalid());
    };
    let text = Text::of(alloc, key)?;
    let key = key_of(alloc, key)?;
    match Suggestion::new(text, key, weight, contexts_of(alloc, contexts)?) {
        Ok(suggestion) => Ok(suggestion),
        Err(_) => Err(invalid()),
    }
}

fn document_of(alloc: Global, line: &str, seq: u64) -> io::Result<Document> {
    let suggestion = suggestion_of(alloc, line)?;
    let id = Text::of(alloc, format!(in alloc; "n{seq}")?.as_str())?;
    match Document::new(id, vec![in alloc; suggestion]?) {
        Ok(document) => Ok(document),
        Err(_) => Err(invalid()),
    }
}
