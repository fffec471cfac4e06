//! The rows of standard input.
use fst_tests::Row;
use sg_base::{CONTEXT_END, KEY_END};
use std::alloc::{AllocError, Global};
use std::io;
use std::io::{BufRead, BufReader, ErrorKind};

/// All rows. A line has a context, a key, the number among equal keys and a cost, with a tab behind
/// each of the first three.
pub fn read_rows(rt: &HostRuntime) -> io::Result<Vec<Row>> {
    let mut rows = Vec::new(rt.alloc());
    for line in BufReader::new(rt.alloc(), rt.reader())?.lines(rt.alloc()) {
        let line = line?;
        match read_row(rt.alloc(), line.as_str())? {
            Some(row) => rows.push(row)?,
            None => return Err(io::Error::from(ErrorKind::InvalidData)),
        }
    }
    Ok(rows)
}

fn read_row(alloc: Global, line: &str) -> Result<Option<Row>, AllocError> {
    let Some((context, rest)) = line.split_once('\t') else {
        return Ok(None);
    };
    let Some((key, rest)) = rest.split_once('\t') else {
        return Ok(None);
    };
    let Some((number, cost)) = rest.split_once('\t') else {
        return Ok(None);
    };
    let (Ok(number), Ok(cost)) = (number.parse::<u32>(), cost.parse::<u32>()) else {
        return Ok(None);
    };
    let path = path_of(alloc, context, key, number)?;
    Ok(Some(Row { path, cost }))
}

/// The path of a context and a key, with the number among equal keys.
fn path_of(alloc: Global, context: &str, key: &str, number: u32) -> Result<Vec<u8>, AllocError> {
    let mut path = Vec::new(alloc);
    path.extend_from_slice(context.as_bytes())?;
    path.push(CONTEXT_END)?;
    path.extend_from_slice(key.as_bytes())?;
    path.push(KEY_END)?;
    path.extend_from_slice(&number.to_be_bytes())?;
    Ok(path)
}
