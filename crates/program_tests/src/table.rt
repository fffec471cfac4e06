//! Tables of tests. A row has columns with `|` between them: what it shows, what is given, and last
//! what is wanted. A test writes each row again with the answer in its last column, and compares the
//! texts.
use std::process::Abort;

/// A row without what is wanted, and what is given behind its name.
pub fn given(row: &str) -> Option<(&str, &str)> {
    let (front, _) = row.rsplit_once('|')?;
    let (_, given) = front.split_once('|')?;
    Some((front, given))
}

pub fn assert_same(rt: &impl Abort, told: &str, wanted: &str) {
    assert_eq!(rt; told, wanted);
}
