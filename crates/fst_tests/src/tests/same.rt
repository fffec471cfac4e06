//! One text beside another.
use std::process::Abort;

pub fn assert_same(rt: &impl Abort, told: &str, wanted: &str) {
    assert_eq!(rt; told, wanted);
}
