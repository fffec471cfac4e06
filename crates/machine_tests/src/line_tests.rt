//! Commands of lines where there are two workers or no separators, and errors as they are shown.
use index_core::Why;
use sg_analysis::Analyzer;
use std::alloc::Global;
use std::test::Fail;
use wire_json::{Command, LineError, command};

const STANDARD: Analyzer = Analyzer { separators: true };

// The worker of an operation, a query, a flush or a merge.
fn lane_of(alloc: Global, line: &str, lanes: u32) -> Result<u32, LineError> {
    match command(alloc, line.as_bytes(), lanes, &STANDARD)? {
        Command::Accept { lane, .. } => Ok(lane),
        Command::Suggest { lane, .. } => Ok(lane),
        Command::Flush { lane } => Ok(lane),
        Command::Merge { lane } => Ok(lane),
        _ => Err(LineError::Shape),
    }
}

#[test]
fn a_line_names_its_worker(rt: HostRuntime) {
    let alloc = rt.alloc();
    let add = r#"{"op":"add","id":"a","suggest":"b","lane":1}"#;
    let delete = r#"{"op":"delete","id":"a"}"#;
    let query = r#"{"op":"suggest","prefix":"","lane":1}"#;
    assert_eq!(rt; lane_of(alloc, add, 2), Ok(1));
    assert_eq!(rt; lane_of(alloc, delete, 2), Ok(0));
    assert_eq!(rt; lane_of(alloc, query, 2), Ok(1));
    assert_eq!(rt; lane_of(alloc, add, 1), Err(LineError::Lane));
    let flush = r#"{"op":"flush","lane":1}"#;
    assert_eq!(rt; lane_of(alloc, flush, 2), Ok(1));
    let merge = r#"{"op":"merge"}"#;
    assert_eq!(rt; lane_of(alloc, merge, 2), Ok(0));
}

#[test]
fn separators_are_left_out_where_they_are_off(rt: HostRuntime) -> Result<(), Fail> {
    let line = r#"{"op":"suggest","prefix":"New Y "}"#;
    let analyzer = Analyzer { separators: false };
    let Command::Suggest { query, .. } = command(rt.alloc(), line.as_bytes(), 1, &analyzer)? else {
        return Err("no query".into());
    };
    assert_eq!(rt; query.prefix.as_slice(), b"newy".as_slice());
    Ok(())
}

#[test]
fn errors_of_lines_are_shown(rt: HostRuntime) -> Result<(), Fail> {
    let alloc = rt.alloc();
    let refused = LineError::Weight.to_string(alloc)?;
    assert_eq!(rt; refused.as_str(), "the line is refused: weight");
    assert_eq!(rt;
        LineError::Memory.to_string(alloc)?.as_str(),
        "out of memory"
    );
    Ok(())
}

#[test]
fn an_index_that_is_full_is_shown(rt: HostRuntime) -> Result<(), Fail> {
    let full = Why::Full { count: 4_194_304 };
    assert_eq!(rt;
        full.to_string(rt.alloc())?.as_str(),
        "the index is full with 4194304 operations"
    );
    Ok(())
}
