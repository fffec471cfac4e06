//! The bytes of the worked example, and of no path.
use crate::tests::same::assert_same;
use crate::tests::texts::{FIRST, NO_PATH, bytes_of};
use fst_build::Builder;
use fst_code::Transducer;
use std::alloc::{AllocError, Global};
use std::test::Fail;

fn transducer_of_two(alloc: Global) -> Result<Transducer, Fail> {
    let mut builder = Builder::new(alloc)?;
    builder.add(b"ab", 5)?;
    builder.add(b"ac", 3)?;
    Ok(builder.finish()?)
}

// How many bytes a text has, whether they are the transducer's, and its paths and its root.
fn push_shape(told: &mut String, transducer: &Transducer, text: &str) -> Result<(), AllocError> {
    let bytes = bytes_of(*told.allocator(), text)?;
    let same = transducer.bytes() == bytes.as_slice();
    let paths = transducer.paths();
    write!(told, "{} bytes: {same}, {paths} paths, ", bytes.len())?;
    match transducer.root() {
        Some(root) => write!(told, "root {}", root.0),
        None => told.push_str("no root"),
    }
}

#[test]
fn two_paths_have_the_bytes_of_the_first_example(rt: HostRuntime) -> Result<(), Fail> {
    let transducer = transducer_of_two(rt.alloc())?;
    let mut told = String::new(rt.alloc());
    push_shape(&mut told, &transducer, FIRST)?;
    assert_same(&rt, told.as_str(), "67 bytes: true, 2 paths, root 2");
    Ok(())
}

#[test]
fn no_path_has_sixteen_bytes_and_no_root(rt: HostRuntime) -> Result<(), Fail> {
    let transducer = Builder::new(rt.alloc())?.finish()?;
    let mut told = String::new(rt.alloc());
    push_shape(&mut told, &transducer, NO_PATH)?;
    assert_same(&rt, told.as_str(), "16 bytes: true, 0 paths, no root");
    Ok(())
}
