use crate::table::assert_same;
use sg_analysis::KeyError;
use sg_base::ContextError;
use sg_context::{BoostError, QueryError};
use sg_edge::{Failed, PutError};
use sg_paths::{DocumentError, SuggestionError};
use std::alloc::AllocError;
use std::fmt::Display;
use std::test::Fail;

const LINES: &str = "\
the context has the reserved byte 29 at 2
the context has 64 bytes
out of memory
the folded text has the reserved byte 31 at 50
the text has no token
the key has 256 bytes
out of memory
the boost is 0
there are 65 query contexts
k is 1001
the text has 1025 bytes
the key is empty
the weight is 2147483648
there are 17 contexts
the id has 256 bytes
there is no suggestion
there are 17 suggestions
the source failed
the sink failed
out of memory
";

fn print(out: &mut String, error: &impl Display) -> Result<(), AllocError> {
    write!(out, "{error}\n")
}

fn of_contexts(out: &mut String) -> Result<(), AllocError> {
    let (byte, at) = (0x1d, 2);
    print(out, &ContextError::Reserved { byte, at })?;
    print(out, &ContextError::TooLong { bytes: 64 })?;
    print(out, &ContextError::Memory)
}

fn of_keys(out: &mut String) -> Result<(), AllocError> {
    let (byte, at) = (0x1f, 50);
    print(out, &KeyError::Reserved { byte, at })?;
    print(out, &KeyError::Empty)?;
    print(out, &KeyError::TooLong { bytes: 256 })?;
    print(out, &KeyError::Memory)
}

fn of_queries(out: &mut String) -> Result<(), AllocError> {
    print(out, &BoostError { boost: 0 })?;
    print(out, &QueryError::Contexts { count: 65 })?;
    print(out, &QueryError::K { k: 1_001 })
}

fn of_suggestions(out: &mut String) -> Result<(), AllocError> {
    print(out, &SuggestionError::TextLong { bytes: 1_025 })?;
    print(out, &SuggestionError::EmptyKey)?;
    let weight = 2_147_483_648;
    print(out, &SuggestionError::Weight { weight })?;
    print(out, &SuggestionError::Contexts { count: 17 })
}

fn of_documents(out: &mut String) -> Result<(), AllocError> {
    print(out, &DocumentError::Id { bytes: 256 })?;
    print(out, &DocumentError::NoSuggestion)?;
    print(out, &DocumentError::TooMany { count: 17 })
}

fn of_ends(out: &mut String) -> Result<(), AllocError> {
    print(out, &Failed)?;
    print(out, &PutError::Failed)?;
    print(out, &PutError::Memory)
}

fn of_all(out: &mut String) -> Result<(), AllocError> {
    of_contexts(out)?;
    of_keys(out)?;
    of_queries(out)?;
    of_suggestions(out)?;
    of_documents(out)?;
    of_ends(out)
}

#[test]
fn errors_have_a_line_each(rt: HostRuntime) -> Result<(), Fail> {
    let mut out = String::new(rt.alloc());
    of_all(&mut out)?;
    assert_same(&rt, out.as_str(), LINES);
    Ok(())
}
