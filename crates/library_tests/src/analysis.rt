use crate::table::{assert_same, given};
use sg_analysis::Analyzer;
use std::alloc::Global;
use std::test::Fail;

// A row each: what it shows, a text and its key, with a separator between tokens written as `_`.
// The forms are Unicode's NFKC and full case folding.
const KEYS: &str = "\
a mark is composed|Pa\u{302}ris|p\u{e2}ris
a letter that is composed|P\u{c2}|p\u{e2}
a sharp s|Stra\u{df}e|strasse
a capital i with a dot|\u{130}|i\u{307}
a ligature|\u{fb01}n|fin
an n with an apostrophe|\u{149}|\u{2bc}n
both forms of sigma|\u{3a3}\u{3c2}|\u{3c3}\u{3c3}
folded after it is normalized|\u{390}|\u{3b9}\u{308}\u{301}
a square unit|\u{338f}|kg
a digit in a circle|\u{2460}|1
full width|\u{ff21}\u{ff42}|ab
white space at both ends|  New \t York\u{3000}|new_york
white space of many kinds|a\u{b}b\u{c}c\u{a0}d\u{1680}e\u{2003}f\u{2028}g\u{2029}h|a_b_c_d_e_f_g_h
white space of the NFKC form|a\u{a8}b|a_\u{308}b
no white space|a\u{1c}b\u{200b}c|a\u{1c}b\u{200b}c
the fiftieth character is the last|aaaaaaaaaabbbbbbbbbbccccccccccddddddddddeeeeeeeeeef|aaaaaaaaaabbbbbbbbbbccccccccccddddddddddeeeeeeeeee
";

// The key of a text, behind what stands before it in its row.
fn push_key(told: &mut String, text: &str) -> Result<(), Fail> {
    let analyzer = Analyzer { separators: true };
    let key = analyzer.key(*told.allocator(), text, true)?;
    let spelled = str::from_utf8(key.as_slice())?;
    let spelled = spelled.replace(*told.allocator(), "\u{1f}", "_")?;
    write!(told, "|{spelled}\n")?;
    Ok(())
}

fn push_row(told: &mut String, row: &str) -> Result<(), Fail> {
    let Some((front, text)) = given(row) else {
        return Err("no key".into());
    };
    told.push_str(front)?;
    push_key(told, text)
}

fn rows_again(alloc: Global) -> Result<String, Fail> {
    let mut told = String::new(alloc);
    for row in KEYS.lines() {
        push_row(&mut told, row)?;
    }
    Ok(told)
}

#[test]
fn texts_have_the_keys_of_unicode(rt: HostRuntime) -> Result<(), Fail> {
    let told = rows_again(rt.alloc())?;
    assert_same(&rt, told.as_str(), KEYS);
    Ok(())
}

fn run_together(alloc: Global, text: &str) -> Result<String, Fail> {
    let analyzer = Analyzer { separators: false };
    let key = analyzer.key(alloc, text, false)?;
    Ok(String::from_str(alloc, str::from_utf8(key.as_slice())?)?)
}

#[test]
fn without_separators_tokens_run_together(rt: HostRuntime) -> Result<(), Fail> {
    let told = run_together(rt.alloc(), " New\tYork 1")?;
    assert_same(&rt, told.as_str(), "newyork1");
    Ok(())
}

// How many bytes the key of a text that is repeated has, or why it has none.
fn push_length(told: &mut String, text: &str, times: usize, cut: bool) -> Result<(), Fail> {
    let analyzer = Analyzer { separators: true };
    let text = text.repeat(*told.allocator(), times)?;
    match analyzer.key(*told.allocator(), text.as_str(), cut) {
        Ok(key) => write!(told, "{} bytes\n", key.as_slice().len())?,
        Err(error) => write!(told, "{error}\n")?,
    }
    Ok(())
}

// One character has four tokens of 33 bytes with what stands between them, so eight have 264.
fn lengths(alloc: Global) -> Result<String, Fail> {
    let mut told = String::new(alloc);
    push_length(&mut told, "\u{fdfa}", 8, true)?;
    push_length(&mut told, "\u{1f82}", 51, false)?;
    Ok(told)
}

#[test]
fn a_key_is_too_long_by_its_own_bytes(rt: HostRuntime) -> Result<(), Fail> {
    let told = lengths(rt.alloc())?;
    assert_same(&rt, told.as_str(), "the key has 264 bytes\n255 bytes\n");
    Ok(())
}
