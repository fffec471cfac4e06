//! How runs end.
use crate::table::{assert_same, given};
use sg_base::Text;
use sg_edge::{MemorySink, MemorySource, StdSink, StdSource};
use sg_shell::run;
use std::alloc::Global;
use std::io;
use std::io::Write;
use std::sync::Wait;
use std::test::Fail;

// An add and a query, 97 bytes by lines of 66 and 31. Their replies have 111.
const INPUT: &str = r#"{"op":"add","id":"fr1","suggest":[{"input":"Paris","weight":10}]}
{"op":"suggest","prefix":"pa"}
"#;

// Arguments, each behind a plus; the takes and the puts that fail; and how the run then ends: with
// how many bytes of input left, and how many written.
const ENDS: &str = "\
all goes well|+run|||Done, 0 left, 111 written
no argument||||Usage, 97 left, 0 written
another word|+walk|||Usage, 97 left, 0 written
two words|+run+run|||Usage, 97 left, 0 written
a word in front|+walk+run|||Usage, 97 left, 0 written
an empty word|+|||Usage, 97 left, 0 written
an empty word behind|+run+|||Usage, 97 left, 0 written
capitals|+Run|||Usage, 97 left, 0 written
white space|+run |||Usage, 97 left, 0 written
no argument, and faults||1|1|Usage, 97 left, 0 written
the first take fails|+run|1||ReadFault, 97 left, 0 written
the second take fails|+run|2||ReadFault, 31 left, 0 written
the take at the end fails|+run|3||ReadFault, 0 left, 0 written
a take and a put fail|+run|2|1|ReadFault, 31 left, 0 written
a take behind the end|+run|4||Done, 0 left, 111 written
the first put fails|+run||1|WriteFault, 0 left, 0 written
a put that isn't made|+run||9|Done, 0 left, 111 written
";

fn words_of(alloc: Global, spelled: &str) -> Result<Vec<Text>, Fail> {
    let mut words = Vec::new(alloc);
    for word in spelled.split('+').skip(1) {
        words.push(Text::of(alloc, word)?)?;
    }
    Ok(words)
}

fn numbers_of(alloc: Global, spelled: &str) -> Result<Vec<u64>, Fail> {
    let mut numbers = Vec::new(alloc);
    for number in spelled.split_whitespace() {
        numbers.push(number.parse::<u64>()?)?;
    }
    Ok(numbers)
}

fn source_of(alloc: Global, takes: &str) -> Result<MemorySource, Fail> {
    let takes = numbers_of(alloc, takes)?;
    let input = INPUT.as_bytes().to_vec(alloc)?;
    Ok(MemorySource::new(input, true, takes))
}

// How a run ends.
fn push_end(
    told: &mut String,
    wait: &impl Wait,
    words: &str,
    takes: &str,
    puts: &str,
) -> Result<(), Fail> {
    let alloc = *told.allocator();
    let words = words_of(alloc, words)?;
    let mut source = source_of(alloc, takes)?;
    let mut sink = MemorySink::new(numbers_of(alloc, puts)?);
    let status = run(wait, alloc, words.as_slice(), &mut source, &mut sink);
    let left = source.left().len();
    let written = sink.given().len();
    write!(told, "|{status:?}, {left} left, {written} written\n")?;
    Ok(())
}

// The words, the takes and the puts.
fn run_parts(given: &str) -> Option<(&str, &str, &str)> {
    let (words, faults) = given.split_once('|')?;
    let (takes, puts) = faults.split_once('|')?;
    Some((words, takes, puts))
}

fn push_row(told: &mut String, wait: &impl Wait, row: &str) -> Result<(), Fail> {
    let Some((front, given)) = given(row) else {
        return Err("no end".into());
    };
    let Some((words, takes, puts)) = run_parts(given) else {
        return Err("no faults".into());
    };
    told.push_str(front)?;
    push_end(told, wait, words, takes, puts)
}

fn rows_again(wait: &impl Wait, alloc: Global) -> Result<String, Fail> {
    let mut told = String::new(alloc);
    for row in ENDS.lines() {
        push_row(&mut told, wait, row)?;
    }
    Ok(told)
}

#[test]
fn each_end_has_its_status(rt: HostRuntime) -> Result<(), Fail> {
    let told = rows_again(&rt, rt.alloc())?;
    assert_same(&rt, told.as_str(), ENDS);
    Ok(())
}

// A source of 65,537 blanks whose second take fails.
fn long_source(alloc: Global) -> Result<MemorySource, Fail> {
    let takes = numbers_of(alloc, "2")?;
    let input = vec![in alloc; b' '; 65_537]?;
    Ok(MemorySource::new(input, false, takes))
}

fn push_long_end(told: &mut String, wait: &impl Wait) -> Result<(), Fail> {
    let alloc = *told.allocator();
    let words = words_of(alloc, "+run")?;
    let mut source = long_source(alloc)?;
    let mut sink = MemorySink::new(Vec::new(alloc));
    let status = run(wait, alloc, words.as_slice(), &mut source, &mut sink);
    write!(told, "{status:?}, {} left", source.left().len())?;
    Ok(())
}

#[test]
fn a_take_has_room_for_65536_bytes(rt: HostRuntime) -> Result<(), Fail> {
    let mut told = String::new(rt.alloc());
    push_long_end(&mut told, &rt)?;
    assert_same(&rt, told.as_str(), "ReadFault, 1 left");
    Ok(())
}

// Takes so many bytes at a write, until its room is full. Then it fails, or takes 0 bytes.
#[derive(Drop)]
struct Pipe {
    piece: usize,
    room: usize,
    fails: bool,
}

impl Write for Pipe {
    fn write(&mut self, buf: &[u8]) -> io::Result<usize> {
        let count = buf.len().min(self.piece).min(self.room);
        if count == 0 && self.fails {
            return Err(io::ErrorKind::Other.into());
        }
        self.room -= count;
        Ok(count)
    }

    fn flush(&mut self) -> io::Result<()> {
        Ok(())
    }
}

fn push_status(told: &mut String, wait: &impl Wait, pipe: Pipe) -> Result<(), Fail> {
    let alloc = *told.allocator();
    let words = words_of(alloc, "+run")?;
    let room = pipe.room;
    let mut source = StdSource::new(INPUT.as_bytes());
    let mut sink = StdSink::new(pipe);
    let status = run(wait, alloc, words.as_slice(), &mut source, &mut sink);
    write!(told, "{room} {status:?}\n")?;
    Ok(())
}

// Where there is room for all replies, and for 20 bytes.
fn push_statuses(told: &mut String, wait: &impl Wait, fails: bool) -> Result<(), Fail> {
    let piece = 7;
    for room in [111, 20] {
        push_status(told, wait, Pipe { piece, room, fails })?;
    }
    Ok(())
}

#[test]
fn a_writer_that_fails_is_a_write_fault(rt: HostRuntime) -> Result<(), Fail> {
    let mut told = String::new(rt.alloc());
    push_statuses(&mut told, &rt, false)?;
    push_statuses(&mut told, &rt, true)?;
    assert_same(
        &rt,
        told.as_str(),
        "111 Done\n20 WriteFault\n111 Done\n20 WriteFault\n",
    );
    Ok(())
}
