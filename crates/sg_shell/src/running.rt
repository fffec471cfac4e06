//! The top call.
ghost use Rattle.std.specs.Prelude.{◌≡◌, ◌≢◌, ◌≤◌, ◌↔◌, true, false, length};
ghost use Rattle.sg_shell.specs.declared.reading.TheConstants.{MOST_INPUT_BYTES};
ghost use Rattle.sg_shell.specs.Ends.{is_run, source_of, sink_of, WriteEnds, AnswerEnds, RunEnds};
ghost use Rattle.sg_shell.specs.Ends.{IsFaultless, EndsByLength};

use crate::reading::{ReadError, read_input};
use crate::replying::replies_to;
use crate::status::Status;
use crate::writing::write_all;
use sg_base::Text;
use sg_edge::{PutError, Sink, Source};
use std::alloc::Global;
use std::sync::Wait;

fn is_a_run(words: &[Text]) -> bool
    ensures { result ≡ is_run words.now }
{
    words.len() == 1 && words[0].as_str() == "run"
}

fn write_output<K: Sink>(sink: &mut K, output: &[u8]) -> Status
    ensures { WriteEnds (sink_of K.given K.faults) output.now result sink.old sink.new }
{
    match write_all(sink, output) {
        Ok(()) => Status::Done,
        Err(PutError::Failed) => Status::WriteFault,
        Err(PutError::Memory) => Status::Memory,
    }
}

// Answers an input that was read to its end.
fn answer_input<R: Wait, K: Sink>(rt: &R, alloc: Global, input: &[u8], sink: &mut K) -> Status
    requires { length input.now ≤ MOST_INPUT_BYTES }
    ensures { AnswerEnds (sink_of K.given K.faults) input.now result sink.old sink.new }
{
    match replies_to(rt, alloc, input) {
        Ok(output) => write_output(sink, output.as_slice()),
        Err(_) => Status::Memory,
    }
}

// The run of the one word `run`.
fn run_input<R: Wait, S: Source, K: Sink>(
    rt: &R,
    alloc: Global,
    source: &mut S,
    sink: &mut K,
) -> Status
    ensures runs { result ≢ Status.Usage }
    ensures ends { RunEnds (source_of S.left S.faults S.ended) (sink_of K.given K.faults)
        result source.old source.new sink.old sink.new }
{
    match read_input(alloc, source) {
        Ok(input) => answer_input(rt, alloc, input.as_slice(), sink),
        Err(ReadError::Fault) => Status::ReadFault,
        Err(ReadError::TooLong) => Status::TooLong,
        Err(ReadError::Memory) => Status::Memory,
    }
}

fn run_words<R: Wait, S: Source, K: Sink>(
    rt: &R,
    alloc: Global,
    words: &[Text],
    source: &mut S,
    sink: &mut K,
) -> Status
    ensures usage { (result ≡ Status.Usage) ↔ (is_run words.now ≡ false) }
    ensures ends { RunEnds (source_of S.left S.faults S.ended) (sink_of K.given K.faults)
        result source.old source.new sink.old sink.new }
{
    if is_a_run(words) {
        run_input(rt, alloc, source, sink)
    } else {
        Status::Usage
    }
}

/// Runs the program with these arguments: reads the input to its end, and writes the replies to its
/// lines in order.
pub fn run<R: Wait, S: Source, K: Sink>(
    rt: &R,
    alloc: Global,
    words: &[Text],
    source: &mut S,
    sink: &mut K,
) -> Status
    // Which arguments have no reading.
    ensures usage { (result ≡ Status.Usage) ↔ (is_run words.now ≡ false) }

    // What each status says, of the output to the input above all.
    ensures ends { RunEnds (source_of S.left S.faults S.ended) (sink_of K.given K.faults)
        result source.old source.new sink.old sink.new }

    // Which status comes where nothing fails.
    ensures faultless { is_run words.now ≡ true
        → IsFaultless (source_of S.left S.faults S.ended) (sink_of K.given K.faults)
        source.old source.new sink.old sink.new
        → EndsByLength result (S.left source.old) }
{
    run_words(rt, alloc, words, source, sink)
}
