//! The replies to an input.
ghost use Rattle.std.specs.Prelude.{◌≡◌, ◌≤◌, ◌^◌, ◌++◌, [], OnOk, IfOk, length, option_map};
ghost use Rattle.wire_replies.specs.ReplyForms.{plain_reply};
ghost use Rattle.sg_shell.specs.Sessions.{Session};
ghost use Rattle.index_core.specs.Calls.{empty_record};
ghost use Rattle.sg_shell.specs.Working.{worker_of, Holds, printed};

use crate::engine::{Worker, answer};
use crate::lines::first_line;
use std::alloc::{AllocError, Global};
use std::sync::Wait;
use wire_replies::{Reply, reply};

fn push_reply(
    alloc: Global,
    output: &mut Vec<u8>,
    answered: Option<Reply>,
) -> Result<(), AllocError>
    ensures { OnOk result (output.new.items
        ≡ output.old.items ++ printed (option_map plain_reply answered)) }
{
    if let Some(answered) = answered {
        let line = reply(alloc, &answered)?;
        output.extend_from_slice(line.as_slice())?;
    }
    Ok(())
}

fn replies_by(
    worker: &mut Worker,
    wait: &impl Wait,
    alloc: Global,
    input: &[u8],
) -> Result<Vec<u8>, AllocError>
    requires fits { length input.now ≤ 2 ^ 30 }
    requires index { worker.old.index ≡ empty_record }
    requires opened { worker.old.opened.items ≡ [] }
    ensures session { IfOk result (λ output. Session input.now output.items) }
    ensures holds { Holds (worker_of worker.new.index worker.new.opened.items) }
{
    let mut output = Vec::new(alloc);
    let mut number = 0u64;
    let mut rest = input;
    while let Some(split) = first_line(rest) {
        rest = split.rest;
        number += 1;
        let answered = answer(worker, wait, alloc, number, split.line)?;
        push_reply(alloc, &mut output, answered)?;
    }
    Ok(output)
}

/// The replies to the lines of an input, in order. Time and memory are linear in the input and the
/// output, beside what each query takes. All views are given back.
pub(crate) fn replies_to(
    wait: &impl Wait,
    alloc: Global,
    input: &[u8],
) -> Result<Vec<u8>, AllocError>
    requires { length input.now ≤ 2 ^ 30 }
    ensures { IfOk result (λ output. Session input.now output.items) }
{
    let mut worker = Worker::new(alloc)?;
    let output = replies_by(&mut worker, wait, alloc, input);
    worker.give_back(wait);
    output
}
