//! What each line does to the index and to the named views, and what it prints.
ghost use Rattle.std.specs.Prelude.{◌≡◌, ◌≤◌, ℕ, [], None, bytes_eq, Contains, IfOk, option_map};
ghost use Rattle.std.specs.Prelude.{map};
ghost use Rattle.std.specs.List.{position_from};
ghost use Rattle.sg_paths.specs.Operations.{plain_op};
ghost use Rattle.index_core.specs.Histories.{Record};
ghost use Rattle.index_core.specs.Records.{open_views};
ghost use Rattle.index_core.specs.LegalHistories.{IsLegal};
ghost use Rattle.index_core.specs.Calls.{empty_record, after_end};
ghost use Rattle.index_shared.specs.OwnViews.{view_in};
ghost use Rattle.index_single.specs.declared.caller.TheConstants.{CALLER};
ghost use Rattle.sg_answers.specs.declared.limits.TheConstants.{MOST_QUEUED};
ghost use Rattle.wire_json.specs.Commands.{suggests, command_of};
ghost use Rattle.wire_json.specs.CommandForms.{plain_command, IsRead};
ghost use Rattle.wire_replies.specs.ReplyForms.{plain_reply};
ghost use Rattle.sg_shell.specs.Transcripts.{standard};
ghost use Rattle.sg_shell.specs.Workers.{Worker as PlainWorker, accept_step, query_step};
ghost use Rattle.sg_shell.specs.Workers.{named_step, open_step, close_step, flush_step, merge_step};
ghost use Rattle.sg_shell.specs.Workers.{step, named, with_seen};
ghost use Rattle.sg_shell.specs.Runs.{IsReportReply};
ghost use Rattle.sg_shell.specs.Working.{Passes, IsWorking, IsShown, Answers, MayAnswer};
ghost use Rattle.sg_shell.specs.Working.{worker_of, open_of, Holds};

use crate::merging::merge;
use crate::opened::{Opened, end_opened, position_of};
use crate::viewing::{answer_in, begin, end, refresh};
use index_core::{Refused, Why};
use index_single::SingleIndex;
use path_desk::Desk;
use sg_analysis::Analyzer;
use sg_base::Text;
use sg_context::Query;
use sg_paths::Op;
use sg_view::View;
use std::alloc::{AllocError, Global};
use std::sync::Wait;
use wire_json::{Command, command};
use wire_replies::{ErrorKind, Reply};

/// The analyzer of the program's lines: it keeps separators.
const STANDARD: Analyzer = Analyzer { separators: true };

/// How many workers answer the lines.
pub(crate) const LANES: u32 = 1;

/// One worker: the index, the memory of its searches, and its named views in the order of their
/// opening. It can't be dropped: the views are given back.
pub(crate) struct Worker {
    pub index: SingleIndex,
    pub desk: Desk,
    pub opened: Vec<Opened>,
}

impl Worker {
    pub(crate) fn new(alloc: Global) -> Result<Worker, AllocError>
        ensures index { IfOk result (λ w. w.index ≡ empty_record) }
        ensures opened { IfOk result (λ w. w.opened.items ≡ []) }
    {
        let index = SingleIndex::new(alloc)?;
        Ok(Worker {
            index,
            desk: Desk::new(alloc),
            opened: Vec::new(alloc),
        })
    }

    /// Ends all named views. Takes no memory.
    pub(crate) fn give_back(self, wait: &impl Wait)
        requires { Holds (worker_of self.index self.opened.items) }
    {
        let Worker {
            mut index,
            desk: _,
            mut opened,
        } = self;
        while let Some(last) = opened.pop() {
            end_opened(&mut index, wait, last);
        }
        opened.destroy_empty();
    }
}

fn accept(index: &mut SingleIndex, wait: &impl Wait, line: u64, op: Op) -> Result<Reply, AllocError>
    ensures reply { IfOk result (λ r. (w : PlainWorker) → w.seen ≡ index.old
        → Answers line (accept_step CALLER line (plain_op op) w) (plain_reply r)
        (with_seen index.new w)) }
    ensures passes { Passes index.old index.new }
{
    match index.accept(wait, op) {
        Ok(seq) => Ok(Reply::Seq { line, seq }),
        Err(Refused { op: _, why }) => match why {
            Why::Full { .. } => Ok(Reply::Error {
                line,
                error: ErrorKind::Full,
            }),
            Why::Memory => Err(AllocError),
        },
    }
}

// Answers a query in a view, and ends the view before the answer is looked at.
fn answer_and_end(
    index: &mut SingleIndex,
    wait: &impl Wait,
    desk: &mut Desk,
    alloc: Global,
    line: u64,
    query: &Query,
    view: View,
) -> Result<Reply, AllocError>
    requires { Contains (open_views index.old) (view_in CALLER view) }
    ensures reply { IfOk result (λ reply. (r : Record) → IsShown r view
        → IsReportReply line (plain_reply reply) r (view_in CALLER view) query.now) }
    ensures few { query.now.k ≤ MOST_QUEUED }
    ensures ended { index.new ≡ after_end CALLER view.number index.old }
    ensures legal { IsLegal index.new }
{
    let reply = answer_in(desk, alloc, &view, line, query);
    end(index, wait, view);
    reply
}

fn query(
    index: &mut SingleIndex,
    wait: &impl Wait,
    desk: &mut Desk,
    alloc: Global,
    line: u64,
    query: &Query,
) -> Result<Reply, AllocError>
    ensures reply { IfOk result (λ r. (w : PlainWorker) → w.seen ≡ index.old
        → Answers line (query_step CALLER line query.now w) (plain_reply r)
        (with_seen index.new w)) }
    ensures passes { Passes index.old index.new }
{
    refresh(index, wait)?;
    match begin(index, wait)? {
        Some(view) => {
            let reply = answer_and_end(index, wait, desk, alloc, line, query, view)?;
            Ok(reply)
        }
        None => Ok(Reply::Error {
            line,
            error: ErrorKind::Views,
        }),
    }
}

fn ask(
    index: &SingleIndex,
    opened: &Vec<Opened>,
    desk: &mut Desk,
    alloc: Global,
    line: u64,
    query: &Query,
    name: &Text,
) -> Result<Reply, AllocError>
    requires { IsWorking index.now opened.now.items }
    ensures { IfOk result (λ r. Answers line
        (named_step line query.now (named name.now (map open_of opened.now.items))
        (worker_of index.now opened.now.items)) (plain_reply r)
        (worker_of index.now opened.now.items)) }
{
    match position_of(opened, name) {
        Some(at) => {
            let found = &opened[at];
            let reply = answer_in(desk, alloc, &found.view, line, query)?;
            Ok(reply)
        }
        None => Ok(Reply::Error {
            line,
            error: ErrorKind::View,
        }),
    }
}

// A view under a name that no other has.
fn open_new(
    index: &mut SingleIndex,
    wait: &impl Wait,
    opened: &mut Vec<Opened>,
    alloc: Global,
    line: u64,
    name: Text,
) -> Result<Reply, AllocError>
    requires working { IsWorking index.old opened.old.items }
    requires new { position_from (λ o. bytes_eq o.name name) 0 opened.old.items ≡ None }
    ensures reply { IfOk result (λ r. Answers line
        (open_step CALLER line name (named name (map open_of opened.old.items))
        (worker_of index.old opened.old.items)) (plain_reply r)
        (worker_of index.new opened.new.items)) }
    ensures working { IsWorking index.new opened.new.items }
{
    // A place for the view, before it begins.
    opened.reserve(1)?;
    let shown = Text::of(alloc, name.as_str())?;
    refresh(index, wait)?;
    match begin(index, wait)? {
        Some(view) => {
            let upto = view.upto();
            opened.push_reserved(Opened { name, view });
            Ok(Reply::Opened {
                line,
                view: shown,
                upto,
            })
        }
        None => Ok(Reply::Error {
            line,
            error: ErrorKind::Views,
        }),
    }
}

fn open(
    index: &mut SingleIndex,
    wait: &impl Wait,
    opened: &mut Vec<Opened>,
    alloc: Global,
    line: u64,
    name: Text,
) -> Result<Reply, AllocError>
    requires { IsWorking index.old opened.old.items }
    ensures reply { IfOk result (λ r. Answers line
        (open_step CALLER line name (named name (map open_of opened.old.items))
        (worker_of index.old opened.old.items)) (plain_reply r)
        (worker_of index.new opened.new.items)) }
    ensures working { IsWorking index.new opened.new.items }
{
    match position_of(opened, &name) {
        None => open_new(index, wait, opened, alloc, line, name),
        Some(_) => Ok(Reply::Error {
            line,
            error: ErrorKind::View,
        }),
    }
}

fn close(
    index: &mut SingleIndex,
    wait: &impl Wait,
    opened: &mut Vec<Opened>,
    line: u64,
    name: Text,
) -> Reply
    requires { IsWorking index.old opened.old.items }
    ensures reply { Answers line
        (close_step CALLER line name (named name (map open_of opened.old.items))
        (worker_of index.old opened.old.items)) (plain_reply result)
        (worker_of index.new opened.new.items) }
    ensures working { IsWorking index.new opened.new.items }
{
    match position_of(opened, &name) {
        Some(at) => {
            let closed = opened.remove(at);
            end_opened(index, wait, closed);
            Reply::Closed { line, view: name }
        }
        None => Reply::Error {
            line,
            error: ErrorKind::View,
        },
    }
}

fn suggest(
    worker: &mut Worker,
    wait: &impl Wait,
    alloc: Global,
    line: u64,
    asked: &Query,
    view: Option<Text>,
) -> Result<Reply, AllocError>
    requires { IsWorking worker.old.index worker.old.opened.items }
    ensures reply { IfOk result (λ r. (lane : ℕ) → Answers line
        (step CALLER line (suggests lane asked.now view)
        (worker_of worker.old.index worker.old.opened.items)) (plain_reply r)
        (worker_of worker.new.index worker.new.opened.items)) }
    ensures working { IsWorking worker.new.index worker.new.opened.items }
{
    match view {
        None => {
            let reply = query(
                &mut worker.index,
                wait,
                &mut worker.desk,
                alloc,
                line,
                asked,
            )?;
            Ok(reply)
        }
        Some(name) => ask(
            &worker.index,
            &worker.opened,
            &mut worker.desk,
            alloc,
            line,
            asked,
            &name,
        ),
    }
}

fn flush_line(index: &mut SingleIndex, wait: &impl Wait, line: u64) -> Result<Reply, AllocError>
    ensures reply { IfOk result (λ r. (w : PlainWorker) → w.seen ≡ index.old
        → Answers line (flush_step CALLER line w) (plain_reply r) (with_seen index.new w)) }
    ensures passes { Passes index.old index.new }
{
    let count = refresh(index, wait)?;
    Ok(Reply::Built { line, count })
}

fn merge_line(index: &mut SingleIndex, wait: &impl Wait, line: u64) -> Result<Reply, AllocError>
    ensures reply { IfOk result (λ r. (w : PlainWorker) → w.seen ≡ index.old
        → Answers line (merge_step CALLER line w) (plain_reply r) (with_seen index.new w)) }
    ensures passes { Passes index.old index.new }
{
    let count = merge(index, wait)?;
    Ok(Reply::Merged { line, count })
}

/// What a command prints as line number `line`, if it prints anything.
fn step(
    worker: &mut Worker,
    wait: &impl Wait,
    alloc: Global,
    line: u64,
    command: Command,
) -> Result<Option<Reply>, AllocError>
    requires working { IsWorking worker.old.index worker.old.opened.items }
    requires read { IsRead (plain_command command) }
    ensures reply { IfOk result (λ r. MayAnswer line
        (step CALLER line (plain_command command)
        (worker_of worker.old.index worker.old.opened.items)) (option_map plain_reply r)
        (worker_of worker.new.index worker.new.opened.items)) }
    ensures working { IsWorking worker.new.index worker.new.opened.items }
{
    match command {
        Command::Blank => Ok(None),
        Command::Accept { lane: _, op } => Ok(Some(accept(&mut worker.index, wait, line, op)?)),
        Command::Suggest {
            lane: _,
            query,
            view,
        } => Ok(Some(suggest(worker, wait, alloc, line, &query, view)?)),
        Command::OpenView { lane: _, name } => Ok(Some(open(
            &mut worker.index,
            wait,
            &mut worker.opened,
            alloc,
            line,
            name,
        )?)),
        Command::CloseView { lane: _, name } => Ok(Some(close(
            &mut worker.index,
            wait,
            &mut worker.opened,
            line,
            name,
        ))),
        Command::Flush { lane: _ } => Ok(Some(flush_line(&mut worker.index, wait, line)?)),
        Command::Merge { lane: _ } => Ok(Some(merge_line(&mut worker.index, wait, line)?)),
        // No line asks for a barrier, and the caller knows.
        Command::Barrier => unreachable!(),
    }
}

/// What a line prints as line number `line`, if it prints anything.
pub(crate) fn answer(
    worker: &mut Worker,
    wait: &impl Wait,
    alloc: Global,
    line: u64,
    bytes: &[u8],
) -> Result<Option<Reply>, AllocError>
    requires { IsWorking worker.old.index worker.old.opened.items }
    ensures reply { IfOk result (λ r. MayAnswer line
        (step CALLER line (command_of standard LANES bytes.now)
        (worker_of worker.old.index worker.old.opened.items)) (option_map plain_reply r)
        (worker_of worker.new.index worker.new.opened.items)) }
    ensures working { IsWorking worker.new.index worker.new.opened.items }
{
    match command(alloc, bytes, LANES, &STANDARD) {
        Ok(command) => step(worker, wait, alloc, line, command),
        Err(refused) => match refused.kind() {
            Some(error) => Ok(Some(Reply::Error { line, error })),
            None => Err(AllocError),
        },
    }
}
