//! One merge of the index at a time.
ghost use Rattle.std.specs.Prelude.{◌≡◌, IfOk, OnOk, OnErr, length};
ghost use Rattle.index_core.specs.LegalHistories.{IsLegal};
ghost use Rattle.index_core.specs.MergeCalls.{merge_of, merge_begun_by, after_commit, after_drop};
ghost use Rattle.index_single.specs.Alone.{HasJob};
ghost use Rattle.index_single.specs.declared.caller.TheConstants.{CALLER};
ghost use Rattle.sg_shell.specs.Workers.{merged_count, after_merge};
ghost use Rattle.sg_shell.specs.Working.{Passes};

use index_single::SingleIndex;
use merge_work::MergeJob;
use std::alloc::AllocError;
use std::sync::Wait;

/// Works a merge that has begun, ends it, and answers how many segments it merged; drops it where
/// there is no memory for that.
fn finish(index: &mut SingleIndex, wait: &impl Wait, job: MergeJob) -> Result<u32, AllocError>
    requires { HasJob index.old job }
    ensures count { IfOk result (λ count. count ≡ length job.generations) }
    ensures ok { OnOk result (index.new ≡ after_commit CALLER (merge_of CALLER job) index.old) }
    ensures err { OnErr result (index.new ≡ after_drop CALLER (merge_of CALLER job) index.old) }
    ensures legal { IsLegal index.new }
{
    let count = job.sources();
    match job.work() {
        Ok(done) => {
            let _ = index.commit_merge(wait, done);
            Ok(count)
        }
        Err(job) => {
            index.drop_merge(wait, job);
            Err(AllocError)
        }
    }
}

/// Merges what the plan says, if it says anything, and answers how many segments were merged. After
/// want of memory no merge is open that wasn't before.
pub(crate) fn merge(index: &mut SingleIndex, wait: &impl Wait) -> Result<u32, AllocError>
    ensures count { IfOk result (λ count. count ≡ merged_count (merge_begun_by CALLER index.old)) }
    ensures ok { OnOk result (index.new ≡ after_merge CALLER index.old) }
    ensures passes { Passes index.old index.new }
{
    match index.begin_merge(wait)? {
        Some(job) => finish(index, wait, job),
        None => Ok(0),
    }
}
