//! The queue size of a segment.
ghost use Rattle.std.specs.Prelude.{◌≡◌, ◌<◌};
ghost use Rattle.sg_answers.specs.Reports.{queue_size_of};

use sg_answers::MOST_QUEUED;

/// How many paths a search for k rows keeps among so many documents with at most so many paths
/// each, where so many are live.
pub fn queue_size(k: u32, most_paths: u32, documents: u32, live: u32) -> u32
    requires { 0 < live }
    ensures { result ≡ queue_size_of k most_paths documents live }
{
    let live = u128::from(live);
    let paths = u128::from(k) * u128::from(most_paths) * u128::from(documents);
    let size = (paths + (live - 1)) / live;
    size.min(u128::from(MOST_QUEUED)) as u32
}
