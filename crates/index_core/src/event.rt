//! What happened to the index.
use sg_base::List;

/// What happened to the index, in the order of its history. Operations, generations, views and
/// merges are numbered from 1, each kind by itself. Contracts see it through `event_of`.
#[derive(Debug, Drop)]
pub enum Event {
    /// An operation joined the journal.
    Accept {
        caller: u32,
        seq: u64,
    },
    /// The buffered operations became the unbuilt batch `generation`.
    Seal {
        caller: u32,
        generation: u32,
        from: u64,
        upto: u64,
    },
    /// A view of the first `upto` operations holds the current generations.
    Begin {
        view: u64,
        caller: u32,
        upto: u64,
        gens: List<u32>,
    },
    /// A generation has its segment.
    Built {
        caller: u32,
        generation: u32,
    },
    /// The live docs of a generation know all deletes up to `applied`.
    Lived {
        caller: u32,
        generation: u32,
        applied: u64,
    },
    /// A merge holds built current generations.
    MergeBegin {
        caller: u32,
        merge: u64,
        gens: List<u32>,
    },
    /// The merge's generations are replaced by `into`, or by none where no document was live.
    MergeEnd {
        caller: u32,
        merge: u64,
        into: Option<u32>,
        freed: List<u32>,
    },
    /// A merge is given up; its generations stay current.
    MergeDrop {
        caller: u32,
        merge: u64,
    },
    /// A view is given back.
    End {
        caller: u32,
        view: u64,
        freed: List<u32>,
    },
}
