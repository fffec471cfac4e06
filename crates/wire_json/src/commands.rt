//! What lines ask for.
use sg_base::Text;
use sg_context::Query;
use sg_paths::Op;

/// What a line asks for. `lane` is the number of the worker, from 0.
#[derive(Debug, Drop)]
pub enum Command {
    /// An operation on the index.
    Accept {
        lane: u32,
        op: Op,
    },
    /// The best rows, in the view of this name or over all operations so far.
    Suggest {
        lane: u32,
        query: Query,
        view: Option<Text>,
    },
    /// A view of all operations so far, which stays as it is under its name.
    OpenView {
        lane: u32,
        name: Text,
    },
    CloseView {
        lane: u32,
        name: Text,
    },
    /// What is buffered becomes segments.
    Flush {
        lane: u32,
    },
    /// One merge of segments, if one is due.
    Merge {
        lane: u32,
    },
    /// All lines before it are done before those behind it.
    Barrier,
    /// A line of spaces, tabs and carriage returns alone, which has no reply.
    Blank,
}
