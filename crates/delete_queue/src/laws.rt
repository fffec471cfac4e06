//! What the deletes of batches say of a journal.
ghost use Rattle.delete_queue.specs.JournalDeletes.{DeletesSinceComplete};

/// Beyond the number through which deletes are known, exactly the documents that the deletes since
/// reach are deleted too.
pub fn deletes_since_complete_what_is_known()
    ensures { DeletesSinceComplete }
{}
