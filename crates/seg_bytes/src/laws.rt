//! What is true of the definitions.
ghost use Rattle.seg_bytes.specs.Example.{TheExample};
ghost use Rattle.seg_bytes.specs.Laws.{DocumentsReadBack, OneListOfDocuments, OnlyWrittenIsRead};

/// The format's example is written and read.
pub fn the_example_is_read()
    ensures { TheExample }
{}

/// Documents that were written are read back, wherever their bytes stand.
pub fn what_was_written_is_read()
    ensures { DocumentsReadBack }
{}

/// As many documents with the same bytes are the same documents.
pub fn the_bytes_tell_the_documents()
    ensures { OneListOfDocuments }
{}

/// Documents that are read stand there as they are written, so that no two texts are read as one
/// list.
pub fn what_is_read_was_written()
    ensures { OnlyWrittenIsRead }
{}
