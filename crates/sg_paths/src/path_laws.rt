//! What holds of the paths of every document.
ghost use Rattle.sg_paths.specs.Paths.{EachPairHasOnePath, EachEntryHasAPath};
ghost use Rattle.sg_paths.specs.PathLaws.{NumbersCountEarlierEntries, AllPathsAreThoseOfDocuments};

/// No two paths of a document have one context and key.
pub fn each_pair_has_one_path()
    ensures { EachPairHasOnePath }
{}

/// What a suggestion has in a context has a path with the same context and key: its own, or one
/// of a greater weight or, at the same weight, of an earlier place.
pub fn each_entry_has_a_path()
    ensures { EachEntryHasAPath }
{}

/// Among the paths of documents the number of one is how many entries with its context and key come
/// before it.
pub fn numbers_count_the_entries_before()
    ensures { NumbersCountEarlierEntries }
{}

/// All paths of documents are the paths of each of them, each once.
pub fn all_paths_are_those_of_documents()
    ensures { AllPathsAreThoseOfDocuments }
{}
