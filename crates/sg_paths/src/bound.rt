//! A bound of the paths of documents, counted without making them.
ghost use Rattle.std.specs.Prelude.{◌≡◌, ◌≤◌, ◌*◌, max, length};
ghost use Rattle.sg_paths.specs.AllPaths.{path_entries};
ghost use Rattle.sg_paths.specs.declared.limits.TheConstants.{MOST_SEGMENT_DOCUMENTS};
ghost use Rattle.sg_paths.specs.PathBounds.{contexts_given, contexts_given_in};

use crate::op::Numbered;
use crate::suggestion::Suggestion;

fn contexts_of_one(suggestion: &Suggestion) -> u64
    ensures value { result ≡ max 1 (length suggestion.now.contexts) }
    ensures most { result ≤ 16 }
{
    let count = suggestion.contexts.items().len();
    if count == 0 { 1 } else { count as u64 }
}

fn contexts_of_all(suggestions: &[Suggestion]) -> u64
    requires { length suggestions.now ≤ 16 }
    ensures value { result ≡ contexts_given suggestions.now }
    ensures most { result ≤ 256 }
{
    let mut count: u64 = 0;
    for suggestion in suggestions {
        count += contexts_of_one(suggestion);
    }
    count
}

fn contexts_of_document(numbered: &Numbered) -> u64
    ensures value { result ≡ contexts_given numbered.now.document.suggestions }
    ensures most { result ≤ 256 }
{
    let document = &numbered.document;
    contexts_of_all(document.suggestions.items())
}

/// How many contexts the suggestions are given with, where one without any counts as one: the
/// documents have at most as many paths.
pub fn paths_at_most(docs: &[Numbered]) -> u64
    requires { length docs.now ≤ MOST_SEGMENT_DOCUMENTS }
    ensures value { result ≡ contexts_given_in docs.now }
    ensures bound { length (path_entries 0 docs.now) ≤ result }
    ensures most { result ≤ 256 * length docs.now }
{
    let mut count: u64 = 0;
    for numbered in docs {
        count += contexts_of_document(numbered);
    }
    count
}
