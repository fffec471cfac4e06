//! How many bytes documents take, and that their bytes can hold them.
ghost use Rattle.std.specs.Prelude.{◌≡◌, ◌≤◌, ◌+◌, ◌*◌, true, length};
ghost use Rattle.std.specs.List.{AllByRecursion, flat_map};
ghost use Rattle.sg_paths.specs.declared.limits.TheConstants.{MOST_CONTEXTS, MOST_SUGGESTIONS};
ghost use Rattle.sg_paths.specs.declared.limits.TheConstants.{MOST_SEGMENT_DOCUMENTS};
ghost use Rattle.seg_bytes.specs.DocumentBytes.{document_bytes, documents_bytes, short_bytes};
ghost use Rattle.seg_bytes.specs.DocumentBytes.{suggestion_bytes};
ghost use Rattle.seg_bytes.specs.DocumentsRead.{may_be_context};
ghost use Rattle.seg_bytes.specs.Laws.{IsWritable, IsWritableSuggestion};

use sg_base::Context;
use sg_paths::{Numbered, Suggestion};

fn context_len(context: &Context) -> usize
    ensures value { result ≡ length (short_bytes context.now) }
    ensures most { result ≤ 64 }
    ensures writable { may_be_context context.now ≡ true }
{
    1 + context.as_str().len()
}

fn contexts_len(contexts: &[Context]) -> usize
    requires { length contexts.now ≤ MOST_CONTEXTS }
    ensures value { result ≡ length (flat_map short_bytes contexts.now) }
    ensures most { result ≤ 1024 }
    ensures writable { AllByRecursion (λ c. may_be_context c ≡ true) contexts.now }
{
    let mut bytes = 0;
    for context in contexts {
        bytes += context_len(context);
    }
    bytes
}

#[tactic(auto, unfolding(crate::specs::DocumentBytes::suggestion_bytes))]
fn suggestion_len(suggestion: &Suggestion) -> usize
    ensures value { result ≡ length (suggestion_bytes suggestion.now) }
    ensures most { result ≤ 2311 }
    ensures writable { IsWritableSuggestion suggestion.now }
{
    let text = suggestion.text.as_str().len();
    let key = suggestion.key.as_slice().len();
    let contexts = contexts_len(suggestion.contexts.items());
    2 + text + 1 + key + 4 + 1 + contexts
}

fn suggestions_len(suggestions: &[Suggestion]) -> usize
    requires { length suggestions.now ≤ MOST_SUGGESTIONS }
    ensures value { result ≡ length (flat_map suggestion_bytes suggestions.now) }
    ensures most { result ≤ 36976 }
    ensures writable { AllByRecursion IsWritableSuggestion suggestions.now }
{
    let mut bytes = 0;
    for suggestion in suggestions {
        bytes += suggestion_len(suggestion);
    }
    bytes
}

/// How many bytes a document takes.
#[tactic(auto, unfolding(crate::specs::DocumentBytes::document_bytes))]
pub(crate) fn document_len(numbered: &Numbered) -> usize
    ensures value { result ≡ length (document_bytes numbered.now) }
    ensures most { result ≤ 65536 }
    ensures writable { IsWritable numbered.now }
{
    let document = &numbered.document;
    let id = document.id.as_str().len();
    let suggestions = suggestions_len(document.suggestions.items());
    let _seq = numbered.seq;
    8 + 1 + id + 1 + suggestions
}

/// How many bytes documents take, which can hold each of them.
pub fn documents_len(docs: &[Numbered]) -> usize
    requires { length docs.now ≤ MOST_SEGMENT_DOCUMENTS }
    ensures value { result ≡ length (documents_bytes docs.now) }
    ensures most { result ≤ 65536 * length docs.now }
    ensures writable { AllByRecursion IsWritable docs.now }
{
    let mut bytes = 0;
    for numbered in docs {
        bytes += document_len(numbered);
    }
    bytes
}
