//! The first of truncation points.
ghost use Rattle.std.specs.Prelude.{◌≡◌};
ghost use Rattle.std.specs.Ordering.{is_lt};
ghost use Rattle.sg_answers.specs.Closing.{cut_cmp};
ghost use Rattle.sg_answers.specs.Scans.{sooner};

use sg_base::Cut;

fn is_before(one: &Cut, other: &Cut) -> bool
    ensures { result ≡ is_lt (cut_cmp one.now other.now) }
{
    let order = other
        .score
        .cmp(&one.score)
        .then(one.key.as_slice().cmp(other.key.as_slice()))
        .then(one.generation.cmp(&other.generation));
    order.is_lt()
}

/// The first of two that there may be: a greater score, then the lesser key, then the lesser
/// generation.
pub(crate) fn first_cut(one: Option<Cut>, other: Option<Cut>) -> Option<Cut>
    ensures { result ≡ sooner cut_cmp one other }
{
    match (one, other) {
        (None, other) => other,
        (Some(one), None) => Some(one),
        (Some(one), Some(other)) => {
            if is_before(&other, &one) {
                Some(other)
            } else {
                Some(one)
            }
        }
    }
}
