//! The order in which a builder takes paths.
ghost use Rattle.std.specs.Prelude.{IsTrue, ◌↔◌};
ghost use Rattle.fst_build.specs.Sorted.{GoesOn};

/// Whether a path is greater than another one in byte order and doesn't begin with it: a builder
/// whose last path is that one takes it next.
pub fn goes_on(last: &[u8], path: &[u8]) -> bool
    ensures { IsTrue result ↔ GoesOn last.now path.now }
{
    for at in 0..last.len() {
        if at >= path.len() {
            return false;
        }
        if last[at] != path[at] {
            return last[at] < path[at];
        }
    }
    false
}
