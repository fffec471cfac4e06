//! The levels of a path that branches off from the last one.
ghost use Rattle.std.specs.Prelude.{◌≡◌, ◌<◌, ◌≤◌, ◌+◌, ◌++◌, ◌∷◌, ◌-◌, [], length, drop, map};
ghost use Rattle.std.specs.Prelude.{slice_index, slice_set};
ghost use Rattle.std.specs.Vec.{vec_len, vec_capacity};
ghost use Rattle.fst_build.specs.declared.level.Level.{Level};
ghost use Rattle.fst_build.specs.Levels.{branched_level, fresh_level, last_edge, shared_length};

use crate::carried::Carried;
use crate::level::Level;
use sg_base::Edge;

/// How many labels at the front of the last path are those of a path.
pub fn shared_front(levels: &[Level], path: &[u8]) -> usize
    ensures { result ≡ shared_length levels.now path.now }
{
    for at in 0..path.len() {
        if at >= levels.len() {
            return at;
        }
        if levels[at].label != path[at] {
            return at;
        }
    }
    path.len()
}

/// Finishes the deepest level's last arc, and goes on by a path's labels from there.
pub fn branch(
    levels: &mut Vec<Level>,
    edges: &mut Vec<Edge>,
    level: Level,
    carried: Carried,
    kept: usize,
    path: &[u8],
)
    requires top { kept + 1 ≡ length levels.old.items }
    requires path { kept < length path.now }
    requires count { level.count + carried.count < 4294967296 }
    requires held { level.held < 4294967295 }
    requires levels_room { vec_len levels.old + length path.now ≤ vec_capacity levels.old }
    requires edges_room { vec_len edges.old < vec_capacity edges.old }
    ensures edges { edges.new.items ≡ edges.old.items ++ last_edge level carried ∷ [] }
    ensures levels { levels.new.items
        ≡ slice_set levels.old.items kept
        (branched_level level carried (slice_index path.now kept))
        ++ map fresh_level (drop (kept + 1) path.now) }
{
    edges.push_reserved(Edge {
        label: level.label,
        cost: carried.cost,
        before: level.count,
        target: carried.target,
    });
    levels[kept] = Level {
        label: path[kept],
        count: level.count + carried.count,
        held: level.held + 1,
    };
    extend(levels, path, kept + 1);
}

/// Appends a level for each label of a path from a place on.
pub fn extend(levels: &mut Vec<Level>, path: &[u8], from: usize)
    requires from { from ≤ length path.now }
    requires room { vec_len levels.old + (length path.now - from) ≤ vec_capacity levels.old }
    ensures { levels.new.items ≡ levels.old.items ++ map fresh_level (drop from path.now) }
{
    for at in from..path.len() {
        levels.push_reserved(Level {
            label: path[at],
            count: 0,
            held: 0,
        });
    }
}
