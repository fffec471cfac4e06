//! The rules that say where the nodes stand.
ghost use Rattle.std.specs.Prelude.{◌≡◌, ◌<◌, ◌≤◌, ◌+◌, ◌*◌, ◌-◌, [], ◌∷◌, length, None};
ghost use Rattle.fst_code.specs.Bytes.{arc_count, path_count, first_form, node_count, numbers_at};
ghost use Rattle.fst_code.specs.Rules.{common, ends_broken, ends_next, entries_broken};
ghost use Rattle.fst_code.specs.Rules.{rule_1, rule_2, rule_3, rule_4};

use crate::layout::{ARC, ARC_COUNT, ENTRY, HEADER, MOST_ARCS, NODE_COUNT, PATH_COUNT};
use crate::numbers::number_at;

/// Where bytes end that have no whole header.
pub(crate) fn missing_header(bytes: &[u8]) -> Option<usize>
    ensures { result ≡ rule_1 bytes.now }
{
    if bytes.len() < HEADER {
        Some(bytes.len())
    } else {
        None
    }
}

/// How many bytes at the front are those of a name.
fn common_front(bytes: &[u8], name: &[u8]) -> usize
    requires { length name.now ≤ length bytes.now }
    ensures { result ≡ common name.now bytes.now }
{
    let count = name.len();
    for i in 0..count {
        if name[i] != bytes[i] {
            return i;
        }
    }
    count
}

/// The first byte that isn't that of the name.
pub(crate) fn wrong_name(bytes: &[u8]) -> Option<usize>
    requires { 16 ≤ length bytes.now }
    ensures { result ≡ rule_2 (first_form ∷ []) bytes.now }
{
    let most = common_front(bytes, b"SGT1");
    if most < 4 { Some(most) } else { None }
}

/// Where bytes end that are too few, or go on that are too many.
pub(crate) fn wrong_length(bytes: &[u8]) -> Option<usize>
    requires { 16 ≤ length bytes.now }
    ensures { result ≡ rule_3 first_form bytes.now }
{
    let whole = HEADER
        + ENTRY * number_at(bytes, NODE_COUNT) as usize
        + ARC * number_at(bytes, ARC_COUNT) as usize;
    if bytes.len() == whole {
        None
    } else if bytes.len() < whole {
        Some(bytes.len())
    } else {
        Some(whole)
    }
}

/// The first later entry that isn't 1 to 256 over the one before, and the last if it isn't all.
fn wrong_later_entry(bytes: &[u8], count: u32, all: u32) -> Option<usize>
    requires some { 1 < count }
    requires within { 16 + 4 * count ≤ length bytes.now }
    ensures { result ≡ ends_broken all 20 0 (numbers_at (count - 1) 20 bytes.now) }
{
    let mut from = 0;
    for id in 1..count {
        let at = HEADER + ENTRY * id as usize;
        let end = number_at(bytes, at);
        if !is_next(from, end, id + 1 == count, all) {
            return Some(at);
        }
        from = end;
    }
    None
}

fn is_next(from: u32, end: u32, last: bool, all: u32) -> bool
    ensures { result ≡ ends_next from end last all }
{
    from < end && end - from <= MOST_ARCS && (!last || end == all)
}

/// The first wrong entry, or a count in the header of a text without nodes.
pub(crate) fn wrong_entry(bytes: &[u8]) -> Option<usize>
    requires long { 16 ≤ length bytes.now }
    requires whole { rule_3 first_form bytes.now ≡ None }
    ensures { result ≡ rule_4 bytes.now }
{
    let count = number_at(bytes, NODE_COUNT);
    let all = number_at(bytes, ARC_COUNT);
    if count == 0 {
        return wrong_empty_count(bytes);
    }
    if count == 1 {
        return Some(NODE_COUNT);
    }
    if number_at(bytes, HEADER) != 0 {
        return Some(HEADER);
    }
    wrong_later_entry(bytes, count, all)
}

fn wrong_empty_count(bytes: &[u8]) -> Option<usize>
    requires { 16 ≤ length bytes.now }
    ensures { result ≡ entries_broken (arc_count bytes.now) (path_count bytes.now) [] }
{
    if number_at(bytes, ARC_COUNT) != 0 {
        Some(ARC_COUNT)
    } else if number_at(bytes, PATH_COUNT) != 0 {
        Some(PATH_COUNT)
    } else {
        None
    }
}
