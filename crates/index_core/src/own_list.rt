//! Lists that are ready for the end of each open view and each open merge.
ghost use Rattle.std.specs.Prelude.{◌≡◌, ◌≤◌, IfOk, nat_eq, length};
ghost use Rattle.std.specs.List.{position_from};
ghost use Rattle.std.specs.Vec.{vec_capacity};
ghost use Rattle.index_core.specs.OwnLists.{list_of, without_list};

use sg_base::List;
use std::alloc::{AllocError, Global};
use std::marker::Model;

/// The generations of an open view or an open merge, under its number.
#[derive(Drop)]
pub(crate) struct OwnList {
    pub number: u64,
    pub gens: Vec<u32>,
}

impl Model for OwnList {
    ghost use Rattle.index_core.specs.OwnLists.{PlainOwnList};

    ghost Value = { PlainOwnList };

    ghost view = { λ l. record { number = l.number; generations = l.gens.items } };
}

fn place_of(lists: &[OwnList], number: u64) -> Option<usize>
    ensures { result ≡ position_from (λ l. nat_eq l.number number) 0 lists.now }
{
    lists.iter().position(|list| list.number == number)
}

/// Takes the list of a number out of some.
pub(crate) fn take_list(alloc: Global, lists: &mut Vec<OwnList>, number: u64) -> Vec<u32>
    ensures list { result.items ≡ list_of number lists.old.items }
    ensures lists { lists.new.items ≡ without_list number lists.old.items }
    ensures places { vec_capacity lists.new ≡ vec_capacity lists.old }
{
    match place_of(lists.as_slice(), number) {
        Some(at) => {
            let OwnList { number: _, gens } = lists.remove(at);
            gens
        }
        None => Vec::new(alloc),
    }
}

/// These numbers, in the places of a list.
pub(crate) fn told_in(list: Vec<u32>, numbers: &[u32]) -> List<u32>
    requires { length numbers.now ≤ length list.items }
    ensures { result.items ≡ numbers.now }
{
    let mut list = list;
    list.clear();
    let Ok(()) = list.extend_from_slice(numbers) else {
        unreachable!()
    };
    List::of(list)
}

/// The generations of a view or a merge that begins: for the event of its begin, and for that of
/// its end.
pub(crate) struct TwoLists {
    pub event: List<u32>,
    pub own: Vec<u32>,
}

pub(crate) fn two_lists(alloc: Global, gens: &[u32]) -> Result<TwoLists, AllocError>
    ensures event { IfOk result (λ lists. lists.event.items ≡ gens.now) }
    ensures own { IfOk result (λ lists. lists.own.items ≡ gens.now) }
{
    let event = Vec::from_slice(alloc, gens)?;
    let own = Vec::from_slice(alloc, gens)?;
    Ok(TwoLists {
        event: List::of(event),
        own,
    })
}
