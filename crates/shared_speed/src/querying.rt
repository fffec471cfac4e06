//! Queries through a handle, each in a view of its own.
ghost use Rattle.index_shared.specs.Sections.{IsAt};
ghost use Rattle.shared_speed.specs.Sharing.{KeepsViews};

use crate::documents::numbered_query;
use crate::tally::Tally;
use crate::working::Shift;
use collector::Report;
use index_shared::{Handle, Index};
use path_desk::{Desk, SegReport};
use sg_base::{Plain, Steps};
use sg_context::Query;
use sg_view::View;
use std::alloc::Global;
use std::sync::Wait;

/// What a query found.
#[derive(Clone, Copy, Debug, PartialEq, Eq)]
pub struct Found {
    /// How many operations its view saw.
    pub upto: u64,
    pub rows: u64,
}

// Searches a view. The report's list goes back to the desk.
fn search(view: &View, query: &Query, desk: &mut Desk) -> Option<Found> {
    view.reserve(query, desk).ok()?;
    let mut steps = Steps::new(Plain);
    let Report { hits, cut } = view.suggest(query, desk, &mut steps).ok()?;
    let rows = hits.items().len() as u64;
    desk.take_back(SegReport { hits, cut });
    Some(Found {
        upto: view.upto(),
        rows,
    })
}

/// Begins a view, builds it, searches it and ends it.
pub fn ask(
    wait: &impl Wait,
    index: &Index,
    handle: &mut Handle,
    query: &Query,
    desk: &mut Desk,
) -> Option<Found>
    requires at { IsAt index.now handle.old }
    ensures at { IsAt index.now handle.new }
    ensures views { KeepsViews handle.old handle.new }
{
    let Ok(ticket) = index.begin_view(wait, handle) else {
        return None;
    };
    match ticket.build() {
        Ok(view) => {
            let found = search(&view, query, desk);
            index.end_view(wait, handle, view);
            found
        }
        Err(ticket) => {
            index.end_ticket(wait, handle, ticket);
            None
        }
    }
}

/// Asks the query with this number.
pub fn ask_numbered(
    wait: &impl Wait,
    alloc: Global,
    index: &Index,
    handle: &mut Handle,
    number: u64,
    desk: &mut Desk,
) -> Option<Found>
    requires at { IsAt index.now handle.old }
    ensures at { IsAt index.now handle.new }
    ensures views { KeepsViews handle.old handle.new }
{
    let query = numbered_query(alloc, number)?;
    ask(wait, index, handle, &query, desk)
}

/// Asks as often as the shift says, or until it is over.
pub fn ask_often(
    wait: &impl Wait,
    alloc: Global,
    index: &Index,
    handle: &mut Handle,
    shift: &Shift,
) -> Option<Tally>
    requires at { IsAt index.now handle.old }
    ensures at { IsAt index.now handle.new }
    ensures views { KeepsViews handle.old handle.new }
{
    let mut desk = Desk::new(alloc);
    let mut rows = 0u64;
    for round in 0..shift.times {
        if shift.is_over() {
            return Some(Tally {
                times: round as u64,
                rows,
            });
        }
        let found = ask_numbered(wait, alloc, index, handle, round as u64, &mut desk)?;
        rows = rows.saturating_add(found.rows);
    }
    Some(Tally {
        times: shift.times as u64,
        rows,
    })
}
