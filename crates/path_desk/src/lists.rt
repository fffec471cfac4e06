//! The lists of hits that a desk keeps.
ghost use Rattle.std.specs.Prelude.{◌≡◌, ◌<◌, ◌≤◌, ◌+◌, [], true, IfOk, OnOk, OnErr, IsSomeAnd};
ghost use Rattle.std.specs.Vec.{vec_capacity};
ghost use Rattle.path_desk.specs.Lists.{lists_of, kept_count};

use sg_base::Hit;
use std::alloc::{AllocError, Global};
use std::marker::Model;

/// At most two empty lists of hits, each with the places that were reserved.
#[derive(Drop)]
pub struct Lists {
    places: u32,
    first: Option<Vec<Hit>>,
    second: Option<Vec<Hit>>,
}

impl Model for Lists {
    ghost use Rattle.std.specs.Prelude.{◌≡◌, ◌≤◌, ◌+◌, [], IfSome};
    ghost use Rattle.std.specs.Vec.{vec_capacity};
    ghost use Rattle.path_desk.specs.Lists.{PlainLists, held};

    ghost Value = { PlainLists };

    ghost view = { λ l. record { places = l.places; count = held l.first + held l.second } };

    ghost invariant = { λ l.
        IfSome l.first (λ v. (v.items ≡ []) × (l.places ≤ vec_capacity v))
        × IfSome l.second (λ v. (v.items ≡ []) × (l.places ≤ vec_capacity v)) };
}

// Whether a list is there, and has these places.
fn has_places(list: &Option<Vec<Hit>>, places: u32) -> bool
    ensures { result ≡ true → IsSomeAnd list.now (λ v. places ≤ vec_capacity v) }
{
    match list {
        None => false,
        Some(hits) => places as usize <= hits.capacity(),
    }
}

impl Lists {
    pub fn new() -> Lists
        ensures { result ≡ lists_of 0 0 }
    {
        Lists {
            places: 0,
            first: None,
            second: None,
        }
    }

    /// Two lists with these places.
    fn reserved(alloc: Global, places: u32) -> Result<Lists, AllocError>
        ensures { IfOk result (λ l. l ≡ lists_of places 2) }
    {
        Ok(Lists {
            places,
            first: Some(Vec::with_capacity(alloc, places as usize)?),
            second: Some(Vec::with_capacity(alloc, places as usize)?),
        })
    }

    /// Sees to it that there are two lists, with these places. Takes no memory where there are.
    pub fn reserve(&mut self, alloc: Global, places: u32) -> Result<(), AllocError>
        ensures ok { OnOk result (self.new ≡ lists_of places 2) }
        ensures err { OnErr result (self.new ≡ self.old) }
    {
        if has_places(&self.first, places) && has_places(&self.second, places) {
            self.places = places;
            return Ok(());
        }
        *self = Lists::reserved(alloc, places)?;
        Ok(())
    }

    pub fn take(&mut self) -> Vec<Hit>
        requires { 0 < self.old.count }
        ensures empty { result.items ≡ [] }
        ensures places { self.old.places ≤ vec_capacity result }
        ensures rest { lists_of self.new.places (self.new.count + 1) ≡ self.old }
        ensures most { self.new.count < 2 }
    {
        if let Some(hits) = self.second.take() {
            return hits;
        }
        match self.first.take() {
            Some(hits) => hits,
            None => unreachable!(),
        }
    }

    /// Keeps a list where there are fewer than two and it has the places.
    pub fn give(&mut self, hits: Vec<Hit>)
        ensures { self.new ≡ lists_of self.old.places
            (kept_count self.old.count self.old.places (vec_capacity hits)) }
    {
        let mut hits = hits;
        hits.clear();
        if hits.capacity() < self.places as usize {
            return;
        }
        if self.first.is_none() {
            self.first = Some(hits);
        } else if self.second.is_none() {
            self.second = Some(hits);
        }
    }
}
