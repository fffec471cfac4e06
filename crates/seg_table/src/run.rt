//! The documents with one id.
ghost use Rattle.std.specs.Prelude.{◌≡◌};
ghost use Rattle.std.specs.Iterator.{YieldsFirst, item_count};

use std::marker::Model;

/// The places of the documents with an id, rising. Contracts see those that are left.
#[derive(Debug, Drop)]
pub struct IdRun<'t> {
    places: &'t [u32],
}

impl<'t> Model for IdRun<'t> {
    ghost use Rattle.std.specs.Prelude.{List, ℕ};

    ghost Value = { List ℕ };

    ghost view = { λ r. r.places.now };
}

impl<'t> IdRun<'t> {
    pub(crate) fn of(places: &'t [u32]) -> IdRun<'t>
        ensures { result ≡ places.entry.now }
    {
        IdRun { places }
    }
}

impl Iterator for IdRun<'_> {
    type Item = u32;

    ghost next_gives = { YieldsFirst (λ left. left) };

    ghost remaining = { item_count (λ left. left) };

    fn next(&mut self) -> Option<u32> {
        let (first, rest) = self.places.split_first()?;
        self.places = rest;
        Some(*first)
    }
}
