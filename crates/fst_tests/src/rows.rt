//! Rows of paths with their costs.
ghost use Rattle.std.specs.Prelude.{◌≡◌, ◌<◌, ◌↔◌, IsTrue, IfOk, IfErr, length, map, take};
ghost use Rattle.fst_code.specs.Lists.{list_of};
ghost use Rattle.fst_build.specs.Sorted.{MayFollow};
ghost use Rattle.fst_tests.specs.Rows.{Fits, MayBeAdded, RefusesRows, tail_of};

use fst_build::{Builder, goes_on};
use fst_code::Transducer;
use sg_base::{Cost, MOST_WEIGHT};
use std::alloc::{AllocError, Global};

/// The most paths that a builder takes.
const MOST_PATHS: usize = 4_194_304;

/// The most bytes that a path has.
const MOST_PATH_BYTES: usize = 324;

/// A path with its cost.
#[derive(Drop)]
pub struct Row {
    pub path: Vec<u8>,
    pub cost: Cost,
}

/// Why rows have no transducer.
#[derive(Clone, Copy, Debug, PartialEq, Eq)]
pub enum RowsError {
    /// A builder that has the rows before this one doesn't take it.
    Row { at: usize },
    /// Memory ran out.
    Memory,
}

impl From<AllocError> for RowsError {
    ghost use Rattle.fst_tests.specs.declared.rows.RowsError.{RowsError};

    ghost from_gives = { λ _ e. e ≡ RowsError.Memory };

    fn from(_: AllocError) -> RowsError {
        RowsError::Memory
    }
}

fn fits(path: &[u8], cost: Cost) -> bool
    ensures { IsTrue result ↔ Fits (path.now, cost) }
{
    0 < path.len() && path.len() <= MOST_PATH_BYTES && cost <= MOST_WEIGHT
}

fn follows(rows: &[Row], at: usize, path: &[u8]) -> bool
    requires { at < length rows.now }
    ensures { IsTrue result ↔ MayFollow (map tail_of (take at rows.now)) path.now }
{
    at == 0 || goes_on(rows[at - 1].path.as_slice(), path)
}

fn may_be_added(rows: &[Row], at: usize) -> bool
    requires { at < length rows.now }
    ensures { IsTrue result ↔ MayBeAdded rows.now at }
{
    let row = &rows[at];
    let path = row.path.as_slice();
    if at >= MOST_PATHS {
        return false;
    }
    if !fits(path, row.cost) {
        return false;
    }
    follows(rows, at, path)
}

/// The transducer of rows in the order of their paths.
pub fn transducer_of(alloc: Global, rows: &[Row]) -> Result<Transducer, RowsError>
    ensures ok { IfOk result (λ t. list_of t ≡ map tail_of rows.now) }
    ensures err { IfErr result (RefusesRows rows.now) }
{
    let mut builder = Builder::new(alloc)?;
    for at in 0..rows.len() {
        if !may_be_added(rows, at) {
            return Err(RowsError::Row { at });
        }
        builder.add(rows[at].path.as_slice(), rows[at].cost)?;
    }
    Ok(builder.finish()?)
}
