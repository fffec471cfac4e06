//! The tests of the crates below the index: outside vectors, printed text, each public call on its
//! happy path, and each generic impl at a type. What a contract says isn't tested again.
#![tactic(auto)]

#[cfg(test)]
mod analysis;
#[cfg(test)]
mod answers;
#[cfg(test)]
mod context;
#[cfg(test)]
mod edge;
#[cfg(test)]
mod live;
#[cfg(test)]
mod making;
#[cfg(test)]
mod printed;
#[cfg(test)]
mod table;
