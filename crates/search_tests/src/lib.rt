//! The tests of the search layer: worked examples, and each public call on its happy path. What a
//! contract says isn't tested again.
#![tactic(auto)]

#[cfg(test)]
mod collecting;
#[cfg(test)]
mod desk;
#[cfg(test)]
mod generated;
#[cfg(test)]
mod making;
#[cfg(test)]
mod reports;
#[cfg(test)]
mod searches;
#[cfg(test)]
mod table;
#[cfg(test)]
mod views;
