//! Tests of a document's layers: the tree, what is read of it, the plain program, the laws of
//! convergence; and those that cross them, the causal orders of worked histories, and a long
//! history by the tree, by the plain program and by the set of its operations alone. They are
//! above the crates that they test, so that those are proved once and not again for their tests.
#![tactic(auto)]

#[cfg(test)]
mod alike;
#[cfg(test)]
mod converging;
#[cfg(test)]
mod history;
#[cfg(test)]
mod holds;
#[cfg(test)]
mod many_keys;
#[cfg(test)]
mod orders;
#[cfg(test)]
mod plain;
#[cfg(test)]
mod plain_shown;
#[cfg(test)]
mod readings;
#[cfg(test)]
mod rule;
#[cfg(test)]
mod sites;
#[cfg(test)]
mod tests;
#[cfg(test)]
mod trees;
#[cfg(test)]
mod views;
#[cfg(test)]
mod written;
