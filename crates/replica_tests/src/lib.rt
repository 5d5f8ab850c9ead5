//! Tests of what one replica is made of: ids, values and lines of bytes, operations as JSON,
//! requests; operations delivered in any order, twice and against the rules; what seats add up to,
//! and calls that are out of memory. They are above the crates that they test, so that those are
//! proved once and not again for their tests.
#![tactic(auto)]

#[cfg(test)]
mod feeds;
#[cfg(test)]
mod ids;
#[cfg(test)]
mod lines;
#[cfg(test)]
mod operations;
#[cfg(test)]
mod scalars;
#[cfg(test)]
mod tests;
