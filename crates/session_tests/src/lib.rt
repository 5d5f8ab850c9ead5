//! Tests of sessions: those of one run over bytes in memory, and those of a server's threads. They
//! are above the crates that they test, so that these are proved once and not again for their
//! tests.
#![tactic(auto)]

#[cfg(test)]
mod checks;
#[cfg(test)]
mod runs;
#[cfg(test)]
mod servers;
#[cfg(test)]
mod shopping;
#[cfg(test)]
mod texts;
