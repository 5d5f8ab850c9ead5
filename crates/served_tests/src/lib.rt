//! Tests of copies of logs, and of servers over them: batches and formats, one start after another,
//! sessions and disks that fail, starts that are refused. They stand above the crates that they
//! try, so that those are proved once and not again for their tests, and in one crate, since a
//! program over a database is dear to compile.
#![tactic(auto)]

#[cfg(test)]
mod tests;
