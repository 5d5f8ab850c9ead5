//! The tests.
mod long_history;
mod orders;
