//! Digests of the chains of replicas in a log, by which two logs are compared.
#![tactic(auto)]

mod chains;

pub use chains::chains_text;
