//! A node of a tree that is read.
use doc_tree::{NodeNumber, Tree};
use std::alloc::Global;

/// A node of a tree that is read, and where memory for what is read comes from.
#[derive(Clone, Copy)]
pub struct NodeReader<'a> {
    pub alloc: Global,
    pub tree: &'a Tree,
    pub at: NodeNumber,
}
