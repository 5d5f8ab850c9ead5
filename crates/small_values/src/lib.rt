//! Values that are mostly small, or not there at all, and take no
//! memory of their own until they must.
#![tactic(auto)]

mod lazy;
mod small_vec;

pub use lazy::Lazy;
pub use small_vec::SmallVec;
