//! An index of patterns by what is known of the inputs that they match: protocol, hostname, and the
//! segments of the pathname.
//!
//! Each pattern has a number, and is listed under a key: a hash of the protocol and the hostname,
//! where they are fixed, and of the first segments of the pathname, each of which is fixed or
//! arbitrary. An input is looked up by one key for each [`Form`](form::Form) of the index that a
//! path with its number of segments can have. Hashes are compared, so a lookup may find other
//! patterns too, but it misses none.
#![tactic(auto)]

mod address;
mod fixed;
mod form;
mod hashes;
mod index;
mod known;
mod numbers;
mod path_segments;

pub use address::AddressHashes;
pub use fixed::{Address, Fixed, KnownPath};
pub use index::Index;
pub use known::{fixed_text, known_path};
