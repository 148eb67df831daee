//! URLs and texts of patterns whose groups C passes as parts of one text.
#![tactic(auto)]

mod given;
mod given_link;
mod given_text;

pub use given::{GivenBytes, component_of, groups_of, part_of};
pub use given_link::{Unlinked, link};
pub use given_text::{Ungenerated, generate};
