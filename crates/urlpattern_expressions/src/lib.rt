//! Custom regular expressions: what parts with them match and capture, whether an expression is
//! simple, and its tree.
#![tactic(auto)]

mod expression_trees;
mod part_trees;
mod simple;
mod tree;

pub use part_trees::part_tree;
pub use simple::{
    are_simple, config_for, has_custom, has_meaning, has_meaning_by_case, is_custom, is_simple,
};
pub use tree::Tree;
