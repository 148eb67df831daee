//! The laws of whole patterns, the laws that relate the meaning of a pattern's parts to what the
//! pattern matches, and the laws of custom regular expressions.
//!
//! `urlpattern` re-exports the modules.
#![tactic(auto)]

pub mod common_texts;
pub mod custom;
pub mod laws;
pub mod parts;
