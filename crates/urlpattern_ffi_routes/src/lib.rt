//! The calls on static routes of service workers that `urlpattern_c` exports to C, over references
//! and slices.
//!
//! Each call reports its outcome as a `Status`. Texts are bytes, which are checked to be UTF-8.
#![tactic(auto)]

mod deciding;
mod faults;
mod numbers;
mod reading;
mod routes_box;

pub use deciding::{decide_request, write_source};
pub use faults::{FaultPlace, write_fault, write_text_at_fault};
pub use reading::read_routes;
pub use routes_box::RoutesBox;
