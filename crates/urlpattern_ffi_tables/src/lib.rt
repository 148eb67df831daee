//! The calls on routers, on policies, on reasons of coverings and on the first matches of a list
//! that `urlpattern_c` exports to C, over references and slices.
//!
//! Each call reports its outcome as a `Status` or, if it decides, as a `Verdict`. Texts are bytes,
//! which are checked to be UTF-8.
#![tactic(auto)]

mod adding_routes;
mod adding_rules;
mod allowed_methods;
mod compiling;
mod covering_reasons;
mod deciding;
mod group_names;
mod linking;
mod policy_box;
mod reaches;
mod router_box;
mod routing;

pub use adding_routes::{add_init_route, add_route};
pub use adding_rules::{add_init_rule, add_rule, set_options};
pub use allowed_methods::{allowed_methods_of_path, allowed_methods_of_url};
pub use covering_reasons::covering_reason;
pub use deciding::{Verdict, decide};
pub use group_names::write_route_group_name;
pub use linking::link_route;
pub use policy_box::{PolicyBox, share_policy};
pub use reaches::write_reaches;
pub use router_box::{RouterBox, share_router};
pub use routing::{route_of_path, route_of_url};
