//! URL patterns for other languages: the C functions of a static library. `bindings/c/urlpattern.h`
//! declares them.
//!
//! Each function but those that free wraps a call of `urlpattern_ffi`, `urlpattern_ffi_tables` or
//! `urlpattern_ffi_routes`, and repeats its clauses.
//! Raw pointers stay inside of `BoxParts` and `Slot`.
#![tactic(auto)]

mod box_parts;
mod exports;
mod init_exports;
mod pair_exports;
mod patterns;
mod policy;
mod policy_exports;
mod reach_exports;
mod reason_exports;
mod router;
mod router_exports;
mod sharing;
mod slot;
mod static_route_exports;
mod static_routes;
mod text_exports;
mod whole_exports;

pub use exports::{
    urlpattern_add, urlpattern_add_init, urlpattern_captures, urlpattern_component,
    urlpattern_covers_between, urlpattern_covers_within, urlpattern_diagnose,
    urlpattern_diagnose_init, urlpattern_exec, urlpattern_first, urlpattern_first_captures,
    urlpattern_free, urlpattern_group_name, urlpattern_has_meaning, urlpattern_has_regexp_groups,
    urlpattern_link, urlpattern_mismatch, urlpattern_test, urlpattern_version,
};
pub use init_exports::{
    urlpattern_captures_of_init, urlpattern_exec_of_init, urlpattern_first_captures_of_init,
};
pub use pair_exports::{
    urlpattern_counterexample_between, urlpattern_counterexample_within,
    urlpattern_overlaps_between, urlpattern_overlaps_within,
};
pub use patterns::Patterns;
pub use policy::Policy;
pub use policy_exports::{
    urlpattern_policy_add, urlpattern_policy_add_init, urlpattern_policy_decide,
    urlpattern_policy_free, urlpattern_policy_set_options, urlpattern_policy_share,
};
pub use reach_exports::urlpattern_reach_of_each;
pub use reason_exports::{urlpattern_covering_reason_between, urlpattern_covering_reason_within};
pub use router::Router;
pub use router_exports::{
    urlpattern_router_allowed, urlpattern_router_allowed_at_url, urlpattern_router_at,
    urlpattern_router_at_url, urlpattern_router_free, urlpattern_router_group_name,
    urlpattern_router_insert, urlpattern_router_insert_init, urlpattern_router_link,
    urlpattern_router_share,
};
pub use sharing::{
    handles_are_sent, policies_are_sent, routers_are_sent, static_routes_are_sent, urlpattern_share,
};
pub use slot::Slot;
pub use static_route_exports::{
    urlpattern_static_routes_decide, urlpattern_static_routes_fault, urlpattern_static_routes_free,
    urlpattern_static_routes_read, urlpattern_static_routes_source,
    urlpattern_static_routes_text_at_fault,
};
pub use static_routes::StaticRoutes;
pub use text_exports::{
    urlpattern_captures_of_path, urlpattern_captures_of_texts, urlpattern_first_captures_of_path,
    urlpattern_first_captures_of_texts,
};
pub use whole_exports::{
    urlpattern_generate, urlpattern_is_same_between, urlpattern_is_same_within, urlpattern_text,
};
