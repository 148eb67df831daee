//! The commands of the program `urlpat` on the static routes of a service worker in files:
//! `routes check` finds rules that browsers reject or that are of no use, `routes decide` decides
//! about a request, and `routes diff` compares two files.
#![tactic(auto)]

mod checking;
mod command;
mod comparing;
mod deciding;
mod printed_json;
mod printed_text;
mod reports;
mod route_file;
mod route_printer;
mod rule_use;
mod running;

pub use command::{AskedRequest, RouteCommand};
pub use printed_json::{decision_json, refusal_json, routes_difference_json, uses_json};
pub use printed_text::{decision_text, refusal_text, routes_difference_text, uses_text};
pub use route_file::NoRoutes;
pub use route_printer::RoutePrinter;
pub use rule_use::RuleUse;
pub use running::run_on_routes;
