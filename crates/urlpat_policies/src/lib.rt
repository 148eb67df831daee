//! The commands of the program `urlpat` on policies in files: `policy decide` decides about URLs,
//! `policy check` finds the faults of a file, and `policy diff` compares two policies.
#![tactic(auto)]

mod checking;
mod command;
mod comparing;
mod decided_lines;
mod deciding;
mod policy_file;
mod policy_printer;
mod printed_json;
mod printed_text;
mod reports;
mod running;

pub use command::PolicyCommand;
pub use policy_file::NoPolicy;
pub use policy_printer::PolicyPrinter;
pub use printed_json::{decisions_json, difference_json, faults_json};
pub use printed_text::{decisions_text, difference_text, faults_text};
pub use running::run_on_policies;
