//! The calls that `urlpattern_c` exports to C, over references and slices.
//!
//! Each call but `version` calls the library `urlpattern`, and reports the outcome as a `Status`.
//! Texts are bytes, which are checked to be UTF-8.
#![tactic(auto)]

mod adding;
mod capturing;
mod covering;
mod diagnosing;
mod exec_calls;
mod generating;
mod init_inputs;
mod init_matches;
mod inits;
mod linking;
mod meaning;
mod mismatching;
mod pair_texts;
mod passed_texts;
mod pattern_box;
mod release;
mod spans;
mod status;
mod text_buffers;
mod text_captures;
mod url_inputs;
mod whole_texts;

pub use adding::{add, compiled, given_base, options, status_of_error};
pub use capturing::{captures, first_captures};
pub use covering::covers;
pub use diagnosing::{Place, diagnose, diagnose_init};
pub use exec_calls::{execute, first, test};
pub use generating::generate;
pub use init_matches::{captures_of_init, execute_init, first_captures_of_init};
pub use inits::{add_init, init_of};
pub use linking::{link, write_reason};
pub use meaning::has_meaning;
pub use mismatching::{has_regexp_groups, mismatch};
pub use pair_texts::{counterexample, overlaps};
pub use passed_texts::{EightParts, TextPart};
pub use pattern_box::{PatternBox, list_of, pattern_at, share};
pub use release::version;
pub use spans::{GroupSpan, Sizes, write_groups};
pub use status::Status;
pub use text_buffers::{write, write_component, write_group_name};
pub use text_captures::{
    captures_of_path, captures_of_texts, first_captures_of_path, first_captures_of_texts,
};
pub use url_inputs::url_of;
pub use urlpattern_ffi_links::GivenBytes;
pub use whole_texts::{is_same, write_text};
