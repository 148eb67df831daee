//! What is not known of the patterns of a table.

use crate::findings::Reached;
use crate::table_fault::{FaultReason, TableFault};
use crate::unreached_printing::line_at;
use std::alloc::{AllocError, Global};
use urlpat_commands::reason_text;
use urlpattern::rules::{Doubt, Reach, Reason};

/// Returns for each pattern of which it is not known whether it is ever the first match why that is
/// so.
pub(crate) fn doubts_of(alloc: Global, found: &Reached) -> Result<Vec<TableFault>, AllocError> {
    let mut doubts = Vec::new(alloc);
    for (line, reach) in found.lines.iter().zip(&found.reaches) {
        if let Reach::Unknown(doubt) = reach {
            doubts.push(TableFault {
                line: *line,
                column: 1,
                reason: FaultReason::Doubtful(doubt_text(alloc, &found.lines, *doubt)?),
            })?;
        }
    }
    Ok(doubts)
}

/// What is not known, and why, in words that follow `whether`.
fn doubt_text(alloc: Global, lines: &[u64], doubt: Doubt) -> Result<String, AllocError> {
    let (component, reason) = match doubt {
        Doubt::NoneOf(lack) => {
            let by = line_at(lines, lack.pattern);
            let component = lack.component;
            let why = reason_text(lack.reason);
            return format!(in alloc; "line {by} covers it: the {component} {why}");
        }
        Doubt::AllOf(lack) => (lack.component, lack.reason),
        Doubt::TooManySets(component) => (component, Reason::TooMany),
        Doubt::TooManyTexts => {
            let why = reason_text(Reason::TooMany);
            return format!(in alloc; "it matches what no line before it does: they {why}");
        }
    };
    let why = reason_text(reason);
    format!(in alloc; "it matches what no line before it does: the {component} {why}")
}
