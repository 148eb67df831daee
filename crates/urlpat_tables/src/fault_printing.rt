//! How the faults of a table are printed, as text or as JSON.

use crate::table_fault::{FaultReason, TableFault};
use serde_json::{Map, Value, put};
use std::alloc::{AllocError, Global};
use std::io;
use std::io::Write;
use urlpat_matching::json_line;
use urlpattern_inputs::json_writing::put_text;

/// Returns a fault as it is printed: a line with the file, the line and the column, and what is
/// wrong, and after it the pattern and the marks under it, if a pattern is rejected; or a line of
/// JSON, an object with `column`, `file`, `line` and `message`.
pub(crate) fn fault_text(
    alloc: Global,
    json: bool,
    file: &str,
    fault: &TableFault,
) -> Result<String, AllocError> {
    let (line, column) = (fault.line, fault.column);
    let reason = &fault.reason;
    if json {
        let message = format!(in alloc; "{reason}")?;
        let mut members = Map::new(alloc);
        put(&mut members, alloc, "column", Value::from(column))?;
        put_text(&mut members, alloc, "file", file)?;
        put(&mut members, alloc, "line", Value::from(line))?;
        put_text(&mut members, alloc, "message", &message)?;
        return json_line(alloc, &Value::Object(members));
    }
    match reason {
        FaultReason::Rejected(diagnosis) => {
            format!(in alloc; "{file}:{line}:{column}: {diagnosis}\n")
        }
        _ => format!(in alloc; "{file}:{line}:{column}: {reason}\n"),
    }
}

/// Returns the faults of a table as they are printed.
pub(crate) fn faults_text(
    alloc: Global,
    file: &str,
    faults: &[TableFault],
) -> Result<String, AllocError> {
    let mut text = String::new(alloc);
    for fault in faults {
        let one = fault_text(alloc, false, file, fault)?;
        text.push_str(&one)?;
    }
    Ok(text)
}

/// Reports the faults of a table, or that memory ran out.
pub(crate) fn report_faults<Err: Write>(
    alloc: Global,
    file: &str,
    faults: &[TableFault],
    err: &mut Err,
) {
    match faults_text(alloc, file, faults) {
        Ok(text) => {
            let _ = err.write_all(text.as_bytes());
        }
        Err(_) => report_memory(err),
    }
}

/// Reports that memory ran out.
pub(crate) fn report_memory<Err: Write>(err: &mut Err) {
    let _ = err.write_all(b"out of memory\n");
}

/// Reports that memory ran out, if that is the error.
pub(crate) fn report_memory_error<Err: Write>(error: io::Error, err: &mut Err) {
    if error.kind() == io::ErrorKind::OutOfMemory {
        report_memory(err);
    }
}
