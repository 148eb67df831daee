//! How the program prints which patterns of a table are never the first match.

use crate::findings::Reached;
use serde_json::{Map, Value, put};
use std::alloc::{AllocError, Global};
use urlpat_matching::json_line;
use urlpattern::rules::Reach;

/// Returns a line for each pattern that is never the first match, as JSON or not: the number of its
/// line, and those of the patterns that cover it together.
pub fn unreached_text(alloc: Global, json: bool, found: &Reached) -> Result<String, AllocError> {
    let mut text = String::new(alloc);
    for (line, reach) in found.lines.iter().zip(&found.reaches) {
        if let Reach::Never(by) = reach {
            let others = numbers_of(alloc, &found.lines, by)?;
            if json {
                text.push_str(&numbers_json(alloc, *line, &others)?)?;
            } else {
                write!(text, "{line}")?;
                for other in &others {
                    write!(text, "\t{other}")?;
                }
                text.push('\n')?;
            }
        }
    }
    Ok(text)
}

/// A pattern that is never the first match, as a line of JSON.
fn numbers_json(alloc: Global, line: u64, others: &[u64]) -> Result<String, AllocError> {
    let mut items = Vec::with_capacity(alloc, others.len())?;
    for other in others {
        items.push(Value::from(*other))?;
    }
    let mut members = Map::new(alloc);
    put(&mut members, alloc, "number", Value::from(line))?;
    put(&mut members, alloc, "covered_by", Value::Array(items))?;
    json_line(alloc, &Value::Object(members))
}

/// The numbers of the lines of the patterns at these indices.
pub(crate) fn numbers_of(
    alloc: Global,
    lines: &[u64],
    indices: &[usize],
) -> Result<Vec<u64>, AllocError> {
    let mut numbers = Vec::with_capacity(alloc, indices.len())?;
    for index in indices {
        numbers.push(line_at(lines, *index))?;
    }
    Ok(numbers)
}

/// The number of the line of the pattern at an index. 0 if the index is out of range.
pub(crate) fn line_at(lines: &[u64], index: usize) -> u64 {
    match lines.get(index) {
        Some(line) => *line,
        None => 0,
    }
}
