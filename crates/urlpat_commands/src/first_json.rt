//! The first match as a line of JSON.

ghost use Rattle.serde_json.specs.View.{view};
ghost use Rattle.std.specs.Prelude.{◌≡◌, string_bytes, IfOk};
ghost use Rattle.urlpat_commands.specs.FirstJson.{IsFirstJson, first_tree};
ghost use Rattle.urlpattern.specs.BorrowedMatches.{pattern_captures_view};

use serde_json::{Map, Value};
use std::alloc::{AllocError, Global};
use urlpat_matching::{json_line, match_tree};
use urlpattern::UrlPatternCaptures;

/// The first match as a line of JSON: the index of its pattern, and the match.
pub fn first_json(
    alloc: Global,
    index: usize,
    found: &UrlPatternCaptures<'_, '_>,
) -> Result<String, AllocError>
    ensures { IfOk result (λ text.
        IsFirstJson index (pattern_captures_view found.now) (string_bytes text)) }
{
    let tree = first_tree(alloc, index, match_tree(alloc, found)?)?;
    json_line(alloc, &tree)
}

/// The first match as JSON: the index of its pattern, and `found`, the JSON of the match.
fn first_tree(alloc: Global, index: usize, found: Value) -> Result<Value, AllocError>
    ensures { IfOk result (λ tree. view tree ≡ first_tree index (view found)) }
{
    let mut members = Map::new(alloc);
    serde_json::put(&mut members, alloc, "index", Value::from(index))?;
    serde_json::put(&mut members, alloc, "match", found)?;
    Ok(Value::Object(members))
}
