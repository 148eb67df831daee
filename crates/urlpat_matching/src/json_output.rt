//! Matches as JSON, one on each line.

ghost use Rattle.serde_json.specs.View.{view};
ghost use Rattle.serde_json.specs.Written.{has_float};
ghost use Rattle.std.specs.Prelude.{◌≡◌, false, string_bytes, IfOk};
ghost use Rattle.urlpat_matching.specs.MatchJson.{IsMatchJson, IsMatchTree, json_line};
ghost use Rattle.urlpattern_matches.specs.BorrowedMatches.{pattern_captures_view};

use serde_json::Value;
use std::alloc::{AllocError, Global};
use urlpattern_matches::UrlPatternCaptures;

/// Returns a match as a line of JSON, as `UrlPatternCaptures::to_json_value` writes it.
pub fn match_json(alloc: Global, found: &UrlPatternCaptures<'_, '_>) -> Result<String, AllocError>
    ensures { IfOk result (λ text.
        IsMatchJson (pattern_captures_view found.now) (string_bytes text)) }
{
    let tree = match_tree(alloc, found)?;
    json_line(alloc, &tree)
}

/// Returns a match as JSON, as `UrlPatternCaptures::to_json_value` writes it.
pub fn match_tree(alloc: Global, found: &UrlPatternCaptures<'_, '_>) -> Result<Value, AllocError>
    ensures { IfOk result (λ tree. IsMatchTree (pattern_captures_view found.now) (view tree)) }
{
    match found.to_json_value(alloc) {
        Ok(tree) => Ok(tree),
        Err(_) => Err(AllocError),
    }
}

/// Returns the text of `tree`, and a line end. The contract says which text that is only if the
/// JSON has no floats.
pub fn json_line(alloc: Global, tree: &Value) -> Result<String, AllocError>
    ensures { IfOk result (λ text.
        has_float (view tree.now) ≡ false → string_bytes text ≡ json_line (view tree.now)) }
{
    let mut text = tree.to_string(alloc)?;
    text.push('\n')?;
    Ok(text)
}
