//! What the groups of a match captured, percent-decoded.
ghost use Rattle.std.specs.Str.{chars};
ghost use Rattle.urlpattern_matches.specs.BorrowedMatches.{pattern_captures_view};
ghost use Rattle.urlpattern_matches.specs.DecodedCaptures.{IsDecodedCapture};
ghost use Rattle.urlpattern_matches.specs.ResultViews.{captured_text, component_result_view, result_view};
ghost use Rattle.urlpattern_syntax.specs.Text.{option_text};

use crate::captures::UrlPatternCaptures;
use crate::result::{UrlPatternComponentResult, UrlPatternResult};
use std::alloc::Global;
use std::borrow::CowStr;
use urlpattern_components::ComponentName;
use urlpattern_values::{DecodeError, decode};

impl<'u> UrlPatternCaptures<'_, 'u> {
    /// Returns what the group `name` of a component captured, percent-decoded. `None`: the
    /// component has no such group, or the group took no part. The last of equal names counts.
    ///
    /// The error is that the decoded bytes are not UTF-8, or that memory ran out. A capture without
    /// a percent sign is borrowed.
    pub fn decoded(
        &self,
        alloc: Global,
        component: ComponentName,
        name: &str,
    ) -> Result<Option<CowStr<'u>>, DecodeError>
        ensures { IsDecodedCapture
            (captured_text (pattern_captures_view self.now component) (chars name.now)) result }
    {
        decode_capture(alloc, self.get(component, name))
    }
}

impl UrlPatternResult {
    /// Returns what the group `name` of a component captured, percent-decoded. `None`: the
    /// component has no such group, or the group took no part.
    ///
    /// The error is that the decoded bytes are not UTF-8, or that memory ran out. A capture without
    /// a percent sign is borrowed.
    pub fn decoded(
        &self,
        alloc: Global,
        component: ComponentName,
        name: &str,
    ) -> Result<Option<CowStr<'_>>, DecodeError>
        ensures { IsDecodedCapture (captured_text (result_view self.now component) (chars name.now))
            result }
    {
        decode_capture(alloc, self.get(component, name))
    }
}

impl UrlPatternComponentResult {
    /// Returns what the group `name` captured, percent-decoded. `None`: there is no such group, or
    /// the group took no part.
    ///
    /// The error is that the decoded bytes are not UTF-8, or that memory ran out. A capture without
    /// a percent sign is borrowed.
    pub fn decoded(&self, alloc: Global, name: &str) -> Result<Option<CowStr<'_>>, DecodeError>
        ensures { IsDecodedCapture (captured_text (component_result_view self.now) (chars name.now))
            result }
    {
        decode_capture(alloc, self.get(name))
    }
}

/// Returns a capture, percent-decoded.
fn decode_capture<'t>(
    alloc: Global,
    capture: Option<&'t str>,
) -> Result<Option<CowStr<'t>>, DecodeError>
    ensures { IsDecodedCapture (option_text capture.entry) result }
{
    let Some(text) = capture else {
        return Ok(None);
    };
    match decode(alloc, text) {
        Ok(value) => Ok(Some(value)),
        Err(error) => Err(error),
    }
}
