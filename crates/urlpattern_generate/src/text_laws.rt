//! Laws of the text of parts with given captures.
//!
//! Each function does nothing; what its contract promises is a theorem.

ghost use Rattle.urlpattern_generate.specs.LawsOfLinks.{MatchingIsReadBackwards, MeantCapturesMayBeCaptured, WrittenTextsAreMeant};

/// If no part is a custom regular expression, parts match (`PartsMean`) each text that is written
/// from them with captures that meet `MayCaptureAll`, which judges each group alone, and match the
/// text with these captures.
pub fn written_texts_are_meant()
    ensures { WrittenTextsAreMeant }
{}

/// The captures with which parts match a text (`PartsMean`) meet `MayCaptureAll`, which judges each
/// group alone: a text can be written from them.
pub fn meant_captures_may_be_captured()
    ensures { MeantCapturesMayBeCaptured }
{}

/// Writing is the inverse of matching: if parts match a text with some captures, the text that is
/// written with these captures is that text. `PartsMean` defines what parts match. Premise: no
/// fixed text has a modifier, since its copies are not captured.
pub fn matching_is_read_backwards()
    ensures { MatchingIsReadBackwards }
{}
