//! The trait of regular expression engines, `RegExp`, that of engines whose values can be copied,
//! `CloneRegExp`, and the library's own engine.

pub use urlpattern_copies::CloneRegExp;
pub use urlpattern_engine::PatternRegexp;
pub use urlpattern_matcher::regexp::RegExp;
