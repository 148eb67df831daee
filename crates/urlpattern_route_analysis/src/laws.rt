//! Laws of tables that are analysed.

ghost use Rattle.urlpattern_engine.specs.PatternRegexps.{pattern_engine};
ghost use Rattle.urlpattern_matcher.specs.Regexes.{regex_engine};
ghost use Rattle.urlpattern_route_analysis.specs.Deciding.{FoundAreDecided};
ghost use Rattle.urlpattern_route_analysis.specs.EngineDecisions.{FoundDecide, MissingDecideNone};

/// Two rules that [`Analysis::decisions`](crate::Analysis::decisions) returns with a URL decide
/// about the request with it and the names.
pub fn found_requests_are_decided()
    ensures { FoundAreDecided }
{}

/// Over `PatternRegexp` and `regex::Regex`, the conditions of two rules that are returned with a
/// URL are the first ones that hold of the request with it and the names.
pub fn found_requests_are_matched()
    ensures pattern_regexp { FoundDecide pattern_engine }
    ensures regex { FoundDecide regex_engine }
{}

/// Over `PatternRegexp` and `regex::Regex`, two rules that are not returned, where `is_complete` of
/// [`Decisions`](crate::Decisions) is true, decide about no request with a URL.
pub fn missing_rules_decide_about_no_request()
    ensures pattern_regexp { MissingDecideNone pattern_engine }
    ensures regex { MissingDecideNone regex_engine }
{}
