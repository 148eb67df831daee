//! Whether each pattern of a list is the first match of some texts.
ghost use Rattle.std.specs.Prelude.{◌≡◌, All, IfErr, IfOk, OnOk, map};
ghost use Rattle.urlpattern.specs.Reached.{AreAppended, AreReachedBy, HaveAllAutomata, LacksParts, ReachedAreFirst, UnreachedAreNeverFirst};
ghost use Rattle.urlpattern_compare.specs.CommonTexts.{AreAutomata};
ghost use Rattle.urlpattern_compare.specs.Reaching.{AreReached};
ghost use Rattle.urlpattern_engine.specs.PatternRegexps.{pattern_engine};
ghost use Rattle.urlpattern_matcher.specs.Regexes.{regex_engine};

use super::UrlPatternList;
use std::alloc::{AllocError, Global};
use urlpattern_compare::{Limits, PatternAutomata, PatternParts, Reach, reach_of_each};
use urlpattern_matcher::regexp::RegExp;
use urlpattern_pattern::{CompareError, UrlPattern};

impl<R: RegExp> UrlPatternList<R> {
    /// Returns whether each pattern is the first match of some texts, in order: with such texts, or
    /// with the indices of earlier patterns that cover it together, or with the reason why it is
    /// not known.
    ///
    /// The first match of a URL is never a pattern that others cover, as the law
    /// `rules::unreachable_patterns_are_never_first` says. The parts of the patterns are compared,
    /// as `rules::reach_of_each` does.
    ///
    /// The error is `NoParts` if a pattern has no parts, else `OutOfMemory`.
    pub fn reach_of_each(&self, alloc: Global, limits: Limits) -> Result<Vec<Reach>, CompareError>
        ensures found { IfOk result (λ found.
            AreReachedBy R.RegExp limits self.now found.items) }
        ensures missing { IfErr result (LacksParts self.now) }
    {
        let automata = automata_of_each(alloc, &self.patterns)?;
        match reach_of_all(alloc, &automata, limits) {
            Ok(found) => Ok(found),
            Err(_) => Err(error_without_memory(&self.patterns)),
        }
    }
}

/// In a list over `PatternRegexp` or `regex::Regex`, a pattern that others cover, as
/// `reach_of_each` finds, is the first match of no URL. The texts that it finds are matched by
/// their pattern, and by none before it.
pub fn unreachable_patterns_are_never_first()
    ensures pattern_regexp { UnreachedAreNeverFirst pattern_engine }
    ensures regex { UnreachedAreNeverFirst regex_engine }
    ensures first_of_pattern_regexp { ReachedAreFirst pattern_engine }
    ensures first_of_regex { ReachedAreFirst regex_engine }
{}

/// Returns whether each of the patterns is the first match of some texts, in order.
pub(crate) fn reach_of_all(
    alloc: Global,
    automata: &[PatternAutomata],
    limits: Limits,
) -> Result<Vec<Reach>, AllocError>
    requires { All AreAutomata automata.now }
    ensures { IfOk result (λ found. AreReached limits automata.now found.items) }
{
    let all = references(alloc, automata)?;
    reach_of_each(alloc, &all, limits)
}

/// Returns references to the automata, in order.
pub(crate) fn references(
    alloc: Global,
    automata: &[PatternAutomata],
) -> Result<Vec<&PatternAutomata>, AllocError>
    ensures { IfOk result (λ all. map (λ it. it.now) all.items ≡ automata.now) }
{
    automata.iter().collect(alloc)
}

/// Returns the automata of each pattern, in order.
///
/// The error is `NoParts` if a pattern has no parts, else `OutOfMemory`.
pub(crate) fn automata_of_each<R: RegExp>(
    alloc: Global,
    patterns: &[UrlPattern<R>],
) -> Result<Vec<PatternAutomata>, CompareError>
    ensures automata { IfOk result (λ all. HaveAllAutomata R.RegExp patterns.now all.items) }
    ensures missing { IfErr result (LacksParts patterns.now) }
{
    let mut all = Vec::new(alloc);
    for pattern in patterns {
        let parts = match pattern.parts() {
            Some(parts) => parts,
            None => return Err(CompareError::NoParts),
        };
        let Ok(()) = push_automata(alloc, &mut all, parts) else {
            return Err(error_without_memory(patterns));
        };
    }
    Ok(all)
}

/// Appends the automata of these parts.
pub(crate) fn push_automata(
    alloc: Global,
    all: &mut Vec<PatternAutomata>,
    parts: &PatternParts,
) -> Result<(), AllocError>
    ensures { OnOk result (AreAppended parts.now all.old.items all.new.items) }
{
    let automata = PatternAutomata::of(alloc, parts)?;
    all.push(automata)?;
    Ok(())
}

/// Returns the error of comparing the patterns if memory ran out: `NoParts` if a pattern has no
/// parts, else `OutOfMemory`.
pub(crate) fn error_without_memory<R: RegExp>(patterns: &[UrlPattern<R>]) -> CompareError
    ensures { LacksParts patterns.now result }
{
    for pattern in patterns {
        if pattern.parts().is_none() {
            return CompareError::NoParts;
        }
    }
    CompareError::OutOfMemory
}
