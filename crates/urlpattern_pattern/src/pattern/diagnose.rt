//! Reports what is wrong with a pattern that is rejected.

ghost use Rattle.std.specs.Prelude.{option_copied};
ghost use Rattle.std.specs.Str.{chars};
ghost use Rattle.urlpattern_compile.specs.Compiled.{RejectsInit};
ghost use Rattle.urlpattern_compile.specs.Diagnoses.{AcceptsInit, AcceptsPatternOfText, HasErrorOf, IfAccepted, IfRejected, IsWithinText, ShowsGiven, ShowsInit};
ghost use Rattle.urlpattern_compile.specs.FromString.{RejectsPatternOfText};

use super::UrlPattern;
use std::alloc::Global;
use urlpattern_compile::{diagnose_init, diagnose_text};
use urlpattern_diagnosis::Diagnosis;
use urlpattern_init::UrlPatternInit;
use urlpattern_inputs::UrlPatternOptions;
use urlpattern_matcher::regexp::RegExp;
use urlpattern_syntax::error::OutOfMemory;

impl<R: RegExp> UrlPattern<R> {
    /// Returns what is wrong with the constructor string `pattern`, or with `base_url`. `None`:
    /// `from_constructor_string` accepts them.
    ///
    /// If the pattern is rejected, the string is split or the components are compiled a second
    /// time, to find the fault.
    ///
    /// With `Pattern` as `UrlPattern<PatternRegexp>`:
    ///
    /// ```rust diagnose
    /// let options = UrlPatternOptions::default();
    /// let diagnosis = Pattern::diagnose(alloc, pattern, None, options)?;
    /// ```
    pub fn diagnose(
        alloc: Global,
        pattern: &str,
        base_url: Option<&str>,
        options: UrlPatternOptions,
    ) -> Result<Option<Diagnosis>, OutOfMemory>
        ensures accepted { IfAccepted result (AcceptsPatternOfText R.RegExp (chars pattern.now)
            (option_copied base_url.entry) options) }
        ensures refused { IfRejected result (HasErrorOf (RejectsPatternOfText R.RegExp
            (chars pattern.now) (option_copied base_url.entry) options)) }
        ensures shows { IfRejected result
            (ShowsGiven R.RegExp pattern.now (option_copied base_url.entry) options) }
        ensures within { IfRejected result IsWithinText }
    {
        diagnose_text::<R>(alloc, pattern, base_url, options)
    }

    /// Returns what is wrong with an init. `None`: `parse` accepts the init.
    ///
    /// The text of the diagnosis is the value of the component that is rejected, or its pattern if
    /// the init lacks the component. An init that is rejected is compiled a second time, to find
    /// the fault.
    pub fn diagnose_init(
        alloc: Global,
        init: &UrlPatternInit,
        options: UrlPatternOptions,
    ) -> Result<Option<Diagnosis>, OutOfMemory>
        ensures accepted { IfAccepted result (AcceptsInit R.RegExp init.now options) }
        ensures refused { IfRejected result (HasErrorOf (RejectsInit R.RegExp init.now options)) }
        ensures shows { IfRejected result (ShowsInit R.RegExp init.now options) }
        ensures within { IfRejected result IsWithinText }
    {
        diagnose_init::<R>(alloc, init, options)
    }
}
