//! Whether the parts of a pattern say which texts it matches.
ghost use Rattle.std.specs.Prelude.{◌↔◌, IfOk, IsTrue};
ghost use Rattle.urlpattern_components.specs.declared.eight.ComponentName.{ComponentName};
ghost use Rattle.urlpattern_pattern.specs.KeptMeanings.{HasMeaningByCaseIn, HasMeaningIn};

use super::UrlPattern;
use std::alloc::Global;
use urlpattern_components::ComponentName;
use urlpattern_expressions::{has_meaning, has_meaning_by_case};
use urlpattern_matcher::regexp::RegExp;
use urlpattern_syntax::error::OutOfMemory;

impl<R: RegExp> UrlPattern<R> {
    /// Whether each component has a meaning, as `component_has_meaning` says.
    ///
    /// The only error is that memory ran out.
    pub fn has_meaning(&self, alloc: Global) -> Result<bool, OutOfMemory>
        ensures { IfOk result (λ has_meaning.
            IsTrue has_meaning ↔ ((name : ComponentName) → HasMeaningIn self.now name)) }
    {
        for name in ComponentName::all() {
            if !self.component_has_meaning(alloc, name)? {
                return Ok(false);
            }
        }
        Ok(true)
    }

    /// Whether a component has a meaning: its case is kept, and each of its custom regular
    /// expressions is simple, as `\d+`, `en|fr` and `[^/]+` are (`is_simple`). Over `PatternRegexp`
    /// and `regex::Regex`, the pattern text then says which texts without line feed the component
    /// matches, with which captures.
    ///
    /// `false` for a pattern that was put together by hand, which has no parts. The only error is
    /// that memory ran out.
    pub fn component_has_meaning(
        &self,
        alloc: Global,
        component: ComponentName,
    ) -> Result<bool, OutOfMemory>
        ensures { IfOk result (λ has_meaning.
            IsTrue has_meaning ↔ HasMeaningIn self.now component) }
    {
        match self.parts() {
            Some(parts) => has_meaning(alloc, parts.components.get(component)),
            None => Ok(false),
        }
    }
    /// Whether each component has a meaning over `PatternRegexp`, as
    /// `component_has_meaning_by_case` says.
    ///
    /// The only error is that memory ran out.
    pub fn has_meaning_by_case(&self, alloc: Global) -> Result<bool, OutOfMemory>
        ensures { IfOk result (λ has_meaning.
            IsTrue has_meaning ↔ ((name : ComponentName) → HasMeaningByCaseIn self.now name)) }
    {
        for name in ComponentName::all() {
            if !self.component_has_meaning_by_case(alloc, name)? {
                return Ok(false);
            }
        }
        Ok(true)
    }

    /// Whether a component has a meaning over `PatternRegexp`, which honours the flag `i`: each of
    /// its custom regular expressions is simple (`is_simple`), and if it has one and its case is
    /// ignored, the delimiter and all texts of its parts are ASCII. The pattern text then says
    /// which texts without line feed the component matches, with which captures; of texts of ASCII
    /// alone, if an expression ignores case.
    ///
    /// `false` for a pattern that was put together by hand, which has no parts. The only error is
    /// that memory ran out.
    pub fn component_has_meaning_by_case(
        &self,
        alloc: Global,
        component: ComponentName,
    ) -> Result<bool, OutOfMemory>
        ensures { IfOk result (λ has_meaning.
            IsTrue has_meaning ↔ HasMeaningByCaseIn self.now component) }
    {
        match self.parts() {
            Some(parts) => has_meaning_by_case(alloc, parts.components.get(component)),
            _ => Ok(false),
        }
    }
}
