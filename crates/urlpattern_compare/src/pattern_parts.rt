//! The parts of a pattern's eight components.

ghost use Rattle.std.specs.Prelude.{◌≡◌, IfErr, IfOk};
ghost use Rattle.std.specs.Str.{chars};
ghost use Rattle.urlpattern_compare.specs.Comparing.{IsPatternOverlap};
ghost use Rattle.urlpattern_compare.specs.ComparingSteps.{AreCommonOrDoubtful};
ghost use Rattle.urlpattern_components.specs.Eight.{at};
ghost use Rattle.urlpattern_syntax.specs.Text.{text_of};

use crate::component_coverage::{component_covers, component_example, component_overlaps, is_same};
use crate::coverage::{Overlap, Reason};
use crate::first_uncovered::FirstUncovered;
use crate::order::compare_parts;
use std::alloc::{AllocError, Global};
use std::cmp::Ordering;
use urlpattern_components::{ComponentName, Eight};
use urlpattern_syntax::ComponentParts;

/// The parts of a pattern's eight components.
///
/// The parts of the pattern of a constructor string, with `Pattern` as `UrlPattern<PatternRegexp>`:
///
/// ```rust parts
/// let options = UrlPatternOptions::default();
/// match Pattern::from_constructor_string(alloc, text, None, options)?.into_parts() {
///     Some(parts) => Ok(parts),
///     None => unreachable!(),
/// }
/// ```
#[derive(Debug)]
pub struct PatternParts {
    /// The parts of each component.
    pub components: Eight<ComponentParts>,
}

impl Drop for PatternParts {
    /// Drops the components. Where the parts of a pattern go out of scope, the prover handles one
    /// call in place of eight.
    fn drop(self) {
        let Self {
            components: _components,
        } = self;
    }
}

/// Texts that show that a pattern does not cover another, the asked one: in one component, the
/// asked pattern matches the text, and the pattern does not.
///
/// The text that the asked pattern matches and the other does not:
///
/// ```rust parting
/// let component = parting.component;
/// let text = parting.texts.get(component);
/// ```
#[derive(Debug, Drop)]
pub struct Parting {
    /// A component whose text, which is known, the pattern does not match.
    pub component: ComponentName,
    /// The texts that the asked pattern matches. `None`: no text of this component is known, for a
    /// [`Reason`].
    ///
    /// With any text that the asked pattern matches in the components without a known text, it
    /// matches all eight.
    pub texts: Eight<Option<String>>,
}

/// Whether a pattern covers another, the asked one.
///
/// ```rust covering
/// match covering {
///     PatternCovering::Covered => Ok(format!(in alloc; "covered")?),
///     PatternCovering::NotCovered(parting) => {
///         let component = parting.component;
///         let text = parting.texts.get(component);
///         match text {
///             Some(text) => Ok(format!(in alloc; "not covered: {component} `{text}`")?),
///             None => Ok(format!(in alloc; "not covered: {component}")?),
///         }
///     }
///     PatternCovering::Unknown(component, _) => Ok(format!(in alloc; "unknown: {component}")?),
/// }
/// ```
#[derive(Debug, Drop)]
pub enum PatternCovering {
    /// The pattern matches each combination of eight texts without line feeds that the asked one
    /// matches.
    Covered,
    /// In one component, the asked pattern matches a text that the pattern does not match. So the
    /// pattern covers the asked one only if that matches nothing at all, in a component of which no
    /// text is known.
    NotCovered(Parting),
    /// Not known, because of this component, for this reason. No component decides.
    Unknown(ComponentName, Reason),
}

/// Whether two patterns overlap.
///
/// ```rust overlap
/// match overlap {
///     PatternOverlap::Apart => Ok(format!(in alloc; "apart")?),
///     PatternOverlap::Common(texts) => match &texts.pathname {
///         Some(text) => Ok(format!(in alloc; "common: {text}")?),
///         None => Ok(format!(in alloc; "common, with the same parts")?),
///     },
///     PatternOverlap::Unknown(component, _) => Ok(format!(in alloc; "unknown: {component}")?),
/// }
/// ```
#[derive(Debug, Drop)]
pub enum PatternOverlap {
    /// No eight texts without line feeds exist that both patterns match.
    Apart,
    /// A text without line feed of each component that both patterns match. `None`: the component
    /// is the same in both patterns, and no text is known that it matches, so that both match any
    /// that one does.
    Common(Eight<Option<String>>),
    /// Not known, because of this component, for this reason. No component decides.
    Unknown(ComponentName, Reason),
}

/// Why no text of a component is returned.
#[derive(Debug, Drop)]
pub(crate) enum NoText {
    /// No text without line feed exists that this component, of one pattern or of two, matches.
    Nothing(ComponentName),
    /// Memory ran out.
    OutOfMemory,
}

/// A text of a component that two patterns match, or the component and the reason why it is not
/// known whether one exists.
pub(crate) type CommonOrDoubtful = Result<Option<String>, (ComponentName, Reason)>;

impl From<AllocError> for NoText {
    ghost use Rattle.urlpattern_compare.specs.declared.pattern_parts.NoText.TheVariants as lacking;

    ghost from_gives = { λ _ lack. lack ≡ lacking.OutOfMemory };

    fn from(_error: AllocError) -> NoText {
        NoText::OutOfMemory
    }
}

impl PatternParts {
    ghost use Rattle.std.specs.Prelude.{Some, option_map};
    ghost use Rattle.urlpattern_compare.specs.Order.{parts_cmp};
    ghost use Rattle.urlpattern_compare.specs.Comparing.{IsExampleText, IsMeantBy, IsOnlyIn, IsPatternCovering, IsPatternOverlap, IsReasonToDoubt, MayCover};
    ghost use Rattle.urlpattern_compare.specs.ComparingSteps.{IsCommonIn, IsExampleIn, IsFirstUncovered, IsTextWith, LacksExample};

    /// Returns whether this pattern covers `asked`: whether this pattern's parts match each
    /// combination of eight texts, one for each component, that the parts of `asked` match. Texts
    /// with a line feed are left out.
    ///
    /// Components are compared one by one, with case ignored in some and kept in others; where it
    /// is ignored, ASCII letters are compared in lower case. A component with custom regular
    /// expressions is compared if each is simple (`urlpattern_expressions::is_simple`), such as
    /// `\d+`, and case is kept; an expression means what the crate `regex` reads in it. A component
    /// that matches each text, as its parts tell, covers any other. A component covers equal parts
    /// under equal options, whatever the names, also with other custom expressions, unless case is
    /// ignored too. Nothing else is known of a component with a custom expression that is not
    /// simple, or with one where case is ignored, nor of one that ignores case and that an engine
    /// matches which does not honour the flag `i` (`Reason::IgnoredCase`), nor where the work is
    /// too much (`Reason::TooMany`). `Unknown` is returned only if no other component decides. Each
    /// text of `NotCovered` is one of the shortest for its component, though no clause promises
    /// that.
    pub fn covers(&self, alloc: Global, asked: &Self) -> Result<PatternCovering, AllocError>
        ensures { IfOk result (IsPatternCovering self.now asked.now) }
    {
        match self.first_uncovered(alloc, asked)? {
            FirstUncovered::Nowhere => Ok(PatternCovering::Covered),
            FirstUncovered::At(component, text) => {
                self.extend_to_parting(alloc, asked, component, &text)
            }
            FirstUncovered::Unknown(component, reason) => {
                self.unknown_or_covered(alloc, asked, component, reason)
            }
        }
    }

    /// Returns whether eight texts without line feeds, one for each component, exist that the parts
    /// of this pattern and those of `other` match, and which.
    ///
    /// Of a component that is the same in both patterns, in the sense of `covers`, a text need not
    /// be known. `Unknown` is returned where `covers` knows nothing, and only if no other component
    /// decides.
    pub fn overlaps(&self, alloc: Global, other: &Self) -> Result<PatternOverlap, AllocError>
        ensures { IfOk result (IsPatternOverlap self.now other.now) }
    {
        let text = |name: ComponentName| -> Result<CommonOrDoubtful, NoText>
            ensures { IsCommonIn self.entry.now other.entry.now name result }
        { self.common_text(alloc, other, name) };
        match Eight::try_from_fn(text) {
            Ok(found) => Ok(overlap_of(found)),
            Err(NoText::Nothing(_)) => Ok(PatternOverlap::Apart),
            Err(NoText::OutOfMemory) => Err(AllocError),
        }
    }

    /// Compares the component `component` of two patterns, as [`compare_parts`] does: the more
    /// specific is the greater.
    ///
    /// The more specific pattern need not be covered, nor the covered one more specific: `/a{/b}?`
    /// is greater than `/:x`, and matches the text `/a/b`, which `/:x` does not match.
    pub fn compare_component(component: ComponentName, left: &Self, right: &Self) -> Ordering
        ensures { result
            ≡ parts_cmp (at left.now.components component).parts.items
            (at right.now.components component).parts.items }
    {
        let left = left.components.get(component);
        let right = right.components.get(component);
        compare_parts(&left.parts, &right.parts)
    }

    /// Returns the first component of this pattern that is known not to cover that of `asked`, and
    /// a text that shows it. Without such a component: the last of which it is not known whether it
    /// covers, or `Nowhere`, if each covers.
    fn first_uncovered(&self, alloc: Global, asked: &Self) -> Result<FirstUncovered, AllocError>
        ensures { IfOk result (IsFirstUncovered self.now asked.now) }
    {
        let mut first = FirstUncovered::Nowhere;
        for name in ComponentName::all() {
            let component = self.components.get(name);
            let covering = component_covers(alloc, component, asked.components.get(name))?;
            first = first.or(name, covering);
        }
        Ok(first)
    }

    /// Returns whether this pattern covers `asked`, where `component` of `asked` matches `text`,
    /// and that of this pattern does not. If some component of `asked` matches no text, `asked` is
    /// covered.
    fn extend_to_parting(
        &self,
        alloc: Global,
        asked: &Self,
        component: ComponentName,
        text: &[char],
    ) -> Result<PatternCovering, AllocError>
        requires { IsOnlyIn (at self.now.components component) (at asked.now.components component)
            text.now }
        ensures { IfOk result (IsPatternCovering self.now asked.now) }
    {
        let text = string_of(alloc, text)?;
        match asked.texts_with(alloc, component, &text) {
            Ok(texts) => Ok(PatternCovering::NotCovered(Parting { component, texts })),
            Err(NoText::Nothing(_)) => Ok(PatternCovering::Covered),
            Err(NoText::OutOfMemory) => Err(AllocError),
        }
    }

    /// Returns whether this pattern covers `asked`, where each component may cover, and it is not
    /// known whether `component` does, for the reason `reason`. If some component of `asked`
    /// matches no text, `asked` is covered.
    fn unknown_or_covered(
        &self,
        alloc: Global,
        asked: &Self,
        component: ComponentName,
        reason: Reason,
    ) -> Result<PatternCovering, AllocError>
        requires doubt { IsReasonToDoubt (at self.now.components component)
            (at asked.now.components component) reason }
        requires may_cover { (name : ComponentName)
            → MayCover (at self.now.components name) (at asked.now.components name) }
        ensures { IfOk result (IsPatternCovering self.now asked.now) }
    {
        match asked.examples(alloc) {
            Ok(texts) => {
                drop(texts);
                Ok(PatternCovering::Unknown(component, reason))
            }
            Err(NoText::Nothing(_)) => Ok(PatternCovering::Covered),
            Err(NoText::OutOfMemory) => Err(AllocError),
        }
    }

    /// Returns a text of each component that the pattern matches, if one is known. The error says
    /// which component matches no text.
    fn examples(&self, alloc: Global) -> Result<Eight<Option<String>>, NoText>
        ensures examples { IfOk result (λ texts. (name : ComponentName)
            → IsExampleText (at self.now.components name) (at texts name)) }
        ensures lack { IfErr result (LacksExample self.now) }
    {
        let text = |name: ComponentName| -> Result<Option<String>, NoText>
            ensures { IsExampleIn self.entry.now name result }
        { self.example(alloc, name) };
        Eight::try_from_fn(text)
    }

    /// Returns a text of each component that the pattern matches, if one is known; that of
    /// `component` is `text`, which `component` matches. The error says which component matches no
    /// text.
    fn texts_with(
        &self,
        alloc: Global,
        component: ComponentName,
        text: &str,
    ) -> Result<Eight<Option<String>>, NoText>
        requires { IsMeantBy (at self.now.components component) (chars text.now) }
        ensures examples { IfOk result (λ texts. (name : ComponentName)
            → IsExampleText (at self.now.components name) (at texts name)) }
        ensures same { IfOk result (λ texts.
            option_map text_of (at texts component) ≡ Some (chars text.now)) }
        ensures lack { IfErr result (LacksExample self.now) }
    {
        let value = |name: ComponentName| -> Result<Option<String>, NoText>
            ensures { IsTextWith self.entry.now component (chars text.entry.now) name result }
        { self.text_with(alloc, name, component, text) };
        Eight::try_from_fn(value)
    }

    /// Returns a text that the component `name` matches, if one is known: `text` if `name` is
    /// `uncovered`, and an example for any other component.
    fn text_with(
        &self,
        alloc: Global,
        name: ComponentName,
        uncovered: ComponentName,
        text: &str,
    ) -> Result<Option<String>, NoText>
        ensures { IsTextWith self.now uncovered (chars text.now) name result }
    {
        if name == uncovered {
            return Ok(Some(String::from_str(alloc, text)?));
        }
        self.example(alloc, name)
    }

    /// Returns a text that the component `name` matches, if one is known.
    fn example(&self, alloc: Global, name: ComponentName) -> Result<Option<String>, NoText>
        ensures { IsExampleIn self.now name result }
    {
        match component_example(alloc, self.components.get(name))? {
            Overlap::Common(text) => Ok(Some(string_of(alloc, &text)?)),
            Overlap::Apart => Err(NoText::Nothing(name)),
            Overlap::Unknown(_) => Ok(None),
        }
    }

    /// Returns a text that the component `name` of this pattern and that of `other` match, or why
    /// it is not known whether one exists.
    fn common_text(
        &self,
        alloc: Global,
        other: &Self,
        name: ComponentName,
    ) -> Result<CommonOrDoubtful, NoText>
        ensures { IsCommonIn self.now other.now name result }
    {
        let component = self.components.get(name);
        let another = other.components.get(name);
        match component_overlaps(alloc, component, another)? {
            Overlap::Common(text) => Ok(Ok(Some(string_of(alloc, &text)?))),
            Overlap::Apart => Err(NoText::Nothing(name)),
            Overlap::Unknown(reason) => {
                if is_same(component, another) {
                    Ok(Ok(None))
                } else {
                    Ok(Err((name, reason)))
                }
            }
        }
    }
}

/// Returns whether two patterns overlap, by what is known of each component.
fn overlap_of(found: Eight<CommonOrDoubtful>) -> PatternOverlap
    ensures { (pattern other : PatternParts) → AreCommonOrDoubtful pattern other found
        → IsPatternOverlap pattern other result }
{
    let known = |found: CommonOrDoubtful| -> CommonOrDoubtful
        ensures { result ≡ found }
    { found };
    match found.try_map(known) {
        Ok(texts) => PatternOverlap::Common(texts),
        Err((component, reason)) => PatternOverlap::Unknown(component, reason),
    }
}

/// Returns the text of these characters.
pub(crate) fn string_of(alloc: Global, characters: &[char]) -> Result<String, AllocError>
    ensures { IfOk result (λ text. text_of text ≡ characters.now) }
{
    let mut text = String::new(alloc);
    for c in characters {
        text.push(*c)?;
    }
    Ok(text)
}
