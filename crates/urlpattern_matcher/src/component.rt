//! Components: pattern string, regular expression, group names and matcher.
//!
//! <https://urlpattern.spec.whatwg.org/#component>

ghost use Rattle.std.specs.Prelude.{◌≡◌, true, false, string_bytes, IfErr, IfOk, Some};
ghost use Rattle.std.specs.Str.{chars};
ghost use Rattle.urlpattern_matcher.specs.Components.{ReturnsByItsParts, FailsToRead, IsCompiledFrom, IsCompiledKeeping, IsComponentOf, IsEngineOf, IsWholeEngineOf, component_view, engine_flags, has_regexp, honours_case, pattern_text};
ghost use Rattle.urlpattern_matcher.specs.Matchers.{engine_view, matcher_view};
ghost use Rattle.urlpattern_meaning.specs.GeneratedTexts.{IsGenerated};
ghost use Rattle.urlpattern_syntax.specs.{Errors.OnlyOutOfMemory, Options.options_view, Parts.parts_view, Reading.encoding_by, Text.text_of};

mod matchers;
mod normal;

use crate::matcher::{InnerMatcher, Matcher};
use crate::regexp::RegExp;
use matchers::generate_matcher_with_regexp;
pub use matchers::{generate_matcher, is_plain};
pub use normal::normalize_part_list;
use std::alloc::{AllocError, Global};
use std::fmt;
use urlpattern_parser::parser::{Options, Part, PartType, RegexSyntax, parse_pattern_string};
pub use urlpattern_printing::{generate_pattern_string, generate_regular_expression_and_name_list};
use urlpattern_printing::{generate_name_list, generate_regular_expression};
use urlpattern_syntax::ComponentParts;
use urlpattern_syntax::error::{Error, RegExpError};

/// A component, compiled from a pattern text.
///
/// `Component` implements `Drop`, so `into_fields` moves the fields out together.
///
/// ```rust path_of
/// let copied = |text: &str| -> Result<String, Error> { Ok(String::from_str(alloc, text)?) };
/// let path: Component<PatternRegexp> = Component::compile(alloc, Some("/:id"), copied, options)?;
/// ```
///
/// <https://urlpattern.spec.whatwg.org/#component>
#[derive(Debug)]
pub struct Component<R> {
    /// The normalized pattern string, generated from the parts.
    pub pattern_string: String,
    /// The engine's value of the regular expression, or the error with which the engine rejected
    /// the expression.
    pub regexp: Result<R, Error>,
    /// The names of the groups, in order.
    pub group_name_list: Vec<String>,
    /// The matcher of the component's text.
    pub matcher: Matcher<R>,
    /// Whether the pattern has a custom regular expression.
    pub has_regexp_group: bool,
}

impl<R: RegExp> Component<R> {
    /// Compiles the component of a pattern text, or of an asterisk if there is none.
    ///
    /// `encoding_callback` encodes each fixed text, prefix and suffix of the pattern. An expression
    /// that the engine rejects is kept in the component as an error. If the pattern has a custom
    /// regular expression, an engine of ECMAScript's syntax has to compile the expression at once.
    ///
    /// If the pattern has no custom regular expression and case is kept, the component's matcher
    /// returns what the parts *mean*, for texts without line feeds: captures with which the parts
    /// can match the text, one after the other, or `None` if they cannot. An engine that the
    /// matcher calls has to follow its regular expression.
    ///
    /// The error is that the pattern text is rejected, which may be an error of the callback, or
    /// that memory ran out.
    ///
    /// <https://urlpattern.spec.whatwg.org/#compile-a-component>
    pub fn compile<F: Fn(&str) -> Result<String, Error> + Drop>(
        alloc: Global,
        pattern: Option<&str>,
        encoding_callback: F,
        options: Options,
    ) -> Result<Self, Error>
        requires { F.IsAlwaysCallable encoding_callback }
        ensures compiled { IfOk result (λ component.
            IsCompiledFrom R.RegExp (pattern_text pattern.entry) (options_view options)
            (encoding_by F.Fn encoding_callback) (component_view component)) }
        ensures means { IfOk result (λ component.
            ReturnsByItsParts R.RegExp (options_view options) (component_view component)) }
        ensures refuses { IfErr result (FailsToRead (pattern_text pattern.entry)
            (options_view options) (encoding_by F.Fn encoding_callback)) }
    {
        match Self::compile_with_parts(alloc, pattern, encoding_callback, options) {
            Ok(made) => {
                let (component, kept) = made.into_fields();
                drop(kept);
                Ok(component)
            }
            Err(error) => Err(error),
        }
    }

    /// Compiles a component as `compile` does, and returns it with the parts that it was made of.
    ///
    /// The error is that the pattern text is rejected, which may be an error of the callback, or
    /// that memory ran out.
    ///
    /// <https://urlpattern.spec.whatwg.org/#compile-a-component>
    pub fn compile_with_parts<F: Fn(&str) -> Result<String, Error> + Drop>(
        alloc: Global,
        pattern: Option<&str>,
        encoding_callback: F,
        options: Options,
    ) -> Result<ComponentWithParts<R>, Error>
        requires { F.IsAlwaysCallable encoding_callback }
        ensures compiled { IfOk result (IsCompiledKeeping R.RegExp (pattern_text pattern.entry)
            (options_view options) (encoding_by F.Fn encoding_callback)) }
        ensures refuses { IfErr result (FailsToRead (pattern_text pattern.entry)
            (options_view options) (encoding_by F.Fn encoding_callback)) }
    {
        let pattern = pattern.unwrap_or("*");
        let parts = parse_pattern_string(alloc, pattern, &options, encoding_callback)?;
        let component = Self::from_parts(alloc, &parts, &options)?;
        let honours = honours_case(&component.matcher);
        let kept = ComponentParts {
            options,
            parts,
            honours_case: honours,
        };
        Ok(ComponentWithParts { component, kept })
    }

    /// Makes the component of `part_list`: pattern string, regular expression, group names and
    /// matcher. The only error is that memory ran out: an expression that the engine rejects is
    /// kept.
    fn from_parts(alloc: Global, part_list: &[Part], options: &Options) -> Result<Self, Error>
        ensures made { IfOk result (λ made.
            IsComponentOf R.RegExp (options_view options.now) (parts_view part_list.now)
            (component_view made)) }
        ensures memory { OnlyOutOfMemory result }
    {
        let flags = engine_flags(options);
        let has_regexp_group = has_regexp(part_list);
        let text = generate_regular_expression(alloc, part_list, options)?;
        let matcher = generate_matcher_with_regexp(alloc, part_list, options, flags, Some(&text))?;
        let regexp = engine_of(alloc, text, flags, has_regexp_group)?;
        Ok(Component {
            pattern_string: generate_pattern_string(alloc, part_list, options)?,
            regexp,
            group_name_list: generate_name_list(alloc, part_list)?,
            matcher,
            has_regexp_group,
        })
    }
}

impl<R: Drop> Component<R> {
    /// Returns the fields by value: pattern string, engine's value, group names, matcher, and
    /// whether the pattern has a custom regular expression.
    pub fn into_fields(self) -> (String, Result<R, Error>, Vec<String>, Matcher<R>, bool)
        ensures { result
            ≡ (
              self.pattern_string,
              self.regexp,
              self.group_name_list,
              self.matcher,
              self.has_regexp_group,
            ) }
    {
        let Self {
            pattern_string,
            regexp,
            group_name_list,
            matcher,
            has_regexp_group,
        } = self;
        (
            pattern_string,
            regexp,
            group_name_list,
            matcher,
            has_regexp_group,
        )
    }
}

/// A component, and the parts that it was made of.
///
/// `ComponentWithParts` implements `Drop`, so `into_fields` moves the fields out together.
#[derive(Debug)]
pub struct ComponentWithParts<R> {
    /// The component.
    pub component: Component<R>,
    /// The parts that the pattern text was parsed into, with their options.
    pub kept: ComponentParts,
}

impl<R: Drop> ComponentWithParts<R> {
    /// Returns the component and its parts.
    pub fn into_fields(self) -> (Component<R>, ComponentParts)
        ensures { result ≡ (self.component, self.kept) }
    {
        let Self { component, kept } = self;
        (component, kept)
    }
}

impl<R: Drop> Drop for ComponentWithParts<R> {
    /// Drops the fields. Where they go out of scope, the prover handles one call in place of two.
    fn drop(self) {
        let Self {
            component: _component,
            kept: _kept,
        } = self;
    }
}

/// Prints the normalized pattern string.
impl<R> fmt::Display for Component<R> {
    ghost output = { λ component. Some (string_bytes component.pattern_string) };

    fn fmt<W: fmt::Write>(&self, f: &mut fmt::Formatter<W>) -> fmt::Result {
        f.write_str(&self.pattern_string)
    }
}

impl<R: Drop> Drop for Component<R> {
    /// Drops the fields. Where a component goes out of scope, the prover handles one call in place
    /// of one for each field.
    fn drop(self) {
        let Self {
            pattern_string: _pattern_string,
            regexp: _regexp,
            group_name_list: _group_name_list,
            matcher: _matcher,
            has_regexp_group: _,
        } = self;
    }
}

/// Whether the matcher needs no engine, or one that honours the flag `i`.
fn honours_case<R: RegExp>(matcher: &Matcher<R>) -> bool
    ensures { result ≡ honours_case R.RegExp (matcher_view matcher.now).inner }
{
    match &matcher.inner {
        InnerMatcher::RegExp { .. } => R::honours_case(),
        _ => true,
    }
}

/// Returns the flags for an engine: `u`, and `i` if case is ignored.
fn engine_flags(options: &Options) -> &'static str
    ensures { chars result.now ≡ engine_flags (options_view options.now) }
{
    if options.ignore_case { "ui" } else { "u" }
}

/// Whether a part of `part_list` is a custom regular expression.
fn has_regexp(part_list: &[Part]) -> bool
    ensures { result ≡ has_regexp (parts_view part_list.now) }
{
    part_list
        .iter()
        .any(|part| matches!(part.kind, PartType::Regexp))
}

/// Compiles `regexp`, the regular expression of a whole component. `has_regexp_group` says that the
/// component has a custom expression; an engine of ECMAScript's syntax that accepts `regexp` is
/// then called again, with `force_eval`. The inner error is that the engine rejects `regexp`.
fn engine_of<R: RegExp>(
    alloc: Global,
    regexp: String,
    flags: &str,
    has_regexp_group: bool,
) -> Result<Result<R, Error>, AllocError>
    requires { has_regexp_group ≡ false → IsGenerated (text_of regexp) }
    ensures { IfOk result (λ engine.
        IsWholeEngineOf R.RegExp has_regexp_group (chars flags.now) (text_of regexp)
        (engine_view engine)) }
{
    if has_regexp_group && R::syntax() == RegexSyntax::EcmaScript {
        let engine: Result<R, Error> = kept_engine(alloc, regexp.clone()?, flags, false, false)?;
        if engine.is_err() {
            return Ok(engine);
        }
        return kept_engine(alloc, regexp, flags, true, false);
    }
    kept_engine(alloc, regexp, flags, false, !has_regexp_group)
}

/// Compiles `regexp` by `RegExp::parse_to_keep`. `is_generated` says that `regexp` was generated
/// from parts, none of them custom. The inner error is that the engine rejects `regexp`.
fn kept_engine<R: RegExp>(
    alloc: Global,
    regexp: String,
    flags: &str,
    force_eval: bool,
    is_generated: bool,
) -> Result<Result<R, Error>, AllocError>
    requires { is_generated ≡ true → IsGenerated (text_of regexp) }
    ensures { IfOk result (λ engine.
        IsEngineOf R.RegExp force_eval (chars flags.now) (text_of regexp) (engine_view engine)) }
{
    match R::parse_to_keep(alloc, regexp, flags, force_eval, is_generated) {
        Ok(engine) => Ok(Ok(engine)),
        Err(RegExpError::Pattern) => Ok(Err(Error::RegExp(()))),
        Err(RegExpError::OutOfMemory) => Err(AllocError),
    }
}
