//! Compiles a pattern from an init.

ghost use Rattle.std.specs.Prelude.{◌≡◌, ◌↔◌, ⊤, [], codes, false, length, option_map, unwrap_or, IfErr, IfOk, IfSome, IsTrue, MatchBool, Some};
ghost use Rattle.std.specs.Str.{chars};
ghost use Rattle.urlpattern_canonical.specs.Canonical.{IsResult};
ghost use Rattle.urlpattern_matcher.specs.Components.{component_view};
ghost use Rattle.urlpattern_matcher.specs.Matchers.{matcher_view};
ghost use Rattle.urlpattern_meaning.specs.FirstResults.{AcceptedText};
ghost use Rattle.urlpattern_init.specs.{Inheritance.values_view, SpecialProtocol.IsKnownProtocol};
ghost use Rattle.urlpattern_compile.specs.Compiled.{FirstRejected, HasEngine, IsComponentRejected, IsPathKind, RejectsInit, RejectsValues, after_protocol, canonical_in_hostname, is_ipv6_pattern, is_mark};
ghost use Rattle.urlpattern_compile.specs.CompilerSteps.{IsCompiledWith, IsRejectedWith, compiled_values, settings_by};
ghost use Rattle.urlpattern_compile.specs.KeptComponents.{AreCompiledWithParts, EachIsCompiledWithParts, IsCompiledWithParts, IsInitCompiledWithParts};
ghost use Rattle.urlpattern_components.specs.declared.eight.ComponentName.{ComponentName};
ghost use Rattle.urlpattern_syntax.specs.Errors.{MemoryOr, OnlyOutOfMemory};
ghost use Rattle.urlpattern_syntax.specs.Options.{options_view};
ghost use Rattle.urlpattern_syntax.specs.Reading.{encoding_by};
ghost use Rattle.urlpattern_syntax.specs.Text.{begins_with, text_of};

use crate::processed_init::{pattern_of, pattern_values};
use std::alloc::Global;
use urlpattern_canonical::begins_with_bracket;
use urlpattern_canonical::canonicalize_and_process::{
    Canonicalizer, begins_with_slash, canonicalize_ipv6_hostname, without_first,
};
use urlpattern_components::{ComponentName, Eight};
use urlpattern_init::{UrlPatternInit, accepts_special_scheme};
use urlpattern_inputs::UrlPatternOptions;
use urlpattern_matcher::component::{Component, ComponentWithParts};
use urlpattern_matcher::matcher::{InnerMatcher, Matcher};
use urlpattern_matcher::regexp::RegExp;
use urlpattern_parser::parser::Options;
use urlpattern_syntax::{Error, RegexSyntax};

/// Compiles the eight components of a pattern from an init: from the texts that it has, and from
/// those that it inherits from its base URL.
///
/// Fails with the error of the first rejected component, or with `OutOfMemory`. The protocol is
/// compiled first, then the hostname and the pathname, then the others in the order of a URL. A
/// component is rejected for its syntax, by `url` for a fixed text, or by the engine for a regular
/// expression.
///
/// `known` is the text of a protocol and its component, if they were compiled already to split a
/// constructor string. The component is reused if the init's processed protocol is that text, the
/// syntax is `RegexSyntax::Rust`, and the engine accepted the component's regular expressions.
///
/// <https://urlpattern.spec.whatwg.org/#url-pattern-create>
pub fn compile_init<R: RegExp>(
    alloc: Global,
    init: UrlPatternInit,
    known: Option<(&str, ComponentWithParts<R>)>,
    options: UrlPatternOptions,
) -> Result<Eight<ComponentWithParts<R>>, Error>
    requires { IfSome known (IsKnownProtocol R.RegExp) }
    ensures compiled { IfOk result (IsInitCompiledWithParts R.RegExp init options) }
    ensures refused { IfErr result (MemoryOr (RejectsInit R.RegExp init options)) }
{
    let values = pattern_values(alloc, &init);
    drop(init);
    let values = values?;
    let components = compile_values(alloc, &values, known, &options);
    drop(values);
    components
}

/// Compiles the processed values of an init to components; `known` is as in `compile_init`.
///
/// Fails with the error of the first rejected component, or with `OutOfMemory`.
fn compile_values<R: RegExp>(
    alloc: Global,
    values: &UrlPatternInit,
    known: Option<(&str, ComponentWithParts<R>)>,
    options: &UrlPatternOptions,
) -> Result<Eight<ComponentWithParts<R>>, Error>
    requires { IfSome known (IsKnownProtocol R.RegExp) }
    ensures compiled { IfOk result
        (AreCompiledWithParts R.RegExp options.now (values_view values.now)) }
    ensures refused { IfErr result
        (MemoryOr (RejectsValues R.RegExp options.now (values_view values.now))) }
{
    let canonicalizer = Canonicalizer::shared(alloc)?;
    let compiler = Compiler {
        alloc,
        canonicalizer,
        values,
        options,
    };
    compiler.components(known)
}

/// Whether the pattern of a hostname begins as an IPv6 address does: with `[`, perhaps after one
/// `{` or one `\`. A `[` alone does not count.
///
/// <https://urlpattern.spec.whatwg.org/#hostname-pattern-is-an-ipv6-address>
fn is_ipv6_pattern(pattern: &str) -> bool
    ensures { result ≡ is_ipv6_pattern (chars pattern.now) }
{
    pattern != "["
        && (begins_with_bracket(without_first(pattern, b'{'))
            || begins_with_bracket(without_first(pattern, b'\\')))
}

/// Compiles a pattern text, or `*` for `None`, to a component with its parts. `encoding_callback`
/// makes a fixed text canonical.
///
/// Fails with the error of a rejected text, with `RegExp` if the engine rejects the regular
/// expression of the whole component or of its matcher, or with `OutOfMemory`.
#[inline(always)]
fn compile_component<R: RegExp, F: Fn(&str) -> Result<String, Error> + Drop>(
    alloc: Global,
    pattern: Option<&str>,
    encoding_callback: F,
    options: Options,
) -> Result<ComponentWithParts<R>, Error>
    requires { F.IsAlwaysCallable encoding_callback }
    ensures compiled { IfOk result
        (IsCompiledWith R.RegExp pattern.entry options (encoding_by F.Fn encoding_callback)) }
    ensures engine { IfOk result (λ made. HasEngine (component_view made.component)) }
    ensures refused { IfErr result (MemoryOr
        (IsRejectedWith R.RegExp pattern.entry options (encoding_by F.Fn encoding_callback))) }
{
    let compiled = Component::compile_with_parts(alloc, pattern, encoding_callback, options);
    if lacks_engine(&compiled) {
        drop(compiled);
        return Err(Error::RegExp(()));
    }
    compiled
}

/// Whether a component was compiled, but the engine rejected one of its regular expressions.
#[inline(always)]
fn lacks_engine<R: RegExp>(compiled: &Result<ComponentWithParts<R>, Error>) -> bool
    ensures compiled { IfOk compiled.now (λ made.
        MatchBool result (¬ HasEngine (component_view made.component))
        (HasEngine (component_view made.component))) }
    ensures refused { IfErr compiled.now (λ _. result ≡ false) }
{
    match compiled {
        Ok(made) => made.component.regexp.is_err() || holds_error(&made.component.matcher),
        Err(_) => false,
    }
}

/// Whether a matcher holds the error of an engine in place of the engine that it needs.
#[inline(always)]
fn holds_error<R: RegExp>(matcher: &Matcher<R>) -> bool
    ensures { MatchBool result (¬ AcceptedText (λ value. ⊤) (matcher_view matcher.now).inner)
        (AcceptedText (λ value. ⊤) (matcher_view matcher.now).inner) }
{
    match &matcher.inner {
        InnerMatcher::RegExp { regexp } => regexp.is_err(),
        _ => false,
    }
}

/// The processed values of an init, and the options under which they are compiled to a pattern.
#[derive(Drop)]
pub struct Compiler<'a> {
    /// The allocator.
    pub alloc: Global,
    /// The canonicalizer of fixed texts.
    pub canonicalizer: Canonicalizer,
    /// The processed values of the init.
    pub values: &'a UrlPatternInit,
    /// The options that the caller passed.
    pub options: &'a UrlPatternOptions,
}

impl Compiler<'_> {
    /// Compiles the components, the protocol first, since it decides whether the pathname is
    /// hierarchical; `known` is as in `compile_init`.
    ///
    /// Fails with the error of the first rejected component, or with `OutOfMemory`.
    pub(crate) fn components<R: RegExp>(
        &self,
        known: Option<(&str, ComponentWithParts<R>)>,
    ) -> Result<Eight<ComponentWithParts<R>>, Error>
        requires { IfSome known (IsKnownProtocol R.RegExp) }
        ensures compiled { IfOk result
            (AreCompiledWithParts R.RegExp self.now.options.now (compiled_values self.now)) }
        ensures refused { IfErr result
            (MemoryOr (RejectsValues R.RegExp self.now.options.now (compiled_values self.now))) }
    {
        let protocol = self.protocol(known)?;
        let hierarchical = self.is_hierarchical(&protocol.component)?;
        self.after_protocol(protocol, hierarchical)
    }

    /// Compiles the protocol, or returns the component of `known` if it was compiled from the
    /// protocol's text under equal options, and the engine accepted its regular expressions.
    ///
    /// Fails with the error of a rejected text or regular expression, or with `OutOfMemory`.
    fn protocol<R: RegExp>(
        &self,
        known: Option<(&str, ComponentWithParts<R>)>,
    ) -> Result<ComponentWithParts<R>, Error>
        requires { IfSome known (IsKnownProtocol R.RegExp) }
        ensures compiled { IfOk result
            (IsCompiledWithParts R.RegExp (settings_by self.now false ComponentName.Protocol)) }
        ensures refused { IfErr result (MemoryOr
            (IsComponentRejected R.RegExp (settings_by self.now false ComponentName.Protocol))) }
    {
        if let (Some((text, made)), Some(own), RegexSyntax::Rust) = (
            known,
            &self.values.protocol,
            self.options.regex_syntax,
        )
            && own.as_str() == text
        {
            let made = Ok(made);
            if !lacks_engine(&made) {
                return made;
            }
        }
        self.component(ComponentName::Protocol, false)
    }

    /// Compiles the components after the protocol, and returns them with `protocol`. `hierarchical`
    /// says whether the pathname is hierarchical.
    ///
    /// Fails with the error of the first rejected component, or with `OutOfMemory`.
    fn after_protocol<R: RegExp>(
        &self,
        protocol: ComponentWithParts<R>,
        hierarchical: bool,
    ) -> Result<Eight<ComponentWithParts<R>>, Error>
        requires { IsCompiledWithParts R.RegExp
            (settings_by self.now hierarchical ComponentName.Protocol) protocol }
        ensures protocol { IfOk result (λ made.
            component_view made.protocol.component ≡ component_view protocol.component) }
        ensures compiled { IfOk result
            (EachIsCompiledWithParts R.RegExp (settings_by self.now hierarchical)) }
        ensures refused { IfErr result
            (MemoryOr (FirstRejected R.RegExp (settings_by self.now hierarchical) after_protocol)) }
    {
        Ok(Eight {
            protocol,
            hostname: self.component(ComponentName::Hostname, hierarchical)?,
            pathname: self.component(ComponentName::Pathname, hierarchical)?,
            username: self.component(ComponentName::Username, hierarchical)?,
            password: self.component(ComponentName::Password, hierarchical)?,
            port: self.component(ComponentName::Port, hierarchical)?,
            search: self.component(ComponentName::Search, hierarchical)?,
            hash: self.component(ComponentName::Hash, hierarchical)?,
        })
    }

    /// Compiles a component of the pattern. `hierarchical` says whether the pathname is
    /// hierarchical.
    ///
    /// Fails with the error of a rejected text or regular expression, or with `OutOfMemory`.
    pub(crate) fn component<R: RegExp>(
        &self,
        component: ComponentName,
        hierarchical: bool,
    ) -> Result<ComponentWithParts<R>, Error>
        ensures compiled { IfOk result
            (IsCompiledWithParts R.RegExp (settings_by self.now hierarchical component)) }
        ensures refused { IfErr result (MemoryOr
            (IsComponentRejected R.RegExp (settings_by self.now hierarchical component))) }
    {
        let options = self.options_of(component, hierarchical)?;
        let canonicalize = |text: &str| -> Result<String, Error>
            ensures { IsResult
                ((settings_by self.entry.now hierarchical component).canonical (chars text.now))
                (length text.now) result }
        { self.canonical(component, hierarchical, text) };
        let pattern = pattern_of(self.values, component);
        compile_component(self.alloc, pattern, canonicalize, options)
    }

    /// Returns the options under which a component's pattern is parsed. A pathname has the
    /// delimiter and prefix `/` only if `hierarchical`; only pathname, search and hash may ignore
    /// case.
    ///
    /// Fails only with `OutOfMemory`.
    pub fn options_of(&self, component: ComponentName, hierarchical: bool) -> Result<Options, Error>
        ensures ok { IfOk result (λ options.
            options_view options ≡ (settings_by self.now hierarchical component).options) }
        ensures memory { OnlyOutOfMemory result }
    {
        let standard = match component {
            ComponentName::Hostname => Options::hostname(self.alloc),
            ComponentName::Pathname if hierarchical => Options::pathname(self.alloc)?,
            _ => Options::default(self.alloc),
        };
        let takes_case = matches!(
            component,
            ComponentName::Pathname | ComponentName::Search | ComponentName::Hash
        );
        Ok(Options {
            regex_syntax: self.options.regex_syntax,
            ignore_case: takes_case && self.options.ignore_case,
            ..standard
        })
    }

    /// Returns the canonical form of a fixed text in a component's pattern. A text of the pathname
    /// is part of a path with segments if `hierarchical`, and of an opaque path otherwise.
    ///
    /// Fails with the error of `url`, or with `OutOfMemory`.
    pub fn canonical(
        &self,
        component: ComponentName,
        hierarchical: bool,
        text: &str,
    ) -> Result<String, Error>
        ensures { IsResult
            ((settings_by self.now hierarchical component).canonical (chars text.now))
            (length text.now) result }
    {
        let values = &self.canonicalizer;
        match component {
            ComponentName::Protocol => values.protocol(text),
            ComponentName::Username => values.username(text),
            ComponentName::Password => values.password(text),
            ComponentName::Hostname => self.canonical_in_hostname(text),
            ComponentName::Port => values.port(text, None),
            ComponentName::Pathname if hierarchical => values.pathname(text),
            ComponentName::Pathname => values.opaque_pathname(text),
            ComponentName::Search => values.search(text),
            ComponentName::Hash => values.hash(text),
        }
    }

    /// Returns the canonical form of a fixed text in the hostname's pattern, which may be that of
    /// an IPv6 address.
    ///
    /// Fails with the error of `url`, or with `OutOfMemory`.
    fn canonical_in_hostname(&self, text: &str) -> Result<String, Error>
        ensures { IsResult (canonical_in_hostname (unwrap_or (compiled_values self.now).hostname [])
            (chars text.now)) (length text.now) result }
    {
        match &self.values.hostname {
            Some(pattern) if is_ipv6_pattern(pattern) => {
                canonicalize_ipv6_hostname(self.alloc, text)
            }
            _ => self.canonicalizer.hostname(text),
        }
    }

    /// Whether the pathname of the pattern is hierarchical: the protocol is empty, its component
    /// `protocol` accepts a special scheme, or the pathname begins with a slash.
    ///
    /// Fails only with `OutOfMemory`.
    pub fn is_hierarchical<R: RegExp>(&self, protocol: &Component<R>) -> Result<bool, Error>
        ensures path_kind { IfOk result
            (IsPathKind R.answer (compiled_values self.now) (component_view protocol.now).matcher) }
        ensures memory { OnlyOutOfMemory result }
    {
        if is_some_and_empty(&self.values.protocol) || is_some_with_slash(&self.values.pathname) {
            return Ok(true);
        }
        accepts_special_scheme(self.alloc, &protocol.matcher)
    }
}

/// Whether a text is present and empty.
fn is_some_and_empty(text: &Option<String>) -> bool
    ensures { IsTrue result ↔ (option_map text_of text.now ≡ Some []) }
{
    match text {
        Some(text) => text.is_empty(),
        None => false,
    }
}

/// Whether a text is present and begins with a slash.
fn is_some_with_slash(text: &Option<String>) -> bool
    ensures { result
        ≡ begins_with (is_mark (codes "/")) (unwrap_or (option_map text_of text.now) []) }
{
    match text {
        Some(text) => begins_with_slash(text),
        None => false,
    }
}
