//! Creates a pattern from an init or from a constructor string, or for one input.

ghost use Rattle.std.specs.Prelude.{is_some, option_copied, option_map, IfErr, IfOk, IfSome, IsTrue};
ghost use Rattle.std.specs.Str.{chars};
ghost use Rattle.urlpattern_compile.specs.Compiled.{IsPatternOfInit, RejectsInit};
ghost use Rattle.urlpattern_compile.specs.FromString.{IsPatternOfText, RejectsPatternOfText};
ghost use Rattle.urlpattern_init.specs.SpecialProtocol.{IsKnownProtocol};
ghost use Rattle.urlpattern_matches.specs.ResultViews.{result_view};
ghost use Rattle.urlpattern_pattern.specs.ByText.{ReturnsByItsText, ReturnsByTextOf, IsExecutedByMeaning, MakesFirstWays};
ghost use Rattle.urlpattern_pattern.specs.KeptParts.{AreSeparated, KeepsPartsOf, KeepsPartsOfText};
ghost use Rattle.urlpattern_pattern.specs.Patterns.{IfPattern};
ghost use Rattle.urlpattern_syntax.specs.Errors.{MemoryOr};

use super::UrlPattern;
use std::alloc::Global;
use urlpattern_compare::PatternParts;
use urlpattern_compile::{compile_init, init_of_text_keeping};
use urlpattern_components::Eight;
use urlpattern_init::{UrlPatternInit, UrlPatternMatchInput};
use urlpattern_inputs::UrlPatternOptions;
use urlpattern_matcher::component::{Component, ComponentWithParts};
use urlpattern_matcher::regexp::RegExp;
use urlpattern_matches::UrlPatternResult;
use urlpattern_syntax::{Error, RegexSyntax};

impl<R: RegExp> UrlPattern<R> {
    /// Compiles a pattern from an init: from its own texts, and from those that it inherits from
    /// its base URL.
    ///
    /// The error is an error of the first component that is rejected, or that memory ran out. The
    /// protocol is compiled first, then the hostname, the pathname, and the others in the order of
    /// a URL. A component is rejected for its text, for a fixed text in it that `url` rejects, or
    /// for its regular expression, by the engine.
    ///
    /// The pattern keeps the parts that its texts were parsed into, which its components are made
    /// of.
    ///
    /// A *way* is one way in which an expression matches a text; a backtracking engine finds the
    /// first way first. With an engine whose matchers return the captures of the first way, as
    /// those of `PatternRegexp` do, matches follow from the pattern texts, as `ReturnsByItsText`
    /// says.
    ///
    /// With `Pattern` as `UrlPattern<PatternRegexp>`, and a pattern for the path alone:
    ///
    /// ```rust init
    /// let mut init = UrlPatternInit::default();
    /// init.pathname = Some(String::from_str(alloc, "/users/:id")?);
    /// let users = Pattern::parse(alloc, init, UrlPatternOptions::default())?;
    /// ```
    ///
    /// <https://urlpattern.spec.whatwg.org/#url-pattern-create>
    pub fn parse(
        alloc: Global,
        init: UrlPatternInit,
        options: UrlPatternOptions,
    ) -> Result<Self, Error>
        ensures compiled { IfPattern result (IsPatternOfInit R.RegExp init options) }
        ensures kept { IfOk result (KeepsPartsOf R.RegExp init options) }
        ensures parts { IfOk result (λ pattern. IsTrue (is_some pattern.parts)) }
        ensures by_text { MakesFirstWays R.RegExp
            → IfPattern result (ReturnsByItsText R.answer init options) }
        ensures refused { IfErr result (MemoryOr (RejectsInit R.RegExp init options)) }
    {
        Self::parse_with_protocol(alloc, init, None, options)
    }

    /// Compiles a pattern from the constructor string `pattern`, the pattern of a whole URL. The
    /// pattern may inherit components that the string leaves out from `base_url`.
    ///
    /// The error is that `url` rejects the base URL, that the string is rejected, or any error of
    /// `parse`.
    ///
    /// With `USERS` as the text `https://example.com/users/:id`:
    ///
    /// ```rust new_users
    /// let options = UrlPatternOptions::default();
    /// let pattern = UrlPattern::from_constructor_string(alloc, router::USERS, None, options)?;
    /// Ok(Self { pattern })
    /// ```
    ///
    /// <https://urlpattern.spec.whatwg.org/#url-pattern-create>
    pub fn from_constructor_string(
        alloc: Global,
        pattern: &str,
        base_url: Option<&str>,
        options: UrlPatternOptions,
    ) -> Result<Self, Error>
        ensures compiled { IfPattern result
            (IsPatternOfText R.RegExp (chars pattern.now) (option_copied base_url.entry) options) }
        ensures parts { IfOk result (λ pattern. IsTrue (is_some pattern.parts)) }
        ensures kept { IfOk result
            (KeepsPartsOfText R.RegExp (chars pattern.now) (option_copied base_url.entry) options) }
        ensures by_text { MakesFirstWays R.RegExp
            → IfPattern result
            (ReturnsByTextOf R.RegExp (chars pattern.now) (option_copied base_url.entry) options) }
        ensures refused { IfErr result (MemoryOr (RejectsPatternOfText R.RegExp (chars pattern.now)
            (option_copied base_url.entry) options)) }
    {
        let keeps = options.regex_syntax == RegexSyntax::Rust;
        let (init, known) = init_of_text_keeping::<R>(alloc, pattern, base_url, keeps)?;
        Self::parse_with_protocol(alloc, init, known, options)
    }

    /// Compiles a pattern as `parse` does. `known` is the protocol's component, if it is already
    /// compiled, with the pattern text that it was compiled from.
    ///
    /// The errors are those of `parse`.
    fn parse_with_protocol(
        alloc: Global,
        init: UrlPatternInit,
        known: Option<(&str, ComponentWithParts<R>)>,
        options: UrlPatternOptions,
    ) -> Result<Self, Error>
        requires { IfSome known (IsKnownProtocol R.RegExp) }
        ensures compiled { IfPattern result (IsPatternOfInit R.RegExp init options) }
        ensures kept { IfOk result (KeepsPartsOf R.RegExp init options) }
        ensures parts { IfOk result (λ pattern. IsTrue (is_some pattern.parts)) }
        ensures by_text { MakesFirstWays R.RegExp
            → IfPattern result (ReturnsByItsText R.answer init options) }
        ensures refused { IfErr result (MemoryOr (RejectsInit R.RegExp init options)) }
    {
        // A `?`, or one `match` for both, would copy the components, which fill kilobytes, once
        // more.
        let made = match compile_init(alloc, init, known, options) {
            Ok(made) => made,
            Err(error) => return Err(error),
        };
        let (components, parts) = separate_parts(made);
        Ok(Self::with_parts(components, parts))
    }

    /// Compiles the pattern of an init and matches one input: `parse`, then `exec`.
    ///
    /// Parts *mean* a text, with captures, if they can match it one after the other. In a match,
    /// each pattern text's parts mean the component's text with the captures that are returned.
    /// `None`: the parts do not mean all eight texts, or `url` rejects the input. The premises:
    /// components without custom regular expressions, case that is kept, texts without line feeds,
    /// and an engine that follows its regular expression, where one is needed. With an engine whose
    /// matchers return first ways, as those of `PatternRegexp` and `regex::Regex` do, the captures
    /// are those of the first way, without a premise on the engine, and components may have custom
    /// regular expressions that are simple (`has_meaning`).
    ///
    /// The error says why the pattern is rejected, or that memory ran out.
    pub fn exec_once(
        alloc: Global,
        init: UrlPatternInit,
        options: UrlPatternOptions,
        input: UrlPatternMatchInput,
    ) -> Result<Option<UrlPatternResult>, Error>
        ensures executed { IfOk result (λ found.
            IsExecutedByMeaning R.RegExp init options input (option_map result_view found)) }
        ensures refused { IfErr result (MemoryOr (RejectsInit R.RegExp init options)) }
    {
        let pattern = Self::parse(alloc, init, options)?;
        let found = pattern.exec(alloc, input);
        drop(pattern);
        found
    }
}

/// Separates each component of `made` from the parts that it was made of.
fn separate_parts<R: RegExp>(
    made: Eight<ComponentWithParts<R>>,
) -> (Eight<Component<R>>, PatternParts)
    ensures { AreSeparated made result.0 result.1 }
{
    let (protocol, protocol_parts) = made.protocol.into_fields();
    let (username, username_parts) = made.username.into_fields();
    let (password, password_parts) = made.password.into_fields();
    let (hostname, hostname_parts) = made.hostname.into_fields();
    let (port, port_parts) = made.port.into_fields();
    let (pathname, pathname_parts) = made.pathname.into_fields();
    let (search, search_parts) = made.search.into_fields();
    let (hash, hash_parts) = made.hash.into_fields();
    let components = Eight {
        protocol,
        username,
        password,
        hostname,
        port,
        pathname,
        search,
        hash,
    };
    let parts = Eight {
        protocol: protocol_parts,
        username: username_parts,
        password: password_parts,
        hostname: hostname_parts,
        port: port_parts,
        pathname: pathname_parts,
        search: search_parts,
        hash: hash_parts,
    };
    (components, PatternParts { components: parts })
}
