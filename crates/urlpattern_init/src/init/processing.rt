//! Processing of an init, as a pattern or as a URL, by one table of inheritance.
ghost use Rattle.std.specs.Prelude.{◌≡◌, ◌&&◌, None, Ok, is_none, option_map, IfOk, IfErr, IsAscii};
ghost use Rattle.std.specs.Str.{chars};
ghost use Rattle.urlpattern_canonical.specs.Canonical.{Reports};
ghost use Rattle.urlpattern_init.specs.Inheritance as spec;
ghost use Rattle.urlpattern_init.specs.Inheritance.{bytes_of, longest_init_bytes, init_values, is_inheritable, missing, must_lack, up_to_last_slash, values_of, values_view};
ghost use Rattle.urlpattern_init.specs.Processing.{IsFailureIn, IsGivenPathnameResult, IsTextResult, IsValueUnlessProtocol, bytes_in, given_values, lacking_in, optional_bytes, value_in, values_in};
ghost use Rattle.urlpattern_components.specs.declared.eight.ComponentName.{ComponentName};
ghost use Rattle.urlpattern_components.specs.Eight.{at};
ghost use Rattle.urlpattern_syntax.specs.Errors.{MemoryOr, OnlyOutOfMemory};
ghost use Rattle.urlpattern_syntax.specs.Text.{text_of, option_text};

use crate::init::UrlPatternInit;
use std::alloc::Global;
use url::{Url, quirks};
use urlpattern_canonical::canonicalize_and_process::{
    Canonicalizer, ProcessType, begins_with_slash, process_base_url, without_first,
};
use urlpattern_components::{ComponentName, Eight};
use urlpattern_syntax::Error;

/// Returns the components that an init must lack, along with `component` itself, to inherit
/// `component` from its base URL.
fn must_lack(component: ComponentName) -> &'static [ComponentName]
    ensures { result.now ≡ must_lack component }
{
    match component {
        ComponentName::Protocol => &[],
        ComponentName::Username => &[
            ComponentName::Protocol,
            ComponentName::Hostname,
            ComponentName::Port,
        ],
        ComponentName::Password => &[
            ComponentName::Protocol,
            ComponentName::Hostname,
            ComponentName::Port,
            ComponentName::Username,
        ],
        ComponentName::Hostname => &[ComponentName::Protocol],
        ComponentName::Port => &[ComponentName::Protocol, ComponentName::Hostname],
        ComponentName::Pathname => &[
            ComponentName::Protocol,
            ComponentName::Hostname,
            ComponentName::Port,
        ],
        ComponentName::Search => &[
            ComponentName::Protocol,
            ComponentName::Hostname,
            ComponentName::Port,
            ComponentName::Pathname,
        ],
        ComponentName::Hash => &[
            ComponentName::Protocol,
            ComponentName::Hostname,
            ComponentName::Port,
            ComponentName::Pathname,
            ComponentName::Search,
        ],
    }
}

/// Whether the component may be inherited at all when an init is processed as `kind`: a pattern
/// inherits no user name and no password.
fn is_inheritable(component: ComponentName, kind: &ProcessType) -> bool
    ensures { result ≡ is_inheritable kind.now component }
{
    match kind {
        ProcessType::Pattern => !matches!(
            component,
            ComponentName::Username | ComponentName::Password
        ),
        ProcessType::Url => true,
    }
}

/// Returns the text of a URL's component; empty if the URL lacks the component.
pub fn url_text(url: &Url, component: ComponentName) -> &str
    ensures { chars result.now ≡ spec.url_text component url.now }
{
    match component {
        ComponentName::Protocol => url.scheme(),
        ComponentName::Username => url.username(),
        ComponentName::Password => quirks::password(url),
        ComponentName::Hostname => quirks::hostname(url),
        ComponentName::Port => quirks::port(url),
        ComponentName::Pathname => url.path(),
        ComponentName::Search => url.query().unwrap_or(""),
        ComponentName::Hash => url.fragment().unwrap_or(""),
    }
}

/// Whether an init lacks every component of the list.
fn lacks_all(init: &UrlPatternInit, components: &[ComponentName]) -> bool
    ensures { result ≡ spec.lacks_all (values_view init.now) components.now }
{
    components.iter().all(|&component| lacks(init, component))
}

/// Whether an init lacks a component.
fn lacks(init: &UrlPatternInit, component: ComponentName) -> bool
    ensures { result ≡ is_none (at (values_view init.now) component) }
{
    init.get(component).is_none()
}

/// Whether a pathname is absolute: it begins with a slash, in a pattern perhaps after one backslash
/// or one open brace.
///
/// <https://urlpattern.spec.whatwg.org/#is-an-absolute-pathname>
fn is_absolute(pathname: &str, kind: &ProcessType) -> bool
    ensures { result ≡ spec.is_absolute kind.now (chars pathname.now) }
{
    match kind {
        ProcessType::Pattern => {
            begins_with_slash(without_first(pathname, b'\\'))
                || begins_with_slash(without_first(pathname, b'{'))
        }
        ProcessType::Url => begins_with_slash(pathname),
    }
}

/// Returns a path up to its last slash, the slash included; empty if the path has no slash.
fn up_to_last_slash(path: &str) -> &str
    requires { IsAscii path.now }
    ensures { result.now ≡ up_to_last_slash path.now }
{
    match path.rfind('/') {
        Some(at) => &path[..at + 1],
        None => "",
    }
}

/// An init, and whether it is processed as a pattern or as a URL.
#[derive(Drop)]
struct Processing<'a> {
    alloc: Global,
    canonicalizer: Canonicalizer,
    init: &'a UrlPatternInit,
    kind: &'a ProcessType,
}

impl Processing<'_> {
    /// Processes the components after the protocol, and returns their values with `protocol`, the
    /// processed value of the protocol.
    fn values(&self, protocol: Option<String>) -> Result<Eight<Option<String>>, Error>
        requires { value_in self.now None ComponentName.Protocol
            ≡ Ok (option_map text_of protocol) }
        ensures ok { IfOk result (λ values. values_in self.now ≡ Ok (values_of values)) }
        ensures err { IfErr result (MemoryOr (Reports (values_in self.now) (bytes_in self.now))) }
    {
        let value = |name: ComponentName| -> Result<Option<String>, Error>
            ensures { IsValueUnlessProtocol self.entry.now (option_map text_of protocol) name
                result }
        { self.value_unless_protocol(name, &protocol) };
        let mut values = Eight::try_from_fn(value)?;
        values.protocol = protocol;
        Ok(values)
    }

    /// Returns the processed value of a component other than the protocol, like
    /// `value_with_owned_protocol`; `None` for the protocol, which is processed before the others.
    fn value_unless_protocol(
        &self,
        component: ComponentName,
        protocol: &Option<String>,
    ) -> Result<Option<String>, Error>
        ensures { IsValueUnlessProtocol self.now (option_map text_of protocol.now) component
            result }
    {
        match component {
            ComponentName::Protocol => Ok(None),
            _ => self.value_with_owned_protocol(component, protocol),
        }
    }

    /// Returns the processed value of a component like `value`, from a `protocol` that is owned.
    fn value_with_owned_protocol(
        &self,
        component: ComponentName,
        protocol: &Option<String>,
    ) -> Result<Option<String>, Error>
        ensures ok { IfOk result (λ value.
            value_in self.now (option_map text_of protocol.now) component
            ≡ Ok (option_map text_of value)) }
        ensures err { IfErr result (IsFailureIn self.now (option_map text_of protocol.now)
            (bytes_of (option_map text_of protocol.now)) component) }
    {
        match protocol {
            Some(protocol) => self.value(component, Some(protocol)),
            None => self.value(component, None),
        }
    }

    /// Returns the processed value of a component: of its text in the init, or else inherited, or
    /// else `None` in a pattern and empty in a URL. Port and pathname depend on `protocol`, the
    /// processed value of the protocol.
    fn value(
        &self,
        component: ComponentName,
        protocol: Option<&str>,
    ) -> Result<Option<String>, Error>
        ensures ok { IfOk result (λ value.
            value_in self.now (option_text protocol.entry) component
            ≡ Ok (option_map text_of value)) }
        ensures err { IfErr result (IsFailureIn self.now (option_text protocol.entry)
            (optional_bytes protocol.entry) component) }
    {
        match self.init.get(component) {
            Some(text) => Ok(Some(self.processed(component, text, protocol)?)),
            None => self.lacking(component),
        }
    }

    /// Returns the value of a component that the init lacks: inherited, or else `None` in a pattern
    /// and empty in a URL.
    fn lacking(&self, component: ComponentName) -> Result<Option<String>, Error>
        ensures ok { IfOk result (λ value.
            option_map text_of value ≡ lacking_in self.now component) }
        ensures memory { OnlyOutOfMemory result }
    {
        match &self.init.base_url {
            Some(base) if self.inherits(component) => {
                let text = process_base_url(self.alloc, url_text(base, component), self.kind)?;
                Ok(Some(text))
            }
            _ => Ok(self.missing()),
        }
    }

    /// Whether the init, if it has a base URL, inherits a component that it lacks.
    fn inherits(&self, component: ComponentName) -> bool
        ensures { result
            ≡ (is_inheritable self.now.kind.now component
            && spec.lacks_all (given_values self.now) (must_lack component)) }
    {
        is_inheritable(component, self.kind) && lacks_all(self.init, must_lack(component))
    }

    /// Returns the value of a component that is neither given nor inherited: `None` in a pattern,
    /// empty in a URL.
    fn missing(&self) -> Option<String>
        ensures { option_map text_of result ≡ missing self.now.kind.now }
    {
        match self.kind {
            ProcessType::Pattern => None,
            ProcessType::Url => Some(String::new(self.alloc)),
        }
    }

    /// Processes `text`, the text of a component in the init. Port and pathname depend on
    /// `protocol`, the processed value of the protocol.
    fn processed(
        &self,
        component: ComponentName,
        text: &str,
        protocol: Option<&str>,
    ) -> Result<String, Error>
        ensures { IsTextResult self.now protocol.entry component (chars text.now) result }
    {
        let values = &self.canonicalizer;
        match component {
            ComponentName::Protocol => values.process_protocol(text, self.kind),
            ComponentName::Username => values.process_username(text, self.kind),
            ComponentName::Password => values.process_password(text, self.kind),
            ComponentName::Hostname => values.process_hostname(text, self.kind),
            ComponentName::Port => values.process_port(text, protocol, self.kind),
            ComponentName::Pathname => self.processed_pathname(text, protocol),
            ComponentName::Search => values.process_search(text, self.kind),
            ComponentName::Hash => values.process_hash(text, self.kind),
        }
    }

    /// Processes `text`, the pathname of the init, under the processed `protocol`. A relative
    /// pathname is appended to the base URL's path up to its last slash, unless that path is
    /// opaque.
    fn processed_pathname(&self, text: &str, protocol: Option<&str>) -> Result<String, Error>
        ensures { IsGivenPathnameResult self.now protocol.entry (chars text.now) result }
    {
        match &self.init.base_url {
            Some(base) if !is_absolute(text, self.kind) && !base.cannot_be_a_base() => {
                let before = up_to_last_slash(base.path());
                let mut pathname = process_base_url(self.alloc, before, self.kind)?;
                pathname.push_str(text)?;
                self.canonicalizer
                    .process_pathname(&pathname, protocol, self.kind)
            }
            _ => self
                .canonicalizer
                .process_pathname(text, protocol, self.kind),
        }
    }
}

/// Processes an init, as a pattern or as a URL. Returns an init of the processed values, without a
/// base URL.
///
/// The error is the first rejection by `url`, or `OutOfMemory`. In a pattern nothing is rejected.
///
/// <https://urlpattern.spec.whatwg.org/#process-a-urlpatterninit>
pub fn process(
    alloc: Global,
    init: &UrlPatternInit,
    kind: &ProcessType,
) -> Result<UrlPatternInit, Error>
    ensures ok { IfOk result (λ values. init_values kind.now init.now ≡ Ok (values_view values)) }
    ensures err { IfErr result (MemoryOr
        (Reports (init_values kind.now init.now) (longest_init_bytes kind.now init.now))) }
{
    let values = process_values(alloc, init, kind)?;
    Ok(UrlPatternInit::from_eight(values, None))
}

/// Processes an init like `process`, and returns the processed values by component.
///
/// The error is the first rejection by `url`, or `OutOfMemory`. In a pattern nothing is rejected.
///
/// <https://urlpattern.spec.whatwg.org/#process-a-urlpatterninit>
pub fn process_values(
    alloc: Global,
    init: &UrlPatternInit,
    kind: &ProcessType,
) -> Result<Eight<Option<String>>, Error>
    ensures ok { IfOk result (λ values. init_values kind.now init.now ≡ Ok (values_of values)) }
    ensures err { IfErr result (MemoryOr
        (Reports (init_values kind.now init.now) (longest_init_bytes kind.now init.now))) }
{
    let canonicalizer = match kind {
        ProcessType::Pattern => Canonicalizer::new(alloc),
        ProcessType::Url => Canonicalizer::shared(alloc)?,
    };
    let processing = Processing {
        alloc,
        canonicalizer,
        init,
        kind,
    };
    let protocol = processing.value(ComponentName::Protocol, None)?;
    processing.values(protocol)
}
