//! The components of a URL, and a value for each of the eight.
ghost use Rattle.std.specs.Prelude.{◌≡◌, Ok, Some, IfErr, IfOk};
ghost use Rattle.urlpattern_components.specs.Eight.{IsFirstError, NamesComponent, at, components, name_text, named_values};
ghost use Rattle.urlpattern_components.specs.NamedValues.{values_left};

mod named;

pub use named::NamedValues;
use std::fmt;

/// Borrows the field of the struct `values` that is named as the component `name`:
/// `field_of!(values, name)`.
#[macro_export]
macro_rules! field_of {
    ($values:expr, $name:expr) => {
        match $name {
            $crate::ComponentName::Protocol => &$values.protocol,
            $crate::ComponentName::Username => &$values.username,
            $crate::ComponentName::Password => &$values.password,
            $crate::ComponentName::Hostname => &$values.hostname,
            $crate::ComponentName::Port => &$values.port,
            $crate::ComponentName::Pathname => &$values.pathname,
            $crate::ComponentName::Search => &$values.search,
            $crate::ComponentName::Hash => &$values.hash,
        }
    };
}

/// Makes a struct of the eight fields of `values` that are named as the components, which are
/// moved, and of variables that are named as the further fields of the struct:
/// `with_fields!(Struct, values, further)`.
#[macro_export]
macro_rules! with_fields {
    ($to:ident, $values:expr $(, $further:ident)*) => {
        $to {
            protocol: $values.protocol,
            username: $values.username,
            password: $values.password,
            hostname: $values.hostname,
            port: $values.port,
            pathname: $values.pathname,
            search: $values.search,
            hash: $values.hash,
            $($further),*
        }
    };
}

/// A component of a URL, by its name in the standard. Components are ordered as the standard lists
/// them.
///
/// ```rust names
/// let component = ComponentName::from_name(text);
/// ```
#[derive(Debug, Clone, Copy, PartialEq, Eq, PartialOrd, Ord, Hash)]
pub enum ComponentName {
    /// The scheme, without its colon.
    Protocol,
    /// The user name.
    Username,
    /// The password.
    Password,
    /// The host, without the port.
    Hostname,
    /// The port, empty where it is the scheme's default.
    Port,
    /// The path.
    Pathname,
    /// The query, without its question mark.
    Search,
    /// The fragment, without its number sign.
    Hash,
}

/// The components in the order of the standard.
pub static COMPONENTS: [ComponentName; 8] = [
    ComponentName::Protocol,
    ComponentName::Username,
    ComponentName::Password,
    ComponentName::Hostname,
    ComponentName::Port,
    ComponentName::Pathname,
    ComponentName::Search,
    ComponentName::Hash,
];

impl ComponentName {
    /// Returns the components in the order of the standard.
    pub fn all() -> [Self; 8]
        ensures { result ≡ components }
    {
        COMPONENTS
    }

    /// Returns the name in lower case, which is also the name of the component's member in JSON.
    pub fn as_str(self) -> &'static str
        ensures { result.now ≡ name_text self }
    {
        match self {
            Self::Protocol => "protocol",
            Self::Username => "username",
            Self::Password => "password",
            Self::Hostname => "hostname",
            Self::Port => "port",
            Self::Pathname => "pathname",
            Self::Search => "search",
            Self::Hash => "hash",
        }
    }

    /// Returns the component of a name, as `as_str` returns it, or `None` where no component has
    /// this name.
    pub fn from_name(name: &str) -> Option<Self>
        ensures { NamesComponent name.now result }
    {
        for component in Self::all() {
            if component.as_str() == name {
                return Some(component);
            }
        }
        None
    }
}

/// Prints the name in lower case.
impl fmt::Display for ComponentName {
    ghost output = { λ component. Some (name_text component) };

    fn fmt<W: fmt::Write>(&self, f: &mut fmt::Formatter<W>) -> fmt::Result {
        f.write_str(self.as_str())
    }
}

/// A value for each component.
///
/// An init with a pattern for the path alone:
///
/// ```rust init_of
/// let text_of = |component| -> Result<Option<String>, Error> {
///     match component {
///         ComponentName::Pathname => Ok(Some(String::from_str(alloc, "/users/:id")?)),
///         _ => Ok(None),
///     }
/// };
/// let texts = Eight::try_from_fn(text_of)?;
/// let init = UrlPatternInit::from_eight(texts, None);
/// ```
#[derive(Debug, Clone, PartialEq, Eq, Drop)]
pub struct Eight<T> {
    /// The value of the scheme.
    pub protocol: T,
    /// The value of the user name.
    pub username: T,
    /// The value of the password.
    pub password: T,
    /// The value of the host.
    pub hostname: T,
    /// The value of the port.
    pub port: T,
    /// The value of the path.
    pub pathname: T,
    /// The value of the query.
    pub search: T,
    /// The value of the fragment.
    pub hash: T,
}

impl<T> Eight<T> {
    /// Returns the value of a component.
    pub fn get(&self, name: ComponentName) -> &T
        ensures { result.now ≡ at self.now name }
    {
        field_of!(self, name)
    }

    /// Returns an iterator over the values in the order of the standard, each with the name of its
    /// component.
    pub fn iter(&self) -> NamedValues<'_, T>
        ensures { values_left result ≡ named_values self.now components }
    {
        NamedValues::new(self)
    }
}

impl Eight<ComponentName> {
    /// Returns the `Eight` in which the value of each component is its name.
    fn names() -> Self
        ensures { (name : ComponentName) → at result name ≡ name }
    {
        Self {
            protocol: ComponentName::Protocol,
            username: ComponentName::Username,
            password: ComponentName::Password,
            hostname: ComponentName::Hostname,
            port: ComponentName::Port,
            pathname: ComponentName::Pathname,
            search: ComponentName::Search,
            hash: ComponentName::Hash,
        }
    }
}

impl<T: Drop> Eight<T> {
    /// Calls `value` with each value, in the order of the standard, and returns the results.
    pub fn map<U, F: Fn(T) -> U>(self, value: F) -> Eight<U>
        requires { F.IsAlwaysCallable value }
        ensures { (name : ComponentName) → F.post value (at self name) (at result name) }
    {
        Eight {
            protocol: value(self.protocol),
            username: value(self.username),
            password: value(self.password),
            hostname: value(self.hostname),
            port: value(self.port),
            pathname: value(self.pathname),
            search: value(self.search),
            hash: value(self.hash),
        }
    }

    /// Calls `value` with each value, in the order of the standard, and returns the results or the
    /// first error, after which `value` is not called again.
    pub fn try_map<U: Drop, E, F: Fn(T) -> Result<U, E>>(self, value: F) -> Result<Eight<U>, E>
        requires { F.IsAlwaysCallable value }
        ensures ok { IfOk result (λ values.
            (name : ComponentName) → F.post value (at self name) (Ok (at values name))) }
        ensures err { IfErr result (IsFirstError (λ name. F.post value (at self name))) }
    {
        Ok(Eight {
            protocol: value(self.protocol)?,
            username: value(self.username)?,
            password: value(self.password)?,
            hostname: value(self.hostname)?,
            port: value(self.port)?,
            pathname: value(self.pathname)?,
            search: value(self.search)?,
            hash: value(self.hash)?,
        })
    }

    /// Calls `value` with each component, in the order of the standard, and returns the results as
    /// the values of the components, or the first error, after which `value` is not called again.
    pub fn try_from_fn<E, F: Fn(ComponentName) -> Result<T, E>>(value: F) -> Result<Self, E>
        requires { F.IsAlwaysCallable value }
        ensures ok { IfOk result (λ values.
            (name : ComponentName) → F.post value name (Ok (at values name))) }
        ensures err { IfErr result (IsFirstError (F.post value)) }
    {
        Eight::names().try_map(value)
    }

    /// Calls `value` with each component, in the order of the standard, and returns the results as
    /// the values of the components.
    pub fn from_fn<F: Fn(ComponentName) -> T>(value: F) -> Self
        requires { F.IsAlwaysCallable value }
        ensures { (name : ComponentName) → F.post value name (at result name) }
    {
        Eight::names().map(value)
    }
}
