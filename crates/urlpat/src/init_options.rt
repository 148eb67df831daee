//! The pattern that options give by component.

use crate::options::INIT;
use crate::parsing::{after_command, parser_of};
use clap::error::ErrorKind;
use clap::{ArgMatches, Error};
use serde_json::Value;
use std::alloc::{AllocError, Global};
use strsim::jaro;
use urlpattern::ComponentName;
use urlpattern::quirks::UrlPatternInit;

/// The names of the members of an init.
const MEMBERS: [&str; 9] = [
    "protocol", "username", "password", "hostname", "port", "pathname", "search", "hash", "baseURL",
];

/// How alike two names are at least, of which one is named in place of the other.
const ALIKE: f64 = 0.7;

/// Reads the pattern that options give by component. `None`: no option gives one.
///
/// The error says that the text of `--init` is not the JSON of an init, or that another option also
/// gives a component, or that memory ran out.
pub fn given_init(alloc: Global, found: &ArgMatches<'_>) -> Result<Option<UrlPatternInit>, Error> {
    let after = after_command(found);
    let Some(text) = after.get_str(INIT).or(found.get_str(INIT)) else {
        return Ok(components_given(alloc, found, after)?);
    };
    let fault = match component_given(found, after) {
        Some(name) => {
            let name = name.as_str();
            let message = format!(in alloc;
                "the argument '--init <JSON>' cannot be used with '--{name} <PATTERN>'"
            )?;
            return Err(parser_of(alloc, found)?.error(ErrorKind::ArgumentConflict, &message)?);
        }
        None => match init_of_json(alloc, text)? {
            Ok(init) => return Ok(Some(init)),
            Err(fault) => fault,
        },
    };
    let message = format!(in alloc; "invalid value '{text}' for '--init <JSON>': {fault}")?;
    Err(parser_of(alloc, found)?.error(ErrorKind::ValueValidation, &message)?)
}

/// Parses the JSON of an init. The inner error is what is wrong with it: it is not the JSON of an
/// init, or has a member that an init has not.
fn init_of_json(alloc: Global, text: &str) -> Result<Result<UrlPatternInit, String>, AllocError> {
    let value = match Value::from_str(alloc, text) {
        Ok(value) => value,
        Err(error) if error.is_memory() => return Err(AllocError),
        Err(_) => return no_init(alloc),
    };
    if let Some(fault) = unknown_member(alloc, &value)? {
        return Ok(Err(fault));
    }
    match UrlPatternInit::from_json_value(alloc, &value) {
        Ok(Some(init)) => Ok(Ok(init)),
        Ok(None) => no_init(alloc),
        Err(_) => Err(AllocError),
    }
}

/// What is wrong with a text that is not the JSON of an init.
fn no_init(alloc: Global) -> Result<Result<UrlPatternInit, String>, AllocError> {
    Ok(Err(String::from_str(alloc, "not the JSON of an init")?))
}

/// What is wrong with the first member of an object that an init has not, and which one is most
/// like it. `None`: there is no such member.
fn unknown_member(alloc: Global, value: &Value) -> Result<Option<String>, AllocError> {
    let Some(members) = value.as_object() else {
        return Ok(None);
    };
    for (name, _) in members {
        if !MEMBERS.iter().any(|member| name.as_str() == *member) {
            return Ok(Some(member_fault(alloc, name)?));
        }
    }
    Ok(None)
}

/// What is wrong with a member of this name, which an init has not.
fn member_fault(alloc: Global, name: &str) -> Result<String, AllocError> {
    match most_like(alloc, name)? {
        Some(member) => format!(in alloc;
            "an init has no member '{name}'\n\n  tip: a similar member exists: '{member}'"
        ),
        None => format!(in alloc; "an init has no member '{name}'"),
    }
}

/// The name of a member of an init that is most like a name. `None`: none is like it.
fn most_like(alloc: Global, name: &str) -> Result<Option<&'static str>, AllocError> {
    let mut found = None;
    let mut most = ALIKE;
    for member in MEMBERS {
        let alike = jaro(alloc, name, member)?;
        if alike > most {
            most = alike;
            found = Some(member);
        }
    }
    Ok(found)
}

/// The init with the patterns that options give for single components. `None`: no option gives one.
fn components_given<'w>(
    alloc: Global,
    found: &ArgMatches<'w>,
    after: &ArgMatches<'w>,
) -> Result<Option<UrlPatternInit>, AllocError> {
    if component_given(found, after).is_none() {
        return Ok(None);
    }
    Ok(Some(UrlPatternInit {
        protocol: text_of(alloc, found, after, ComponentName::Protocol)?,
        username: text_of(alloc, found, after, ComponentName::Username)?,
        password: text_of(alloc, found, after, ComponentName::Password)?,
        hostname: text_of(alloc, found, after, ComponentName::Hostname)?,
        port: text_of(alloc, found, after, ComponentName::Port)?,
        pathname: text_of(alloc, found, after, ComponentName::Pathname)?,
        search: text_of(alloc, found, after, ComponentName::Search)?,
        hash: text_of(alloc, found, after, ComponentName::Hash)?,
        base_url: None,
    }))
}

/// Copies the pattern that an option gives for a component.
fn text_of<'w>(
    alloc: Global,
    found: &ArgMatches<'w>,
    after: &ArgMatches<'w>,
    name: ComponentName,
) -> Result<Option<String>, AllocError> {
    match pattern_of(found, after, name) {
        Some(text) => Ok(Some(String::from_str(alloc, text)?)),
        None => Ok(None),
    }
}

/// The first component whose pattern an option gives. `None`: no option gives one.
fn component_given<'w>(found: &ArgMatches<'w>, after: &ArgMatches<'w>) -> Option<ComponentName> {
    for name in ComponentName::all() {
        if pattern_of(found, after, name).is_some() {
            return Some(name);
        }
    }
    None
}

/// The pattern that an option gives for a component, after the command or else before it.
fn pattern_of<'w>(
    found: &ArgMatches<'w>,
    after: &ArgMatches<'w>,
    name: ComponentName,
) -> Option<&'w str> {
    after
        .get_str(name.as_str())
        .or(found.get_str(name.as_str()))
}
