//! The eight texts that are matched for what C passes.
ghost use Rattle.std.specs.Prelude.{◌≡◌, IfErr, IfNone, IfOk, IfSome};
ghost use Rattle.std.specs.Str.{chars};
ghost use Rattle.urlpattern.specs.Paths.{IsPath};
ghost use Rattle.urlpattern_ffi.specs.PassedTexts.{AreNoTextsIn, AreTextsIn, IsNoPartFor, IsNoPath, IsPartFor, LacksPart, part_for};
ghost use Rattle.urlpattern_matches.specs.GroupTexts.{borrowed_texts};

use crate::status::Status;
use std::str;
use urlpattern::{ComponentName, Eight, is_path};
use urlpattern_ffi_links::part_of;

/// A part of a text.
#[repr(C)]
#[derive(Clone, Copy)]
pub struct TextPart {
    /// The byte at which the part begins.
    pub start: usize,
    /// The length of the part in bytes.
    pub length: usize,
}

/// A part of one text for each component.
#[repr(C)]
#[derive(Clone, Copy)]
pub struct EightParts {
    /// The protocol, without its colon.
    pub protocol: TextPart,
    /// The username.
    pub username: TextPart,
    /// The password.
    pub password: TextPart,
    /// The hostname.
    pub hostname: TextPart,
    /// The port, which is empty if it is the default one.
    pub port: TextPart,
    /// The pathname.
    pub pathname: TextPart,
    /// The search, without its question mark.
    pub search: TextPart,
    /// The hash, without its number sign.
    pub hash: TextPart,
}

/// Returns bytes as a path.
///
/// The error is the status that says why they are none: `NotUtf8`, or `NoPath`.
pub(crate) fn path_of(path: &[u8]) -> Result<&str, Status>
    ensures found { IfOk result (λ text. (text.now ≡ path.now) × IsPath (chars text.now)) }
    ensures missing { IfErr result (IsNoPath path.now) }
{
    let Ok(text) = str::from_utf8(path) else {
        return Err(Status::NotUtf8);
    };
    if is_path(text) {
        Ok(text)
    } else {
        Err(Status::NoPath)
    }
}

/// Cuts the text of each component out of `text`.
///
/// The error is `NotUtf8`: a part lies outside of the text, or is not UTF-8.
pub(crate) fn texts_in<'t>(text: &'t [u8], parts: &EightParts) -> Result<Eight<&'t str>, Status>
    ensures found { IfOk result (λ texts. AreTextsIn text.now parts.now (borrowed_texts texts)) }
    ensures missing { IfErr result (AreNoTextsIn text.now parts.now) }
{
    match eight_texts(text, parts) {
        Some(texts) => Ok(texts),
        None => Err(Status::NotUtf8),
    }
}

/// Cuts the text of each component out of `text`. `None`: a part lies outside of the text, or is
/// not UTF-8.
fn eight_texts<'t>(text: &'t [u8], parts: &EightParts) -> Option<Eight<&'t str>>
    ensures found { IfSome result (λ texts. AreTextsIn text.now parts.now (borrowed_texts texts)) }
    ensures missing { IfNone result (LacksPart text.now parts.now) }
{
    let protocol = text_in(text, parts, ComponentName::Protocol)?;
    let username = text_in(text, parts, ComponentName::Username)?;
    let password = text_in(text, parts, ComponentName::Password)?;
    let hostname = text_in(text, parts, ComponentName::Hostname)?;
    let port = text_in(text, parts, ComponentName::Port)?;
    let pathname = text_in(text, parts, ComponentName::Pathname)?;
    let search = text_in(text, parts, ComponentName::Search)?;
    let hash = text_in(text, parts, ComponentName::Hash)?;
    Some(Eight {
        protocol,
        username,
        password,
        hostname,
        port,
        pathname,
        search,
        hash,
    })
}

/// Cuts the text of a component out of `text`. `None`: the part lies outside of the text, or is not
/// UTF-8.
fn text_in<'t>(text: &'t [u8], parts: &EightParts, name: ComponentName) -> Option<&'t str>
    ensures found { IfSome result (λ part. IsPartFor text.now parts.now name part.now) }
    ensures missing { IfNone result (IsNoPartFor text.now parts.now name) }
{
    let part = component_part(parts, name);
    part_of(text, part.start, part.length)
}

/// The part for a component.
fn component_part(parts: &EightParts, name: ComponentName) -> TextPart
    ensures { result ≡ part_for parts.now name }
{
    match name {
        ComponentName::Protocol => parts.protocol,
        ComponentName::Username => parts.username,
        ComponentName::Password => parts.password,
        ComponentName::Hostname => parts.hostname,
        ComponentName::Port => parts.port,
        ComponentName::Pathname => parts.pathname,
        ComponentName::Search => parts.search,
        ComponentName::Hash => parts.hash,
    }
}
