//! Constructor strings that are written from pattern strings.

ghost use Rattle.std.specs.Prelude.{◌≡◌, ◌++◌, IfOk, OnOk, string_bytes};
ghost use Rattle.urlpattern_generate.specs.UrlLines.{bytes_of_each};
ghost use Rattle.urlpattern_pattern.specs.ConstructorTexts.{constructor_text, ends_with_host, is_asterisk, is_search_left_out, path_text, port_text, search_and_hash, user_text};

use std::alloc::{AllocError, Global};
use urlpattern_components::Eight;

/// Returns the constructor string of pattern strings, without what is left out. `slashes`, `colon`
/// and `mark` spell the separators.
pub(crate) fn constructor_text(
    alloc: Global,
    texts: &Eight<&str>,
    slashes: &str,
    colon: &str,
    mark: &str,
) -> Result<String, AllocError>
    ensures { IfOk result (λ text. string_bytes text
        ≡ constructor_text slashes.now colon.now mark.now (bytes_of_each texts.now)) }
{
    let mut text = String::new(alloc);
    text.push_str(texts.protocol)?;
    text.push_str(colon)?;
    text.push_str(slashes)?;
    push_user(&mut text, texts, colon)?;
    text.push_str(texts.hostname)?;
    push_port(&mut text, texts, colon)?;
    push_path(&mut text, texts, slashes, mark)?;
    Ok(text)
}

/// Appends the username, the password and `@`, without what is left out.
fn push_user(text: &mut String, texts: &Eight<&str>, colon: &str) -> Result<(), AllocError>
    ensures { OnOk result (string_bytes text.new
        ≡ string_bytes text.old ++ user_text colon.now (bytes_of_each texts.now)) }
{
    if is_asterisk(texts.username) && is_asterisk(texts.password) {
        return Ok(());
    }
    text.push_str(texts.username)?;
    if !is_asterisk(texts.password) {
        text.push_str(colon)?;
        text.push_str(texts.password)?;
    }
    text.push_str("@")
}

/// Appends the port after `colon`, unless the port is empty.
fn push_port(text: &mut String, texts: &Eight<&str>, colon: &str) -> Result<(), AllocError>
    ensures { OnOk result (string_bytes text.new
        ≡ string_bytes text.old ++ port_text colon.now (bytes_of_each texts.now)) }
{
    if texts.port.is_empty() {
        return Ok(());
    }
    text.push_str(colon)?;
    text.push_str(texts.port)
}

/// Appends the path, the search and the hash, without what is left out.
fn push_path(
    text: &mut String,
    texts: &Eight<&str>,
    slashes: &str,
    mark: &str,
) -> Result<(), AllocError>
    ensures { OnOk result (string_bytes text.new
        ≡ string_bytes text.old ++ path_text slashes.now mark.now (bytes_of_each texts.now)) }
{
    if slashes.is_empty() || !ends_with_host(texts) {
        text.push_str(texts.pathname)?;
    }
    push_search_and_hash(text, texts, mark)
}

/// Appends the search after `mark` and the hash after `#`, without what is left out.
fn push_search_and_hash(
    text: &mut String,
    texts: &Eight<&str>,
    mark: &str,
) -> Result<(), AllocError>
    ensures { OnOk result (string_bytes text.new
        ≡ string_bytes text.old ++ search_and_hash mark.now (bytes_of_each texts.now)) }
{
    if !is_search_left_out(texts) {
        text.push_str(mark)?;
        text.push_str(texts.search)?;
    }
    if is_asterisk(texts.hash) {
        return Ok(());
    }
    text.push_str("#")?;
    text.push_str(texts.hash)
}

/// Whether path, search and hash are asterisks.
fn ends_with_host(texts: &Eight<&str>) -> bool
    ensures { result ≡ ends_with_host (bytes_of_each texts.now) }
{
    is_asterisk(texts.pathname) && is_asterisk(texts.search) && is_asterisk(texts.hash)
}

/// Whether the search is left out: an asterisk at the end, or an empty search before a hash.
fn is_search_left_out(texts: &Eight<&str>) -> bool
    ensures { result ≡ is_search_left_out (bytes_of_each texts.now) }
{
    if is_asterisk(texts.hash) {
        is_asterisk(texts.search)
    } else {
        texts.search.is_empty()
    }
}

/// Whether a pattern string is an asterisk.
fn is_asterisk(text: &str) -> bool
    ensures { result ≡ is_asterisk text.now }
{
    text == "*"
}
