//! Which patterns of a list are the first match of some texts.
ghost use Rattle.std.specs.Prelude.{◌≡◌, IfOk, map, string_bytes};
ghost use Rattle.urlpattern_ffi.specs.KeptPatterns.{boxed_patterns};
ghost use Rattle.urlpattern_ffi_tables.specs.WrittenReaches.{AreReachesReported, AreReachesWritten, array_text, given_texts, indices_text, IsTextOfEach, IsTextOfInit, IsTextOfReach};

use std::alloc::{AllocError, Global};
use urlpattern::quirks::UrlPatternInit;
use urlpattern::rules::{Reach, USUAL_LIMITS};
use urlpattern::{CompareError, Eight, Error};
use urlpattern_ffi::{PatternBox, Status, list_of, write};

/// Writes to `buffer`, as an array in JSON, whether each pattern of a handle is the first match of
/// some texts, and the length of the JSON in bytes to `needed`. An element is an init with such
/// texts; or an array of the indices of earlier patterns that cover the pattern together; or `null`
/// if neither is known. `Unknown`: a pattern has no parts. `NoPattern`: the handle has no pattern.
pub fn write_reaches(
    alloc: Global,
    kept: &Option<Box<PatternBox>>,
    buffer: &mut [u8],
    needed: &mut usize,
) -> Status
    ensures { AreReachesReported (boxed_patterns kept.now) buffer.old buffer.new needed.new result }
{
    let list = match list_of(kept) {
        Some(list) => list,
        None => return Status::NoPattern,
    };
    match list.reach_of_each(alloc, USUAL_LIMITS) {
        Ok(found) => write_each(alloc, found, buffer, needed),
        Err(CompareError::NoParts) => Status::Unknown,
        Err(CompareError::OutOfMemory) => Status::OutOfMemory,
    }
}

/// Writes what was found for each pattern to `buffer`, as JSON, and the length of the JSON in bytes
/// to `needed`.
fn write_each(alloc: Global, found: Vec<Reach>, buffer: &mut [u8], needed: &mut usize) -> Status
    ensures { AreReachesWritten found.items buffer.old buffer.new needed.new result }
{
    match text_of_each(alloc, found) {
        Ok(text) => write(&text, buffer, needed),
        Err(_) => Status::OutOfMemory,
    }
}

/// What was found for each pattern, as JSON.
fn text_of_each(alloc: Global, found: Vec<Reach>) -> Result<String, Error>
    ensures { IfOk result (λ text. IsTextOfEach found.items (string_bytes text)) }
{
    let mut texts = Vec::new(alloc);
    for reach in found {
        let text = text_of_reach(alloc, reach)?;
        texts.push(text)?;
    }
    let text = array_of(alloc, &texts)?;
    Ok(text)
}

/// What was found for a pattern, as JSON.
fn text_of_reach(alloc: Global, reach: Reach) -> Result<String, Error>
    ensures { IfOk result (λ text. IsTextOfReach reach (string_bytes text)) }
{
    match reach {
        Reach::First(texts) => text_of_init(alloc, texts),
        Reach::Never(by) => text_of_indices(alloc, &by),
        Reach::Unknown(_) => {
            let text = String::from_str(alloc, "null")?;
            Ok(text)
        }
    }
}

/// An init with these texts, as JSON.
fn text_of_init(alloc: Global, texts: Eight<String>) -> Result<String, Error>
    ensures { IfOk result (λ text. IsTextOfInit texts (string_bytes text)) }
{
    let init = UrlPatternInit::from_eight(given_texts(texts), None);
    let tree = init.to_json_value(alloc)?;
    let text = tree.to_string(alloc)?;
    Ok(text)
}

/// Eight texts, each of which is given.
fn given_texts(texts: Eight<String>) -> Eight<Option<String>>
    ensures { result ≡ given_texts texts }
{
    Eight {
        protocol: Some(texts.protocol),
        username: Some(texts.username),
        password: Some(texts.password),
        hostname: Some(texts.hostname),
        port: Some(texts.port),
        pathname: Some(texts.pathname),
        search: Some(texts.search),
        hash: Some(texts.hash),
    }
}

/// An array of indices, as JSON.
fn text_of_indices(alloc: Global, indices: &[usize]) -> Result<String, Error>
    ensures { IfOk result (λ text. string_bytes text ≡ indices_text indices.now) }
{
    let mut texts = Vec::new(alloc);
    for index in indices {
        let text = index.to_string(alloc)?;
        texts.push(text)?;
    }
    let text = array_of(alloc, &texts)?;
    Ok(text)
}

/// An array of elements, as JSON, with no white space between them.
#[tactic(auto, using(crate::proofs::ReachLemmas::join_by_texts))]
fn array_of(alloc: Global, elements: &[String]) -> Result<String, AllocError>
    ensures { IfOk result (λ text.
        string_bytes text ≡ array_text (map string_bytes elements.now)) }
{
    let joined = elements.join(alloc, ",")?;
    format!(in alloc; "[{joined}]")
}
