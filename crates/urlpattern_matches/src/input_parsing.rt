//! The eight texts of an input, owned.
ghost use Rattle.std.specs.Prelude.{◌≡◌, [], Ok, option_map, unwrap_or, MatchOption, IfOk};
ghost use Rattle.urlpattern_syntax.specs.Errors.{OnlyOutOfMemory};
ghost use Rattle.urlpattern_syntax.specs.Text.{text_of};
ghost use Rattle.urlpattern_init.specs.Inheritance.{texts_of_url, texts_of_values, values_of};
ghost use Rattle.urlpattern_matches.specs.MatchInput.{IsNoInput, input_texts, texts_view};

use crate::texts::{copied, url_texts};
use std::alloc::{AllocError, Global};
use url::Url;
use urlpattern_canonical::canonicalize_and_process::ProcessType;
use urlpattern_components::Eight;
use urlpattern_init::{UrlPatternMatchInput, process_values};
use urlpattern_inputs::MatchInput;
use urlpattern_syntax::Error;

/// Returns a copy of the eight texts of a URL.
fn of_url(alloc: Global, url: &Url) -> Result<MatchInput, AllocError>
    ensures { IfOk result (λ texts. texts_view texts ≡ texts_of_url url.now) }
{
    copied(alloc, &url_texts(url))
}

/// Returns the eight texts of an init's values. The text of a missing value is empty.
fn of_values(alloc: Global, values: Eight<Option<String>>) -> MatchInput
    ensures { texts_view result ≡ texts_of_values (values_of values) }
{
    let text = |value: Option<String>| -> String
        ensures { text_of result ≡ unwrap_or (option_map text_of value) [] }
    { text_or_empty(alloc, value) };
    MatchInput::from_eight(values.map(text))
}

/// Returns `text`, or the empty text if there is none.
fn text_or_empty(alloc: Global, text: Option<String>) -> String
    ensures { text_of result ≡ unwrap_or (option_map text_of text) [] }
{
    text.unwrap_or(String::new(alloc))
}

/// Returns the eight texts of an input: of a URL, or of an init with what it inherits from its base
/// URL. `None`: `url` rejects a text of the init.
///
/// <https://urlpattern.spec.whatwg.org/#url-pattern-match>
pub fn parse_match_input(
    alloc: Global,
    input: UrlPatternMatchInput,
) -> Result<Option<MatchInput>, Error>
    ensures found { IfOk result (λ found. MatchOption found (IsNoInput input)
        (λ texts. input_texts input ≡ Ok (texts_view texts))) }
    ensures memory { OnlyOutOfMemory result }
{
    match input {
        UrlPatternMatchInput::Url(url) => Ok(Some(of_url(alloc, &url)?)),
        UrlPatternMatchInput::Init(init) => {
            let values = process_values(alloc, &init, &ProcessType::Url);
            drop(init);
            match values {
                Ok(values) => Ok(Some(of_values(alloc, values))),
                Err(Error::Url(_)) => Ok(None),
                Err(error) => Err(error),
            }
        }
    }
}
