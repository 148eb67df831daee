//! The laws of constructor strings and of the texts of URLs.
//!
//! Each function does nothing; its contract is a theorem.

ghost use Rattle.std.specs.Prelude.{ℕ, Bool, List};
ghost use Rattle.url.specs.Parts.{IsValid};
ghost use Rattle.urlpattern_init.specs.ConstructorString.{SplitsAreOneUnlessAmbiguous, SplitsAs};
ghost use Rattle.urlpattern_init.specs.Inheritance.{texts_of_url};
ghost use Rattle.urlpattern_init.specs.SpecialProtocol.{IsSpecialTo};
ghost use Rattle.urlpattern_init.specs.UrlTexts.{EachIsAscii, EachIsLine, TextsOfUrlsAreAscii, TextsOfUrlsAreLines};
ghost use Rattle.urlpattern_meaning.specs.Laws.{AtMostOne};
ghost use Rattle.urlpattern_constructor.specs.Split.{SplitTexts};

use url::Url;
use urlpattern_matcher::regexp::RegExp;

/// A constructor string has exactly one split for either decision whether its protocol is special.
/// With engines of one type a string has at most one split, unless they permit both decisions.
pub fn splits_are_one<R: RegExp>()
    ensures exist { (text : List ℕ) (special : Bool)
        → (texts : SplitTexts) × SplitsAs text special texts }
    ensures given { (text : List ℕ) (special : Bool) → AtMostOne (SplitsAs text special) }
    ensures computed { SplitsAreOneUnlessAmbiguous (IsSpecialTo R.RegExp) }
{}

/// Each of the eight texts of a valid URL is a line, that is, it consists of characters, none of
/// them a line feed, and is ASCII.
pub fn texts_of_urls_are_lines()
    ensures lines { TextsOfUrlsAreLines }
    ensures ascii { TextsOfUrlsAreAscii }
{}

/// A `Url` is valid, so its eight texts are lines of ASCII.
pub fn texts_are_lines(url: &Url)
    ensures valid { IsValid url.now }
    ensures lines { EachIsLine (texts_of_url url.now) }
    ensures ascii { EachIsAscii (texts_of_url url.now) }
{
    // The call is made for its contract, which says that the URL is valid.
    let _ = url.as_str();
}
