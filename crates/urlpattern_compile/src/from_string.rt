//! The inits of constructor strings.

ghost use Rattle.std.specs.Prelude.{option_copied, IfErr, IfOk, IfSome};
ghost use Rattle.std.specs.Str.{chars};
ghost use Rattle.urlpattern_compile.specs.FromString.{IsInitOfText, RejectsText};
ghost use Rattle.urlpattern_init.specs.SpecialProtocol.{IsKnownProtocol};
ghost use Rattle.urlpattern_syntax.specs.Errors.{MemoryOr};

use std::alloc::Global;
use urlpattern_canonical::parse_base;
use urlpattern_init::UrlPatternInit;
use urlpattern_matcher::component::ComponentWithParts;
use urlpattern_matcher::regexp::RegExp;
use urlpattern_syntax::Error;

/// Parses `base_url`, if there is one, and then the constructor string `text` to an init with that
/// base URL.
///
/// Fails with the error of the rejected base URL or of the rejected string, or with `OutOfMemory`.
pub fn init_of_text<R: RegExp>(
    alloc: Global,
    text: &str,
    base_url: Option<&str>,
) -> Result<UrlPatternInit, Error>
    ensures constructed { IfOk result
        (IsInitOfText R.RegExp (chars text.now) (option_copied base_url.entry)) }
    ensures refused { IfErr result
        (MemoryOr (RejectsText (chars text.now) (option_copied base_url.entry))) }
{
    let base_url = parse_base(alloc, base_url)?;
    UrlPatternInit::parse_constructor_string::<R>(alloc, text, base_url)
}

/// Parses a constructor string as `init_of_text` does, and fails with its errors. If `keeps`, also
/// returns the text of the protocol and its component, compiled under the default options, for
/// `compile_init`. `None`: `keeps` is `false`, or the string has no protocol.
pub fn init_of_text_keeping<'a, R: RegExp>(
    alloc: Global,
    text: &'a str,
    base_url: Option<&str>,
    keeps: bool,
) -> Result<(UrlPatternInit, Option<(&'a str, ComponentWithParts<R>)>), Error>
    ensures constructed { IfOk result (λ found.
        IsInitOfText R.RegExp (chars text.now) (option_copied base_url.entry) found.0) }
    ensures known { IfOk result (λ found. IfSome found.1 (IsKnownProtocol R.RegExp)) }
    ensures refused { IfErr result
        (MemoryOr (RejectsText (chars text.now) (option_copied base_url.entry))) }
{
    let base_url = parse_base(alloc, base_url)?;
    let (init, _, known, _) = UrlPatternInit::parse_constructor_string_keeping::<R>(
        alloc, text, base_url, keeps,
    )?;
    Ok((init, known))
}
