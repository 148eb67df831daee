//! Copies of errors.

ghost use Rattle.std.specs.Prelude.{◌≡◌, IfOk};
ghost use Rattle.urlpattern_syntax.specs.Errors.{error_view, parser_error_view};

use std::alloc::AllocError;
use urlpattern_syntax::error::{Error, ParserError, TokenizerError};

/// Returns a copy of an error.
pub(crate) fn copied_error(error: &Error) -> Result<Error, AllocError>
    ensures { IfOk result (λ copy. error_view copy ≡ error_view error.now) }
{
    match error {
        Error::BaseUrlRequired => Ok(Error::BaseUrlRequired),
        Error::BaseUrlWithInit => Ok(Error::BaseUrlWithInit),
        Error::Tokenizer(fault, place) => Ok(Error::Tokenizer(copied_fault(fault), *place)),
        Error::Parser(error) => Ok(Error::Parser(copied_parser_error(error)?)),
        Error::Url(reason) => Ok(Error::Url(*reason)),
        Error::RegExp(()) => Ok(Error::RegExp(())),
        Error::OutOfMemory => Ok(Error::OutOfMemory),
    }
}

/// Returns a copy of an error of the tokenizer.
fn copied_fault(fault: &TokenizerError) -> TokenizerError
    ensures { result ≡ fault.now }
{
    match fault {
        TokenizerError::IncompleteEscapeCode => TokenizerError::IncompleteEscapeCode,
        TokenizerError::InvalidName => TokenizerError::InvalidName,
        TokenizerError::InvalidRegex(fault) => TokenizerError::InvalidRegex(*fault),
    }
}

/// Returns a copy of an error of the parser.
fn copied_parser_error(error: &ParserError) -> Result<ParserError, AllocError>
    ensures { IfOk result (λ copy. parser_error_view copy ≡ parser_error_view error.now) }
{
    match error {
        ParserError::ExpectedToken(expected, found, value) => {
            let value = value.clone()?;
            Ok(ParserError::ExpectedToken(*expected, *found, value))
        }
        ParserError::DuplicateName(name) => Ok(ParserError::DuplicateName(name.clone()?)),
    }
}
