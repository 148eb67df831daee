//! The place where the pieces of a pattern text end. A fault of a text is a `TokenizerError`: no
//! token begins at a place of the text.
ghost use Rattle.std.specs.Prelude.{IfErr, IfOk};
ghost use Rattle.std.specs.Str.{chars};
ghost use Rattle.urlpattern_syntax.specs.Stops.{IsStopOf};
ghost use Rattle.urlpattern_syntax.specs.Tokens.{ReportsFault, token_view};

use super::pieces::{Next, Reader};
use crate::tokenizer::Token;
use std::alloc::Global;
use urlpattern_syntax::error::Error;

/// The place where the pieces of a pattern text, its characters, placeholders and groups in braces,
/// end.
#[derive(Debug, Clone, Copy)]
pub struct Stop<'a> {
    /// The first token that is in no piece: `found`, or the opening brace of a group without
    /// closing brace.
    pub first: Token<'a>,
    /// The token with which no piece begins, or which is in place of the closing brace of a group.
    /// `End` where the pieces are the whole text.
    pub found: Token<'a>,
}

impl<'a> Stop<'a> {
    /// Finds where the pieces of the text `input` end, under this prefix code point.
    ///
    /// The error is the first fault of the text, or that memory ran out.
    pub fn of(alloc: Global, input: &'a str, prefix_code_point: &str) -> Result<Self, Error>
        ensures stops { IfOk result (λ stop.
            IsStopOf (chars input.now) (chars prefix_code_point.now) (token_view stop.first)
            (token_view stop.found)) }
        ensures fault { IfErr result (ReportsFault (chars input.now)) }
    {
        let mut reader = Reader::new(alloc, input)?;
        let mut next = Next::Stops;
        loop {
            let first = reader.token();
            reader.next_piece(prefix_code_point, &mut next)?;
            match &next {
                Next::Piece(_) => {}
                Next::Characters(_, _) => {}
                Next::LacksClose => {
                    reader.read_to_end()?;
                    let found = reader.token();
                    return Ok(Stop { first, found });
                }
                Next::Stops => {
                    reader.read_to_end()?;
                    let found = reader.token();
                    return Ok(Stop { first, found });
                }
            }
        }
    }
}
