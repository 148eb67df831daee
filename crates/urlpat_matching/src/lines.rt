//! The lines of a reader, as bytes.
ghost use Rattle.std.specs.Prelude.{◌≡◌, ◌+◌, ◌-◌, ◌<◌, ◌≤◌, ◌↔◌, length, take, All, ◌≢◌, IfOk, IfSome, IsTrue, MatchBool, OnOk, Some};
ghost use Rattle.std.specs.Io.BufRead.{drop_through, take_through};
ghost use Rattle.std.specs.Io.{IsEmptyOrEndsWith, StopsAt};
ghost use Rattle.bstr.specs.Text.{without_terminator};
ghost use Rattle.bstr.specs.Records.{trim_record};
ghost use Rattle.urlpat_matching.specs.Lines.{AppendsSome, IsAppended, IsLineKept};

use std::alloc::AllocError;
use std::io;
use std::io::BufRead;

/// The maximum length of a line in bytes, its end included: 16 MB.
pub const LONGEST: usize = 16_777_216;

/// Reads a line with its end into `line`, which is overwritten. Returns whether there is a line.
///
/// Only a part of a line longer than `LONGEST` is kept, which is still longer than `LONGEST`. The
/// error is that of the reader, or that memory ran out.
pub fn read_line<In: BufRead>(input: &mut In, line: &mut Vec<u8>) -> io::Result<bool>
    ensures kept { IfOk result (λ more. IfSome (In.remaining input.old) (λ bytes.
        IsLineKept line.new.items (take_through 10 bytes))) }
    ensures rest { IfOk result (λ more. IfSome (In.remaining input.old) (λ bytes.
        In.remaining input.new ≡ Some (drop_through 10 bytes))) }
    ensures more { IfOk result (λ more. IfSome (In.remaining input.old) (λ bytes.
        IsTrue more ↔ 0 < length bytes)) }
{
    line.clear();
    'fills: for _ in 0..u64::MAX {
        if append_some(input, line)? {
            return Ok(!line.is_empty());
        }
    }
    Err(io::ErrorKind::Other.into())
}

/// Appends to a line what a reader has in its buffer, through the first line end. Returns whether
/// the line is complete, by its end or by that of the input. An interrupted read appends nothing.
fn append_some<In: BufRead>(input: &mut In, line: &mut Vec<u8>) -> io::Result<bool>
    ensures { IfOk result (AppendsSome (In.remaining input.old) (In.remaining input.new)
        line.old.items line.new.items) }
{
    let filled = match input.fill_buf() {
        Ok(filled) => filled,
        Err(error) => {
            return if error.kind() == io::ErrorKind::Interrupted {
                Ok(false)
            } else {
                Err(error)
            };
        }
    };
    let part = first_part(filled);
    keep(line, part)?;
    let ended = is_ended(part);
    let length = part.len();
    input.consume(length);
    Ok(ended)
}

/// The bytes through the first line end, or all bytes if there is none.
fn first_part(bytes: &[u8]) -> &[u8]
    ensures front { result.now ≡ take (length result.now) bytes.now }
    ensures within { length result.now ≤ length bytes.now }
    ensures some { 0 < length bytes.now → 0 < length result.now }
    ensures stops { StopsAt result.now 10 }
{
    match memchr::memchr(b'\n', bytes) {
        Some(index) => &bytes[..index + 1],
        None => bytes,
    }
}

/// Whether a line is complete with its last part: the part ends with the line end, or is empty
/// since the input has ended.
fn is_ended(part: &[u8]) -> bool
    requires { StopsAt part.now 10 }
    ensures { MatchBool result (IsEmptyOrEndsWith part.now 10) (All (λ byte. byte ≢ 10) part.now) }
{
    let length = part.len();
    length == 0 || part[length - 1] == b'\n'
}

/// Appends a part to a line, unless the line is already longer than `LONGEST`.
fn keep(line: &mut Vec<u8>, part: &[u8]) -> Result<(), AllocError>
    ensures { OnOk result (IsAppended line.old.items line.new.items part.now) }
{
    if line.len() > LONGEST {
        return Ok(());
    }
    line.extend_from_slice(part)
}

/// A line without its end, `\n` or `\r\n`.
pub fn without_end(line: &[u8]) -> &[u8]
    ensures { result.now ≡ without_terminator line.now }
{
    let len = line.len();
    if len > 0 && line[len - 1] == b'\n' {
        without_last(without_last(line, b'\n'), b'\r')
    } else {
        line
    }
}

/// The bytes without their last one, if that is `byte`.
fn without_last(bytes: &[u8], byte: u8) -> &[u8]
    ensures { result.now ≡ trim_record byte bytes.now }
{
    let len = bytes.len();
    if len > 0 && bytes[len - 1] == byte {
        &bytes[..len - 1]
    } else {
        bytes
    }
}
