//! What is written before the output for a line, and before a message on it.

ghost use Rattle.std.specs.Prelude.{◌≡◌, string_bytes, IfOk};
ghost use Rattle.urlpat_matching.specs.LineLabels.{label, name_label};

use crate::command::LineStyle;
use std::alloc::{AllocError, Global};
use std::fmt;

/// Returns the label of a line: the name of the file and the number of the line, each with a colon,
/// as `style` asks for them.
pub fn label_of(alloc: Global, style: LineStyle<'_>, number: u64) -> Result<String, AllocError>
    ensures { IfOk result (λ text. string_bytes text ≡ label style.entry number) }
{
    let mut text = name_of(alloc, style)?;
    if !style.numbered {
        return Ok(text);
    }
    let numbered = format!(in alloc; "{number}:")?;
    text.push_str(&numbered)?;
    Ok(text)
}

/// Returns the name of the file and a colon, if `style` asks for it. Otherwise empty.
pub fn name_of(alloc: Global, style: LineStyle<'_>) -> Result<String, AllocError>
    ensures { IfOk result (λ text. string_bytes text ≡ name_label style.entry) }
{
    if !style.named {
        return Ok(String::new(alloc));
    }
    match style.file {
        Some(file) => format!(in alloc; "{file}:"),
        None => String::from_str(alloc, "(standard input):"),
    }
}

/// The file that has a line, as it is written before a message.
#[derive(Clone, Copy)]
pub struct FilePlace<'w>(pub Option<&'w str>);

impl fmt::Display for FilePlace<'_> {
    fn fmt<W: fmt::Write>(&self, f: &mut fmt::Formatter<W>) -> fmt::Result {
        match self.0 {
            Some(file) => write!(f, "{file}: "),
            None => Ok(()),
        }
    }
}
