//! Tables of patterns, read from files.

ghost use Rattle.std.specs.Prelude.{◌≡◌, ℕ, List, IfOk, IfSome};

use std::io;
use std::io::Write;

/// A source of files that have tables of patterns.
pub trait Tables {
    // The file `name` has the bytes `table`.
    ghost Has: { Self → (name table : List ℕ) → Type 0 };

    /// Reads the file with this name.
    fn read(&self, name: &str) -> io::Result<Vec<u8>>
        ensures { IfOk result (λ table. Has self.now name.now table.items) };
}

/// Reads the file with this name. `None`: it cannot be read, or memory ran out, which is reported.
pub fn read_table<T: Tables, Err: Write>(tables: &T, name: &str, err: &mut Err) -> Option<Vec<u8>>
    ensures table { IfSome result (λ table. T.Has tables.now name.now table.items) }
    ensures quiet { IfSome result (λ table. err.new ≡ err.old) }
{
    match tables.read(name) {
        Ok(table) => Some(table),
        Err(error) => {
            let _ = if error.kind() == io::ErrorKind::OutOfMemory {
                err.write_all(b"out of memory\n")
            } else {
                writeln!(err, "urlpat: the file `{name}` cannot be read: {error}")
            };
            None
        }
    }
}
