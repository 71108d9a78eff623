// What is printed to.
ghost use Rattle.std.specs.Prelude.{ℕ, List, Option, IfSome, IfErr, OnOk, ⊤};
ghost use Rattle.std.specs.Fmt.{with_newline};
ghost use Rattle.std.specs.Io.KnownBytes.{Appends};
ghost use Rattle.std.specs.declared.io.Error.{Error};

use std::fmt::Display;
use std::io::{self, Write};

/// It takes what is printed, or gives an error. Whoever prints to it adds no error to those.
pub trait Outlet {
    // The bytes that it holds, where they are known.
    ghost contents: { Self → Option (List ℕ) };

    // The errors that it gives.
    ghost gives: { Error → Type 0 };

    /// Takes these bytes.
    fn put(&mut self, bytes: &[u8]) -> io::Result<()>
        ensures takes { OnOk result (Appends (contents self.old) (contents self.new) bytes.now) }
        ensures gives { IfErr result gives };

    /// Takes a line.
    fn put_line<D: Display + Drop>(&mut self, line: D) -> io::Result<()>
        ensures takes { OnOk result (IfSome (with_newline (D.output line)) (Appends (contents self.old) (contents self.new))) }
        ensures gives { IfErr result gives };
}

/// Which errors a writer gives is not known.
impl<W: Write> Outlet for W {
    ghost contents = { λ w. W.contents w };

    ghost gives = { λ _. ⊤ };

    fn put(&mut self, bytes: &[u8]) -> io::Result<()> {
        self.write_all(bytes)
    }

    fn put_line<D: Display + Drop>(&mut self, line: D) -> io::Result<()> {
        self.writeln(line)
    }
}

#[cfg(test)]
mod tests;
