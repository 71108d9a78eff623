// An output that is full: its error ends the run, and no other does.
use super::Outlet;
use crate::feeding::Feeding;
use crate::feeding::Output::{self, Plain, Trace};
use crate::stop::Stop;
use std::fmt::Display;
use std::io::{self, ErrorKind};
use std::test::Fail;

// Takes so many times what is printed, and is full then.
#[derive(Drop)]
struct Page {
    left: usize,
}

impl Page {
    ghost use Rattle.std.specs.Prelude.{◌≡◌, IfErr};
    ghost use Rattle.std.specs.IoError.{error_kind};

    fn take(&mut self) -> io::Result<()>
        ensures full { IfErr result (λ e. error_kind e ≡ ErrorKind.StorageFull) }
    {
        if self.left == 0 {
            return Err(io::Error::from(ErrorKind::StorageFull));
        }
        self.left -= 1;
        Ok(())
    }
}

impl Outlet for Page {
    ghost use Rattle.std.specs.Prelude.{◌≡◌, None};
    ghost use Rattle.std.specs.declared.io.ErrorKind.TheVariants.{StorageFull};
    ghost use Rattle.std.specs.IoError.{error_kind};

    ghost contents = { λ _. None };

    ghost gives = { λ e. error_kind e ≡ StorageFull };

    fn put(&mut self, _bytes: &[u8]) -> io::Result<()> {
        self.take()
    }

    fn put_line<D: Display + Drop>(&mut self, _line: D) -> io::Result<()> {
        self.take()
    }
}

// One record is refused its name and another is written.
const SCRIPT: &str = "open 1\nopen a\nend\nfinish\n";

const FULL: Option<ErrorKind> = Some(ErrorKind::StorageFull);

// How often each output takes what is printed, and the error that ends the run.
const PAGES: [(Output, usize, usize, Option<ErrorKind>); 5] = [
    (Plain, 1, 1, None),
    (Plain, 0, 1, FULL),
    (Plain, 1, 0, FULL),
    (Trace, 6, 0, None),
    (Trace, 5, 0, FULL),
];

#[test]
fn full_pages(rt: HostRuntime) -> Result<(), Fail> {
    let heap = rt.alloc();
    for (output, out, err, error) in PAGES {
        let mut feeding = Feeding::new(heap, output, Page { left: out }, Page { left: err });
        let told = match feeding.feed(SCRIPT.as_bytes()) {
            Ok(()) => None,
            Err(Stop::Io(error)) => Some(error.kind()),
            Err(Stop::Script(_)) => Some(ErrorKind::InvalidInput),
        };
        assert_eq!(rt; told, error);
    }
    Ok(())
}
