// What is done on buffered outputs, which hold nothing back in the end.
ghost use Rattle.std.specs.Prelude.{◌≡◌, [], IfOk};
ghost use Rattle.std.specs.Io.Buffered.{writer_buffer, writer_contents};
ghost use Rattle.runner.specs.Feeding.{Feeds};
ghost use Rattle.sheet_feed.specs.Ending.{held, ShowsFirst};

use crate::first_task;
use runner::{Feeding, Output, Stop};
use std::alloc::Global;
use std::io::{self, BufWriter, Write};

/// Runs a script, and gives the two outputs back.
pub fn feed<O: Write + Drop, E: Write + Drop>(
    heap: Global,
    output: Output,
    script: &[u8],
    out: BufWriter<O>,
    err: BufWriter<E>,
) -> io::Result<(Result<(), Stop>, BufWriter<O>, BufWriter<E>)>
    ensures feeds { IfOk result (λ r. Feeds output script.now r.0 (held (writer_contents O.contents out) (writer_contents E.contents err)) (held (writer_contents O.contents r.1) (writer_contents E.contents r.2))) }
    ensures out { IfOk result (λ r. writer_buffer r.1 ≡ []) }
    ensures err { IfOk result (λ r. writer_buffer r.2 ≡ []) }
{
    let mut feeding = Feeding::new(heap, output, out, err);
    let fed = feeding.feed(script);
    let (mut out, mut err) = feeding.into_outputs();
    out.flush()?;
    err.flush()?;
    Ok((fed, out, err))
}

/// Shows the built-in record.
pub fn show<O: Write + Drop>(heap: Global, out: &mut BufWriter<O>) -> io::Result<Result<(), Stop>>
    ensures shows { IfOk result (λ shown. ShowsFirst shown (writer_contents O.contents out.old) (writer_contents O.contents out.new)) }
    ensures out { IfOk result (λ _. writer_buffer out.new ≡ []) }
{
    let shown = first_task::show(heap, out);
    out.flush()?;
    Ok(shown)
}
