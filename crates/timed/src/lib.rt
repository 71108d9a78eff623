// The writer behind one C name, for a clock outside: bench/ times it beside other writers.
#![tactic(auto)]

mod record;
mod writing;

ghost use Rattle.std.specs.Prelude.{◌≡◌, ◌<◌, length, None};
ghost use Rattle.style.specs.declared.style.EmptyElementHandling.TheVariants.{SelfClosed};
ghost use Rattle.model.specs.Run.{new};
ghost use Rattle.timed.specs.Steps.{calls_of_steps};
ghost use Rattle.timed.specs.Whole.{Leaves, over};

use record::Record;
pub use record::Step;
use std::alloc::Global;
use style::{EmptyElementHandling, Style};

/// Writes a record so many times, each time by a new writer over the same memory into the front of `out`, and answers how many
/// bytes stand there in the end: 0 where a call was refused.
#[unsafe(no_mangle)]
pub extern "C" fn timed_write(
    heap: Global,
    steps: &[Step],
    text: &[u8],
    stage: &mut [u8],
    names: &mut [u8],
    out: &mut [u8],
    times: usize,
) -> usize
    ensures none { times ≡ 0 → result ≡ 0 }
    ensures whole { 0 < result → Leaves (over SelfClosed None (length stage.old) (length names.old)) (calls_of_steps text.now steps.now) (new (length out.old)) result }
{
    let Some(record) = Record::of(heap, steps, text) else {
        return 0;
    };
    let Ok(style) = Style::new(EmptyElementHandling::SelfClosed, None) else {
        return 0;
    };
    writing::write_times(style, &record, stage, names, out, times)
}

#[cfg(test)]
mod tests;
