// Replays the sheets that quick-xml 0.42.0 has answered, and says for how many the answers here are the same.
#![tactic(auto)]

mod replay;
mod tally;

ghost use Rattle.std.specs.Prelude.{◌≡◌, None, OnOk, IfOk, MatchResult};
ghost use Rattle.compared.specs.Replaying.{Judged};
ghost use Rattle.compared.specs.Comparing.{TakesLine, Compares, CountsEachOnce};

use feed::Batch;
use replay::told;
use script::{Fault, Numbered, read_line};
use std::alloc::Global;
use std::io::{self, Read};
use std::process::ExitCode;
use tally::Tally;

// A comment behind the calls of a sheet has the crate's answer: where ours has to be the same, and where it has to differ.
const SAME: &str = "#= ";

const DIFFERENT: &str = "#! ";

// Judges the answer in this line by what the library answers to the sheet before it. Any other line holds no answer.
fn judge(
    heap: Global,
    tally: &mut Tally,
    sheet: &Batch,
    number: usize,
    text: &str,
) -> Result<bool, Fault>
    ensures judged { IfOk result (λ judged. Judged sheet.now number text.now judged tally.old tally.new) }
{
    if let Some(answer) = text.strip_prefix(SAME) {
        tally.same(number, answer, told(heap, sheet)?.as_str());
        Ok(true)
    } else if let Some(answer) = text.strip_prefix(DIFFERENT) {
        tally.different(number, answer, told(heap, sheet)?.as_str());
        Ok(true)
    } else {
        Ok(false)
    }
}

// A line is an answer to the sheet so far, or the next line of a sheet, and never both.
fn take_line(
    heap: Global,
    tally: &mut Tally,
    batch: &mut Batch,
    number: usize,
    text: &str,
) -> Result<(), Fault>
    ensures takes { OnOk result (TakesLine number text.now batch.old batch.new tally.old tally.new) }
{
    if judge(heap, tally, batch, number, text)? {
        return Ok(());
    }
    let line = read_line(heap, text.as_bytes())?;
    batch.take(heap, Numbered { number, line })?;
    Ok(())
}

// Judges all answers in the input, each by the sheet that stands before it.
fn compare(heap: Global, sheets: &str) -> Result<Tally, Fault>
    ensures compares { IfOk result (Compares sheets.now) }
    ensures once { IfOk result (CountsEachOnce sheets.now) }
{
    let mut tally = Tally::default();
    let mut batch = Batch::at_start(heap);
    for (number, text) in sheets.lines().enumerate() {
        take_line(heap, &mut tally, &mut batch, number, text)?;
    }
    Ok(tally)
}

// Says what came of it; it is a success only where no answer is wrong.
fn report(rt: &HostRuntime, compared: Result<Tally, Fault>) -> io::Result<ExitCode>
    ensures status { IfOk result (λ code. code ≡ ExitCode.SUCCESS → MatchResult compared (λ tally. tally.wrong ≡ None) (λ _. ⊥)) }
{
    match compared {
        Ok(tally) => {
            println!(rt; "{tally}")?;
            Ok(tally.status())
        }
        Err(fault) => {
            eprintln!(rt; "{fault}")?;
            Ok(ExitCode::FAILURE)
        }
    }
}

fn main(rt: HostRuntime) -> io::Result<ExitCode> {
    let sheets = io::read_to_string(rt.alloc(), rt.stdin())?;
    report(&rt, compare(rt.alloc(), &sheets))
}
