// The record that is shown without a script: one map sheet, call by call.
ghost use Rattle.std.specs.Prelude.{◌∷◌, Ok, OnOk, IfOk, IfErr, map};
ghost use Rattle.std.specs.Io.KnownBytes.{Appends};
ghost use Rattle.runner.specs.declared.feeding.Output.TheVariants.{Plain};
ghost use Rattle.runner.specs.Printing.{ended};
ghost use Rattle.runner.specs.Feeding.{HasGround};
ghost use Rattle.sheet_feed.specs.FirstTask.{TakesOne, IsBatchOfLines, step_told, steps_told, title, holding, page, Shows};

use feed::Batch;
use runner::{Outcome, Outlet, Ran, Stop, run};
use script::{Fault, Numbered, read_line};
use std::alloc::Global;
use std::io;
use writer::Answer;

const STYLE: &str = "style self-closed 32 2";

// The fields of the sheet stand side by side, trails need escaping, the list of waymarks is an attribute that comes when the
// children are written, and one key is no name.
const CALLS: [&str; 35] = [
    "open sheet",
    "field title",
    "text Walensee",
    "field edition",
    "text 1998",
    "field correction",
    "text 2004",
    "field trail",
    "row",
    "text Höhenweg \"l'Alpe & Tal\" <T3>",
    "text Kerenzerberg > Filzbach\\t& Quinten",
    "text",
    "end",
    "field trail name",
    "field start",
    "record point",
    "field @east",
    "text 729400",
    "field @north",
    "text 218150",
    "field height",
    "text 425 m",
    "end",
    "field @no",
    "text 1134",
    "field @waymarks",
    "row",
    "text yellow",
    "text white-red-white",
    "text blue dot",
    "end",
    "field reprint",
    "none",
    "end",
    "finish",
];

// A line as a script has it.
fn take_text(heap: Global, batch: &mut Batch, number: usize, text: &str) -> Result<(), Fault>
    ensures takes { OnOk result (TakesOne number text.now batch.old batch.new) }
{
    let line = read_line(heap, text.as_bytes())?;
    batch.take(heap, Numbered { number, line })?;
    Ok(())
}

fn read_steps(heap: Global, style: &str, calls: &[&str]) -> Result<Batch, Fault>
    ensures reads { IfOk result (IsBatchOfLines (style.now ∷ map (λ call. call.now) calls.now)) }
{
    let mut batch = Batch::at_start(heap);
    take_text(heap, &mut batch, 0, style)?;
    for (before, text) in calls.iter().enumerate() {
        take_text(heap, &mut batch, before + 1, text)?;
    }
    Ok(batch)
}

fn print_step<O: Outlet>(out: &mut O, text: &str, answer: Answer) -> io::Result<()>
    ensures told { OnOk result (Appends (O.contents out.old) (O.contents out.new) (ended (step_told text.now answer))) }
    ensures gives { IfErr result O.gives }
{
    match answer {
        Ok(()) => out.put_line(format_args!("  {text}: accepted")),
        Err(refusal) => out.put_line(format_args!("  {text}: {refusal}")),
    }
}

fn print_steps<O: Outlet>(out: &mut O, calls: &[&str], answers: &[Answer]) -> io::Result<()>
    ensures told { OnOk result (Appends (O.contents out.old) (O.contents out.new) (steps_told (map (λ call. call.now) calls.now) answers.now)) }
    ensures gives { IfErr result O.gives }
{
    for (text, answer) in calls.iter().zip(answers) {
        print_step(out, text, *answer)?;
    }
    Ok(())
}

fn print_title<O: Outlet>(out: &mut O, style: &str) -> io::Result<()>
    ensures told { OnOk result (Appends (O.contents out.old) (O.contents out.new) (title style.now)) }
    ensures gives { IfErr result O.gives }
{
    out.put_line(format_args!("A record of a map sheet, in the style `{style}`:"))
}

fn print_holding<O: Outlet>(out: &mut O, ran: &Ran) -> io::Result<()>
    ensures told { OnOk result (Appends (O.contents out.old) (O.contents out.new) (holding ran.now)) }
    ensures gives { IfErr result O.gives }
{
    let bytes = ran.bytes.len();
    let room = ran.room;
    out.put_line(format_args!("The sink holds {bytes} bytes and has room for {room}:"))
}

fn print_bytes<O: Outlet>(out: &mut O, bytes: &[u8]) -> io::Result<()>
    ensures told { OnOk result (Appends (O.contents out.old) (O.contents out.new) (ended bytes.now)) }
    ensures gives { IfErr result O.gives }
{
    out.put(bytes)?;
    out.put_line("")
}

// Each call with its answer, what the sink answers, and the XML that it holds.
fn print_ran<O: Outlet>(out: &mut O, style: &str, calls: &[&str], ran: &Ran) -> io::Result<()>
    ensures told { OnOk result (Appends (O.contents out.old) (O.contents out.new) (page style.now (map (λ call. call.now) calls.now) (Ok ran.now))) }
    ensures gives { IfErr result O.gives }
{
    print_title(out, style)?;
    print_steps(out, calls, &ran.answers)?;
    print_holding(out, ran)?;
    print_bytes(out, &ran.bytes)
}

fn print_page<O: Outlet>(
    out: &mut O,
    style: &str,
    calls: &[&str],
    outcome: &Outcome,
) -> io::Result<()>
    ensures told { OnOk result (Appends (O.contents out.old) (O.contents out.new) (page style.now (map (λ call. call.now) calls.now) outcome.now)) }
    ensures gives { IfErr result O.gives }
{
    match outcome {
        Ok(ran) => print_ran(out, style, calls, ran),
        Err(_) => Ok(()),
    }
}

fn show_calls<O: Outlet>(heap: Global, out: &mut O, style: &str, calls: &[&str]) -> Result<(), Stop>
    ensures shows { Shows style.now (map (λ call. call.now) calls.now) result (O.contents out.old) (O.contents out.new) }
    ensures io { HasGround Plain O.gives (λ _. ⊥) result }
{
    let batch = read_steps(heap, style, calls).map_err(|fault| fault.at_line(1))?;
    let outcome = run(heap, &batch)?;
    print_page(out, style, calls, &outcome)?;
    Ok(())
}

/// Makes the calls, and prints what comes of them. Where that fails, the error is one that the output gives.
pub fn show<O: Outlet>(heap: Global, out: &mut O) -> Result<(), Stop>
    ensures shows { Shows STYLE.now (map (λ call. call.now) CALLS) result (O.contents out.old) (O.contents out.new) }
    ensures io { HasGround Plain O.gives (λ _. ⊥) result }
{
    show_calls(heap, out, STYLE, &CALLS)
}
