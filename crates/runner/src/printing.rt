// What is printed of a writer: the refusals of its calls, the XML of its sink, or its trace.
ghost use Rattle.std.specs.Prelude.{Ok, OnOk, IfErr};
ghost use Rattle.std.specs.Io.KnownBytes.{Appends};
ghost use Rattle.feed.specs.Telling.{told};
ghost use Rattle.runner.specs.Printing.{ended, refused_told, refusals_told, xml_of, answers_told, trace_of, GivesOrWants, ToldInOrder, AnsweredInOrder};

use crate::outlet::Outlet;
use crate::running::{Outcome, Ran};
use feed::{Batch, CallLine, Counted, Told, Traced, bytes_line};
use refusal::Refusal;
use std::alloc::Global;
use std::io;
use writer::Answer;

fn print_refusal<E: Outlet>(err: &mut E, line: usize, refusal: Refusal) -> io::Result<()>
    ensures told { OnOk result (Appends (E.contents err.old) (E.contents err.new) (ended (told line refusal))) }
    ensures gives { IfErr result E.gives }
{
    err.put_line(Told { line, refusal })
}

// The refused calls, in their order.
fn print_refused<E: Outlet>(err: &mut E, calls: &[CallLine], answers: &[Answer]) -> io::Result<()>
    ensures told { OnOk result (Appends (E.contents err.old) (E.contents err.new) (refused_told calls.now answers.now)) }
    ensures gives { IfErr result E.gives }
{
    for (call, answer) in calls.iter().zip(answers) {
        if let Err(refusal) = answer {
            print_refusal(err, call.number, *refusal)?;
        }
    }
    Ok(())
}

/// Each refusal with the line that it answers: a style's with that of the style.
pub fn print_refusals<E: Outlet>(err: &mut E, batch: &Batch, outcome: &Outcome) -> io::Result<()>
    ensures told { OnOk result (Appends (E.contents err.old) (E.contents err.new) (refusals_told batch.now outcome.now)) }
    ensures gives { IfErr result E.gives }
{
    match outcome {
        Err(refusal) => print_refusal(err, batch.setup.style.line, *refusal),
        Ok(ran) => print_refused(err, &batch.calls, &ran.answers),
    }
}

/// The XML that the sink holds, and not a byte more. An error is one that the output gives.
pub fn print_xml<O: Outlet>(out: &mut O, outcome: &Outcome) -> io::Result<()>
    ensures told { OnOk result (Appends (O.contents out.old) (O.contents out.new) (xml_of outcome.now)) }
    ensures gives { IfErr result O.gives }
{
    match outcome {
        Err(_) => Ok(()),
        Ok(ran) => out.put(&ran.bytes),
    }
}

// The answers, one to a line.
fn print_answers<O: Outlet>(out: &mut O, answers: &[Answer]) -> io::Result<()>
    ensures told { OnOk result (Appends (O.contents out.old) (O.contents out.new) (answers_told answers.now)) }
    ensures gives { IfErr result O.gives }
{
    for answer in answers {
        out.put_line(Traced(*answer))?;
    }
    Ok(())
}

// The answers, then how much the sink holds, and what.
fn print_ran<O: Outlet>(heap: Global, out: &mut O, ran: &Ran) -> io::Result<()>
    ensures told { OnOk result (Appends (O.contents out.old) (O.contents out.new) (trace_of (Ok ran.now))) }
    ensures gives { IfErr result (GivesOrWants O.gives) }
{
    print_answers(out, &ran.answers)?;
    out.put_line(Counted {
        held: ran.bytes.len(),
        room: ran.room,
    })?;
    let line = bytes_line(heap, &ran.bytes)?;
    out.put_line(line)
}

/// The trace of a writer. An error is one that the output gives, or there is no memory for the line with the bytes.
pub fn print_trace<O: Outlet>(heap: Global, out: &mut O, outcome: &Outcome) -> io::Result<()>
    ensures told { OnOk result (Appends (O.contents out.old) (O.contents out.new) (trace_of outcome.now)) }
    ensures gives { IfErr result (GivesOrWants O.gives) }
{
    match outcome {
        Err(refusal) => out.put_line(Traced(Err(*refusal))),
        Ok(ran) => print_ran(heap, out, ran),
    }
}

/// Each refused call is told in its place, with the number of its own line, and each answer has its line in a trace.
// No code in it, since a contract is what names a theorem.
pub fn law_told_in_order()
    ensures refusals { ToldInOrder }
    ensures answers { AnsweredInOrder }
{}
