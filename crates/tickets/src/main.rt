// Writes two records by calling the writer from code: one by single calls, finished with its ticket, and one in runs that go on.
// The texts in must-fail/ change it by one slip each, which the checker refuses.
#![tactic(auto)]

ghost use Rattle.std.specs.Prelude.{◌++◌};
ghost use Rattle.engine.specs.Lays.{setting};
ghost use Rattle.engine.specs.Memory.{mem};
ghost use Rattle.tickets.specs.GoingOn.{begun, ended, GoesOn};
ghost use Rattle.tickets.specs.Settling.{Makes, fields, GivesUp, HandsIn, Settles};
ghost use Rattle.tickets.specs.Writing.{Written};
ghost use Rattle.writer.specs.Histories.{New};

use model::Frame;
use refusal::Refusal;
use sink::{BufferSink, Sink};
use std::io;
use style::{EmptyElementHandling, Style};
use writer::{Call, Step, Ticket, Value, Writer};
use xml::{QuoteLevel, well_formed};

const TRAIL: &str = "Höhenweg & Tal";

// The fields of the record, up to its end; the first refusal ends it.
fn fill(writer: &mut Writer<'_>, trail: &str) -> Result<(), Refusal>
    ensures makes { Makes (fields trail.now) result (mem writer.old.core) (mem writer.new.core) }
{
    writer.field(b"trail")?;
    writer.text(trail.as_bytes(), QuoteLevel::Partial)?;
    writer.field(b"@no")?;
    writer.text(b"1134", QuoteLevel::Partial)?;
    writer.end()
}

// Drops a record that is refused, with its ticket.
fn give_up(writer: &mut Writer<'_>, ticket: Ticket, refusal: Refusal) -> Result<(), Refusal>
    ensures gives_up { GivesUp refusal result (mem writer.old.core) (mem writer.new.core) }
{
    writer.close(Some(ticket));
    Err(refusal)
}

// Hands the record to the sink. A refusal gives the ticket back, and the record is dropped.
fn hand_in<S: Sink>(writer: &mut Writer<'_>, sink: &mut S, ticket: Ticket) -> Result<(), Refusal>
    ensures hands_in { HandsIn result (mem writer.old.core) (mem writer.new.core) (S.held sink.old) (S.room sink.old) (S.held sink.new) (S.room sink.new) }
{
    match writer.finish(ticket, sink) {
        Ok(()) => Ok(()),
        Err((refusal, ticket)) => give_up(writer, ticket, refusal),
    }
}

// Hands the record in, or drops it where it was refused a field.
fn settle<S: Sink>(
    writer: &mut Writer<'_>,
    sink: &mut S,
    ticket: Ticket,
    filled: Result<(), Refusal>,
) -> Result<(), Refusal>
    ensures settles { Settles filled result (mem writer.old.core) (mem writer.new.core) (S.held sink.old) (S.room sink.old) (S.held sink.new) (S.room sink.new) }
{
    match filled {
        Ok(()) => hand_in(writer, sink, ticket),
        Err(refusal) => give_up(writer, ticket, refusal),
    }
}

/// Writes the record of a trail into a sink, whole or not at all: an empty sink of an idle unindented writer is then read as
/// exactly this record, or it stays empty. It is refused only where one of the record's calls is, and as the first such call.
fn write_sheet<S: Sink>(writer: &mut Writer<'_>, sink: &mut S, trail: &str) -> Result<(), Refusal>
    ensures written { New (mem writer.old.core) (S.held sink.old) → Written trail.now result (setting (mem writer.old.core)) (S.room sink.old) (S.held sink.new) }
{
    let ticket = writer.open(b"sheet")?;
    let filled = fill(writer, trail);
    settle(writer, sink, ticket, filled)
}

/// Writes a second record in runs that go on: each takes the ticket that the one before it hands out, and a run of no calls
/// hands on what it takes. Their calls and those before them are one history, and so the laws hold of both records.
fn write_ridge<S: Sink>(writer: &mut Writer<'_>, sink: &mut S) -> Option<Ticket>
    ensures goes_on { GoesOn (begun ++ ended) (mem writer.old.core) (S.held sink.old) (S.room sink.old) (mem writer.new.core) (S.held sink.new) (S.room sink.new) }
{
    let mut first: [Step<'_, QuoteLevel>; 2] = [
        Step::new(Call::Open(b"sheet")),
        Step::new(Call::Field(b"trail")),
    ];
    let mut second = [
        Step::new(Call::Value(Value::Text(b"Grat", QuoteLevel::Partial))),
        Step::new(Call::End),
        Step::new(Call::Finish),
    ];
    let mut none: [Step<'_, QuoteLevel>; 0] = [];
    let open = writer.replay(None, sink, &mut first);
    let over = writer.replay(open, sink, &mut second);
    writer.replay(over, sink, &mut none)
}

fn main(rt: HostRuntime) -> io::Result<()> {
    let Ok(style) = Style::new(EmptyElementHandling::SelfClosed, None) else {
        return Ok(());
    };
    // One more of each than a writer uses.
    let mut stage = [b'.'; 65537];
    let mut names = [b'.'; 4097];
    let mut frames = [Frame::list(); 65];
    let mut memory = [0u8; 128];
    let mut sink = BufferSink::new(&mut memory);
    let mut writer = Writer::new(style, &mut stage, &mut names, &mut frames);
    if let Err(refusal) = write_sheet(&mut writer, &mut sink, TRAIL) {
        println!(rt; "{refusal}")?;
    }
    let left = write_ridge(&mut writer, &mut sink);
    writer.close(left);
    if let Ok(text) = well_formed(sink.held()) {
        println!(rt; "{text}")?;
    }
    let kept = stage[65536] == b'.' && names[4096] == b'.' && frames[64] == Frame::list();
    println!(rt; "behind what a writer uses all is as it was: {kept}")
}
