// Takes one trail name through the checks, the escaping and the sinks, and says at each step what happened.
#![tactic(auto)]

use sink::{BufferSink, PageSink, Sink};
use std::io;
use style::{EmptyElementHandling, Indentation, Style};
use xml::{QuoteLevel, Use, XmlName, escape_into, well_formed};

// Every byte that escaping is about, and a letter beyond ASCII.
const TRAIL: &str = "Höhenweg \"l'Alpe & Tal\" <T3>\trot";

fn check_bytes(rt: &HostRuntime, bytes: &[u8]) -> io::Result<()> {
    match well_formed(bytes) {
        Ok(text) => println!(rt; "  well-formed: {text:?}"),
        Err(refusal) => println!(rt; "  {refusal}"),
    }
}

fn check_name(rt: &HostRuntime, name: &str) -> io::Result<()> {
    match XmlName::try_from(name) {
        Ok(name) => println!(rt; "  {:?} names a tag", name.as_str()),
        Err(refusal) => println!(rt; "  {name:?} names no tag: {refusal}"),
    }
}

fn report<S: Sink>(rt: &HostRuntime, label: &str, sink: &S) -> io::Result<()> {
    let (held, room) = sink.counts();
    println!(rt; "  {label}: {held} bytes held, room for {room}")
}

fn put<S: Sink>(rt: &HostRuntime, label: &str, sink: &mut S, bytes: &[u8]) -> io::Result<()> {
    if let Err(refusal) = sink.put(bytes) {
        println!(rt; "    {label}: {refusal}")?;
    }
    Ok(())
}

// The name for one use under one level, into both sinks. The stage is too short for two of the uses.
fn write<A: Sink, B: Sink>(
    rt: &HostRuntime,
    level: QuoteLevel,
    target: Use,
    buffer: &mut A,
    pages: &mut B,
) -> io::Result<()> {
    let mut stage = [0u8; 72];
    match escape_into(&mut stage, 0, TRAIL.as_bytes(), &level, target) {
        Ok(end) => {
            let written = &stage[0..end];
            if let Ok(text) = well_formed(written) {
                println!(rt; "  {level:?} {target:?}: {text}")?;
            }
            put(rt, "buffer sink", buffer, written)?;
            put(rt, "page sink", pages, written)
        }
        Err(refusal) => println!(rt; "  {level:?} {target:?}: {refusal}"),
    }
}

fn check_style(rt: &HostRuntime, byte: u8, size: usize) -> io::Result<()> {
    match Style::new(
        EmptyElementHandling::SelfClosed,
        Some(Indentation { byte, size }),
    ) {
        Ok(_) => println!(rt; "  byte {byte}, size {size}: a style"),
        Err(refusal) => println!(rt; "  byte {byte}, size {size}: {refusal}"),
    }
}

fn run_checks(rt: &HostRuntime) -> io::Result<()> {
    println!(rt; "The bytes of a trail name are checked:")?;
    check_bytes(rt, TRAIL.as_bytes())?;
    check_bytes(rt, b"H\xF6henweg")?;

    println!(rt; "Names of tags are checked:")?;
    check_name(rt, "trail")?;
    check_name(rt, TRAIL)?;
    check_name(rt, "")?;

    println!(rt; "Indentations are checked:")?;
    check_style(rt, b' ', 2)?;
    check_style(rt, b'-', 2)?;
    check_style(rt, b'\t', 17)
}

fn main(rt: HostRuntime) -> io::Result<()> {
    run_checks(&rt)?;

    println!(rt; "The trail name is escaped and put into both sinks:")?;
    let mut memory = [0u8; 512];
    let mut buffer = BufferSink::new(&mut memory);
    let mut pages = PageSink::new();
    for level in [QuoteLevel::Full, QuoteLevel::Partial, QuoteLevel::Minimal] {
        for target in [Use::Text, Use::Attribute, Use::TextItem, Use::AttributeItem] {
            write(&rt, level, target, &mut buffer, &mut pages)?;
        }
    }

    println!(rt; "The sinks answer:")?;
    report(&rt, "buffer sink", &buffer)?;
    report(&rt, "page sink", &pages)
}
