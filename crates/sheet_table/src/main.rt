// Prints what each script named by the arguments gives: its trace, its XML, and the refusals.
#![tactic(auto)]

ghost use Rattle.std.specs.Prelude.{◌≡◌, true, IfOk, OnOk};
ghost use Rattle.std.specs.Io.KnownBytes.{Appends};
ghost use Rattle.std.specs.Result.{is_err};
ghost use Rattle.sheet_table.specs.Showing.{Gives, page, Shows};

use runner::{Feeding, Output, Stop};
use std::alloc::Global;
use std::io::{BufWriter, Write};
use std::process::ExitCode;
use std::{env, fs, io};

// The words after the program's name.
fn words(rt: &HostRuntime) -> io::Result<Vec<String>> {
    let words = env::args(rt)?.skip(1).collect(rt.alloc())?;
    Ok(words)
}

// What a script writes, and what is told beside it: the refusals, and an error that stops it behind them.
fn feed(heap: Global, output: Output, script: &[u8]) -> io::Result<(Vec<u8>, Vec<u8>)>
    ensures gives { IfOk result (λ w. Gives output script.now (record { out = w.0.items; err = w.1.items })) }
{
    let mut feeding = Feeding::new(heap, output, Vec::new(heap), Vec::new(heap));
    let fed = feeding.feed(script);
    let (out, mut told) = feeding.into_outputs();
    match fed {
        Ok(()) => Ok((out, told)),
        Err(Stop::Script(error)) => {
            writeln!(told, "{error}")?;
            Ok((out, told))
        }
        Err(Stop::Io(error)) => Err(error),
    }
}

// The trace with what is told beside it, a line that parts, and the XML on a line with what is told beside that.
fn print_page<O: Write>(
    out: &mut O,
    trace: &(Vec<u8>, Vec<u8>),
    xml: &(Vec<u8>, Vec<u8>),
) -> io::Result<()>
    ensures prints { OnOk result (Appends (O.contents out.old) (O.contents out.new) (page (record { out = trace.now.0.items; err = trace.now.1.items }) (record { out = xml.now.0.items; err = xml.now.1.items }))) }
{
    out.write_all(&trace.0)?;
    out.write_all(&trace.1)?;
    writeln!(out, "--")?;
    out.write_all(&xml.0)?;
    writeln!(out)?;
    out.write_all(&xml.1)
}

// What a script gives, below its name.
fn show<O: Write>(heap: Global, out: &mut O, name: &str, script: &[u8]) -> io::Result<()>
    ensures shows { OnOk result (Shows name.now script.now (O.contents out.old) (O.contents out.new)) }
{
    writeln!(out, "== {name}")?;
    let trace = feed(heap, Output::Trace, script)?;
    let xml = feed(heap, Output::Plain, script)?;
    print_page(out, &trace, &xml)
}

fn run(rt: &HostRuntime) -> io::Result<()> {
    let heap = rt.alloc();
    let words = words(rt)?;
    let mut out = BufWriter::new(heap, rt.stdout())?;
    for name in &words {
        let script = fs::read(rt, name)?;
        show(heap, &mut out, name, &script)?;
    }
    out.flush()
}

// The exit status of a run; an error is told.
fn ended(rt: &HostRuntime, ran: io::Result<()>) -> ExitCode
    ensures failure { is_err ran ≡ true → result ≡ ExitCode.FAILURE }
{
    match ran {
        Ok(()) => ExitCode::SUCCESS,
        Err(error) => {
            let _ = eprintln!(rt; "{error}");
            ExitCode::FAILURE
        }
    }
}

fn main(rt: HostRuntime) -> ExitCode {
    let ran = run(&rt);
    ended(&rt, ran)
}
