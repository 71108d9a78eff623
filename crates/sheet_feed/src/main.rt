// Runs sheet scripts: reads one, makes its calls on writers, and prints what the sinks then hold, or a trace.
#![tactic(auto)]

ghost use Rattle.std.specs.Prelude.{◌≡◌, ◌≢◌, [], None, Some, IfOk, MatchResult};
ghost use Rattle.std.specs.Process.{exit_status};
ghost use Rattle.runner.specs.declared.feeding.Output.TheVariants.{Plain};
ghost use Rattle.sheet_feed.specs.Exits.{Exits};
ghost use Rattle.sheet_feed.specs.Ending.{ExitsFed, ExitsShown};
ghost use Rattle.sheet_feed.specs.declared.arguments.Task.TheVariants.{Usage};

mod arguments;
mod buffered;
mod first_task;

use arguments::{Task, task_of};
use runner::{Output, Stop};
use std::io::{BufWriter, Read};
use std::process::ExitCode;
use std::{env, fs, io};

const USAGE: &str = "\
usage: sheet_feed [trace] [FILE]
       sheet_feed help

Runs the sheet script FILE, or the one on standard input, and writes the XML of
its records to standard output and each refused call to standard error. With
`trace`, standard output has a line for each call and what each sink holds.
Without arguments and with nothing on standard input a built-in record is shown.

Exit status: 0 the script was run, 1 it has an error, 2 anything else failed.
";

// The exit status of what fails beside a script with an error.
const FAILED: u8 = 2;

// The words after the program's name.
fn words(rt: &HostRuntime) -> io::Result<Vec<String>> {
    let words = env::args(rt)?.skip(1).collect(rt.alloc())?;
    Ok(words)
}

fn standard_input(rt: &HostRuntime) -> io::Result<Vec<u8>> {
    let mut bytes = Vec::new(rt.alloc());
    rt.stdin().read_to_end(&mut bytes)?;
    Ok(bytes)
}

// The exit status of a run; what stopped it is told last.
fn ended(rt: &HostRuntime, fed: Result<(), Stop>) -> io::Result<ExitCode>
    ensures exits { Exits fed result }
{
    match fed {
        Ok(()) => Ok(ExitCode::SUCCESS),
        Err(Stop::Script(error)) => {
            eprintln!(rt; "{error}")?;
            Ok(ExitCode::FAILURE)
        }
        Err(Stop::Io(error)) => Err(error),
    }
}

fn run_script(rt: &HostRuntime, output: Output, script: &[u8]) -> io::Result<ExitCode>
    ensures exits { IfOk result (ExitsFed output script.now) }
{
    let heap = rt.alloc();
    let out = BufWriter::new(heap, rt.stdout())?;
    let err = BufWriter::new(heap, rt.stderr())?;
    let (fed, _, _) = buffered::feed(heap, output, script, out, err)?;
    ended(rt, fed)
}

// Shows the built-in record.
fn show(rt: &HostRuntime) -> io::Result<ExitCode>
    ensures exits { IfOk result ExitsShown }
{
    let heap = rt.alloc();
    let mut out = BufWriter::new(heap, rt.stdout())?;
    let shown = buffered::show(heap, &mut out)?;
    ended(rt, shown)
}

// The script on standard input; with nothing there, and no trace asked for, the built-in record.
fn run_input(rt: &HostRuntime, output: Output, script: &[u8]) -> io::Result<ExitCode>
    ensures shown { script.now ≡ [] → output ≡ Plain → IfOk result ExitsShown }
    ensures fed { script.now ≢ [] → IfOk result (ExitsFed output script.now) }
    ensures traced { output ≢ Plain → IfOk result (ExitsFed output script.now) }
{
    if script.is_empty() && output == Output::Plain {
        show(rt)
    } else {
        run_script(rt, output, script)
    }
}

// The script of a file that was read, or why it could not be.
fn run_read(
    rt: &HostRuntime,
    output: Output,
    name: &str,
    read: io::Result<Vec<u8>>,
) -> io::Result<ExitCode>
    ensures exits { MatchResult read (λ script. IfOk result (ExitsFed output script.items)) (λ _. IfOk result (λ status. exit_status status ≡ 2)) }
{
    match read {
        Ok(script) => run_script(rt, output, &script),
        Err(error) => {
            eprintln!(rt; "{name}: {error}")?;
            Ok(ExitCode::from(FAILED))
        }
    }
}

fn perform(rt: &HostRuntime, task: Task<'_>) -> io::Result<ExitCode>
    ensures usage { task.entry ≡ Usage → IfOk result (λ status. exit_status status ≡ 0) }
{
    match task {
        Task::Usage => {
            print!(rt; "{USAGE}")?;
            Ok(ExitCode::SUCCESS)
        }
        Task::Input(output) => {
            let script = standard_input(rt)?;
            run_input(rt, output, &script)
        }
        Task::File(output, name) => run_read(rt, output, name, fs::read(rt, name)),
    }
}

// What the arguments ask for, or the usage where they ask for nothing.
fn answer(rt: &HostRuntime, task: Option<Task<'_>>) -> io::Result<ExitCode>
    ensures none { task.entry ≡ None → IfOk result (λ status. exit_status status ≡ 2) }
    ensures usage { task.entry ≡ Some Usage → IfOk result (λ status. exit_status status ≡ 0) }
{
    match task {
        Some(task) => perform(rt, task),
        None => {
            eprint!(rt; "{USAGE}")?;
            Ok(ExitCode::from(FAILED))
        }
    }
}

fn run(rt: &HostRuntime) -> io::Result<ExitCode> {
    let words = words(rt)?;
    answer(rt, task_of(&words))
}

// The exit status in the end; what failed beside a script is told last.
fn status_of(rt: &HostRuntime, ran: io::Result<ExitCode>) -> ExitCode
    ensures status { MatchResult ran (λ status. result ≡ status) (λ _. exit_status result ≡ 2) }
{
    match ran {
        Ok(status) => status,
        Err(error) => {
            let _ = eprintln!(rt; "{error}");
            ExitCode::from(FAILED)
        }
    }
}

fn main(rt: HostRuntime) -> ExitCode {
    status_of(&rt, run(&rt))
}
