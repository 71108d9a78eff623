// What the library answers to a sheet, in the words in which the crate's answers are kept.
ghost use Rattle.std.specs.Prelude.{◌≡◌, IfOk, IfErr, string_bytes};
ghost use Rattle.script.specs.declared.fault.Fault.TheVariants.{Memory};
ghost use Rattle.compared.specs.Replaying.{first_refused, refusal_told, Tells};

use feed::{Batch, Traced, bytes_line};
use refusal::Refusal;
use runner::run;
use script::Fault;
use std::alloc::{AllocError, Global};
use writer::Answer;

// The first refused call, and whether it is the last call.
fn first_refusal(answers: &[Answer]) -> Option<(Refusal, bool)>
    ensures value { result ≡ first_refused answers.now }
{
    for (at, answer) in answers.iter().enumerate() {
        if let Err(refusal) = answer {
            return Some((*refusal, at + 1 == answers.len()));
        }
    }
    None
}

// Under 3 and 5 the crate answers `Unsupported`. Its answers are to sheets that end with the refused call.
fn told_refusal(heap: Global, refusal: Refusal, last: bool) -> Result<String, AllocError>
    ensures value { IfOk result (λ line. string_bytes line ≡ refusal_told refusal last) }
{
    if last && matches!(refusal.number(), 3 | 5) {
        "unsupported".to_string(heap)
    } else {
        let answer = Traced(Err(refusal));
        format!(in heap; "{answer}")
    }
}

/// The bytes of a sheet that is finished, or the first refusal.
pub fn told(heap: Global, sheet: &Batch) -> Result<String, Fault>
    ensures tells { IfOk result (λ line. Tells sheet.now (string_bytes line)) }
    ensures err { IfErr result (λ fault. fault ≡ Memory) }
{
    let ran = match run(heap, sheet).map_err(|error| error.fault)? {
        Ok(ran) => ran,
        Err(refusal) => return Ok(told_refusal(heap, refusal, false)?),
    };
    match first_refusal(&ran.answers) {
        Some((refusal, last)) => Ok(told_refusal(heap, refusal, last)?),
        None => Ok(bytes_line(heap, &ran.bytes)?),
    }
}
