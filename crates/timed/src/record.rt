// A record as steps over a text, and as the calls that they make.
ghost use Rattle.std.specs.Prelude.{◌≡◌, ◌⊎◌, ◌++◌, [], ◌∷◌, map, MatchOption, IfSome};
ghost use Rattle.model.specs.Calls.{call_finish};
ghost use Rattle.timed.specs.Steps.{Lies, brought, call_of_step, calls_of_steps, call_of_part, calls_of};

use std::alloc::Global;
use writer::Value;
use xml::QuoteLevel;

/// One step of a record: its kind, and where the bytes that it brings stand in a text.
#[repr(C)]
#[derive(Clone, Copy)]
pub struct Step {
    pub kind: u32,
    pub from: u32,
    pub end: u32,
}

/// What stands in a record, behind its name.
#[derive(Clone, Copy, Drop)]
pub enum Part<'t> {
    Field(&'t [u8]),
    Value(Value<'t, QuoteLevel>),
    End,
}

/// A whole record.
#[derive(Drop)]
pub struct Record<'t> {
    pub name: &'t [u8],
    pub parts: Vec<Part<'t>>,
}

impl Step {
    // The bytes that it brings; none where they lie past the text.
    fn bytes<'t>(self, text: &'t [u8]) -> Option<&'t [u8]>
        ensures bytes { MatchOption result (¬ (Lies text.now self)) (λ bytes. Lies text.now self × (bytes.now ≡ brought text.now self)) }
    {
        text.get(self.from as usize..self.end as usize)
    }

    // The part that it is; none where it opens a record, or its bytes lie past the text.
    fn part<'t>(self, text: &'t [u8]) -> Option<Part<'t>>
        ensures part { MatchOption result ((self.kind ≡ 0) ⊎ (¬ (Lies text.now self))) (λ part. call_of_part part ≡ call_of_step text.now self) }
    {
        let bytes = self.bytes(text)?;
        match self.kind {
            0 => None,
            1 => Some(Part::Field(bytes)),
            2 => Some(Part::Value(Value::Text(bytes, QuoteLevel::Partial))),
            3 => Some(Part::Value(Value::Record(bytes))),
            _ => Some(Part::End),
        }
    }
}

// The parts that these steps are.
fn parts_of<'t>(heap: Global, steps: &[Step], text: &'t [u8]) -> Option<Vec<Part<'t>>>
    ensures calls { IfSome result (λ parts. map call_of_part parts.items ≡ map (call_of_step text.now) steps.now) }
{
    let mut parts = Vec::new(heap);
    for step in steps {
        parts.push(step.part(text)?).ok()?;
    }
    Some(parts)
}

impl<'t> Record<'t> {
    /// The record of these steps; none where they are not of that form, or there is no memory for it.
    pub fn of(heap: Global, steps: &[Step], text: &'t [u8]) -> Option<Record<'t>>
        ensures calls { IfSome result (λ sheet. calls_of sheet ≡ calls_of_steps text.now steps.now) }
    {
        let [first, rest @ ..] = steps else {
            return None;
        };
        if first.kind != 0 {
            return None;
        }
        let name = first.bytes(text)?;
        let parts = parts_of(heap, rest, text)?;
        Some(Record { name, parts })
    }
}
