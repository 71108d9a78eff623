// The calls that lines make.
ghost use Rattle.std.specs.Prelude.{◌≡◌};
ghost use Rattle.script.specs.Order.{role};
ghost use Rattle.script.specs.declared.order.Role.TheVariants.{Calls};

use script::Line;
use writer::{Call, Value};
use xml::QuoteLevel;

/// A line that makes a call, with its number and the escaping rule that held there.
#[derive(PartialEq, Eq, Debug, Drop)]
pub struct CallLine {
    pub number: usize,
    pub line: Line,
    pub level: QuoteLevel,
    ghost calls: { role line ≡ Calls },
}

impl CallLine {
    ghost use Rattle.feed.specs.Making.{Makes};

    /// The call that it makes.
    pub fn call(&self) -> Call<'_, QuoteLevel>
        ensures makes { Makes result self.now.level self.now.line }
    {
        let level = self.level;
        match &self.line {
            Line::Open(name) => Call::Open(name),
            Line::Field(key) => Call::Field(key),
            Line::Text(string) => Call::Value(Value::Text(string, level)),
            Line::Nothing => Call::Value(Value::Nothing),
            Line::Variant(name) => Call::Value(Value::Variant(name, level)),
            Line::Wrapped(name) => Call::Value(Value::Wrapped(name)),
            Line::Row => Call::Value(Value::Row),
            Line::VariantRow(name) => Call::Value(Value::VariantRow(name)),
            Line::Record(name) => Call::Value(Value::Record(name)),
            Line::VariantRecord(name) => Call::Value(Value::VariantRecord(name)),
            Line::End => Call::End,
            Line::Finish => Call::Finish,
            Line::Abandon => Call::Abandon,
            // No call is made by these, and none of them is here.
            Line::Blank
            | Line::New
            | Line::Style(_)
            | Line::Memory(_)
            | Line::Sink(_)
            | Line::Level(_) => unreachable!(),
        }
    }
}
