// The calls on a writer. Each is answered by the first row of the table of refusals that applies, and refused it changes
// nothing; else it is accepted, and the memory holds the model that the call leads to. The place alone decides what is
// allowed, so no call has a precondition. Each leaves the writer the very slices that it was lent, and what it does not use of
// them as it was (`Past`, engine/specs/Lays.antt).
ghost use Rattle.std.specs.Prelude.{◌≡◌, ℕ, Result};
ghost use Rattle.refusal.specs.declared.Refusal.{Refusal};
ghost use Rattle.model.specs.Calls as meant;
ghost use Rattle.model.specs.Calls.{Rule, call_open, call_field, call_value, call_end, call_finish, call_abandon, val_text, val_none, val_variant, val_wrapped, val_row, val_variant_row, val_record, val_variant_record};
ghost use Rattle.xml.specs.Escaping.{level_chooses};
ghost use Rattle.engine.specs.Memory.{mem};
ghost use Rattle.engine.specs.Lays.{Does};
ghost use Rattle.places.specs.Values.{ValueIs};
ghost use Rattle.writer.specs.Served.{Serves, unit_of, refusal_of};
ghost use Rattle.writer.specs.Handed.{Handed};

use crate::sending::send;
use crate::ticket::{Ticket, spend};
use crate::writer::Writer;
use places::{Value, begin, begin_field, end_at, take_value};
use refusal::Refusal;
use sink::Sink;
use xml::{EscapeRule, QuoteLevel};

impl Writer<'_> {
    // A value that brings no rule. Each kind has a call of its own below, as a user names it.
    fn plain(&mut self, value: Value<'_, QuoteLevel>) -> Result<(), Refusal>
        ensures does { (room : ℕ) (v : meant.Value) → ValueIs level_chooses value.entry v → Does (call_value v) room result (mem self.old.core) (mem self.new.core) }
    {
        self.value(&value)
    }

    // Drops the record, wherever it stands.
    pub(crate) fn drop_record(&mut self) -> Result<(), Refusal>
        ensures does { (room : ℕ) → Does call_abandon room result (mem self.old.core) (mem self.new.core) }
    {
        rows::abandon(&mut self.core)
    }

    // Hands the record to the sink.
    pub(crate) fn send_record<S: Sink>(&mut self, sink: &mut S) -> Result<(), Refusal>
        ensures serves { Serves call_finish result (mem self.old.core) (mem self.new.core) (S.held sink.old) (S.room sink.old) (S.held sink.new) (S.room sink.new) }
        ensures handed { Handed S.leaves result (mem self.old.core) sink.old sink.new }
    {
        send(&mut self.core, sink)
    }

    /// Opens a record of this name, the root. Its ticket is owed to `finish` or `abandon`.
    pub fn open(&mut self, name: &[u8]) -> Result<Ticket, Refusal>
        ensures does { (room : ℕ) → Does (call_open name.now) room (unit_of result) (mem self.old.core) (mem self.new.core) }
    {
        begin(&mut self.core, name)?;
        Ok(Ticket::new())
    }

    /// Begins a field: `@KEY` is an attribute, `$text` the text, `$value` a value among the children, and any other key
    /// an element.
    pub fn field(&mut self, key: &[u8]) -> Result<(), Refusal>
        ensures does { (room : ℕ) → Does (call_field key.now) room result (mem self.old.core) (mem self.new.core) }
    {
        begin_field(&mut self.core, key)
    }

    /// Gives a value of any kind.
    pub fn value<R: EscapeRule>(&mut self, value: &Value<'_, R>) -> Result<(), Refusal>
        ensures does { (room : ℕ) (v : meant.Value) → ValueIs R.chooses value.now v → Does (call_value v) room result (mem self.old.core) (mem self.new.core) }
    {
        take_value(&mut self.core, value)
    }

    /// Ends the innermost record, row or list.
    pub fn end(&mut self) -> Result<(), Refusal>
        ensures does { (room : ℕ) → Does call_end room result (mem self.old.core) (mem self.new.core) }
    {
        end_at(&mut self.core)
    }

    /// Hands the complete record to the sink, whole, and leaves the writer idle. A refusal gives the ticket back.
    pub fn finish<S: Sink>(&mut self, ticket: Ticket, sink: &mut S) -> Result<(), (Refusal, Ticket)>
        ensures serves { Serves call_finish (refusal_of result) (mem self.old.core) (mem self.new.core) (S.held sink.old) (S.room sink.old) (S.held sink.new) (S.room sink.new) }
        ensures handed { Handed S.leaves (refusal_of result) (mem self.old.core) sink.old sink.new }
    {
        ticket.spent_on(self.send_record(sink))
    }

    /// Drops the record, wherever it stands, and leaves the writer idle. A refusal gives the ticket back.
    pub fn abandon(&mut self, ticket: Ticket) -> Result<(), (Refusal, Ticket)>
        ensures does { (room : ℕ) → Does call_abandon room (refusal_of result) (mem self.old.core) (mem self.new.core) }
    {
        ticket.spent_on(self.drop_record())
    }

    /// Gives a text, escaped by this rule.
    pub fn text<R: EscapeRule + Drop>(&mut self, text: &[u8], rule: R) -> Result<(), Refusal>
        ensures does { (room : ℕ) (ρ : Rule) → ρ.chooses ≡ R.chooses rule → Does (call_value (val_text ρ text.now)) room result (mem self.old.core) (mem self.new.core) }
    {
        self.value(&Value::Text(text, rule))
    }

    /// Gives the missing value.
    pub fn none(&mut self) -> Result<(), Refusal>
        ensures does { (room : ℕ) → Does (call_value val_none) room result (mem self.old.core) (mem self.new.core) }
    {
        self.plain(Value::Nothing)
    }

    /// Gives a variant without content, by its name; where that is written as a text, it is escaped by this rule.
    pub fn variant<R: EscapeRule + Drop>(&mut self, name: &[u8], rule: R) -> Result<(), Refusal>
        ensures does { (room : ℕ) (ρ : Rule) → ρ.chooses ≡ R.chooses rule → Does (call_value (val_variant ρ name.now)) room result (mem self.old.core) (mem self.new.core) }
    {
        self.value(&Value::Variant(name, rule))
    }

    /// Begins a variant around one value, which comes next.
    pub fn wrapped(&mut self, name: &[u8]) -> Result<(), Refusal>
        ensures does { (room : ℕ) → Does (call_value (val_wrapped name.now)) room result (mem self.old.core) (mem self.new.core) }
    {
        self.plain(Value::Wrapped(name))
    }

    /// Begins a row, up to its end.
    pub fn row(&mut self) -> Result<(), Refusal>
        ensures does { (room : ℕ) → Does (call_value val_row) room result (mem self.old.core) (mem self.new.core) }
    {
        self.plain(Value::Row)
    }

    /// Begins a variant that is a row, up to its end.
    pub fn variant_row(&mut self, name: &[u8]) -> Result<(), Refusal>
        ensures does { (room : ℕ) → Does (call_value (val_variant_row name.now)) room result (mem self.old.core) (mem self.new.core) }
    {
        self.plain(Value::VariantRow(name))
    }

    /// Begins a record of this name, up to its end.
    pub fn record(&mut self, name: &[u8]) -> Result<(), Refusal>
        ensures does { (room : ℕ) → Does (call_value (val_record name.now)) room result (mem self.old.core) (mem self.new.core) }
    {
        self.plain(Value::Record(name))
    }

    /// Begins a variant that is a record, up to its end.
    pub fn variant_record(&mut self, name: &[u8]) -> Result<(), Refusal>
        ensures does { (room : ℕ) → Does (call_value (val_variant_record name.now)) room result (mem self.old.core) (mem self.new.core) }
    {
        self.plain(Value::VariantRecord(name))
    }

    // By `&mut`: by value was tried, and a writer that is passed so gets no proof.
    /// Ends the work with the writer: gives up the record that may be open, with its ticket, and leaves the writer idle.
    pub fn close(&mut self, held: Option<Ticket>)
        ensures does { (room : ℕ) → (r : Result (Unit {0}) Refusal) × Does call_abandon room r (mem self.old.core) (mem self.new.core) }
    {
        let _ = self.drop_record();
        spend(held);
    }
}
