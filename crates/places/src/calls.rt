// What each call does at each place: one row for each pair of a place and a value that the place takes.
//
// - element place: a text, none or a variant is an element of the name there; a row is a row of such elements; a record is
//   an element with fields
// - content place: a value stands among the children of the open record
// - text place, simple place: a value is text, and a row is a list, which is one text
// - attribute place: the same, as the value of an attribute in the open tag
// - item place: a text or a variant is one item of a list
//
// What a place holds is handed on by the match, where the row reads it. That the memory holds some model (`Sound`) is asked of
// the caller here, and is always true of a `Writer`, which lends its core to these calls.
ghost use Rattle.std.specs.Prelude.{◌≡◌, ℕ};
ghost use Rattle.model.specs.Calls as meant;
ghost use Rattle.model.specs.Calls.{call_open, call_field, call_value, call_end};
ghost use Rattle.engine.specs.Memory.{mem, Safe};
ghost use Rattle.engine.specs.Lays.{Does};
ghost use Rattle.places.specs.Sound.{Sound};
ghost use Rattle.places.specs.Values.{ValueIs, Misfit};

use crate::value::Value;
use attributes::{
    end_attribute_list, none_at_attribute, row_at_attribute, string_at_attribute,
    string_at_attribute_item,
};
use closing::end_record;
use engine::{Core, check_bytes};
use fields::{field, string_as_item};
use model::{Kind, Place};
use nests::{end_row, row_as_list, row_at_content, row_at_element};
use records::{
    record_at_content, record_at_element, variant_at_content, variant_record_at_content,
    variant_row_at_content, wrapped_at_content,
};
use refusal::Refusal;
use rows::{
    none_as_words, none_at_content, none_at_element, open, string_as_words, text_at_content,
    text_at_element, variant_at_element, variant_at_text,
};
use xml::{EscapeRule, Unescaped};

// Beside `begin_field`: each asks for its own place and is a step of its own, and no more than the test is alike.
/// Opens a root record, at the idle place alone.
pub fn begin(core: &mut Core<'_>, name: &[u8]) -> Result<(), Refusal>
    requires { Safe (mem core.old) }
    ensures does { (room : ℕ) → Does (call_open name.now) room result (mem core.old) (mem core.new) }
{
    match core.place {
        Place::Idle => open(core, name),
        _ => Err(Refusal::Order),
    }
}

/// Begins a field, at the field place alone.
pub fn begin_field(core: &mut Core<'_>, key: &[u8]) -> Result<(), Refusal>
    requires safe { Safe (mem core.old) }
    requires sound { Sound (mem core.old) }
    ensures does { (room : ℕ) → Does (call_field key.now) room result (mem core.old) (mem core.new) }
{
    match core.place {
        Place::Field => field(core, key),
        _ => Err(Refusal::Order),
    }
}

/// Ends what is open, where its next field or item has not begun.
pub fn end_at(core: &mut Core<'_>) -> Result<(), Refusal>
    requires safe { Safe (mem core.old) }
    requires sound { Sound (mem core.old) }
    ensures does { (room : ℕ) → Does call_end room result (mem core.old) (mem core.new) }
{
    match core.place {
        Place::Field => end_record(core),
        Place::Element(_) => end_row(core, Kind::Named),
        Place::Content(_) => end_row(core, Kind::Content),
        Place::TextItem(_) => end_row(core, Kind::List),
        Place::AttributeItem(_) => end_attribute_list(core),
        _ => Err(Refusal::Order),
    }
}

// A kind of value that the place does not take; its bytes are checked first.
fn misfit<R>(value: &Value<'_, R>) -> Result<(), Refusal>
    ensures shape { Misfit result value.now }
{
    check_bytes(value.string())?;
    Err(Refusal::Shape)
}

/// Takes a value, as the place says.
pub fn take_value<R: EscapeRule>(core: &mut Core<'_>, value: &Value<'_, R>) -> Result<(), Refusal>
    requires safe { Safe (mem core.old) }
    requires sound { Sound (mem core.old) }
    ensures does { (room : ℕ) (v : meant.Value) → ValueIs R.EscapeRule.chooses value.now v → Does (call_value v) room result (mem core.old) (mem core.new) }
{
    // One match, so that every pair of place and value is in sight.
    match (core.place, value) {
        (Place::Element(from), Value::Text(value, rule)) => {
            text_at_element(core, from, Unescaped { value, rule })
        }
        (Place::Element(from), Value::Nothing) => none_at_element(core, from),
        (Place::Element(from), Value::Variant(value, rule)) => {
            variant_at_element(core, from, Unescaped { value, rule })
        }
        (Place::Element(from), Value::Row) => row_at_element(core, from),
        (Place::Element(from), Value::Record(name)) => record_at_element(core, from, name),

        (Place::Content(texts), Value::Text(value, rule)) => {
            text_at_content(core, texts, Unescaped { value, rule })
        }
        (Place::Content(_), Value::Nothing) => none_at_content(core),
        (Place::Content(_), Value::Variant(name, _)) => variant_at_content(core, name),
        (Place::Content(texts), Value::Wrapped(name)) => wrapped_at_content(core, texts, name),
        (Place::Content(_), Value::Row) => row_at_content(core),
        (Place::Content(texts), Value::VariantRow(name)) => {
            variant_row_at_content(core, texts, name)
        }
        (Place::Content(_), Value::Record(name)) => record_at_content(core, name),
        (Place::Content(_), Value::VariantRecord(name)) => variant_record_at_content(core, name),

        (Place::Text, Value::Variant(value, rule)) => {
            variant_at_text(core, Unescaped { value, rule })
        }
        (Place::Text | Place::Simple, Value::Text(value, rule))
        | (Place::Simple, Value::Variant(value, rule)) => {
            string_as_words(core, Unescaped { value, rule })
        }
        (Place::Text | Place::Simple, Value::Nothing) => none_as_words(core),
        (Place::Text | Place::Simple, Value::Row) => row_as_list(core),

        (Place::Attribute, Value::Text(value, rule) | Value::Variant(value, rule)) => {
            string_at_attribute(core, Unescaped { value, rule })
        }
        (Place::Attribute, Value::Nothing) => none_at_attribute(core),
        (Place::Attribute, Value::Row) => row_at_attribute(core),

        (Place::TextItem(written), Value::Text(value, rule) | Value::Variant(value, rule)) => {
            string_as_item(core, written, Unescaped { value, rule })
        }
        (Place::AttributeItem(written), Value::Text(value, rule) | Value::Variant(value, rule)) => {
            string_at_attribute_item(core, written, Unescaped { value, rule })
        }

        (Place::Element(_), Value::Wrapped(_) | Value::VariantRow(_) | Value::VariantRecord(_)) =>
            misfit(value),
        (
            Place::Text | Place::Simple | Place::Attribute,
            Value::Wrapped(_) | Value::VariantRow(_) | Value::Record(_) | Value::VariantRecord(_),
        ) => misfit(value),
        (Place::TextItem(_) | Place::AttributeItem(_), _) => misfit(value),

        (Place::Idle | Place::Field | Place::Complete, _) => Err(Refusal::Order),
    }
}
