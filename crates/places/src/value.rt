// The values that a place may take.
ghost use Rattle.std.specs.Prelude.{◌≡◌};
ghost use Rattle.places.specs.Values.{string};

/// The value of a field, or an item of a row or a list. A text, and a variant's name where it may be written as one, brings
/// its own escaping rule; it is no `Unescaped`, since that borrows the rule.
#[derive(Clone, Copy, PartialEq, Eq, Debug, Drop)]
pub enum Value<'a, R> {
    Text(&'a [u8], R),
    /// `none`, the missing value
    Nothing,
    Variant(&'a [u8], R),
    /// a variant around one value, which the next call gives
    Wrapped(&'a [u8]),
    /// values in a row, up to its end
    Row,
    VariantRow(&'a [u8]),
    /// a record of this name, up to its end
    Record(&'a [u8]),
    VariantRecord(&'a [u8]),
}

impl<R> Value<'_, R> {
    /// The bytes that it brings; a kind that brings none has the empty string.
    pub fn string(&self) -> &[u8]
        ensures value { result.now ≡ string self.now }
    {
        match self {
            Value::Text(bytes, _)
            | Value::Variant(bytes, _)
            | Value::Wrapped(bytes)
            | Value::VariantRow(bytes)
            | Value::Record(bytes)
            | Value::VariantRecord(bytes) => bytes,
            Value::Nothing | Value::Row => b"",
        }
    }
}
