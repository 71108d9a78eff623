// The calls on a writer as values, so that a list of them can be run.
use places::Value;

/// A call on a writer.
#[derive(Clone, Copy, PartialEq, Eq, Debug, Drop)]
pub enum Call<'a, R> {
    Open(&'a [u8]),
    Field(&'a [u8]),
    Value(Value<'a, R>),
    End,
    Finish,
    Abandon,
}
