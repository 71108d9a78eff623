// Where the next call goes.

/// What the writer waits for.
#[derive(Clone, Copy, PartialEq, Eq, Debug)]
pub enum Place {
    /// No record is open.
    Idle,
    /// The next field of the innermost record, or its end.
    Field,
    /// A value that becomes an element; holds where the element's name begins on the name stack.
    Element(usize),
    /// A value among the children; holds whether it may be text.
    Content(bool),
    /// The value of a text field.
    Text,
    /// A text that stands for a wrapped value.
    Simple,
    /// The value of an attribute.
    Attribute,
    /// The next item of a list that is a text; holds whether an item was written.
    TextItem(bool),
    /// The next item of a list that is the value of an attribute; holds whether an item was written.
    AttributeItem(bool),
    /// The record is complete, and waits to be finished.
    Complete,
}
