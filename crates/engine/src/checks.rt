// The checks of the bytes that a call brings.
ghost use Rattle.std.specs.Prelude.{◌≡◌, IfOk};
ghost use Rattle.model.specs.Calls.{is_text_name, is_value_name};
ghost use Rattle.engine.specs.Checks.{CheckedBytes, CheckedName};

use refusal::Refusal;
use xml::{XmlName, well_formed};

/// The text that the bytes are, if they are well-formed UTF-8. Beside `well_formed`, since its contract is in the model's words,
/// which every caller cites.
pub fn check_bytes(bytes: &[u8]) -> Result<&str, Refusal>
    ensures same { IfOk result (λ text. text.now ≡ bytes.now) }
    ensures checked { CheckedBytes result bytes.now }
{
    well_formed(bytes)
}

/// The name that this text is, if it is one; in the model's words, as above.
pub fn check_name(text: &str) -> Result<XmlName<'_>, Refusal>
    ensures same { IfOk result (λ name. name.name.now ≡ text.now) }
    ensures checked { CheckedName result text.now }
{
    XmlName::try_from(text)
}

// Two questions and no table of the names: what they share is `==`, and each is asked by itself.
/// Whether this is the name `$text`, which stands for text.
pub fn is_text_name(name: &[u8]) -> bool
    ensures value { result ≡ is_text_name name.now }
{
    name == b"$text".as_slice()
}

/// Whether this is the key `$value`, which stands for a value among the children.
pub fn is_value_name(name: &[u8]) -> bool
    ensures value { result ≡ is_value_name name.now }
{
    name == b"$value".as_slice()
}
