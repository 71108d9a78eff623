// Decimal numbers in arguments.
ghost use Rattle.std.specs.Prelude.{◌≡◌};
ghost use Rattle.script.specs.Numbers.{number_of};

use crate::fault::Fault;

/// The number that these digits write, if it is at most `most`.
pub fn number(text: &[u8], most: usize) -> Result<usize, Fault>
    ensures value { result ≡ number_of most text.now }
{
    if text.is_empty() {
        return Err(Fault::BadNumber);
    }
    // Digit by digit, since `parse` would take a sign too; and a loop, which `?` leaves at the first digit at fault.
    let mut value: u128 = 0;
    for c in text {
        let digit = char::from(*c).to_digit(10).ok_or(Fault::BadNumber)?;
        value = value * 10 + u128::from(digit);
        if value > most as u128 {
            return Err(Fault::BadNumber);
        }
    }
    Ok(value as usize)
}
