// Well-formed bytes: RFC 3629 UTF-8 and nothing else.
ghost use Rattle.std.specs.Prelude.{◌≡◌, ℕ, IsUtf8, MatchResult};
ghost use Rattle.refusal.specs.Refusals.{number, offset};
ghost use Rattle.std.specs.Str.{IsValidUpTo};

use refusal::Refusal;
use std::str::from_utf8;

/// The same bytes as text, or refusal 2 with the length of their longest beginning of whole characters.
pub fn well_formed(bytes: &[u8]) -> Result<&str, Refusal>
    ensures cases { MatchResult result (λ s. (s.now ≡ bytes.now) × IsUtf8 bytes.now) (λ e. (number e ≡ 2) × (IsUtf8 bytes.now → ⊥) × IsValidUpTo bytes.now (offset e)) }
{
    from_utf8(bytes).map_err(|fault| Refusal::Bytes(fault.valid_up_to()))
}
