// Cutting bytes in two: a script at its first line feed, a line at its first space.
ghost use Rattle.std.specs.Prelude.{◌≡◌, []};
ghost use Rattle.std.specs.Option.{option_copied, unwrap_or};
ghost use Rattle.script.specs.Cuts.{before, behind, CutAtTheFirst};

/// What stands before the first `at`, and what stands after it if there is one.
pub fn cut(at: u8, text: &[u8]) -> (&[u8], Option<&[u8]>)
    ensures front { result.0.now ≡ before at text.now }
    ensures back { option_copied result.1 ≡ behind at text.now }
{
    // A pair and no `split_once`, since the front is there where nothing is cut.
    match text.iter().position(|byte| *byte == at) {
        Some(i) => (&text[..i], Some(&text[i + 1..])),
        None => (text, None),
    }
}

/// The same, where nothing stands after a text without `at`.
pub fn part(at: u8, text: &[u8]) -> (&[u8], &[u8])
    ensures front { result.0.now ≡ before at text.now }
    ensures rest { result.1.now ≡ unwrap_or (behind at text.now) [] }
{
    let (front, rest) = cut(at, text);
    (front, rest.unwrap_or(b""))
}

/// Bytes are cut at the first `at`: no other parts have none of it in front.
// No code in it, since a contract is what names a theorem.
pub fn law_cut_at_the_first()
    ensures law { CutAtTheFirst }
{}
