// Lower-case hexadecimal: two digits a byte, the higher first.
ghost use Rattle.std.specs.Prelude.{◌≡◌};
ghost use Rattle.unit_lines.specs.Answers.{Reads};
ghost use Rattle.unit_lines.specs.Hexadecimal.{digit_of, byte_of, hex_bytes};

use crate::error::LineError;

// Not by `to_digit`, which takes capitals too.
fn digit_of(character: u8) -> Option<u8>
    ensures { result ≡ digit_of character }
{
    match character {
        b'0'..=b'9' => Some(character - b'0'),
        b'a'..=b'f' => Some(character - b'a' + 10),
        _ => None,
    }
}

// The byte that two digits stand for.
fn byte_of(pair: &[u8]) -> Option<u8>
    ensures { result ≡ byte_of pair.now }
{
    let [high, low] = pair else { return None };
    let high = digit_of(*high)?;
    let low = digit_of(*low)?;
    Some(16 * high + low)
}

// Puts the bytes of a text into `into`, in place of what it holds.
#[tactic(auto, using(crate::proofs::Pairs::first_pair, crate::proofs::Pairs::after_push))]
pub(crate) fn decode(text: &[u8], into: &mut Vec<u8>) -> Result<(), LineError>
    ensures { Reads result (hex_bytes text.now) (λ _. into.new.items) }
{
    into.clear();
    for pair in text.chunks(2) {
        let byte = byte_of(pair).ok_or(LineError::Unreadable)?;
        into.push(byte)?;
    }
    Ok(())
}
