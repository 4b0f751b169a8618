// The fields of a line, each a table.
ghost use Rattle.std.specs.Prelude.{◌≡◌, ◌==◌, position};
ghost use Rattle.std.specs.Option.{option_map};
ghost use Rattle.unit_lines.specs.Answers.{Reads};
ghost use Rattle.unit_lines.specs.Fields.{cut, parts, field_bytes, field_then};

use crate::error::LineError;
use crate::hexadecimal::decode;

fn first_space(text: &[u8]) -> Option<usize>
    ensures { result ≡ position (λ c. c == 32) text.now }
{
    text.iter().position(|character| *character == b' ')
}

// What stands before the first space and what stands behind it.
#[tactic(auto, using(crate::proofs::Cuts::cut_by_position, std::proofs::lemmas::List::take_rest))]
fn cut_at_space(text: &[u8]) -> Option<(&[u8], &[u8])>
    ensures { option_map parts result ≡ cut text.now }
{
    let at = first_space(text)?;
    Some((&text[..at], &text[at + 1..]))
}

// Puts the table that a field stands for into `into`. One character is no byte, so that it can only be the
// mark of an empty table.
pub(crate) fn read_field(field: &[u8], into: &mut Vec<u8>) -> Result<(), LineError>
    ensures { Reads result (field_bytes field.now) (λ _. into.new.items) }
{
    match field {
        [b'-'] => {
            into.clear();
            Ok(())
        }
        [] | [_] => Err(LineError::Unreadable),
        _ => decode(field, into),
    }
}

// Puts the table before the first space into `into`, and gives what stands behind it.
pub(crate) fn take_field<'a>(text: &'a [u8], into: &mut Vec<u8>) -> Result<&'a [u8], LineError>
    ensures { Reads result (field_then text.now) (λ rest. (into.new.items, rest.now)) }
{
    let (field, rest) = cut_at_space(text).ok_or(LineError::Unreadable)?;
    read_field(field, into)?;
    Ok(rest)
}
