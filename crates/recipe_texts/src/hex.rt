// Bytes written as hexadecimal text.
ghost use Rattle.std.specs.Prelude.{◌≡◌, IfOk, None, vec_items, MatchBool};
ghost use Rattle.std.specs.Option.{option_map};
ghost use Rattle.recipe_texts.specs.Hex.{nibble, hex_bytes, Waits, Steps, Stops};

use std::alloc::{AllocError, Global};

fn digit(b: u8) -> Option<u8>
    ensures { result ≡ nibble b }
{
    match b {
        b'0'..=b'9' => Some(b - b'0'),
        b'a'..=b'f' => Some(b - b'a' + 10),
        b'A'..=b'F' => Some(b - b'A' + 10),
        _ => None,
    }
}

// Takes one more character of the text, and answers whether what goes on so can be hexadecimal. The kit's hex knows no spaces
// between digits.
fn step(bytes: &mut Vec<u8>, high: &mut Option<u8>, b: u8) -> Result<bool, AllocError>
    requires { Waits high.old }
    ensures { IfOk result (λ read. MatchBool read (Waits high.new × Steps bytes.old.items high.old b bytes.new.items high.new) (Stops high.old b)) }
{
    if b == b' ' {
        return Ok(true);
    }
    let Some(low) = digit(b) else {
        return Ok(false);
    };
    match *high {
        None => *high = Some(low),
        Some(h) => {
            bytes.push(16 * h + low)?;
            *high = None;
        }
    }
    Ok(true)
}

/// The bytes that a text of hexadecimal digits writes, two digits to a byte, where it is one; spaces do not count.
pub(crate) fn parse(heap: Global, text: &str) -> Result<Option<Vec<u8>>, AllocError>
    ensures { IfOk result (λ v. option_map vec_items v ≡ hex_bytes text.now None) }
{
    let text = text.as_bytes();
    let mut bytes = Vec::new(heap);
    let mut high = None;
    for b in text {
        if !step(&mut bytes, &mut high, *b)? {
            return Ok(None);
        }
    }
    match high {
        None => Ok(Some(bytes)),
        Some(_) => Ok(None),
    }
}
