//! Marks in the texts of rows, for what is long or can't be seen: `{{65:(}}` is 65 times `(`, and `{{#9}}` is the byte of
//! this number.

use plc_base::OutOfMemory;
use std::alloc::Global;

/// Adds what a mark stands for, and tells whether it is one.
fn add_mark(mark: &str, into: &mut Vec<u8>) -> Result<bool, OutOfMemory> {
    if let Some(digits) = mark.strip_prefix("#") {
        let Ok(byte) = digits.parse::<u8>() else {
            return Ok(false);
        };
        into.push(byte)?;
        return Ok(true);
    }
    let Some((count, part)) = mark.split_once(":") else {
        return Ok(false);
    };
    let Ok(times) = count.parse::<u32>() else {
        return Ok(false);
    };
    for _ in 0..times {
        into.extend_from_slice(part.as_bytes())?;
    }
    Ok(true)
}

/// The bytes that a text of a row stands for, where each of its marks is one.
pub fn unfolded(alloc: Global, text: &str) -> Result<Option<Vec<u8>>, OutOfMemory> {
    let mut bytes = Vec::new(alloc);
    let mut is_first = true;
    for piece in text.split("{{") {
        if is_first {
            is_first = false;
            bytes.extend_from_slice(piece.as_bytes())?;
            continue;
        }
        let Some((mark, rest)) = piece.split_once("}}") else {
            return Ok(None);
        };
        if !add_mark(mark, &mut bytes)? {
            return Ok(None);
        }
        bytes.extend_from_slice(rest.as_bytes())?;
    }
    Ok(Some(bytes))
}
