//! Fields of bytes: parts, numbers, and bytes behind their length.
#![tactic(auto, using(crate::proofs::ReadingLemmas::field_steps))]

ghost use Rattle.std.specs.Prelude.{◌≡◌, ◌+◌, nat_le, IfOk, length};
ghost use Rattle.std.specs.Int.{w8, w16, w32, w64};
ghost use Rattle.seg_bytes.specs.Answers.{Reads};
ghost use Rattle.seg_bytes.specs.Fields.{number_at, part_at as part_is, text_at};

use crate::error::ReadError;
use crate::field::Field;

fn lies_within(bytes: &[u8], at: usize, count: usize) -> bool
    ensures { result ≡ nat_le (at + count) (length bytes.now) }
{
    at <= bytes.len() && count <= bytes.len() - at
}

/// So many bytes from an offset on, of the field that begins at `start`.
#[tactic(auto, unfolding(crate::specs::Fields::part_at))]
fn part_at(bytes: &[u8], start: usize, count: usize, at: usize) -> Result<Field<&[u8]>, ReadError>
    ensures value { Reads (λ part. part.now) (part_is start count bytes.now at) result }
    ensures count { IfOk result (λ field. length field.value.now ≡ count) }
{
    if !lies_within(bytes, at, count) {
        return Err(ReadError::bad(start));
    }
    let end = at + count;
    Ok(Field {
        value: &bytes[at..end],
        end,
    })
}

/// A number of one byte.
pub(crate) fn u8_at(bytes: &[u8], at: usize) -> Result<Field<u8>, ReadError>
    ensures { Reads (λ n. n) (number_at w8 bytes.now at) result }
{
    let part = part_at(bytes, at, 1, at)?;
    Ok(Field {
        value: part.value[0],
        end: part.end,
    })
}

fn u16_at(bytes: &[u8], at: usize) -> Result<Field<u16>, ReadError>
    ensures { Reads (λ n. n) (number_at w16 bytes.now at) result }
{
    let Field { value, end } = part_at(bytes, at, 2, at)?;
    Ok(Field {
        value: u16::from_be_bytes([value[0], value[1]]),
        end,
    })
}

/// A number of four bytes, the greatest first.
pub(crate) fn u32_at(bytes: &[u8], at: usize) -> Result<Field<u32>, ReadError>
    ensures { Reads (λ n. n) (number_at w32 bytes.now at) result }
{
    let Field { value, end } = part_at(bytes, at, 4, at)?;
    Ok(Field {
        value: u32::from_be_bytes([value[0], value[1], value[2], value[3]]),
        end,
    })
}

/// A number of eight bytes, the greatest first.
pub(crate) fn u64_at(bytes: &[u8], at: usize) -> Result<Field<u64>, ReadError>
    ensures { Reads (λ n. n) (number_at w64 bytes.now at) result }
{
    let Field { value, end } = part_at(bytes, at, 8, at)?;
    let number = [
        value[0], value[1], value[2], value[3], value[4], value[5], value[6], value[7],
    ];
    Ok(Field {
        value: u64::from_be_bytes(number),
        end,
    })
}

/// Bytes behind their length, which takes one byte.
pub(crate) fn short_at(bytes: &[u8], at: usize) -> Result<Field<&[u8]>, ReadError>
    ensures { Reads (λ text. text.now) (text_at w8 bytes.now at) result }
{
    let length = u8_at(bytes, at)?;
    part_at(bytes, at, length.value as usize, length.end)
}

/// Bytes behind their length, which takes two bytes.
pub(crate) fn long_at(bytes: &[u8], at: usize) -> Result<Field<&[u8]>, ReadError>
    ensures { Reads (λ text. text.now) (text_at w16 bytes.now at) result }
{
    let length = u16_at(bytes, at)?;
    part_at(bytes, at, length.value as usize, length.end)
}
