// The values of a tile layer as an array of numbers, straight into a text.
ghost use Rattle.std.specs.Prelude.{◌≡◌, ◌+◌, ◌*◌, ◌<◌, ◌≤◌, OnOk, length, drop};
ghost use Rattle.map_model.specs.Lists.{Each};
ghost use Rattle.map_model.specs.WellFormed.{IsTileValue};
ghost use Rattle.map_values.specs.Texts.{Appends, numbers_text};
ghost use Rattle.map_values.specs.Arrays.{array_by, whole_tree};

use itoa::{Buffer, write_digits};
use std::alloc::AllocError;
use tile_id::Gid;

// The most bytes of a number: a comma and ten digits.
const NUMBER_ROOM: usize = 11;

// How many numbers are written at once.
const AT_ONCE: usize = 256;

// Writes numbers, each behind a comma, so that they end where the buffer does. Gives where they start.
fn write_numbers(numbers: &[Gid], buffer: &mut [u8]) -> usize
    requires room { NUMBER_ROOM * length numbers.now ≤ length buffer.old }
    requires values { Each IsTileValue numbers.now }
    ensures text { drop result buffer.new ≡ numbers_text numbers.now }
    ensures start { result + length numbers.now ≤ length buffer.new }
{
    let mut start = buffer.len();
    let mut left = numbers.len();
    while left > 0 {
        left -= 1;
        let number = numbers[left];
        start = write_digits(u64::from(number.0), buffer, start) - 1;
        buffer[start] = b',';
    }
    start
}

/// About the bytes that an array of these numbers takes: as if each were as long as the greatest.
pub fn room_for(numbers: &[Gid]) -> usize {
    let mut greatest = 0;
    for number in numbers {
        greatest = number.0.max(greatest);
    }
    let mut buffer = Buffer::new();
    numbers
        .len()
        .saturating_mul(1 + buffer.format(greatest).len())
}

/// Puts the array of numbers that the values of a tile layer are.
pub fn push_numbers(text: &mut Vec<u8>, numbers: &[Gid]) -> Result<(), AllocError>
    requires { Each IsTileValue numbers.now }
    ensures { OnOk result (Appends (array_by whole_tree numbers.now) text.old.items text.new.items) }
{
    let mut buffer = [0; NUMBER_ROOM * AT_ONCE];
    text.push(b'[')?;
    let mut later = false;
    let mut rest = numbers;
    while !rest.is_empty() {
        let (some, behind) = rest.split_at(rest.len().min(AT_ONCE));
        let start = write_numbers(some, &mut buffer);
        // There is no comma in front of the first number of all.
        let from = if later { start } else { start + 1 };
        text.extend_from_slice(&buffer[from..])?;
        later = true;
        rest = behind;
    }
    text.push(b']')?;
    Ok(())
}
