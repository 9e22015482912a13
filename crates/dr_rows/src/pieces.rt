//! Numbers, as the texts show them.

ghost use Rattle.std.specs.Prelude.{◌≡◌, ◌++◌, ◌+◌, OnOk};
ghost use Rattle.std.specs.Fmt.{decimal};
ghost use Rattle.dr_ids.specs.Spelling.{hex2};
ghost use Rattle.dr_rows.specs.Cells.{write_said};

use dr_ids::{Text, upper_hex};
use itoa::Buffer;
use std::alloc::AllocError;

/// Adds a number in decimal digits.
pub fn push_number(text: &mut Text, n: usize) -> Result<(), AllocError>
    ensures { OnOk result (text.new ≡ text.old ++ decimal n) }
{
    let mut buffer = Buffer::new();
    text.append(buffer.format(n).as_bytes())
}

/// Adds a sum in decimal digits.
pub fn push_total(text: &mut Text, n: u128) -> Result<(), AllocError>
    ensures { OnOk result (text.new ≡ text.old ++ decimal n) }
{
    let mut buffer = Buffer::new();
    text.append(buffer.format(n).as_bytes())
}

/// Adds the sum of two numbers.
pub(crate) fn push_sum(text: &mut Text, a: usize, b: usize) -> Result<(), AllocError>
    ensures { OnOk result (text.new ≡ text.old ++ decimal (a + b)) }
{
    push_total(text, a as u128 + b as u128)
}

/// Adds a place as a number that is counted from 1.
pub(crate) fn push_counted(text: &mut Text, place: usize) -> Result<(), AllocError>
    ensures { OnOk result (text.new ≡ text.old ++ decimal (place + 1)) }
{
    push_sum(text, place, 1)
}

/// Adds a byte in two hexadecimal digits.
pub(crate) fn push_hex(text: &mut Text, byte: u8) -> Result<(), AllocError>
    ensures { OnOk result (text.new ≡ text.old ++ hex2 byte) }
{
    text.append(&[upper_hex(byte / 16), upper_hex(byte % 16)])
}

/// Adds a write by its number.
pub(crate) fn push_write(text: &mut Text, w: u32) -> Result<(), AllocError>
    ensures { OnOk result (text.new ≡ text.old ++ write_said w) }
{
    text.append(b"w")?;
    push_number(text, w as usize)
}
