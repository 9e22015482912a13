//! JSON: strings, fields, arrays and objects.

ghost use Rattle.std.specs.Prelude.{◌≡◌, ◌++◌, drop, OnOk};
ghost use Rattle.std.specs.Fmt.{decimal};
ghost use Rattle.std.specs.List.{flat_map};
ghost use Rattle.dr_rows.specs.Json.{array, field, item, named, number_or_null, object, string, string_byte, text_or_null, truth};

use crate::pieces::{push_hex, push_total};
use dr_ids::Text;
use std::alloc::AllocError;

/// Adds a byte of a string: quote, backslash and control bytes are escaped, and each byte that is no ASCII is U+FFFD.
fn push_string_byte(text: &mut Text, byte: u8) -> Result<(), AllocError>
    ensures { OnOk result (text.new ≡ text.old ++ string_byte byte) }
{
    match byte {
        b'"' | b'\\' => text.append(&[b'\\', byte]),
        0..32 => {
            text.append(b"\\u00")?;
            push_hex(text, byte)
        }
        128.. => text.append(b"\\ufffd"),
        _ => text.append(&[byte]),
    }
}

/// Adds the bytes of a string.
fn push_string_bytes(text: &mut Text, said: &[u8]) -> Result<(), AllocError>
    ensures { OnOk result (text.new ≡ text.old ++ flat_map string_byte said.now) }
{
    for byte in said {
        push_string_byte(text, *byte)?;
    }
    Ok(())
}

/// Adds a string.
#[tactic(auto, unfolding(crate::specs::Json::string))]
fn push_string(text: &mut Text, said: &[u8]) -> Result<(), AllocError>
    ensures { OnOk result (text.new ≡ text.old ++ string said.now) }
{
    text.append(b"\"")?;
    push_string_bytes(text, said)?;
    text.append(b"\"")
}

/// Adds a string, or null for a dash.
#[tactic(auto, unfolding(crate::specs::Json::text_or_null))]
fn push_text_or_null(text: &mut Text, cell: &[u8]) -> Result<(), AllocError>
    ensures { OnOk result (text.new ≡ text.old ++ text_or_null cell.now) }
{
    if cell == b"-".as_slice() {
        return text.append(b"null");
    }
    push_string(text, cell)
}

/// Adds the digits of a number, or null for a dash.
#[tactic(auto, unfolding(crate::specs::Json::number_or_null))]
fn push_number_or_null(text: &mut Text, cell: &[u8]) -> Result<(), AllocError>
    ensures { OnOk result (text.new ≡ text.old ++ number_or_null cell.now) }
{
    if cell == b"-".as_slice() {
        return text.append(b"null");
    }
    text.append(cell)
}

/// A truth value.
#[tactic(auto, unfolding(crate::specs::Json::truth))]
pub(crate) fn truth(is: bool) -> &'static [u8]
    ensures { result.now ≡ truth is }
{
    if is { b"true" } else { b"false" }
}

/// Items or fields without the comma before the first one.
fn without_comma(said: &[u8]) -> &[u8]
    ensures { result.now ≡ drop 1 said.now }
{
    match said {
        [] => said,
        [_, rest @ ..] => rest,
    }
}

/// Adds an array of these items, each of which begins with a comma.
#[tactic(auto, unfolding(crate::specs::Json::array))]
fn push_array(text: &mut Text, items: &[u8]) -> Result<(), AllocError>
    ensures { OnOk result (text.new ≡ text.old ++ array items.now) }
{
    text.append(b"[")?;
    text.append(without_comma(items))?;
    text.append(b"]")
}

/// Adds an object of these fields, each of which begins with a comma.
#[tactic(auto, unfolding(crate::specs::Json::object))]
pub(crate) fn push_object(text: &mut Text, fields: &[u8]) -> Result<(), AllocError>
    ensures { OnOk result (text.new ≡ text.old ++ object fields.now) }
{
    text.append(b"{")?;
    text.append(without_comma(fields))?;
    text.append(b"}")
}

/// Adds an item that is a string.
pub(crate) fn push_string_item(items: &mut Text, said: &[u8]) -> Result<(), AllocError>
    ensures { OnOk result (items.new ≡ items.old ++ item (string said.now)) }
{
    items.append(b",")?;
    push_string(items, said)
}

/// Adds an item that is an array.
pub(crate) fn push_array_item(items: &mut Text, of: &[u8]) -> Result<(), AllocError>
    ensures { OnOk result (items.new ≡ items.old ++ item (array of.now)) }
{
    items.append(b",")?;
    push_array(items, of)
}

/// Adds an item that is an object.
pub(crate) fn push_object_item(items: &mut Text, fields: &[u8]) -> Result<(), AllocError>
    ensures { OnOk result (items.new ≡ items.old ++ item (object fields.now)) }
{
    items.append(b",")?;
    push_object(items, fields)
}

/// Adds the name of a field, after a comma.
#[tactic(auto, unfolding(crate::specs::Json::named))]
fn push_named(fields: &mut Text, name: &[u8]) -> Result<(), AllocError>
    ensures { OnOk result (fields.new ≡ fields.old ++ named name.now) }
{
    fields.append(b",\"")?;
    fields.append(name)?;
    fields.append(b"\":")
}

/// Adds a field with the text of its value.
pub(crate) fn push_field(fields: &mut Text, name: &[u8], value: &[u8]) -> Result<(), AllocError>
    ensures { OnOk result (fields.new ≡ fields.old ++ field name.now value.now) }
{
    push_named(fields, name)?;
    fields.append(value)
}

/// Adds a field that is a number.
pub(crate) fn push_number_field(fields: &mut Text, name: &[u8], n: u128) -> Result<(), AllocError>
    ensures { OnOk result (fields.new ≡ fields.old ++ field name.now (decimal n)) }
{
    push_named(fields, name)?;
    push_total(fields, n)
}

/// Adds a field that is a string.
pub(crate) fn push_string_field(
    fields: &mut Text,
    name: &[u8],
    said: &[u8],
) -> Result<(), AllocError>
    ensures { OnOk result (fields.new ≡ fields.old ++ field name.now (string said.now)) }
{
    push_named(fields, name)?;
    push_string(fields, said)
}

/// Adds a field that is a string, or null for a dash.
pub(crate) fn push_text_field(fields: &mut Text, name: &[u8], cell: &[u8]) -> Result<(), AllocError>
    ensures { OnOk result (fields.new ≡ fields.old ++ field name.now (text_or_null cell.now)) }
{
    push_named(fields, name)?;
    push_text_or_null(fields, cell)
}

/// Adds a field that is a number, or null for a dash.
pub(crate) fn push_digits_field(
    fields: &mut Text,
    name: &[u8],
    cell: &[u8],
) -> Result<(), AllocError>
    ensures { OnOk result (fields.new ≡ fields.old ++ field name.now (number_or_null cell.now)) }
{
    push_named(fields, name)?;
    push_number_or_null(fields, cell)
}

/// Adds a field that is an object of these fields.
pub(crate) fn push_object_field(fields: &mut Text, name: &[u8], of: &[u8]) -> Result<(), AllocError>
    ensures { OnOk result (fields.new ≡ fields.old ++ field name.now (object of.now)) }
{
    push_named(fields, name)?;
    push_object(fields, of)
}

/// Adds a field that is an array of these items.
pub(crate) fn push_array_field(
    fields: &mut Text,
    name: &[u8],
    items: &[u8],
) -> Result<(), AllocError>
    ensures { OnOk result (fields.new ≡ fields.old ++ field name.now (array items.now)) }
{
    push_named(fields, name)?;
    push_array(fields, items)
}
