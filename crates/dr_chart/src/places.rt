//! Where things stand.

ghost use Rattle.std.specs.Prelude.{◌≡◌, ◌<◌, ◌≤◌, ◌^◌};
ghost use Rattle.dr_chart.specs.Picture.{spare, width, share, edge, columns_before, border, columns_within, span, column_begin, breadth, rise, height, top};

use crate::columns::Column;
use crate::panels::Frame;

/// What is left of 820 units if each stretch has 15 of them, in hundredths.
fn spare(stretches: usize) -> u32
    ensures { result ≡ spare stretches }
{
    82_000_u128.saturating_sub(1500 * stretches as u128) as u32
}

/// How wide the picture is.
pub(crate) fn width(stretches: usize) -> u128
    ensures is { result ≡ width stretches }
    ensures some { 20 ≤ result }
{
    80 + (1500 * stretches as u128 + u128::from(spare(stretches))) / 100
}

/// The part of what is left that so many columns of all have.
fn share(left: u32, i: usize, count: usize) -> u128
    ensures is { result ≡ share left i count }
    ensures few { result < 2 ^ 96 }
{
    u128::from(left) * i as u128 / count.max(1) as u128
}

/// Where the stretch with that number begins, in hundredths, if so many columns of all stand before it.
fn edge(frame: Frame, count: usize, stretch: u128, i: usize) -> u128
    requires { stretch ≤ 2 ^ 64 }
    ensures is { result ≡ edge frame count stretch i }
    ensures few { result < 2 ^ 97 }
{
    6000 + 1500 * stretch + share(spare(frame.stretches), i, count)
}

/// How many columns stand before a stretch.
fn columns_before(columns: &[Column], stretch: u128) -> usize
    ensures { result ≡ columns_before columns.now stretch }
{
    columns
        .iter()
        .filter(|c| (c.stretch as u128) < stretch)
        .count()
}

/// Where a stretch begins, in hundredths.
pub(crate) fn border(frame: Frame, columns: &[Column], stretch: u128) -> u128
    requires { stretch ≤ 2 ^ 64 }
    ensures is { result ≡ border frame columns.now stretch }
    ensures few { result < 2 ^ 97 }
{
    edge(
        frame,
        columns.len(),
        stretch,
        columns_before(columns, stretch),
    )
}

/// How many columns a stretch has.
fn columns_within(columns: &[Column], stretch: usize) -> usize
    ensures { result ≡ columns_within columns.now stretch }
{
    let stretch = stretch as u128;
    columns_before(columns, stretch + 1).saturating_sub(columns_before(columns, stretch))
}

/// How wide a stretch is, in hundredths; a number past the largest is that one.
fn span(frame: Frame, columns: &[Column], stretch: usize) -> u32
    ensures { result ≡ span frame columns.now stretch }
{
    let begin = border(frame, columns, stretch as u128);
    let end = border(frame, columns, stretch as u128 + 1);
    end.saturating_sub(begin).min(4_294_967_295) as u32
}

/// Where the column with that number begins, in hundredths: the columns of a stretch share it alike.
pub(crate) fn column_begin(frame: Frame, columns: &[Column], i: usize, column: Column) -> u128
    ensures is { result ≡ column_begin frame columns.now i column }
    ensures few { result < 2 ^ 98 }
{
    let stretch = column.stretch;
    let before = i.saturating_sub(columns_before(columns, stretch as u128));
    let within = columns_within(columns, stretch);
    border(frame, columns, stretch as u128) + share(span(frame, columns, stretch), before, within)
}

/// How wide it is, in hundredths; a little of it lies below the next one.
pub(crate) fn breadth(frame: Frame, columns: &[Column], column: Column) -> u128
    ensures { result ≡ breadth frame columns.now column }
{
    let within = columns_within(columns, column.stretch).max(1);
    u128::from(span(frame, columns, column.stretch)) / within as u128 + 40
}

/// How high so many lost writes are, in hundredths.
pub(crate) fn rise(frame: Frame, lost: usize) -> u128
    ensures is { result ≡ rise frame lost }
    ensures few { result < 2 ^ 78 }
{
    16_000 * lost as u128 / frame.most.max(1) as u128
}

/// How much higher a panel begins than the next one.
fn height(frame: Frame) -> u64
    ensures { result ≡ height frame }
{
    330 + u64::from(frame.depth)
}

/// Where the panel with that number begins.
pub(crate) fn top(frame: Frame, place: u128) -> u128
    requires { place < 2 ^ 66 }
    ensures is { result ≡ top frame place }
    ensures few { result < 2 ^ 100 }
{
    40 + u128::from(height(frame)) * place
}
