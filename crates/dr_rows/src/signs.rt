//! The character of each place.

ghost use Rattle.std.specs.Prelude.{◌≡◌, map, IfOk};
ghost use Rattle.std.specs.List.{list_any};
ghost use Rattle.dr_rows.specs.Findings.{has_no_group};
ghost use Rattle.dr_rows.specs.Outcome.{lacks_members};
ghost use Rattle.dr_rows.specs.Strip.{loss_character, character, point_of, sign_of, signs};

use crate::findings::has_no_group;
use crate::places::{any_broken, decides, most_lost, places};
use crate::row::Row;
use dr_plan::Point;
use std::alloc::{AllocError, Global};

/// A place with its character, and the most writes that are lost there.
#[derive(Clone, Copy)]
pub(crate) struct Sign {
    pub(crate) point: Point,
    pub(crate) shown: u8,
    pub(crate) lost: usize,
}

/// No group came back at some point, though it was asked for.
fn any_lacks(asks: bool, rows: &[Row]) -> bool
    ensures { result ≡ list_any (has_no_group asks) rows.now }
{
    rows.iter().any(|row| has_no_group(asks, row))
}

/// Fewer members count than the session has, at some point.
fn any_short(rows: &[Row]) -> bool
    ensures { result ≡ list_any lacks_members rows.now }
{
    rows.iter().any(|row| row.lacks_members())
}

/// The character of members and losses, for a use.
fn loss_character(which: usize, rows: &[Row]) -> u8
    ensures { result ≡ loss_character which rows.now }
{
    if any_short(rows) {
        b'm'
    } else if most_lost(which, rows) == 0 {
        b'.'
    } else {
        b'o'
    }
}

/// The character of a place, for a use.
fn character(alloc: Global, asks: bool, which: usize, rows: &[Row]) -> Result<u8, AllocError>
    ensures { IfOk result (λ shown. shown ≡ character asks which rows.now) }
{
    if any_broken(which, rows) {
        Ok(b'!')
    } else if decides(alloc, asks, which, rows)? {
        Ok(b'*')
    } else if any_lacks(asks, rows) {
        Ok(b'-')
    } else {
        Ok(loss_character(which, rows))
    }
}

/// The point of the first row.
fn point_of(rows: &[Row]) -> Point
    ensures { result ≡ point_of rows.now }
{
    match rows {
        [] => Point::Gap {
            disaster: 0,
            place: 0,
        },
        [first, ..] => first.point(),
    }
}

/// A place with its character.
fn sign_of(alloc: Global, asks: bool, which: usize, rows: &[Row]) -> Result<Sign, AllocError>
    ensures { IfOk result (λ found. found ≡ sign_of asks which rows.now) }
{
    Ok(Sign {
        point: point_of(rows),
        shown: character(alloc, asks, which, rows)?,
        lost: most_lost(which, rows),
    })
}

/// Places with their characters.
fn signs_of(
    alloc: Global,
    asks: bool,
    which: usize,
    places: &[&[Row]],
) -> Result<Vec<Sign>, AllocError>
    ensures { IfOk result (λ found. found.items ≡ map (sign_of asks which) (map (λ place. place.now) places.now)) }
{
    let mut found = Vec::new(alloc);
    for place in places {
        found.push(sign_of(alloc, asks, which, place)?)?;
    }
    Ok(found)
}

/// All places with their characters, in order, for a use.
pub(crate) fn signs(
    alloc: Global,
    asks: bool,
    which: usize,
    rows: &[Row],
) -> Result<Vec<Sign>, AllocError>
    ensures { IfOk result (λ found. found.items ≡ signs asks which rows.now) }
{
    signs_of(alloc, asks, which, &places(alloc, rows)?)
}
