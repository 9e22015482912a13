//! Why a line can't stand in a plan where it stands.

ghost use Rattle.std.specs.Prelude.{◌≡◌, ◌++◌, OnOk, codes};
ghost use Rattle.std.specs.Fmt.{decimal};
ghost use Rattle.dr_ids.specs.Spelling.{hex4};
ghost use Rattle.dr_plan.specs.Reasons.{may_stand, lack_word, reason_words, reason_rest, reason_text};

use crate::names::name_bytes;
use crate::stages::Stage;
use dr_ids::{Text, upper_hex};
use dr_model::Name;
use std::alloc::{AllocError, Global};

/// A line that a plan wants.
#[derive(Clone, Copy)]
pub enum Lack {
    Lose,
    Use,
    Here,
    Then,
}

/// Why a line is bad.
#[derive(Clone, Copy)]
pub enum Reason {
    /// Its words say nothing, or what they say can't stand after the lines before.
    HereMayStand(Stage),
    /// A disaster names this server twice.
    ServerTwice(Name),
    /// There are as many disasters as there may be.
    ManyDisasters,
    /// A disaster names more servers than there may be.
    ManyServers,
    /// There are as many uses as there may be.
    ManyUses,
    /// No line above defines this server.
    UnknownServer(Name),
    /// Two ranges are of different lengths.
    UnequalRanges,
    /// No line above defines this volume.
    UnknownVolume(u16),
    /// The two volumes of a pair have different numbers of tracks.
    OtherSize(u16, u16),
    /// It is outside the grammar, from this column on, counted from 1.
    Syntax(u16),
    /// The line before announces a refusal, and this one makes no step.
    NoLineFollows,
    /// The text has ended, and this line is missing.
    Missing(Lack),
}

/// The lines of a plan's own that may stand in a stage.
fn may_stand(stage: Stage) -> &'static [u8]
    ensures { result.now ≡ may_stand stage }
{
    match stage {
        Stage::Start => b"lose NAME .., refused",
        Stage::Losing => b"lose NAME .., use [NAME] RANGE for RANGE, refused",
        Stage::Using => b"use [NAME] RANGE for RANGE, at most NUMBER, here, refused",
        Stage::Bounded => b"here, refused",
        Stage::Trying => b"then, refused",
        Stage::Recovering => b"refused",
    }
}

/// The word of a line that is missing.
fn lack_word(lack: Lack) -> &'static [u8]
    ensures { result.now ≡ lack_word lack }
{
    match lack {
        Lack::Lose => b"lose",
        Lack::Use => b"use",
        Lack::Here => b"here",
        Lack::Then => b"then",
    }
}

/// Adds a volume in four upper-case hexadecimal digits.
pub fn push_volume(text: &mut Text, volume: u16) -> Result<(), AllocError>
    ensures { OnOk result (text.new ≡ text.old ++ hex4 volume) }
{
    let high = (volume / 256) as u8;
    let low = (volume % 256) as u8;
    let digits = [
        upper_hex(high / 16),
        upper_hex(high % 16),
        upper_hex(low / 16),
        upper_hex(low % 16),
    ];
    text.append(&digits)
}

/// Adds a column in decimal digits.
fn push_column(alloc: Global, text: &mut Text, column: u16) -> Result<(), AllocError>
    ensures { OnOk result (text.new ≡ text.old ++ decimal column) }
{
    let digits = column.to_string(alloc)?;
    text.append(digits.as_bytes())
}

/// Adds two volumes with a blank between them.
fn push_volumes(text: &mut Text, first: u16, second: u16) -> Result<(), AllocError>
    ensures { OnOk result (text.new ≡ text.old ++ (hex4 first ++ codes " " ++ hex4 second)) }
{
    push_volume(text, first)?;
    text.append(b" ")?;
    push_volume(text, second)
}

/// The words with which the text of a reason begins.
fn reason_words(reason: &Reason) -> &'static [u8]
    ensures { result.now ≡ reason_words reason.now }
{
    match reason {
        Reason::HereMayStand(_) => b"here may stand: ",
        Reason::ServerTwice(_) => b"server twice: ",
        Reason::ManyDisasters => b"more than 8 disasters",
        Reason::ManyServers => b"more than 8 servers",
        Reason::ManyUses => b"more than 8 uses",
        Reason::UnknownServer(_) => b"unknown server ",
        Reason::UnequalRanges => b"ranges of unequal length",
        Reason::UnknownVolume(_) => b"unknown volume ",
        Reason::OtherSize(_, _) => b"other size: ",
        Reason::Syntax(_) => b"syntax ",
        Reason::NoLineFollows => b"refused, but no line follows",
        Reason::Missing(_) => b"missing: ",
    }
}

/// Adds what comes after these words.
fn push_rest(alloc: Global, text: &mut Text, reason: &Reason) -> Result<(), AllocError>
    ensures { OnOk result (text.new ≡ text.old ++ reason_rest reason.now) }
{
    match reason {
        Reason::HereMayStand(stage) => text.append(may_stand(*stage)),
        Reason::ServerTwice(name) => text.append(name_bytes(name)),
        Reason::UnknownServer(name) => text.append(name_bytes(name)),
        Reason::UnknownVolume(volume) => push_volume(text, *volume),
        Reason::OtherSize(first, second) => push_volumes(text, *first, *second),
        Reason::Syntax(column) => push_column(alloc, text, *column),
        Reason::Missing(lack) => text.append(lack_word(*lack)),
        Reason::ManyDisasters => Ok(()),
        Reason::ManyServers => Ok(()),
        Reason::ManyUses => Ok(()),
        Reason::UnequalRanges => Ok(()),
        Reason::NoLineFollows => Ok(()),
    }
}

/// Adds the text of a reason. Fails where there is no memory.
pub fn push_reason(alloc: Global, text: &mut Text, reason: &Reason) -> Result<(), AllocError>
    ensures { OnOk result (text.new ≡ text.old ++ reason_text reason.now) }
{
    text.append(reason_words(reason))?;
    push_rest(alloc, text, reason)
}
