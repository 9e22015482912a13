//! The words of answers and listings, by their numbers. Another number has no word, but where one says so.

ghost use Rattle.std.specs.Prelude.{◌≡◌, ◌≤◌, length};
ghost use Rattle.dr_model.specs.Text as words;

/// What a name was to name.
pub(crate) fn kind_word(kind: u32) -> &'static [u8]
    ensures word { result.now ≡ words.kind_word kind }
    ensures short { length result.now ≤ 24 }
{
    match kind {
        0 => b"server",
        1 => b"volume",
        2 => b"lss",
        3 => b"path",
        4 => b"write",
        5 => b"session",
        6 => b"track",
        7 => b"master",
        8 => b"message",
        _ => b"",
    }
}

/// What was at its limit.
pub(crate) fn limit_word(limit: u32) -> &'static [u8]
    ensures word { result.now ≡ words.limit_word limit }
    ensures short { length result.now ≤ 24 }
{
    match limit {
        0 => b"servers",
        1 => b"volumes",
        2 => b"tracks",
        3 => b"sessions",
        4 => b"pending",
        5 => b"targets",
        6 => b"groups",
        7 => b"size",
        8 => b"server",
        9 => b"messages",
        _ => b"",
    }
}

/// The phase of a session's master; `none` where it has no master.
pub(crate) fn phase_word(phase: u32) -> &'static [u8]
    ensures word { result.now ≡ words.phase_word phase }
    ensures short { length result.now ≤ 24 }
{
    match phase {
        0 => b"none",
        1 => b"Idle",
        2 => b"Coordinating",
        3 => b"Releasing",
        4 => b"Draining",
        5 => b"Flashing",
        6 => b"Committing",
        7 => b"Reverting",
        8 => b"Finishing",
        9 => b"Lost",
        _ => b"",
    }
}

/// The state of a volume's pair.
pub(crate) fn pair_words(state: u32) -> &'static [u8]
    ensures word { result.now ≡ words.pair_words state }
    ensures short { length result.now ≤ 24 }
{
    match state {
        0 => b"Copy Pending",
        1 => b"Full Duplex",
        2 => b"Suspended",
        3 => b"Target Copy Pending",
        4 => b"Target Full Duplex",
        5 => b"Target Suspended",
        6 => b"none",
        _ => b"",
    }
}

/// The kind of a pair.
pub(crate) fn type_words(kind: u32) -> &'static [u8]
    ensures word { result.now ≡ words.type_words kind }
    ensures short { length result.now ≤ 24 }
{
    match kind {
        1 => b"Metro Mirror",
        2 => b"Global Copy",
        _ => b"",
    }
}

/// The state of a FlashCopy relationship that a listing shows; a number past the others has the last word.
pub(crate) fn flash_word(state: u32) -> &'static [u8]
    ensures word { result.now ≡ words.flash_word state }
    ensures short { length result.now ≤ 24 }
{
    match state {
        0 => b"Revertible",
        1 => b"Reversing",
        _ => b"Established",
    }
}

/// The state of a volume's FlashCopy relationships.
pub(crate) fn relation_word(state: u32) -> &'static [u8]
    ensures word { result.now ≡ words.relation_word state }
    ensures short { length result.now ≤ 24 }
{
    match state {
        0 => b"revertible",
        1 => b"reversing",
        2 => b"target",
        3 => b"source",
        4 => b"none",
        _ => b"",
    }
}

/// The words that a refusal begins with, by its code.
pub(crate) fn refusal_words(code: u8) -> &'static [u8]
    ensures word { result.now ≡ words.refusal_words code }
    ensures short { length result.now ≤ 18 }
{
    match code {
        1 => b"E01 syntax",
        2 => b"E02 unknown",
        3 => b"E03 duplicate",
        4 => b"E04 limit",
        5 => b"E05 server off",
        6 => b"E06 link down",
        7 => b"E07 void",
        8 => b"E08 not primary",
        9 => b"E09 inhibited",
        10 => b"E10 pair state",
        11 => b"E11 relation state",
        12 => b"E12 in session",
        13 => b"E13 not in session",
        14 => b"E14 in formation",
        15 => b"E15 out of order",
        16 => b"E16 unsealed",
        17 => b"E17 stale",
        18 => b"E18 decision",
        19 => b"E19 not identical",
        20 => b"E20 numbers spent",
        21 => b"E21 stopped",
        22 => b"E22 no group",
        23 => b"E23 journal full",
        24 => b"E24 not built",
        25 => b"E25 old message",
        26 => b"E26 held",
        _ => b"",
    }
}
