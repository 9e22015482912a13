//! How parts, states, numbers and pairs of sets are written in bytes, and read from them.

ghost use Rattle.std.specs.Prelude.{◌≡◌, ◌<◌, ◌≤◌, ◌+◌, ◌++◌, ◌&&◌, take, drop};
ghost use Rattle.dr_logic.specs.Bytes.{zeros};
ghost use Rattle.dr_bits.specs.Tracks.{bytes_of, of_bytes};
ghost use Rattle.dr_model.specs.Layout as layout;
ghost use Rattle.dr_volume.specs.Codes as codes;

use dr_bits::TrackSet;
use dr_model::{PairState, Part};
use dr_plant::Block;

/// The code of a part.
pub fn code_of_part(part: Part) -> u8
    ensures { result ≡ codes.code_of_part part }
{
    match part {
        Part::Absent => 0,
        Part::Metro => 1,
        Part::Global => 2,
    }
}

/// The part of a code; every code but 1 and 2 is that of no part.
pub fn part_of(code: u8) -> Part
    ensures { result ≡ layout.part_of code }
{
    match code {
        1 => Part::Metro,
        2 => Part::Global,
        _ => Part::Absent,
    }
}

/// The code of a state.
pub fn code_of_state(state: PairState) -> u8
    ensures { result ≡ codes.code_of_state state }
{
    match state {
        PairState::CopyPending => 0,
        PairState::FullDuplex => 1,
        PairState::Suspended => 2,
    }
}

/// The state of a code; every code but 0 and 1 is that of a suspended pair.
pub fn state_of(code: u8) -> PairState
    ensures { result ≡ layout.state_of code }
{
    match code {
        0 => PairState::CopyPending,
        1 => PairState::FullDuplex,
        _ => PairState::Suspended,
    }
}

/// Bit `k` of a byte, counted from the lowest.
pub fn bit(byte: u8, k: u8) -> bool
    requires { k < 8 }
    ensures { result ≡ layout.bit byte k }
{
    (byte >> k) & 1 == 1
}

/// The bytes of a number, the highest first.
pub fn two_bytes(n: u16) -> [u8; 2]
    ensures { result ≡ codes.two_bytes n }
{
    n.to_be_bytes()
}

/// The bytes of a number, the highest first.
pub fn four_bytes(n: u32) -> [u8; 4]
    ensures { result ≡ codes.four_bytes n }
{
    n.to_be_bytes()
}

/// Two sets as one block.
pub fn two_sets(first: &TrackSet, second: &TrackSet) -> Block
    ensures { result ≡ bytes_of first.now ++ bytes_of second.now }
{
    halves(&first.to_bytes(), &second.to_bytes())
}

/// Two halves as one block.
pub fn halves(first: &[u8; 32], second: &[u8; 32]) -> Block
    ensures { result ≡ first.now ++ second.now }
{
    let mut block = [0; 64];
    block[..32].copy_from_slice(first);
    block[32..].copy_from_slice(second);
    block
}

/// The set in the first half of a block.
pub fn first_set(block: &Block) -> TrackSet
    ensures { result ≡ of_bytes (take 32 block.now) }
{
    let mut bytes = [0; 32];
    bytes.copy_from_slice(&block[..32]);
    TrackSet::from_bytes(&bytes)
}

/// The set in the second half of a block.
pub fn second_set(block: &Block) -> TrackSet
    ensures { result ≡ of_bytes (drop 32 block.now) }
{
    let mut bytes = [0; 32];
    bytes.copy_from_slice(&block[32..]);
    TrackSet::from_bytes(&bytes)
}

/// What is there, or zero.
pub fn only_if<T: Copy>(there: bool, x: T, zero: T) -> T
    ensures { result ≡ layout.only_if there x zero }
{
    if there { x } else { zero }
}

/// Bit `k` of a byte of flags, where what they belong to is there.
pub fn flag_if(there: bool, byte: u8, k: u8) -> bool
    requires { k < 8 }
    ensures { result ≡ (there && layout.bit byte k) }
{
    there && bit(byte, k)
}

/// A block of zeros.
#[tactic(auto, unfolding(dr_logic::specs::Bytes::zeros))]
pub fn zero_block() -> Block
    ensures { result ≡ zeros }
{
    [0; 64]
}
