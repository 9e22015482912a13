//! What a record holds, as blocks.

ghost use Rattle.std.specs.Prelude.{◌≡◌, ℕ, ◌<◌, List};
ghost use Rattle.dr_record.specs.Taken.{taken_from};

use dr_plant::Block;

/// What a record of `BLOCKS` blocks holds. The blocks of a value whose numbers all fit their bytes
/// give that value again.
pub trait Form: Copy {
    ghost BLOCKS: { ℕ };

    /// How many blocks a record has.
    const BLOCKS: u16;

    ghost fresh: { Self };

    ghost blocks: { Self → ℕ → List ℕ };

    ghost taken: { Self → ℕ → List ℕ → Self };

    ghost whole: { Self → Type 0 };

    /// The value before it takes any block.
    fn blank() -> Self
        ensures { result ≡ fresh };

    /// Block `i` of a record of this value.
    fn block(&self, i: u16) -> Block
        requires { i < BLOCKS }
        ensures { result ≡ blocks self.now i };

    /// Takes over what block `i` of a record says.
    fn take_block(&mut self, i: u16, from: &Block)
        requires { i < BLOCKS }
        ensures { self.new ≡ taken self.old i from.now };

    /// Says that each number of the value fits its bytes. Does nothing.
    fn tell_whole(&self)
        ensures { whole self.now };

    ghost reads_back: { (x : Self) → whole x → taken_from taken 0 BLOCKS (blocks x) fresh ≡ x };
}
