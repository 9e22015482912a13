ghost use Rattle.std.specs.Prelude.{◌≡◌, ◌+◌, ◌≤◌, length};
ghost use Rattle.dr_ids.specs.BigEndian.{be16_at, be32_at};

/// The number of the two bytes from `at` on, the high byte first.
pub fn be16(b: &[u8], at: usize) -> u16
    requires { at + 2 ≤ length b.now }
    ensures { result ≡ be16_at b.now at }
{
    u16::from(b[at]) * 256 + u16::from(b[at + 1])
}

/// The number of the four bytes from `at` on, the highest byte first.
pub fn be32(b: &[u8], at: usize) -> u32
    requires { at + 4 ≤ length b.now }
    ensures { result ≡ be32_at b.now at }
{
    u32::from(be16(b, at)) * 65536 + u32::from(be16(b, at + 2))
}
