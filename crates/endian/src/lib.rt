// Unsigned numbers in byte slices, low byte first.
#![tactic(auto)]

ghost use Rattle.std.specs.Prelude.{◌≡◌, ◌+◌, ◌≤◌, ◌<◌, length};
ghost use Rattle.std.proofs.lemmas.List.Edits.{sets};
ghost use Rattle.endian.specs.Believed.Numbers.{u8_at, u16_at, u32_at, u64_at, bytes8, bytes16, bytes32, bytes64};

// The byte at `at`, as a position or a count.
pub fn read8(s: &[u8], at: usize) -> usize
    requires { at < length s.now }
    ensures { (result ≡ u8_at s.now at) × (result < 256) }
{
    s[at] as usize
}

pub fn read16(s: &[u8], at: usize) -> u16
    requires { at + 2 ≤ length s.now }
    ensures { result ≡ u16_at s.now at }
{
    u16::from_le_bytes([s[at], s[at + 1]])
}

pub fn read32(s: &[u8], at: usize) -> u32
    requires { at + 4 ≤ length s.now }
    ensures { result ≡ u32_at s.now at }
{
    u32::from_le_bytes([s[at], s[at + 1], s[at + 2], s[at + 3]])
}

pub fn read64(s: &[u8], at: usize) -> u64
    requires { at + 8 ≤ length s.now }
    ensures { result ≡ u64_at s.now at }
{
    u64::from_le_bytes([
        s[at],
        s[at + 1],
        s[at + 2],
        s[at + 3],
        s[at + 4],
        s[at + 5],
        s[at + 6],
        s[at + 7],
    ])
}

// The writers store the number's bytes at `at` and keep every other byte.
pub fn write8(d: &mut [u8], at: usize, v: u8)
    requires { at < length d.old }
    ensures { d.new ≡ sets d.old at (bytes8 v) }
{
    d[at] = v;
}

pub fn write16(d: &mut [u8], at: usize, v: u16)
    requires { at + 2 ≤ length d.old }
    ensures { d.new ≡ sets d.old at (bytes16 v) }
{
    d[at..at + 2].copy_from_slice(&v.to_le_bytes());
}

pub fn write32(d: &mut [u8], at: usize, v: u32)
    requires { at + 4 ≤ length d.old }
    ensures { d.new ≡ sets d.old at (bytes32 v) }
{
    d[at..at + 4].copy_from_slice(&v.to_le_bytes());
}

pub fn write64(d: &mut [u8], at: usize, v: u64)
    requires { at + 8 ≤ length d.old }
    ensures { d.new ≡ sets d.old at (bytes64 v) }
{
    d[at..at + 8].copy_from_slice(&v.to_le_bytes());
}
