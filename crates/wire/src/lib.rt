// Little-endian numbers in a slice of bytes. Readers are total: a byte past the end counts as 0.
#![tactic(auto)]

ghost use Rattle.std.specs.Prelude.{◌≡◌, [], ◌∷◌, ◌+◌, ◌≤◌, ◌<◌, length};
ghost use Rattle.wire.specs.Wire.{byte_at, u16_at, u32_at, u64_at, put_u16, put_u32, put_u64, with_part};

pub fn wide(x: u8) -> usize
    ensures { (result ≡ x) × (result < 256) }
{
    usize::from(x)
}

pub fn index(x: u16) -> usize
    ensures { (result ≡ x) × (result < 65536) }
{
    usize::from(x)
}

pub fn byte_to_u16(x: u8) -> u16
    ensures { (result ≡ x) × (result < 256) }
{
    u16::from(x)
}

pub fn u16_to_u32(x: u16) -> u32
    ensures { (result ≡ x) × (result < 65536) }
{
    u32::from(x)
}

pub fn u32_to_u64(x: u32) -> u64
    ensures { (result ≡ x) × (result < 0x100000000) }
{
    u64::from(x)
}

pub fn byte_at(s: &[u8], at: usize) -> u8
    ensures { result ≡ byte_at s.now at }
{
    s.get(at).copied().unwrap_or(0)
}

pub fn u16_at(s: &[u8], at: usize) -> u16
    ensures { result ≡ u16_at s.now at }
{
    if s.len() <= at {
        return 0;
    }
    u16::from(byte_at(s, at)) + 256 * u16::from(byte_at(s, at + 1))
}

pub fn u32_at(s: &[u8], at: usize) -> u32
    ensures { result ≡ u32_at s.now at }
{
    let low = u32::from(u16_at(s, at));
    if s.len() < 2 {
        return low;
    }
    if s.len() - 2 <= at {
        return low;
    }
    low + 65536 * u32::from(u16_at(s, at + 2))
}

pub fn u64_at(s: &[u8], at: usize) -> u64
    ensures { result ≡ u64_at s.now at }
{
    let low = u64::from(u32_at(s, at));
    if s.len() < 4 {
        return low;
    }
    if s.len() - 4 <= at {
        return low;
    }
    low + 0x100000000 * u64::from(u32_at(s, at + 4))
}

pub fn put_u8(s: &mut [u8], at: usize, x: u8)
    requires { at + 1 ≤ length s.old }
    ensures { s.new ≡ with_part s.old at (x ∷ []) }
{
    s[at] = x;
}

pub fn put_u16(s: &mut [u8], at: usize, v: u16)
    requires { at + 2 ≤ length s.old }
    ensures { s.new ≡ put_u16 s.old at v }
{
    s[at..at + 2].copy_from_slice(&v.to_le_bytes());
}

pub fn put_u32(s: &mut [u8], at: usize, v: u32)
    requires { at + 4 ≤ length s.old }
    ensures { s.new ≡ put_u32 s.old at v }
{
    s[at..at + 4].copy_from_slice(&v.to_le_bytes());
}

pub fn put_u64(s: &mut [u8], at: usize, v: u64)
    requires { at + 8 ≤ length s.old }
    ensures { s.new ≡ put_u64 s.old at v }
{
    s[at..at + 8].copy_from_slice(&v.to_le_bytes());
}
