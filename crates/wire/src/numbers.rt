// Little-endian numbers in bytes.
ghost use Rattle.std.specs.Prelude.{◌≡◌, ◌+◌, ◌≤◌, length};
ghost use Rattle.std.proofs.lemmas.List.Edits.{sets};
ghost use Rattle.std.specs.Int.{w32};
ghost use Rattle.std.proofs.Common.{of_z};
ghost use Rattle.wire.specs.Bytes.{le, bytes_of};
ghost use Rattle.wire.specs.Records.{signed_at};

// The low w bytes of x.
#[tactic(auto, unfolding(crate::specs::Bytes::bytes_of))]
pub fn store(out: &mut [u8], at: usize, w: usize, x: u64)
    requires { at + w ≤ length out.old }
    ensures { (out.new ≡ sets out.old at (bytes_of w x)) × (length out.new ≡ length out.old) }
{
    let mut y = x;
    for k in 0..w {
        out[at + k] = (y % 256) as u8;
        y /= 256;
    }
}

#[tactic(auto, unfolding(crate::specs::Bytes::le))]
pub fn read_u16(s: &[u8], at: usize) -> u16
    requires { at + 2 ≤ length s.now }
    ensures { result ≡ le 2 s.now at }
{
    u16::from_le_bytes([s[at], s[at + 1]])
}

#[tactic(auto, unfolding(crate::specs::Bytes::le))]
pub fn read_u32(s: &[u8], at: usize) -> u32
    requires { at + 4 ≤ length s.now }
    ensures { result ≡ le 4 s.now at }
{
    u32::from_le_bytes([s[at], s[at + 1], s[at + 2], s[at + 3]])
}

#[tactic(auto, unfolding(crate::specs::Bytes::le))]
pub fn read_u64(s: &[u8], at: usize) -> u64
    requires { at + 8 ≤ length s.now }
    ensures { result ≡ le 8 s.now at }
{
    u64::from_le_bytes([
        s[at],
        s[at + 1],
        s[at + 2],
        s[at + 3],
        s[at + 4],
        s[at + 5],
        s[at + 6],
        s[at + 7],
    ])
}

// The number of 32 bits in two's complement.
#[tactic(auto, unfolding(crate::specs::Records::signed_at))]
pub fn read_i32(s: &[u8], at: usize) -> i32
    requires { at + 4 ≤ length s.now }
    ensures { result ≡ signed_at s.now at }
{
    read_u32(s, at).cast_signed()
}

pub fn write_u32(out: &mut [u8], at: usize, x: u32)
    requires { at + 4 ≤ length out.old }
    ensures { (out.new ≡ sets out.old at (bytes_of 4 x)) × (length out.new ≡ length out.old) }
{
    store(out, at, 4, x as u64);
}

pub fn write_i32(out: &mut [u8], at: usize, x: i32)
    requires { at + 4 ≤ length out.old }
    ensures { (out.new ≡ sets out.old at (bytes_of 4 (of_z w32 x))) × (length out.new ≡ length out.old) }
{
    write_u32(out, at, x.cast_unsigned());
}
