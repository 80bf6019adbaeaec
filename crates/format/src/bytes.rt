// Little-endian numbers at an index of a byte slice.
ghost use Rattle.std.specs.Prelude.{◌≡◌, ◌+◌, ◌≤◌, length};
ghost use Rattle.std.specs.Int.{to_le_bytes, from_le_bytes, w32, w64};
ghost use Rattle.format.specs.Bytes.{number, bytes};
ghost use Rattle.format.specs.Place.{placed};

// The number of 4 bytes at the front.
pub fn first_u32(s: &[u8]) -> u32
    requires { 4 ≤ length s.now }
    ensures { result ≡ number 4 s.now }
{
    u32::from_le_bytes(*s.first_chunk().unwrap())
}

// Puts bytes down from an index on. The buffer is lent whole: a section is put down at a place in it.
pub fn put(out: &mut [u8], at: usize, bytes: &[u8])
    requires { at + length bytes.now ≤ length out.old }
    ensures { out.new ≡ placed out.old at bytes.now }
{
    out[at..at + bytes.len()].copy_from_slice(bytes);
}
