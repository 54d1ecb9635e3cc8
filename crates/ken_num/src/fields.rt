// Numbers of 8 to 64 bits in bytes, the highest byte first.
ghost use Rattle.std.specs.Prelude.{◌≡◌, ◌+◌, ◌++◌, [], ◌∷◌, length, take, drop, option_copied, IfSome, OnOk, OnErr, MatchOption, ◌<◌, ◌≤◌};
ghost use Rattle.byteorder.specs.Endian.{big_bytes};
ghost use Rattle.ken_num.specs.Fields.{field_at};

use byteorder::{BigEndian, ByteOrder};
use std::alloc::AllocError;

// The bytes of a field of `width` bytes, where so many stand at the place.
fn field(bytes: &[u8], at: usize, width: usize) -> Option<&[u8]>
    ensures { MatchOption result (length bytes.now < at + width) (λ field. (at + width ≤ length bytes.now) × (field.now ≡ take width (drop at bytes.now))) }
{
    bytes.get(at..)?.get(..width)
}

/// The number in the byte at a place: `None` exactly where no byte stands there.
pub fn u8_at(bytes: &[u8], at: usize) -> Option<u8>
    ensures number { result ≡ field_at 1 bytes.now at }
    ensures again { IfSome result (λ n. n ∷ [] ≡ take 1 (drop at bytes.now)) }
{
    bytes.get(at).copied()
}

/// The number in the 2 bytes from a place on: `None` exactly where fewer stand there.
pub fn u16_at(bytes: &[u8], at: usize) -> Option<u16>
    ensures number { result ≡ field_at 2 bytes.now at }
    ensures again { IfSome result (λ n. big_bytes 2 n ≡ take 2 (drop at bytes.now)) }
{
    Some(BigEndian::read_u16(field(bytes, at, 2)?))
}

/// The number in the 4 bytes from a place on: `None` exactly where fewer stand there.
pub fn u32_at(bytes: &[u8], at: usize) -> Option<u32>
    ensures number { result ≡ field_at 4 bytes.now at }
    ensures again { IfSome result (λ n. big_bytes 4 n ≡ take 4 (drop at bytes.now)) }
{
    Some(BigEndian::read_u32(field(bytes, at, 4)?))
}

/// The number in the 8 bytes from a place on: `None` exactly where fewer stand there.
pub fn u64_at(bytes: &[u8], at: usize) -> Option<u64>
    ensures number { result ≡ field_at 8 bytes.now at }
    ensures again { IfSome result (λ n. big_bytes 8 n ≡ take 8 (drop at bytes.now)) }
{
    Some(BigEndian::read_u64(field(bytes, at, 8)?))
}

/// Appends a byte. After an error `out` has its bytes as before.
pub fn put_u8(out: &mut Vec<u8>, n: u8) -> Result<(), AllocError>
    ensures ok { OnOk result (out.new.items ≡ out.old.items ++ n ∷ []) }
    ensures err { OnErr result (out.new.items ≡ out.old.items) }
{
    out.extend_from_slice(&[n])
}

/// Appends a number in 2 bytes. After an error `out` has its bytes as before.
pub fn put_u16(out: &mut Vec<u8>, n: u16) -> Result<(), AllocError>
    ensures ok { OnOk result (out.new.items ≡ out.old.items ++ big_bytes 2 n) }
    ensures err { OnErr result (out.new.items ≡ out.old.items) }
{
    let mut field = [0; 2];
    BigEndian::write_u16(&mut field, n);
    out.extend_from_slice(&field)
}

/// Appends a number in 4 bytes. After an error `out` has its bytes as before.
pub fn put_u32(out: &mut Vec<u8>, n: u32) -> Result<(), AllocError>
    ensures ok { OnOk result (out.new.items ≡ out.old.items ++ big_bytes 4 n) }
    ensures err { OnErr result (out.new.items ≡ out.old.items) }
{
    let mut field = [0; 4];
    BigEndian::write_u32(&mut field, n);
    out.extend_from_slice(&field)
}

/// Appends a number in 8 bytes. After an error `out` has its bytes as before.
pub fn put_u64(out: &mut Vec<u8>, n: u64) -> Result<(), AllocError>
    ensures ok { OnOk result (out.new.items ≡ out.old.items ++ big_bytes 8 n) }
    ensures err { OnErr result (out.new.items ≡ out.old.items) }
{
    let mut field = [0; 8];
    BigEndian::write_u64(&mut field, n);
    out.extend_from_slice(&field)
}
