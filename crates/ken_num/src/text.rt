// Decimal numbers in text.
ghost use Rattle.std.specs.Prelude.{◌≡◌, ◌<◌, ◌^◌, ◌==◌, ◌&&◌, ◌++◌, ℕ, nat_lt, length, slice_index, decimal, MatchOption, OnOk, OnErr, Some};
ghost use Rattle.ken_num.specs.Numbers.{num};

use itoa::Buffer;
use std::alloc::AllocError;
use std::str;

/// The most digits that `num` reads.
pub const MAX_DIGITS: usize = 9;

/// The number that `bytes` are: 1 to 9 decimal digits, with no zero in front of others. Other bytes are none.
#[tactic(auto, unfolding(crate::specs::Numbers::num))]
pub fn num(bytes: &[u8]) -> Option<u64>
    ensures { result ≡ num bytes.now }
{
    if bytes.is_empty() || bytes.len() > MAX_DIGITS || has_leading_zero(bytes) {
        return None;
    }
    let mut value = 0;
    for byte in bytes {
        if !byte.is_ascii_digit() {
            return None;
        }
        value = 10 * value + u64::from(byte - b'0');
    }
    Some(value)
}

// Whether a zero stands in front of other bytes.
fn has_leading_zero(bytes: &[u8]) -> bool
    ensures { result ≡ (slice_index bytes.now 0 == 48 && nat_lt 1 (length bytes.now)) }
{
    matches!(bytes, [b'0', _, ..])
}

/// The number that `bytes` are in decimal, with no zero in front of others: `None` exactly where no `u64` is written so. Takes no
/// memory.
pub fn decimal(bytes: &[u8]) -> Option<u64>
    ensures { MatchOption result ((n : ℕ) → n < 2 ^ 64 → decimal n ≡ bytes.now → ⊥) (λ n. decimal n ≡ bytes.now) }
{
    let number = parsed(bytes)?;
    if Buffer::new().format(number).as_bytes() == bytes {
        Some(number)
    } else {
        None
    }
}

// The number that std reads in bytes, which may be written in other ways too.
fn parsed(bytes: &[u8]) -> Option<u64>
    ensures { (n : ℕ) → n < 2 ^ 64 → decimal n ≡ bytes.now → result ≡ Some n }
{
    match str::from_utf8(bytes) {
        Ok(text) => text.parse().ok(),
        Err(_) => None,
    }
}

/// Appends `n` in decimal, with no zero in front. After an error `out` has its bytes as before.
pub fn put_decimal(out: &mut Vec<u8>, n: u64) -> Result<(), AllocError>
    ensures ok { OnOk result (out.new.items ≡ out.old.items ++ decimal n) }
    ensures err { OnErr result (out.new.items ≡ out.old.items) }
{
    out.extend_from_slice(Buffer::new().format(n).as_bytes())
}
