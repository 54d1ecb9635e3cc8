// Numbers on the command line.
ghost use Rattle.std.specs.Prelude.{◌≡◌, ◌<◌, ◌≤◌, ◌&&◌, map, drop, length, string_bytes, true};
ghost use Rattle.std.specs.Prelude.{nat_le, if◌then◌else◌, Some, None, IfSome};
ghost use Rattle.std.specs.List.{list_all};
ghost use Rattle.std.specs.Str.{all_ascii_digits};
ghost use Rattle.ken_num.specs.Numbers.{value_from};
ghost use Rattle.ken_words.specs.Numbers.{is_number, number_in};

// The most digits of a number.
const MOST_DIGITS: usize = 20;

// Whether all bytes are decimal digits.
fn are_digits(bytes: &[u8]) -> bool
    ensures { result ≡ all_ascii_digits bytes.now }
{
    for byte in bytes {
        if !byte.is_ascii_digit() {
            return false;
        }
    }
    true
}

// The number that a word writes, from `least` to `most`.
pub(crate) fn number_in(least: u64, most: u64, word: &str) -> Option<u64>
    ensures number { result ≡ number_in least most word.now }
    ensures most { IfSome result (λ n. n ≤ most) }
{
    if is_number(word) {
        in_range(least, most, word)
    } else {
        None
    }
}

// Whether a word is a number.
fn is_number(word: &str) -> bool
    ensures { result ≡ is_number word.now }
{
    !word.is_empty() && word.len() <= MOST_DIGITS && are_digits(word.as_bytes())
}

// The number that digits write, where it is in range.
fn in_range(least: u64, most: u64, digits: &str) -> Option<u64>
    requires digits { all_ascii_digits digits.now ≡ true }
    requires some { 0 < length digits.now }
    ensures number { result ≡ (if nat_le least (value_from 0 digits.now) && nat_le (value_from 0 digits.now) most
        then Some (value_from 0 digits.now) else None) }
    ensures most { IfSome result (λ n. n ≤ most) }
{
    match digits.parse::<u64>() {
        Ok(number) if least <= number && number <= most => Some(number),
        _ => None,
    }
}
