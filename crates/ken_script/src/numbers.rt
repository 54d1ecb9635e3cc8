// Whole numbers of a script.
ghost use Rattle.std.specs.Prelude.{◌≡◌, option_and_then};
ghost use Rattle.serde_json.specs.View.{view};
ghost use Rattle.ken_script.specs.Keys.{whole, within, below};

use serde_json::Value;

/// The number, if it is a whole one from `least` to `most`.
pub(crate) fn number_within(value: &Value, least: u64, most: u64) -> Option<u64>
    ensures { result ≡ option_and_then (within least most) (whole (view value.now)) }
{
    value
        .as_u64()
        .filter(|number| least <= *number && *number <= most)
}

/// The number, if it is a whole one below `end`.
pub(crate) fn number_below(value: &Value, end: u8) -> Option<u8>
    ensures { result ≡ option_and_then (below end) (whole (view value.now)) }
{
    let number = value.as_u64()?;
    if number >= u64::from(end) {
        return None;
    }
    Some(number as u8)
}
