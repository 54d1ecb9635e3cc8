//! Numbers: short decimal numbers in text, any number in decimal, fields of bytes, and a generator of random words.
#![tactic(auto)]

mod fields;
mod generator;
mod text;

pub use fields::{put_u8, put_u16, put_u32, put_u64, u8_at, u16_at, u32_at, u64_at};
pub use generator::Lcg;
pub use text::{MAX_DIGITS, decimal, num, put_decimal};
