//! Whole numbers in texts.

ghost use Rattle.std.specs.Prelude.{◌≡◌, ◌^◌};
ghost use Rattle.value.specs.Numbers.{number_at, number_below};

use itoa::Buffer;

/// The number below 2^64 with this text, in decimal, without sign and without leading zeros.
pub fn read_number(text: &str) -> Option<u64>
    ensures { result ≡ number_at text.now }
{
    match text.parse::<u64>() {
        Ok(number) => {
            let mut buffer = Buffer::new();
            if buffer.format(number) == text {
                Some(number)
            } else {
                None
            }
        }
        Err(_) => None,
    }
}

/// The number below 2^128 with this text, in decimal, without sign and without leading zeros.
pub fn read_wide_number(text: &str) -> Option<u128>
    ensures { result ≡ number_below (2 ^ 128) text.now }
{
    match text.parse::<u128>() {
        Ok(number) => {
            let mut buffer = Buffer::new();
            if buffer.format(number) == text {
                Some(number)
            } else {
                None
            }
        }
        Err(_) => None,
    }
}
