// Numbers: decimal, or hex after `0x`.
#![tactic(auto)]

ghost use Rattle.std.specs.Prelude.{◌≡◌, true, false, drop, MatchOption};
ghost use Rattle.numbers.specs.Numbers.{IsBase, digit_of, after_digit, digits_of, hexed, number_of};

use thiserror::Error;

// A word that says no number of 32 bits.
#[derive(Clone, Copy, Debug, PartialEq, Eq, Error)]
#[error("bad number")]
pub struct BadNumber;

// A value with one more digit of a base, of either case, after it.
#[tactic(auto, unfolding(crate::specs::Numbers::after_digit, crate::specs::Numbers::digit_of))]
fn append_digit(value: u32, base: u32, byte: u8) -> Option<u32>
    requires { IsBase base }
    ensures { result ≡ after_digit base value (digit_of byte) }
{
    let digit = char::from(byte).to_digit(base)?;
    value.checked_mul(base)?.checked_add(digit)
}

// The digits of a base.
#[tactic(auto, using(crate::proofs::Reading::digits_step, crate::proofs::Reading::digits_stop, crate::proofs::Reading::digits_end))]
fn digits(text: &[u8], base: u32) -> Result<u32, BadNumber>
    requires { IsBase base }
    ensures { result ≡ digits_of base 0 text.now }
{
    let mut value = 0;
    for byte in text {
        value = append_digit(value, base, *byte).ok_or(BadNumber)?;
    }
    Ok(value)
}

// What stands after the prefix `0x`, where a text has it.
#[tactic(auto, unfolding(crate::specs::Numbers::hexed))]
fn hex_part(text: &[u8]) -> Option<&[u8]>
    ensures { MatchOption result (hexed text.now ≡ false) (λ part. (hexed text.now ≡ true) × (part.now ≡ drop 2 text.now)) }
{
    text.strip_prefix(b"0x")
}

// The number that a word says.
#[tactic(auto, unfolding(crate::specs::Numbers::number_of))]
pub fn read(text: &[u8]) -> Result<u32, BadNumber>
    ensures { result ≡ number_of text.now }
{
    let (part, base) = match hex_part(text) {
        Some(part) => (part, 16),
        None => (text, 10),
    };
    if part.is_empty() {
        return Err(BadNumber);
    }
    digits(part, base)
}
