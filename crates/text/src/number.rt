// Decimal numbers.
ghost use Rattle.std.specs.Prelude.{◌≡◌, ◌<◌, ◌≤◌, ◌+◌, ◌*◌, ◌-◌, ◌^◌, MatchOption};
ghost use Rattle.text.specs.Columns.{IsNumber};

// The number with one digit more, unless the byte is no digit or the number passes 64 bits.
fn with_digit(number: u64, byte: u8) -> Option<u64>
    ensures { MatchOption result
        (48 ≤ byte → byte ≤ 57 → number * 10 + (byte - 48) < 2 ^ 64 → ⊥)
        (λ more. (48 ≤ byte) × (byte ≤ 57) × (more ≡ number * 10 + (byte - 48)) × (more < 2 ^ 64)) }
{
    if !byte.is_ascii_digit() {
        return None;
    }
    number.checked_mul(10)?.checked_add(u64::from(byte - b'0'))
}

// The number that the bytes are in decimal, with no needless zero in front.
#[tactic(auto, using(crate::proofs::Digits::nothing_said, crate::proofs::Digits::needless_zero, crate::proofs::Digits::begun, crate::proofs::Digits::stuck, crate::proofs::Digits::one_more, crate::proofs::Digits::all_read))]
pub(crate) fn decimal_number(bytes: &[u8]) -> Option<u64>
    ensures { IsNumber bytes.now result }
{
    if bytes.is_empty() || (bytes[0] == b'0' && bytes.len() > 1) {
        return None;
    }
    let mut number = 0;
    for &byte in bytes {
        match with_digit(number, byte) {
            Some(more) => number = more,
            None => return None,
        }
    }
    Some(number)
}
