//! Numbers as a line writes them.
ghost use Rattle.route_lines.specs.Number.{IsNumber, number_of};
ghost use Rattle.std.specs.Char.{digit_value};
ghost use Rattle.std.specs.Prelude.{◌≡◌, ◌+◌, ◌*◌, ◌^◌, ◌<◌, ◌↔◌, ℕ, IfNone, IfSome, IsTrue};
ghost use Rattle.std.specs.Prelude.{SomeIff, decimal, length, slice_index};

/// The number that the bytes write in decimal digits without leading zeros; `None` exactly if they
/// write none below 2^64.
pub fn read_number(bytes: &[u8]) -> Option<u64>
    ensures found { IfSome result (λ n. bytes.now ≡ decimal n) }
    ensures none { IfNone result ((n : ℕ) → IsNumber n → ¬ (bytes.now ≡ decimal n)) }
    ensures exact { result ≡ number_of bytes.now }
{
    if bytes.is_empty() || has_leading_zero(bytes) {
        return None;
    }
    let mut number = 0;
    for byte in bytes {
        number = push_digit(number, *byte)?;
    }
    Some(number)
}

// A zero stands before further bytes.
fn has_leading_zero(bytes: &[u8]) -> bool
    ensures { IsTrue result ↔ ((slice_index bytes.now 0 ≡ 48) × (1 < length bytes.now)) }
{
    bytes.len() > 1 && bytes[0] == b'0'
}

// The number with one more digit at its end.
fn push_digit(number: u64, byte: u8) -> Option<u64>
    ensures { let more = number * 10 + digit_value byte in
        SomeIff result ((digit_value byte < 10) × (more < 2 ^ 64)) more }
{
    let digit = char::from(byte).to_digit(10)?;
    number.checked_mul(10)?.checked_add(u64::from(digit))
}
