// Numbers at the front of a text.
ghost use Rattle.std.specs.Prelude.{◌≡◌, ◌<◌, ◌≤◌, ◌^◌, ◌++◌, ℕ, List, [], true, length, IfSome, IfNone, IsTrue, ◌↔◌, slice_index};
ghost use Rattle.std.specs.Fmt.{decimal};
ghost use Rattle.std.specs.Str.{all_ascii_digits};
ghost use Rattle.xmp_first.specs.Reading.{NoDigit, IsNumberAt};

/// The digits at the front, and what follows them.
fn digits(text: &[u8]) -> (&[u8], &[u8])
    ensures text { text.now ≡ result.0.now ++ result.1.now }
    ensures digits { all_ascii_digits result.0.now ≡ true }
    ensures ends { NoDigit result.1.now }
{
    let mut count = 0;
    while count < text.len() && text[count].is_ascii_digit() {
        count += 1;
    }
    text.split_at(count)
}

/// The number that the digits spell, of at most nine digits and with no leading zero.
fn number_of(digits: &[u8]) -> Option<u32>
    requires { all_ascii_digits digits.now ≡ true }
    ensures some { IfSome result (λ n. (n < 1000000000) × (digits.now ≡ decimal n)) }
    ensures none { IfNone result ((n : ℕ) → n < 1000000000 → digits.now ≡ decimal n → ⊥) }
{
    if digits.is_empty() {
        return None;
    }
    if digits.len() > 9 {
        return None;
    }
    if has_leading_zero(digits) {
        return None;
    }
    Some(value_of(digits))
}

fn has_leading_zero(digits: &[u8]) -> bool
    ensures { IsTrue result ↔ ((1 < length digits.now) × (slice_index digits.now 0 ≡ 48)) }
{
    digits.len() > 1 && digits[0] == b'0'
}

ghost use Rattle.xmp_first.specs.Numeral.{read_on};

/// What the digits are worth.
fn value_of(digits: &[u8]) -> u32
    requires digits { all_ascii_digits digits.now ≡ true }
    requires few { length digits.now ≤ 9 }
    ensures { result ≡ read_on 0 digits.now }
{
    let mut value = 0u32;
    for digit in digits {
        value = value * 10 + u32::from(*digit - b'0');
    }
    value
}

/// A number at the front, and what follows it.
pub(crate) fn number_at(text: &[u8]) -> Option<(u32, &[u8])>
    ensures some { IfSome result (λ x. IsNumberAt text.now x.0 x.1.now) }
    ensures none { IfNone result ((n : ℕ) (rest : List ℕ) → IsNumberAt text.now n rest → ⊥) }
{
    let (front, rest) = digits(text);
    match number_of(front) {
        Some(n) => Some((n, rest)),
        None => None,
    }
}
