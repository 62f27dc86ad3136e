ghost use Rattle.std.specs.Prelude.{◌≡◌, ◌≤◌, ◌+◌, ◌++◌, ◌+ℤ◌, ◌*ℤ◌, ℕ, ℤ, pos, neg_ℤ, true, if◌then◌else◌, length, take, drop, OnOk, OnErr, IfOk, List, Option, Some, replicate};
ghost use Rattle.std.specs.Char.{digit_value, is_ascii_digit};
ghost use Rattle.std.specs.Fmt.{signed_decimal};
ghost use Rattle.std.specs.Int.{int_wrap, w64};
ghost use Rattle.std.specs.List.{AllPass, prefix_len};
ghost use Rattle.std.specs.Str.Parse.{digits_value, starts_with_minus};
ghost use Rattle.xmp_num.specs.Arithmetic.{wrap};
ghost use Rattle.xmp_num.specs.Decimal.{BeginsWithout, Scans, is_white, number_of, padded, scan_of, sign_of};
ghost use Rattle.xmp_num.specs.declared.types.Ty.{Ty};

use crate::arithmetic::convert;
use crate::types::Ty;
use std::alloc::Global;
use xmp_base::{Bytes, NoMemory};

/// Appends the number in decimal, with spaces on its left up to `width` bytes; or appends nothing.
/// What was appended is read back by `scan`, where no digit follows it.
pub fn render(alloc: Global, out: &mut Bytes, v: i64, width: u32) -> Result<(), NoMemory>
    requires { width ≤ 255 }
    ensures ok { OnOk result (out.new ≡ out.old ++ padded width (signed_decimal v)) }
    ensures plain { width ≡ 0 → OnOk result (out.new ≡ out.old ++ signed_decimal v) }
    ensures reads_back { OnOk result
        ((ty : Ty) (rest : List ℕ) → BeginsWithout is_ascii_digit rest
        → Scans ty (out.new ++ rest) (length out.old) (Some (wrap ty v)) (length out.new)) }
    ensures err { OnErr result (out.new ≡ out.old) }
{
    let Ok(text) = v.to_string(alloc) else {
        return Err(NoMemory);
    };
    let missing = (width as usize).saturating_sub(text.len());
    let mut all = spaces(alloc, missing)?;
    all.push_all(text.as_bytes())?;
    out.push_all(all.as_slice())
}

fn spaces(alloc: Global, count: usize) -> Result<Bytes, NoMemory>
    ensures { IfOk result (λ all. all ≡ replicate count 32) }
{
    let Ok(bytes) = vec![in alloc; b' '; count] else {
        return Err(NoMemory);
    };
    let mut all = Bytes::new(alloc);
    all.push_all(&bytes)?;
    Ok(all)
}

/// Reads a decimal number at a place of the input: skips white space, takes a sign where there is
/// one, and then all digits, however many. Gives the value and the place behind what was read.
/// Without a digit there is no value, and white space and sign stay read.
pub fn scan(input: &[u8], at: usize, ty: Ty) -> (Option<i64>, usize)
    requires { at ≤ length input.now }
    ensures value { result ≡ scan_of ty input.now at }
    ensures reads { Scans ty input.now at result.0 result.1 }
    ensures only { (value : Option ℤ) (next : ℕ)
        → Scans ty input.now at value next → (value, next) ≡ result }
{
    let text = from(input, at);
    let white = white_len(text);
    let signed = from(text, white);
    let sign = sign_len(signed);
    let numeral = from(signed, sign);
    let digits = digits_len(numeral);
    let value = value_of(front(signed, sign), front(numeral, digits), ty);
    (value, at + (white + (sign + digits)))
}

fn from(text: &[u8], n: usize) -> &[u8]
    requires { n ≤ length text.now }
    ensures rest { result.now ≡ drop n text.now }
    ensures len { n + length result.now ≡ length text.now }
{
    text.split_at(n).1
}

fn front(text: &[u8], n: usize) -> &[u8]
    requires { n ≤ length text.now }
    ensures { result.now ≡ take n text.now }
{
    text.split_at(n).0
}

fn white_len(text: &[u8]) -> usize
    ensures value { result ≡ prefix_len is_white text.now }
    ensures inside { result ≤ length text.now }
{
    let mut i = 0;
    while i < text.len() && is_white(text[i]) {
        i += 1;
    }
    i
}

fn is_white(b: u8) -> bool
    ensures { result ≡ is_white b }
{
    matches!(b, 9..=13 | b' ')
}

fn sign_len(text: &[u8]) -> usize
    ensures value { result ≡ length (sign_of text.now) }
    ensures inside { result ≤ length text.now }
{
    match text.first() {
        Some(b) => usize::from(*b == b'+' || *b == b'-'),
        None => 0,
    }
}

fn digits_len(text: &[u8]) -> usize
    ensures value { result ≡ prefix_len is_ascii_digit text.now }
    ensures inside { result ≤ length text.now }
{
    let mut i = 0;
    while i < text.len() && text[i].is_ascii_digit() {
        i += 1;
    }
    i
}

fn value_of(sign: &[u8], digits: &[u8], ty: Ty) -> Option<i64>
    requires { AllPass is_ascii_digit digits.now }
    ensures { result ≡ number_of ty sign.now digits.now }
{
    if digits.is_empty() {
        return None;
    }
    let value = with_sign(is_minus(sign), magnitude(digits));
    Some(convert(value, ty))
}

fn is_minus(sign: &[u8]) -> bool
    ensures { result ≡ starts_with_minus sign.now }
{
    match sign.first() {
        Some(b) => *b == b'-',
        None => false,
    }
}

fn with_sign(minus: bool, value: i64) -> i64
    ensures { result ≡ int_wrap w64 (if minus then neg_ℤ value else value) }
{
    if minus { value.wrapping_neg() } else { value }
}

fn magnitude(digits: &[u8]) -> i64
    requires { AllPass is_ascii_digit digits.now }
    ensures { result ≡ int_wrap w64 (pos (digits_value 10 digits.now)) }
{
    let mut value: i64 = 0;
    for digit in digits {
        value = with_digit(value, *digit);
    }
    value
}

fn with_digit(value: i64, digit: u8) -> i64
    requires { is_ascii_digit digit ≡ true }
    ensures { result ≡ int_wrap w64 (value *ℤ pos 10 +ℤ pos (digit_value digit)) }
{
    value.wrapping_mul(10).wrapping_add(i64::from(digit - b'0'))
}
