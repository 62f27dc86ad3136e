//! First places in a text.
ghost use Rattle.std.specs.Prelude.{◌≡◌, ◌+◌, ◌-◌, ◌*◌, ◌<◌, ◌≤◌, ℕ, MatchOption, length, slice_index, ◌||◌, take, drop};
ghost use Rattle.xmp_lex.specs.Bytes.{is_white, is_digit, is_letter, is_word, IsRun, IsLine, IsBlock, IsClose, IsTextEnd, IsNumber, digit, is_end, escapes, IsValue, has_suffix, body, is_hex, digits_of, base_of};

/// The byte at a place, or 0 past the end.
pub fn byte_at(text: &[u8], k: usize) -> u8
    ensures { result ≡ slice_index text.now k }
{
    if k < text.len() { text[k] } else { 0 }
}

/// The text behind so many bytes.
pub fn from(text: &[u8], n: usize) -> &[u8]
    requires { n ≤ length text.now }
    ensures { result.now ≡ drop n text.now }
{
    text.split_at(n).1
}

/// The first bytes.
pub fn front(text: &[u8], n: usize) -> &[u8]
    requires { n ≤ length text.now }
    ensures { result.now ≡ take n text.now }
{
    text.split_at(n).0
}

pub fn is_white(byte: u8) -> bool
    ensures { result ≡ is_white byte }
{
    byte == b' ' || (9 <= byte && byte <= 13)
}

pub fn is_digit(byte: u8) -> bool
    ensures { result ≡ is_digit byte }
{
    b'0' <= byte && byte <= b'9'
}

pub fn is_letter(byte: u8) -> bool
    ensures { result ≡ is_letter byte }
{
    (b'A' <= byte && byte <= b'Z') || (b'a' <= byte && byte <= b'z') || byte == b'_'
}

pub fn is_word(byte: u8) -> bool
    ensures { result ≡ is_word byte }
{
    is_letter(byte) || is_digit(byte)
}

/// The length of the longest run of letters, digits and `_` at the front.
pub fn run(text: &[u8]) -> usize
    ensures { IsRun text.now result }
{
    for (i, byte) in text.iter().enumerate() {
        if !is_word(*byte) {
            return i;
        }
    }
    text.len()
}

/// Where the line ends.
pub fn line(text: &[u8]) -> usize
    ensures { IsLine text.now result }
{
    for (i, byte) in text.iter().enumerate() {
        if *byte == b'\n' {
            return i;
        }
    }
    text.len()
}

/// The first `*/`.
pub fn block(text: &[u8]) -> Option<usize>
    ensures { MatchOption result ((k : ℕ) → IsClose text.now k → ⊥) (λ n. IsBlock text.now n) }
{
    for i in 1..text.len() {
        if text[i - 1] == b'*' && text[i] == b'/' {
            return Some(i - 1);
        }
    }
    None
}

/// Whether a text ends at a byte, which may be escaped.
fn is_end(byte: u8, escaped: bool) -> bool
    ensures { result ≡ is_end byte escaped }
{
    byte == b'\n' || (byte == b'"' && !escaped)
}

/// Whether a byte, which may be escaped itself, escapes the next.
pub fn escapes(byte: u8, escaped: bool) -> bool
    ensures { result ≡ escapes byte escaped }
{
    byte == b'\\' && !escaped
}

/// Where a text ends, behind its opening quote: at its closing quote, or where there is none on the line.
pub fn text_end(text: &[u8]) -> usize
    ensures { IsTextEnd text.now result }
{
    let mut escaped = false;
    for (i, byte) in text.iter().enumerate() {
        if is_end(*byte, escaped) {
            return i;
        }
        escaped = escapes(*byte, escaped);
    }
    text.len()
}

/// What a digit counts; 99 is none.
pub fn digit(byte: u8) -> u8
    ensures { result ≡ digit byte }
{
    if is_digit(byte) {
        byte - b'0'
    } else if b'a' <= byte && byte <= b'f' {
        byte - b'a' + 10
    } else if b'A' <= byte && byte <= b'F' {
        byte - b'A' + 10
    } else {
        99
    }
}

/// One more digit, where the number has 63 bits.
fn next(sum: u64, base: u64, digit: u64) -> Option<u64>
    ensures { MatchOption result (9223372036854775807 < sum * base + digit) (λ v. (v ≡ sum * base + digit) × (v < 9223372036854775808)) }
{
    match sum.checked_mul(base) {
        None => None,
        Some(scaled) => match scaled.checked_add(digit) {
            Some(next) if next <= 0x7fff_ffff_ffff_ffff => Some(next),
            _ => None,
        },
    }
}

/// The number of the digits, where each is one of the base and it has 63 bits.
pub fn value(base: u64, digits: &[u8]) -> Option<u64>
    requires one { 1 ≤ base }
    requires small { base ≤ 16 }
    ensures { MatchOption result ((v : ℕ) → IsValue base digits.now v → ⊥) (λ v. IsValue base digits.now v) }
{
    let mut sum: u64 = 0;
    for byte in digits {
        let digit = u64::from(digit(*byte));
        if base <= digit {
            return None;
        }
        match next(sum, base, digit) {
            None => return None,
            Some(next) => sum = next,
        }
    }
    Some(sum)
}

/// Whether there is an `L` or `l` at the end.
pub fn has_suffix(run: &[u8]) -> bool
    requires { 0 < length run.now }
    ensures { result ≡ has_suffix run.now }
{
    let last = run[run.len() - 1];
    last == b'L' || last == b'l'
}

fn body(run: &[u8]) -> &[u8]
    requires { 0 < length run.now }
    ensures { result.now ≡ body run.now }
{
    if has_suffix(run) {
        &run[..run.len() - 1]
    } else {
        run
    }
}

fn is_hex(run: &[u8]) -> bool
    ensures { result ≡ is_hex run.now }
{
    2 <= run.len() && run[0] == b'0' && run[1] == b'x'
}

fn digits_of(run: &[u8]) -> &[u8]
    requires { 0 < length run.now }
    ensures { result.now ≡ digits_of run.now }
{
    let digits = body(run);
    if !is_hex(run) {
        digits
    } else if digits.len() < 2 {
        &[]
    } else {
        &digits[2..]
    }
}

fn base_of(run: &[u8]) -> u64
    requires { 0 < length run.now }
    ensures { result ≡ base_of run.now }
{
    if is_hex(run) {
        16
    } else if run[0] == b'0' {
        8
    } else {
        10
    }
}

/// The number that a run of letters and digits spells.
pub fn number_of(run: &[u8]) -> Option<u64>
    requires { 0 < length run.now }
    ensures { MatchOption result ((v : ℕ) → IsNumber run.now v → ⊥) (λ v. IsNumber run.now v) }
{
    let digits = digits_of(run);
    if digits.is_empty() {
        return None;
    }
    value(base_of(run), digits)
}
