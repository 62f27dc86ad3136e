// Numbers on a command line.
ghost use Rattle.std.specs.Prelude.{◌≡◌, ◌<◌, ◌≤◌, ◌^◌, ◌++◌, ℕ, List, true, length, IfSome, IfNone};
ghost use Rattle.std.specs.Str.{all_ascii_digits};
ghost use Rattle.xmp_top.specs.Numbers.{IsNumber};

fn all_digits(text: &str) -> bool
    ensures { result ≡ all_ascii_digits text.now }
{
    for b in text.as_bytes() {
        if !b.is_ascii_digit() {
            return false;
        }
    }
    true
}

/// A number of one to twenty decimal digits within a range, or none where the text is no such number.
pub fn number(text: &str, low: u64, high: u64) -> Option<u64>
    ensures some { IfSome result (λ n. IsNumber low high text.now n) }
    ensures none { IfNone result ((n : ℕ) → IsNumber low high text.now n → ⊥) }
{
    if text.len() > 20 {
        return None;
    }
    if !all_digits(text) {
        return None;
    }
    match text.parse::<u64>() {
        Ok(n) => {
            if n < low {
                return None;
            }
            if n > high {
                return None;
            }
            Some(n)
        }
        Err(_) => None,
    }
}
