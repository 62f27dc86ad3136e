// The formats of prints.
ghost use Rattle.std.specs.Prelude.{◌≡◌, ◌↔◌, ◌≤◌, IsTrue, length, true, false};
ghost use Rattle.xmp_instr.specs.FormatTests.{after_byte, asked_from, ends_one, goes_inside, is_digit, is_outside, letter, read_on, wider};
ghost use Rattle.xmp_instr.specs.Tables.{asked};
ghost use Rattle.xmp_instr.specs.Valid.{IsBuilt};

/// Where in a format a byte stands.
#[derive(Clone, Copy)]
pub enum Mode {
    Outside,
    Percent,
    Width(u32),
    Letter,
    Wrong,
}

fn letter(byte: u8) -> Mode
    ensures { result ≡ letter byte }
{
    if byte == b'd' {
        Mode::Outside
    } else if byte == b'l' {
        Mode::Letter
    } else {
        Mode::Wrong
    }
}

fn is_digit(byte: u8) -> bool
    ensures { result ≡ is_digit byte }
{
    47 < byte && byte < 58
}

fn wider(width: u32, byte: u8) -> Mode
    ensures { result ≡ wider width byte }
{
    let digit = if byte < 48 { 0 } else { u64::from(byte - 48) };
    let width = u64::from(width) * 10 + digit;
    if 255 < width {
        Mode::Wrong
    } else {
        Mode::Width(width as u32)
    }
}

fn after_percent(byte: u8) -> Mode
    ensures { result ≡ after_byte Mode.Percent byte }
{
    if byte == b'%' {
        Mode::Outside
    } else if is_digit(byte) && 48 < byte {
        wider(0, byte)
    } else {
        letter(byte)
    }
}

fn after_byte(mode: Mode, byte: u8) -> Mode
    ensures { result ≡ after_byte mode byte }
{
    match mode {
        Mode::Outside => {
            if byte == b'%' {
                Mode::Percent
            } else {
                Mode::Outside
            }
        }
        Mode::Percent => after_percent(byte),
        Mode::Width(width) => {
            if is_digit(byte) {
                wider(width, byte)
            } else {
                letter(byte)
            }
        }
        Mode::Letter => {
            if byte == b'd' {
                Mode::Outside
            } else {
                Mode::Wrong
            }
        }
        Mode::Wrong => Mode::Wrong,
    }
}

fn is_outside(mode: Mode) -> bool
    ensures { result ≡ is_outside mode }
{
    match mode {
        Mode::Outside => true,
        Mode::Percent => false,
        Mode::Width(_) => false,
        Mode::Letter => false,
        Mode::Wrong => false,
    }
}

fn reads(format: &[u8]) -> bool
    ensures { result ≡ read_on Mode.Outside format.now }
{
    let mut mode = Mode::Outside;
    'bytes: for byte in format {
        mode = after_byte(mode, *byte);
    }
    is_outside(mode)
}

/// Whether a format is one, for arguments of some types.
pub fn is_built(format: &[u8]) -> bool
    ensures { IsTrue result ↔ IsBuilt format.now }
{
    reads(format)
}

fn goes_inside(inside: bool, byte: u8) -> bool
    ensures { result ≡ goes_inside inside byte }
{
    if inside {
        byte.is_ascii_digit() || byte == b'l'
    } else {
        byte == b'%'
    }
}

fn ends_one(inside: bool, byte: u8) -> usize
    ensures count { result ≡ ends_one inside byte }
    ensures most { result ≤ 1 }
{
    if !inside || byte.is_ascii_digit() || byte == b'l' || byte == b'%' {
        0
    } else {
        1
    }
}

/// How many values a format asks for.
pub fn asked(format: &[u8]) -> usize
    ensures count { result ≡ asked format.now }
    ensures most { result ≤ length format.now }
{
    let mut count = 0usize;
    let mut inside = false;
    'bytes: for byte in format {
        count += ends_one(inside, *byte);
        inside = goes_inside(inside, *byte);
    }
    count
}
