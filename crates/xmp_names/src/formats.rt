// The formats of `printf` and `scanf`: their conversions, and whether they fit the arguments.
ghost use Rattle.std.specs.Prelude.{◌≡◌, ◌∷◌, IfOk, MatchOption, []};
ghost use Rattle.xmp_names.specs.Formats.{after_byte, agrees, all_agree, conversions, ended, fits_format, is_digit, is_scan_format, letter, wider};

use sqlite_items::Items;
use std::alloc::{AllocError, Global};
use xmp_num::Ty;

/// Where in a format a byte stands.
#[derive(Clone, Copy)]
pub enum Mode {
    Outside,
    Percent,
    Width(u32),
    Letter,
    Wrong,
}

fn is_digit(byte: u8) -> bool
    ensures { result ≡ is_digit byte }
{
    47 < byte && byte < 58
}

fn letter(byte: u8) -> Mode
    ensures { result ≡ letter byte }
{
    if byte == b'd' {
        Mode::Outside
    } else if byte == b'l' {
        Mode::Letter
    } else {
        Mode::Wrong
    }
}

fn wider(n: u32, byte: u8) -> Mode
    ensures { result ≡ wider n byte }
{
    let digit = if byte < 48 { 0 } else { u64::from(byte - 48) };
    let width = u64::from(n) * 10 + digit;
    if 255 < width {
        Mode::Wrong
    } else {
        Mode::Width(width as u32)
    }
}

fn after_byte(mode: Mode, byte: u8) -> Mode
    ensures { result ≡ after_byte mode byte }
{
    match mode {
        Mode::Outside => {
            if byte == b'%' {
                Mode::Percent
            } else {
                Mode::Outside
            }
        }
        Mode::Percent => {
            if byte == b'%' {
                Mode::Outside
            } else if is_digit(byte) && 48 < byte {
                wider(0, byte)
            } else {
                letter(byte)
            }
        }
        Mode::Width(n) => {
            if is_digit(byte) {
                wider(n, byte)
            } else {
                letter(byte)
            }
        }
        Mode::Letter => {
            if byte == b'd' {
                Mode::Outside
            } else {
                Mode::Wrong
            }
        }
        Mode::Wrong => Mode::Wrong,
    }
}

fn ended(mode: Mode, byte: u8) -> Option<Ty>
    ensures { result ≡ ended mode byte }
{
    let ty = match mode {
        Mode::Percent => Ty::Int,
        Mode::Width(_) => Ty::Int,
        Mode::Letter => Ty::Long,
        _ => return None,
    };
    if byte == b'd' { Some(ty) } else { None }
}

fn conversions(alloc: Global, bytes: &[u8]) -> Result<Option<Items<Ty>>, AllocError>
    ensures { IfOk result (λ r. r ≡ conversions Mode.Outside [] bytes.now) }
{
    let mut mode = Mode::Outside;
    let mut done = Items::new(alloc);
    'bytes: for byte in bytes {
        if let Some(ty) = ended(mode, *byte) {
            done.push(ty)?;
        }
        mode = after_byte(mode, *byte);
    }
    match mode {
        Mode::Outside => Ok(Some(done)),
        _ => Ok(None),
    }
}

fn agrees(ty: Ty, argument: Option<Ty>) -> bool
    ensures { result ≡ agrees ty argument }
{
    match argument {
        Some(argument) => argument == ty,
        None => true,
    }
}

fn front(arguments: &[Option<Ty>]) -> Option<(&Option<Ty>, &[Option<Ty>])>
    ensures { MatchOption result (arguments.now ≡ []) (λ x. arguments.now ≡ x.0.now ∷ x.1.now) }
{
    arguments.split_first()
}

fn all_agree(types: &[Ty], arguments: &[Option<Ty>]) -> bool
    ensures { result ≡ all_agree types.now arguments.now }
{
    let mut left = arguments;
    'types: for ty in types {
        match front(left) {
            Some((argument, rest)) => {
                if !agrees(*ty, *argument) {
                    return false;
                }
                left = rest;
            }
            None => return false,
        }
    }
    is_done(left)
}

fn is_done(left: &[Option<Ty>]) -> bool
    ensures { result ≡ all_agree [] left.now }
{
    left.is_empty()
}

/// Whether a format is built as it should be, with conversions of the arguments' types.
pub fn fits_format(
    alloc: Global,
    bytes: &[u8],
    arguments: &[Option<Ty>],
) -> Result<bool, AllocError>
    ensures { IfOk result (λ r. r ≡ fits_format bytes.now arguments.now) }
{
    match conversions(alloc, bytes)? {
        Some(types) => Ok(all_agree(types.as_slice(), arguments)),
        None => Ok(false),
    }
}

/// Whether a format is that of a `scanf` into a target of this type, where its type is known.
pub fn is_scan_format(bytes: &[u8], ty: Option<Ty>) -> bool
    ensures { result ≡ is_scan_format bytes.now ty }
{
    match ty {
        Some(Ty::Int) => bytes == b"%d".as_slice(),
        Some(Ty::Long) => bytes == b"%ld".as_slice(),
        None => bytes == b"%d".as_slice() || bytes == b"%ld".as_slice(),
    }
}
