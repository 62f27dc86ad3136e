// What `printf` writes.
ghost use Rattle.std.specs.Prelude.{◌≡◌, ◌+◌, ◌*◌, ◌++◌, ◌∷◌, ℕ, List, IfOk, IfSome, OnErr, OnOk, true};
ghost use Rattle.std.specs.Char.{digit_value, is_ascii_digit};
ghost use Rattle.xmp_num.specs.declared.types.Ty.{Ty};
ghost use Rattle.xmp_prog.specs.Formats.{Piece, Number};
ghost use Rattle.xmp_meaning.specs.Formats.{printed, text_of};
ghost use Rattle.xmp_print.specs.Printing.{text_from};

use std::alloc::Global;
use xmp_base::{Bytes, NoMemory};
use xmp_num::render;

/// How far a format is read: inside a conversion the width so far; and the values that are left.
#[derive(Clone, Copy)]
struct Printing<'a> {
    width: Option<u32>,
    values: &'a [i64],
}

/// Appends what a format writes for these values, or appends nothing. Want of memory is answered also for a width above 255, which
/// no format of a program has.
pub fn print(alloc: Global, out: &mut Bytes, format: &[u8], values: &[i64]) -> Result<(), NoMemory>
    ensures ok { OnOk result (out.new ≡ out.old ++ printed format.now values.now) }
    ensures err { OnErr result (out.new ≡ out.old) }
{
    let mut text = Bytes::new(alloc);
    print_onto(alloc, &mut text, format, values)?;
    out.push_all(text.as_slice())
}

/// Appends what a format writes for these values; want of memory may leave a part of it written.
fn print_onto(alloc: Global, out: &mut Bytes, format: &[u8], values: &[i64]) -> Result<(), NoMemory>
    ensures { OnOk result (out.new ≡ out.old ++ printed format.now values.now) }
{
    let mut width = None;
    let mut left = values;
    'bytes: for b in format {
        let next = print_byte(
            alloc,
            out,
            *b,
            Printing {
                width,
                values: left,
            },
        )?;
        width = next.width;
        left = next.values;
    }
    Ok(())
}

fn print_byte<'a>(
    alloc: Global,
    out: &mut Bytes,
    b: u8,
    at: Printing<'a>,
) -> Result<Printing<'a>, NoMemory>
    ensures { IfOk result (λ next. (bs : List ℕ) → out.old ++ text_from at.entry.width (b ∷ bs) at.entry.values.now ≡ out.new ++ text_from next.width bs next.values.now) }
{
    match at.width {
        None => print_outside(out, b, at.values),
        Some(width) => print_inside(alloc, out, width, b, at.values),
    }
}

fn print_outside<'a>(out: &mut Bytes, b: u8, values: &'a [i64]) -> Result<Printing<'a>, NoMemory>
    ensures { IfOk result (λ next. (bs : List ℕ) → out.old ++ text_from None (b ∷ bs) values.now ≡ out.new ++ text_from next.width bs next.values.now) }
{
    if b == b'%' {
        return Ok(Printing {
            width: Some(0),
            values,
        });
    }
    out.push(b)?;
    Ok(Printing {
        width: None,
        values,
    })
}

fn print_inside<'a>(
    alloc: Global,
    out: &mut Bytes,
    width: u32,
    b: u8,
    values: &'a [i64],
) -> Result<Printing<'a>, NoMemory>
    ensures { IfOk result (λ next. (bs : List ℕ) → out.old ++ text_from (Some width) (b ∷ bs) values.now ≡ out.new ++ text_from next.width bs next.values.now) }
{
    if b.is_ascii_digit() {
        return match wider(width, b) {
            Some(width) => Ok(Printing {
                width: Some(width),
                values,
            }),
            None => Err(NoMemory),
        };
    }
    if b == b'l' {
        return Ok(Printing {
            width: Some(width),
            values,
        });
    }
    if b == b'%' {
        out.push(b)?;
        return Ok(Printing {
            width: None,
            values,
        });
    }
    let values = print_number(alloc, out, width, values)?;
    Ok(Printing {
        width: None,
        values,
    })
}

fn wider(width: u32, digit: u8) -> Option<u32>
    requires { is_ascii_digit digit ≡ true }
    ensures { IfSome result (λ w. w ≡ width * 10 + digit_value digit) }
{
    width.checked_mul(10)?.checked_add(u32::from(digit - b'0'))
}

/// Appends the next value, where one is left, and gives those behind it.
#[tactic(auto, using(std::proofs::lemmas::List::nil_from_length))]
fn print_number<'a>(
    alloc: Global,
    out: &mut Bytes,
    width: u32,
    values: &'a [i64],
) -> Result<&'a [i64], NoMemory>
    ensures { IfOk result (λ behind. (ty : Ty) (ps : List Piece) → out.old ++ text_of (Number width ty ∷ ps) values.now ≡ out.new ++ text_of ps behind.now) }
{
    let Some((value, behind)) = values.split_first() else {
        return Ok(values);
    };
    if width > 255 {
        return Err(NoMemory);
    }
    render(alloc, out, *value, width)?;
    Ok(behind)
}
