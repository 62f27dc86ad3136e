// The text of a code.
ghost use Rattle.std.specs.Prelude.{◌≡◌, ◌++◌, ◌∷◌, ◌<◌, ◌^◌, [], IfOk, OnOk, drop, length};
ghost use Rattle.std.specs.Fmt.{decimal, signed_decimal};
ghost use Rattle.xmp_instr.specs.Listing.{line, lines, listing, name, operand_text, listed, operator_name, type_name};

use crate::code::NodeCode;
use crate::instr::Instr;
use std::alloc::Global;
use xmp_base::{Bytes, NoMemory};
use xmp_num::{BinOp, Ty, render};

/// What is listed behind the name of an instruction.
#[derive(Clone, Copy)]
pub enum Operands {
    Nothing,
    Value(i64),
    One(u32),
    Two(u32, u32),
    Type(Ty),
    Operator(BinOp, Ty),
}

fn type_name(ty: Ty) -> &'static [u8]
    ensures { result.now ≡ type_name ty }
{
    match ty {
        Ty::Int => b"int",
        Ty::Long => b"long",
    }
}

fn operator_name(op: BinOp) -> &'static [u8]
    ensures { result.now ≡ operator_name op }
{
    match op {
        BinOp::Add => b"add",
        BinOp::Sub => b"sub",
        BinOp::Mul => b"mul",
        BinOp::Div => b"div",
        BinOp::Rem => b"rem",
        BinOp::Shl => b"shl",
        BinOp::Shr => b"shr",
        BinOp::And => b"and",
        BinOp::Or => b"or",
        BinOp::Xor => b"xor",
        BinOp::Less => b"less",
        BinOp::LessEq => b"lesseq",
        BinOp::Greater => b"greater",
        BinOp::GreaterEq => b"greatereq",
        BinOp::Equal => b"equal",
        BinOp::Differ => b"differ",
    }
}

fn name(instr: Instr) -> &'static [u8]
    ensures { result.now ≡ name instr }
{
    match instr {
        Instr::Push(_) => b"push",
        Instr::Drop => b"drop",
        Instr::Dup => b"dup",
        Instr::Load(_) => b"load",
        Instr::Save(_) => b"save",
        Instr::LoadAt(..) => b"loadat",
        Instr::SaveAt(..) => b"saveat",
        Instr::Bound(..) => b"bound",
        Instr::Fold(_) => b"fold",
        Instr::Local(..) => b"local",
        Instr::Bin(..) => b"bin",
        Instr::Conv(_) => b"conv",
        Instr::Jump(_) => b"jump",
        Instr::JumpZero(_) => b"jumpzero",
        Instr::Call(_) => b"call",
        Instr::Return => b"return",
        Instr::Turn => b"turn",
        Instr::Mine(..) => b"mine",
        Instr::NextMine(..) => b"nextmine",
        Instr::Count => b"count",
        Instr::Guard(_) => b"guard",
        Instr::Unguard => b"unguard",
        Instr::Noted => b"noted",
        Instr::Print(_) => b"print",
        Instr::Scan(_) => b"scan",
        Instr::Exchange(_) => b"exchange",
        Instr::Get => b"get",
        Instr::Put => b"put",
        Instr::Sync => b"sync",
        Instr::Lift(_) => b"lift",
        Instr::End => b"end",
    }
}

fn listed(instr: Instr) -> Operands
    ensures { result ≡ listed instr }
{
    match instr {
        Instr::Push(v) => Operands::Value(v),
        Instr::Load(n)
        | Instr::Save(n)
        | Instr::Bound(n, _)
        | Instr::Fold(n)
        | Instr::Jump(n)
        | Instr::JumpZero(n)
        | Instr::Call(n)
        | Instr::Guard(n)
        | Instr::Print(n)
        | Instr::Exchange(n) => Operands::One(n),
        Instr::LoadAt(n, m)
        | Instr::SaveAt(n, m)
        | Instr::Local(n, m)
        | Instr::Mine(n, m)
        | Instr::NextMine(n, m) => Operands::Two(n, m),
        Instr::Conv(ty) | Instr::Scan(ty) => Operands::Type(ty),
        Instr::Bin(op, ty, _) => Operands::Operator(op, ty),
        _ => Operands::Nothing,
    }
}

/// Appends a space and a word.
fn put_word(text: &mut Bytes, word: &[u8]) -> Result<(), NoMemory>
    ensures { OnOk result (text.new ≡ text.old ++ 32 ∷ word.now) }
{
    text.push(b' ')?;
    text.push_all(word)
}

/// Appends a space and a number.
fn put_number(alloc: Global, text: &mut Bytes, v: i64) -> Result<(), NoMemory>
    ensures { OnOk result (text.new ≡ text.old ++ 32 ∷ signed_decimal v) }
{
    text.push(b' ')?;
    render(alloc, text, v, 0)
}

fn put_two(alloc: Global, text: &mut Bytes, n: u32, m: u32) -> Result<(), NoMemory>
    ensures { OnOk result (text.new ≡ text.old ++ operand_text (Operands.Two n m)) }
{
    put_number(alloc, text, i64::from(n))?;
    put_number(alloc, text, i64::from(m))
}

fn put_operator(text: &mut Bytes, op: BinOp, ty: Ty) -> Result<(), NoMemory>
    ensures { OnOk result (text.new ≡ text.old ++ operand_text (Operands.Operator op ty)) }
{
    put_word(text, operator_name(op))?;
    put_word(text, type_name(ty))
}

fn put_operands(alloc: Global, text: &mut Bytes, all: Operands) -> Result<(), NoMemory>
    ensures { OnOk result (text.new ≡ text.old ++ operand_text all) }
{
    match all {
        Operands::Nothing => Ok(()),
        Operands::Value(v) => put_number(alloc, text, v),
        Operands::One(n) => put_number(alloc, text, i64::from(n)),
        Operands::Two(n, m) => put_two(alloc, text, n, m),
        Operands::Type(ty) => put_word(text, type_name(ty)),
        Operands::Operator(op, ty) => put_operator(text, op, ty),
    }
}

fn put_line(alloc: Global, text: &mut Bytes, number: usize, instr: Instr) -> Result<(), NoMemory>
    requires { number < 2 ^ 63 }
    ensures { OnOk result (text.new ≡ text.old ++ line number instr) }
{
    render(alloc, text, number as i64, 0)?;
    put_word(text, name(instr))?;
    put_operands(alloc, text, listed(instr))?;
    text.push(b'\n')
}

/// The text of a code: a line for each instruction, with its number, its name and its operands.
pub fn list(alloc: Global, code: &NodeCode) -> Result<Bytes, NoMemory>
    ensures { IfOk result (λ text. text ≡ listing code.now.instrs) }
{
    let instrs = code.parts().instrs.as_slice();
    let mut text = Bytes::new(alloc);
    'lines: for (k, instr) in instrs.iter().enumerate() {
        put_line(alloc, &mut text, k, *instr)?;
    }
    Ok(text)
}
