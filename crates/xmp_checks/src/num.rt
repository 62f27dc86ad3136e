// Operators, text and reductions beside C.

use std::alloc::Global;
use std::fmt::Write;
use std::test::Fail;
use xmp_base::Bytes;
use xmp_num::{BinOp, RedOp, Ty, binary, combine, convert, render, scan, unit};

const OPERATORS: [BinOp; 16] = [
    BinOp::Add,
    BinOp::Sub,
    BinOp::Mul,
    BinOp::Div,
    BinOp::Rem,
    BinOp::Shl,
    BinOp::Shr,
    BinOp::And,
    BinOp::Or,
    BinOp::Xor,
    BinOp::Less,
    BinOp::LessEq,
    BinOp::Greater,
    BinOp::GreaterEq,
    BinOp::Equal,
    BinOp::Differ,
];

// A type and two operands, and what + - * / % << >> & | ^ < <= > >= == != give for them: the values are those
// of a C program (gcc -fwrapv, int32_t and int64_t); `Zero` and `Shift` stand where C has none.
const IN_C: &str = "\
Int -2147483648 -1 = 2147483647 -2147483647 -2147483648 -2147483648 0 Shift Shift -2147483648 -1 2147483647 1 1 0 0 0 1\n\
Int -2147483648 -2147483648 = 0 0 0 1 0 Shift Shift -2147483648 -2147483648 0 0 1 0 1 1 0\n\
Int -2147483648 2147483647 = -1 1 -2147483648 -1 -1 Shift Shift 0 -1 -1 1 1 0 0 0 1\n\
Int 2147483647 1 = -2147483648 2147483646 2147483647 2147483647 0 -2 1073741823 1 2147483647 2147483646 0 0 1 1 0 1\n\
Int 2147483647 2147483647 = -2 0 1 1 0 Shift Shift 2147483647 2147483647 0 0 1 0 1 1 0\n\
Int -7 2 = -5 -9 -14 -3 -1 -28 -2 0 -5 -5 1 1 0 0 0 1\n\
Int 7 -2 = 5 9 -14 -3 1 Shift Shift 6 -1 -7 0 0 1 1 0 1\n\
Int -7 -2 = -9 -5 14 3 -1 Shift Shift -8 -1 7 1 1 0 0 0 1\n\
Int 1 31 = 32 -30 31 0 1 -2147483648 0 1 31 30 1 1 0 0 0 1\n\
Int -2147483648 31 = -2147483617 2147483617 -2147483648 -69273666 -2 0 -1 0 -2147483617 -2147483617 1 1 0 0 0 1\n\
Int -1 31 = 30 -32 -31 0 -1 -2147483648 -1 31 -1 -32 1 1 0 0 0 1\n\
Int 1 32 = 33 -31 32 0 1 Shift Shift 0 33 33 1 1 0 0 0 1\n\
Int 5 0 = 5 5 0 Zero Zero 5 5 0 5 5 0 0 1 1 0 1\n\
Int 65537 65535 = 131072 2 -1 1 2 Shift Shift 1 131071 131070 0 0 1 1 0 1\n\
Long -9223372036854775808 -1 = 9223372036854775807 -9223372036854775807 -9223372036854775808 -9223372036854775808 0 Shift Shift -9223372036854775808 -1 9223372036854775807 1 1 0 0 0 1\n\
Long -9223372036854775808 -9223372036854775808 = 0 0 0 1 0 Shift Shift -9223372036854775808 -9223372036854775808 0 0 1 0 1 1 0\n\
Long -9223372036854775808 9223372036854775807 = -1 1 -9223372036854775808 -1 -1 Shift Shift 0 -1 -1 1 1 0 0 0 1\n\
Long 9223372036854775807 1 = -9223372036854775808 9223372036854775806 9223372036854775807 9223372036854775807 0 -2 4611686018427387903 1 9223372036854775807 9223372036854775806 0 0 1 1 0 1\n\
Long 9223372036854775807 9223372036854775807 = -2 0 1 1 0 Shift Shift 9223372036854775807 9223372036854775807 0 0 1 0 1 1 0\n\
Long -7 2 = -5 -9 -14 -3 -1 -28 -2 0 -5 -5 1 1 0 0 0 1\n\
Long 7 -2 = 5 9 -14 -3 1 Shift Shift 6 -1 -7 0 0 1 1 0 1\n\
Long -7 -2 = -9 -5 14 3 -1 Shift Shift -8 -1 7 1 1 0 0 0 1\n\
Long 1 63 = 64 -62 63 0 1 -9223372036854775808 0 1 63 62 1 1 0 0 0 1\n\
Long -9223372036854775808 63 = -9223372036854775745 9223372036854775745 -9223372036854775808 -146402730743726600 -8 0 -1 0 -9223372036854775745 -9223372036854775745 1 1 0 0 0 1\n\
Long -1 63 = 62 -64 -63 0 -1 -9223372036854775808 -1 63 -1 -64 1 1 0 0 0 1\n\
Long 1 64 = 65 -63 64 0 1 Shift Shift 0 65 65 1 1 0 0 0 1\n\
Long 1 32 = 33 -31 32 0 1 4294967296 0 0 33 33 1 1 0 0 0 1\n\
Long 5 0 = 5 5 0 Zero Zero 5 5 0 5 5 0 0 1 1 0 1\n\
Long 4294967297 4294967295 = 8589934592 2 -1 1 2 Shift Shift 1 8589934591 8589934590 0 0 1 1 0 1\n";

// The row of a type and two operands, as it stands in the table.
fn row_of(alloc: Global, ty: Ty, a: i64, b: i64) -> Result<String, Fail> {
    let mut row = String::new(alloc);
    write!(row, "{ty:?} {a} {b} =")?;
    for op in OPERATORS {
        match binary(op, ty, a, b) {
            Ok(value) => write!(row, " {value}")?,
            Err(kind) => write!(row, " {kind:?}")?,
        }
    }
    Ok(row)
}

#[test]
fn operators_agree_with_c(rt: HostRuntime) -> Result<(), Fail> {
    for line in IN_C.lines() {
        let mut words = line.split(' ');
        let ty = match words.next() {
            Some("Int") => Ty::Int,
            _ => Ty::Long,
        };
        let a = words.next().unwrap_or("").parse::<i64>()?;
        let b = words.next().unwrap_or("").parse::<i64>()?;
        let row = row_of(rt.alloc(), ty, a, b)?;
        assert_eq!(rt; row.as_str(), line);
    }
    Ok(())
}

#[test]
fn text_agrees_with_c(rt: HostRuntime) -> Result<(), Fail> {
    // what sscanf with %d or %ld gives, where it reads a number that fits
    let read: [(&[u8], Ty, Option<i64>, usize); 12] = [
        (b"  -7x", Ty::Int, Some(-7), 4),
        (b" \t\n\x0b\x0c\r+12 ", Ty::Int, Some(12), 9),
        (b"007", Ty::Long, Some(7), 3),
        (
            b"9223372036854775807",
            Ty::Long,
            Some(9223372036854775807),
            19,
        ),
        (b"4294967297", Ty::Int, Some(1), 10),
        (b"2147483648", Ty::Int, Some(-2147483648), 10),
        (b"-2147483649", Ty::Int, Some(2147483647), 11),
        (b"18446744073709551617", Ty::Long, Some(1), 20),
        (b"-x", Ty::Int, None, 1),
        (b"+-5", Ty::Int, None, 1),
        (b"  x", Ty::Int, None, 2),
        (b"", Ty::Int, None, 0),
    ];
    for (input, ty, value, next) in read {
        assert_eq!(rt; scan(input, 0, ty), (value, next), "{input:?}");
    }
    // what sprintf with %*ld gives
    let written: [(i64, u32, &[u8]); 5] = [
        (7, 3, b"  7"),
        (-7, 3, b" -7"),
        (0, 0, b"0"),
        (123, 2, b"123"),
        (i64::MIN, 25, b"     -9223372036854775808"),
    ];
    for (value, width, expected) in written {
        let mut out = Bytes::new(rt.alloc());
        render(rt.alloc(), &mut out, value, width)?;
        assert_eq!(rt; out.as_slice(), expected, "{value} {width}");
    }
    Ok(())
}

#[test]
fn reductions_and_conversion(rt: HostRuntime) {
    let cases = [
        (RedOp::Add, -2147483648, 0),
        (RedOp::Mul, 2147483647, 1),
        (RedOp::And, 1, -1),
        (RedOp::Or, 2147483647, 0),
        (RedOp::Xor, 2147483646, 0),
        (RedOp::Max, 2147483647, -2147483648),
        (RedOp::Min, 1, 2147483647),
    ];
    for (op, value, start) in cases {
        assert_eq!(rt; combine(op, Ty::Int, 2147483647, 1), value, "{op:?}");
        assert_eq!(rt; unit(op, Ty::Int), start, "{op:?}");
    }
    assert_eq!(rt; convert(4294967295, Ty::Int), -1);
    assert_eq!(rt; convert(i64::MIN, Ty::Long), i64::MIN);
}
