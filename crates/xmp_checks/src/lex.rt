// Tokens and macros: marks and reserved words are shown by the names of their variants.

use std::alloc::Global;
use std::fmt::Write;
use std::test::Fail;
use xmp_base::{Fault, Phase, SOURCE_LIMIT};
use xmp_lex::{Token, TokenKind, expand, lex};
use xmp_num::Ty;

// Texts, and their tokens with their places, or the rule that they break.
const LEXED: &[(&[u8], &str)] = &[
    (b"", "Finish@1:1"),
    (b"a+++b", "a@1:1 Increment@1:2 Plus@1:4 b@1:5 Finish@1:6"),
    (
        b"x<<=y>>z",
        "x@1:1 ShlAssign@1:2 y@1:5 ShiftRight@1:6 z@1:8 Finish@1:9",
    ),
    (
        b"int x1_;\n\treturn",
        "Int@1:1 x1_@1:5 Semicolon@1:8 Return@2:2 Finish@2:8",
    ),
    (
        b"0 07 0x1f 2147483647 2147483648 1l 0L 9223372036854775807",
        "0@1:1 7@1:3 31@1:6 2147483647@1:11 2147483648L@1:22 1L@1:33 0L@1:36 9223372036854775807L@1:39 Finish@1:58",
    ),
    (
        b"0x7FFFFFFF 0xffffffff 037777777777",
        "2147483647@1:1 4294967295L@1:12 4294967295L@1:23 Finish@1:35",
    ),
    (
        b"\"a\\n\\t\\\\\\\"b\";",
        "\"a\n\t\\\"b\"@1:1 Semicolon@1:13 Finish@1:14",
    ),
    (b"a/* b\n*/c//d\ne", "a@1:1 c@2:3 e@3:1 Finish@3:2"),
    (
        b"a/**/b/***/c/* * */d",
        "a@1:1 b@1:6 c@1:12 d@1:20 Finish@1:21",
    ),
    (b"a//b\\\nc", "a@1:1 c@2:1 Finish@2:2"),
    (
        b"#define N 8\nN",
        "Define:N@1:9 8@1:11 Close@1:12 N@2:1 Finish@2:2",
    ),
    (b"#define N", "Define:N@1:9 Close@1:10 Finish@1:10"),
    (
        b"#define N (1)",
        "Define:N@1:9 OpenParen@1:11 1@1:12 CloseParen@1:13 Close@1:14 Finish@1:14",
    ),
    (
        b" # /**/ pragma xmp nodes p[4]\n",
        "Pragma@1:2 nodes@1:20 p@1:26 OpenBracket@1:27 4@1:28 CloseBracket@1:29 Close@1:30 Finish@2:1",
    ),
    (
        b"#include <a \"b>\n#pragma omp \\\n 08 \"\nx",
        "x@4:1 Finish@4:2",
    ),
    (b"#pragma once /* \n 08 */ 08\ny", "y@3:1 Finish@3:2"),
    (
        b"#define N 1 \\\n + \\\r\n 2\nN",
        "Define:N@1:9 1@1:11 Plus@2:2 2@3:2 Close@3:3 N@4:1 Finish@4:2",
    ),
    (
        b"#define N 1 // c \\\n 2\nN",
        "Define:N@1:9 1@1:11 2@2:2 Close@2:3 N@3:1 Finish@3:2",
    ),
    (
        b"/* \n */ #define N\n",
        "Define:N@2:13 Close@2:14 Finish@3:1",
    ),
    (b"a /* \n */ #define N", "L1 at 2:5"),
    (b"a $", "L1 at 1:3"),
    (b"a # b", "L1 at 1:3"),
    (b"\"a\\q\"", "L1 at 1:3"),
    (b"a\\\n", "L1 at 1:2"),
    (b"#define N #", "L1 at 1:11"),
    (b"/* x", "L2 at 1:1"),
    (b"#pragma /* x", "L2 at 1:9"),
    (b"x\n # /**/ pragma /* */ /* x\n", "L2 at 2:22"),
    (b"#pragma xmp /* x", "L2 at 1:13"),
    (b"# /* x", "L6 at 1:1"),
    (b"#include /* x", "L6 at 1:1"),
    (b"#pragmatic\n#pragma", "L6 at 1:1"),
    (b"#pragma", "Finish@1:8"),
    (b"#pragma\\\n xmpx 08\n;", "Semicolon@3:1 Finish@3:2"),
    (b"a /*/", "L2 at 1:3"),
    (b"#include <a> /*", "L2 at 1:14"),
    (b"#define N /*", "L2 at 1:11"),
    (b"\"abc", "L3 at 1:1"),
    (b"x \"a\nb\"", "L3 at 1:3"),
    (b"\"a\\\n\"", "L3 at 1:1"),
    (b"\"\\q", "L3 at 1:1"),
    (b"08", "L4 at 1:1"),
    (b"a 1x", "L4 at 1:3"),
    (b"0X1F", "L4 at 1:1"),
    (b"0x", "L4 at 1:1"),
    (b"1LL", "L4 at 1:1"),
    (b"9223372036854775808", "L4 at 1:1"),
    (b"#def", "L6 at 1:1"),
    (b" #else", "L6 at 1:2"),
    (b"#", "L6 at 1:1"),
    (b"#define int 3", "L6 at 1:1"),
    (b"#define F(x) x", "L6 at 1:1"),
    (b"#define 8", "L6 at 1:1"),
    (b"#include \"a\"", "L6 at 1:1"),
    (b";\n#define /* x", "L6 at 2:1"),
];

// Texts, and what their macros come to.
const EXPANDED: &[(&[u8], &str)] = &[
    (b"#define A B A\n#define B A\nA", "A@3:1 A@3:1 Finish@3:2"),
    (b"#define N 8\nN+N", "8@2:1 Plus@2:2 8@2:3 Finish@2:4"),
    (b"#define A B\n#define B \"b\"\n A", "\"b\"@3:2 Finish@3:3"),
    (
        b"#define A B B\n#define B A 1\nA;",
        "A@3:1 1@3:1 A@3:1 1@3:1 Semicolon@3:2 Finish@3:3",
    ),
    (b"N\n#define N 1\nN", "N@1:1 1@3:1 Finish@3:2"),
    (b"#define N\nN;", "Semicolon@2:2 Finish@2:3"),
    (
        b"#define N 4\n#pragma xmp nodes p[N]\n",
        "Pragma@2:1 nodes@2:13 p@2:19 OpenBracket@2:20 4@2:21 CloseBracket@2:22 Close@2:23 Finish@3:1",
    ),
    (b"#define N 1\n#define N 1", "E1 at 2:9"),
    (b"#define A\n#define B A\n  #define A 2\nB", "E1 at 3:11"),
];

fn show(row: &mut String, bytes: &[u8]) -> Result<(), Fail> {
    for byte in bytes {
        row.push(char::from(*byte))?;
    }
    Ok(())
}

fn show_kind(row: &mut String, kind: &TokenKind) -> Result<(), Fail> {
    match kind {
        TokenKind::Name(name) => show(row, name.as_slice())?,
        TokenKind::Word(word) => write!(row, "{word:?}")?,
        TokenKind::Number(value, Ty::Int) => write!(row, "{value}")?,
        TokenKind::Number(value, Ty::Long) => write!(row, "{value}L")?,
        TokenKind::Text(text) => {
            row.push('"')?;
            show(row, text.as_slice())?;
            row.push('"')?;
        }
        TokenKind::Mark(mark) => write!(row, "{mark:?}")?,
        TokenKind::Define(name) => {
            row.push_str("Define:")?;
            show(row, name.as_slice())?;
        }
        TokenKind::Pragma => row.push_str("Pragma")?,
        TokenKind::Close => row.push_str("Close")?,
        TokenKind::Finish => row.push_str("Finish")?,
    }
    Ok(())
}

fn show_tokens(row: &mut String, tokens: &[Token]) -> Result<(), Fail> {
    for token in tokens {
        if !row.is_empty() {
            row.push(' ')?;
        }
        show_kind(row, &token.kind)?;
        write!(row, "@{}:{}", token.at.line, token.at.column)?;
    }
    Ok(())
}

fn show_fault(row: &mut String, fault: Fault) -> Result<(), Fail> {
    match fault {
        Fault::NoMemory => row.push_str("no memory")?,
        Fault::Refused(refusal) => {
            let letter = if refusal.phase == Phase::Lex {
                'L'
            } else {
                'E'
            };
            let (rule, at) = (refusal.rule, refusal.at);
            write!(row, "{letter}{rule} at {}:{}", at.line, at.column)?;
        }
    }
    Ok(())
}

fn show_lexed(alloc: Global, text: &[u8]) -> Result<String, Fail> {
    if text.len() > SOURCE_LIMIT {
        return Ok(String::new(alloc));
    }
    let mut row = String::new(alloc);
    match lex(alloc, text) {
        Err(fault) => show_fault(&mut row, fault)?,
        Ok(tokens) => show_tokens(&mut row, tokens.as_slice())?,
    }
    Ok(row)
}

fn show_expanded(alloc: Global, text: &[u8]) -> Result<String, Fail> {
    if text.len() > SOURCE_LIMIT {
        return Ok(String::new(alloc));
    }
    let mut row = String::new(alloc);
    match lex(alloc, text) {
        Err(fault) => show_fault(&mut row, fault)?,
        Ok(tokens) => match expand(alloc, tokens) {
            Err(fault) => show_fault(&mut row, fault)?,
            Ok(expanded) => show_tokens(&mut row, expanded.as_slice())?,
        },
    }
    Ok(row)
}

fn repeated(alloc: Global, piece: &str, count: usize) -> Result<String, Fail> {
    let mut text = String::new(alloc);
    for _ in 0..count {
        text.push_str(piece)?;
    }
    Ok(text)
}

const LETTERS: &[u8; 52] = b"ABCDEFGHIJKLMNOPQRSTUVWXYZabcdefghijklmnopqrstuvwxyz";

/// The name of a number below 52 * 52 * 52.
fn push_name(text: &mut String, number: usize) -> Result<(), Fail> {
    for digit in [number / 2704, number / 52, number] {
        text.push(char::from(LETTERS[digit % 52]))?;
    }
    Ok(())
}

/// A text that defines the first name as a mark, and each further name by so many of the one before.
fn defined(alloc: Global, names: usize, each: usize) -> Result<String, Fail> {
    let mut text = String::new(alloc);
    text.push_str("#define AAA ;")?;
    for i in 1..names {
        text.push_str("\n#define ")?;
        push_name(&mut text, i)?;
        for _ in 0..each {
            text.push(' ')?;
            push_name(&mut text, i - 1)?;
        }
    }
    Ok(text)
}

#[test]
fn tokens_of_texts(rt: HostRuntime) -> Result<(), Fail> {
    for (text, expected) in LEXED {
        let row = show_lexed(rt.alloc(), text)?;
        assert_eq!(rt; row.as_str(), *expected, "{text:?}");
    }
    Ok(())
}

#[test]
fn macros_of_texts(rt: HostRuntime) -> Result<(), Fail> {
    for (text, expected) in EXPANDED {
        let row = show_expanded(rt.alloc(), text)?;
        assert_eq!(rt; row.as_str(), *expected, "{text:?}");
    }
    Ok(())
}

#[test]
fn limits(rt: HostRuntime) -> Result<(), Fail> {
    let lexed = [
        (";", 200000, "", "L5 at 1:200001"),
        (";", 200001, "", "L5 at 1:200001"),
        (";", 200000, "08", "L4 at 1:200001"),
        (";", 199998, "\n#define N", "L5 at 2:10"),
        (";", 199999, "\n#pragma xmp", "L5 at 2:12"),
        ("{ }", 100000, " ", "L5 at 1:300002"),
    ];
    for (piece, count, end, expected) in lexed {
        let mut text = repeated(rt.alloc(), piece, count)?;
        text.push_str(end)?;
        let row = show_lexed(rt.alloc(), text.as_bytes())?;
        assert_eq!(rt; row.as_str(), expected, "{count} {end}");
    }
    // so many names, each defined by so many of the one before, and so many uses of the last, one a line, with spaces
    // behind them up to the greatest size of a source
    let expanded = [
        (31, 2, 1, "E2 at 32:1"),
        (60000, 1, 1, "Semicolon@60001:1 Finish@60001:88579"),
        (60000, 1, 4, "E2 at 60004:1"),
        (
            60000,
            1,
            3,
            "Semicolon@60001:1 Semicolon@60002:1 Semicolon@60003:1 Finish@60003:88571",
        ),
    ];
    for (names, each, uses, expected) in expanded {
        let mut text = defined(rt.alloc(), names, each)?;
        for _ in 0..uses {
            text.push('\n')?;
            push_name(&mut text, names - 1)?;
        }
        for _ in text.len()..SOURCE_LIMIT {
            text.push(' ')?;
        }
        let row = show_expanded(rt.alloc(), text.as_bytes())?;
        assert_eq!(rt; row.as_str(), expected, "{names} {each} {uses}");
    }
    Ok(())
}
