// How deep the parts of a text may stand in one another.
use crate::texts::{broken, push_source, write_answer};
use std::alloc::Global;
use std::fmt::Write;
use std::test::Fail;

// A beginning, a piece that opens a part, how often, the middle, a piece that closes one, and the end, with what the
// text breaks: `-` for nothing, else the rule with line and column. `$` stands for the end of a line.
const NESTED: &str = "\
int x = @(@128@1@)@;int main(){} => -\n\
int x = @(@129@1@)@;int main(){} => S2 1:137\n\
int x = @a[@128@1@]@;int main(){} => -\n\
int x = @a[@129@1@]@;int main(){} => S2 1:266\n\
int x = @f(@128@1@)@;int main(){} => -\n\
int x = @f(@129@1@)@;int main(){} => S2 1:266\n\
int x = @a:[@128@1@]@;int main(){} => -\n\
int x = @a:[@129@1@]@;int main(){} => S2 1:395\n\
int x = @- @128@1@@;int main(){} => -\n\
int x = @- @129@1@@;int main(){} => S2 1:265\n\
int x = @(int)@127@1@@;int main(){} => -\n\
int x = @(int)@128@1@@;int main(){} => -\n\
int x = @(int)@129@1@@;int main(){} => S2 1:649\n\
int x = 1@+1@128@@@;int main(){} => -\n\
int x = 1@+1@129@@@;int main(){} => S2 1:266\n\
int x = @1?1:@64@1@@;int main(){} => -\n\
int x = @1?1:@65@1@@;int main(){} => S2 1:266\n\
int x = @1?@64@1@:1@;int main(){} => -\n\
int x = @1?@65@1@:1@;int main(){} => S2 1:266\n\
int main()@{@128@@}@ => -\n\
int main()@{@129@@}@ => S2 1:139\n\
int main(){@while(1)@126@;@@} => -\n\
int main(){@while(1)@127@;@@} => S2 1:1025\n\
int main(){@if(1)@126@;@@} => -\n\
int main(){@if(1)@127@;@@} => S2 1:644\n\
int main(){@for(;;)@126@;@@} => -\n\
int main(){@for(;;)@127@;@@} => S2 1:897\n\
int main(){@if(1);else @126@;@@} => -\n\
int main(){ x = 1@+1@127@@@;} => -\n\
int main(){ x = 1@+1@128@@@;} => S2 1:272\n\
int x = 1@+f(1+1+1+1,2+2)@60@@@;int main(){} => -\n\
int main(){ f(1@+1@126@@@,1+1);} => -\n\
";

const NESTED_STATEMENTS: &str = "\
int main(){@if(1);else @127@;@@} => S2 1:1400\n\
int main(){@$#pragma xmp loop on t[*]$for(;;)@63@;@@} => -\n\
int main(){@$#pragma xmp loop on t[*]$for(;;)@64@;@@} => S2 128:22\n\
int main(){@$#pragma xmp task on p[0]@126@$;@@} => -\n\
int main(){@$#pragma xmp task on p[0]@127@$;@@} => S2 128:22\n\
int main(){@$#pragma xmp tasks${$#pragma xmp task on p[0]$@42@;@}@} => -\n\
int main(){@$#pragma xmp tasks${$#pragma xmp task on p[0]$@43@;@}@} => S2 171:1\n\
";

fn repeat(text: &mut String, piece: &str, count: usize) -> Result<(), Fail> {
    for _ in 0..count {
        text.push_str(piece)?;
    }
    Ok(())
}

/// So many pieces one in another, between a beginning and an end.
fn nested(
    alloc: Global,
    begin: &str,
    open: &str,
    count: usize,
    middle: &str,
    close: &str,
    end: &str,
) -> Result<String, Fail> {
    let mut text = String::new(alloc);
    push_source(&mut text, begin)?;
    let mut piece = String::new(alloc);
    push_source(&mut piece, open)?;
    repeat(&mut text, piece.as_str(), count)?;
    push_source(&mut text, middle)?;
    repeat(&mut text, close, count)?;
    push_source(&mut text, end)?;
    Ok(text)
}

/// The text that the six parts of a row tell.
fn text_of(alloc: Global, source: &str) -> Result<String, Fail> {
    let mut parts = source.split('@');
    let begin = parts.next().unwrap_or("");
    let open = parts.next().unwrap_or("");
    let count = parts.next().unwrap_or("").parse::<usize>()?;
    let middle = parts.next().unwrap_or("");
    let close = parts.next().unwrap_or("");
    let end = parts.next().unwrap_or("");
    nested(alloc, begin, open, count, middle, close, end)
}

/// The rows whose answers are others, with those answers.
fn wrong_depths(alloc: Global, table: &str) -> Result<String, Fail> {
    let mut wrong = String::new(alloc);
    for line in table.lines() {
        let source = match line.split_once(" => ") {
            Some((source, _answer)) => source,
            None => line,
        };
        let text = text_of(alloc, source)?;
        let mut row = String::new(alloc);
        write!(row, "{source} => ")?;
        write_answer(&mut row, alloc, text.as_str())?;
        if row.as_str() != line {
            wrong.push_str(row.as_str())?;
            wrong.push('\n')?;
        }
    }
    Ok(wrong)
}

#[test]
fn depth_is_limited(rt: HostRuntime) -> Result<(), Fail> {
    let wrong = wrong_depths(rt.alloc(), NESTED)?;
    assert_eq!(rt; wrong.as_str(), "");
    Ok(())
}

#[test]
fn depth_of_statements_is_limited(rt: HostRuntime) -> Result<(), Fail> {
    let wrong = wrong_depths(rt.alloc(), NESTED_STATEMENTS)?;
    assert_eq!(rt; wrong.as_str(), "");
    Ok(())
}

// What counts nothing: 200 of each stand one behind another, and none in another.
const SHALLOW: &str = "\
int x@, y@; int main(){}\n\
int main(){ printf(\"\"@, 1@);}\n\
int main(){ x = f(1@, 1 + 1@);}\n\
int main(){@if(1);@}\n\
int main(){@for(i = 0 + 1; i < 2; i += 1);@}\n\
int main(){@++x; x--;@}\n\
int main(){@x = 1 + 1;@}\n\
int main(){@scanf(\"%d\", &x);@}\n\
int main(){$#pragma xmp loop on t[i]@ reduction(+:x)@$for(;;);$}\n\
$#pragma xmp nodes p(1 + 1@, 1 + 1@)$int main(){}\n\
$#pragma xmp template t(0 + 1:1@, 0 + 1:1@)$int main(){}\n\
$#pragma xmp align a[i] with t(i + 1@, i - 1@)$int main(){}\n\
int main(){$#pragma xmp task on p(1 + 1:2@, 1 + 1:2@)$; }\n\
";

/// The rows that are no programs.
fn refused_rows(alloc: Global, table: &str) -> Result<String, Fail> {
    let mut wrong = String::new(alloc);
    for line in table.lines() {
        let mut parts = line.split('@');
        let begin = parts.next().unwrap_or("");
        let piece = parts.next().unwrap_or("");
        let end = parts.next().unwrap_or("");
        let text = nested(alloc, begin, piece, 200, "", "", end)?;
        if broken(alloc, text.as_bytes()).is_some() {
            wrong.push_str(line)?;
            wrong.push('\n')?;
        }
    }
    Ok(wrong)
}

#[test]
fn what_ends_or_is_no_part_counts_nothing(rt: HostRuntime) -> Result<(), Fail> {
    let wrong = refused_rows(rt.alloc(), SHALLOW)?;
    assert_eq!(rt; wrong.as_str(), "");
    Ok(())
}

// How many parentheses may stand around the number: the limit less what is open around them. The text up to the first
// of them, the one that follows, and how many are open there.
const ROOM: &str = "\
$#pragma xmp align a[i] with t[i + @]$int main(){}@2\n\
$#pragma xmp distribute t[gblock({1, @})] onto p$int main(){}@3\n\
int main(){ for(; @;); }@3\n\
int main(){ for(i = 1 + 1; @;); }@3\n\
int main(){ printf(\"\", 1 + 1, @); }@2\n\
int x = 1 + 1, y = @; int main(){}@0\n\
int main(){ x += @; }@1\n\
int main(){ ++x; x = @; }@1\n\
int main(){$#pragma xmp loop on t[i - @] reduction(+:x)$for(;;); }@4\n\
$#pragma xmp align a[i] with t(j, i + @)$int main(){}@2\n\
$#pragma xmp distribute t(*, gblock({1, @})) onto p$int main(){}@3\n\
$#pragma xmp template t(4, 0:@)$int main(){}@1\n\
$#pragma xmp nodes q(@) = p$int main(){}@1\n\
int main(){$#pragma xmp task on p(1, 2:@)$; }@3\n\
int main(){$#pragma xmp loop on t(i - @) reduction(+:x)$for(;;); }@4\n\
";

/// What breaks where so many parentheses stand around a number: the rule, or 0.
fn rule_of(alloc: Global, begin: &str, count: usize, end: &str) -> Result<u16, Fail> {
    let text = nested(alloc, begin, "(", count, "1", ")", end)?;
    match broken(alloc, text.as_bytes()) {
        Some((rule, _, _)) => Ok(rule),
        None => Ok(0),
    }
}

/// The rows where one parenthesis more or less than the limit says is too deep.
fn wrong_rooms(alloc: Global, table: &str) -> Result<String, Fail> {
    let mut wrong = String::new(alloc);
    for line in table.lines() {
        let mut parts = line.split('@');
        let begin = parts.next().unwrap_or("");
        let end = parts.next().unwrap_or("");
        let open = parts.next().unwrap_or("").parse::<usize>()?;
        let fits = 128_usize.saturating_sub(open);
        let more = 129_usize.saturating_sub(open);
        if rule_of(alloc, begin, fits, end)? != 0 || rule_of(alloc, begin, more, end)? != 2 {
            wrong.push_str(line)?;
            wrong.push('\n')?;
        }
    }
    Ok(wrong)
}

#[test]
fn what_is_open_around_a_number_takes_of_its_depth(rt: HostRuntime) -> Result<(), Fail> {
    let wrong = wrong_rooms(rt.alloc(), ROOM)?;
    assert_eq!(rt; wrong.as_str(), "");
    Ok(())
}

#[test]
fn long_texts_are_read(rt: HostRuntime) -> Result<(), Fail> {
    // 200,000 tokens with the end of the text
    let text = nested(rt.alloc(), "int main(){", ";", 199993, "", "", "}")?;
    assert_eq!(rt; broken(rt.alloc(), text.as_bytes()), None);
    let text = nested(rt.alloc(), "int main(){f(1", ",1", 99993, "", "", ");}")?;
    assert_eq!(rt; broken(rt.alloc(), text.as_bytes()), None);
    Ok(())
}
