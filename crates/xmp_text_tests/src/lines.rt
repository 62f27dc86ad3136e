// The lines of directives in `main`, in brackets and in parentheses. A row is as in texts.rt: its line stands behind
// `#pragma xmp `, so that it begins at 2:13, and what follows it begins at 3:1.
use crate::texts::wrong_rows;
use std::alloc::Global;
use std::test::Fail;

// Lines in brackets.
const IN_BRACKETS: &str = "\
nodes p[4] => -\n\
nodes p[2][2] => -\n\
nodes p[*] => -\n\
nodes p => S1 2:20\n\
nodes p[*][2] => S1 2:23\n\
nodes p[2][*] => S1 2:24\n\
nodes [2] => S1 2:19\n\
nodes p[2] q => S1 2:24\n\
nodes p[* 2] => S1 2:23\n\
template t[8] => -\n\
template t[] => S1 2:24\n\
distribute t[block][cyclic][cyclic(2)][*][gblock({1,2})] onto p => -\n\
distribute t onto p => S1 2:26\n\
distribute t[blocks] onto p => S1 2:26\n\
distribute t[cyclic()] onto p => S1 2:33\n\
distribute t[gblock] onto p => S1 2:32\n\
distribute t[gblock(1)] onto p => S1 2:33\n\
distribute t[gblock({})] onto p => S1 2:34\n\
distribute t[block] p => S1 2:33\n\
distribute t[block] onto => S1 2:37\n\
align a[i][*] with t[i][*] => -\n\
align a[i] with t[i+1][i-2*k] => S1 2:39\n\
align a[i] with t[i+1+2] => S1 2:34\n\
align a[i] with t[i*2] => S1 2:32\n\
align a[1] with t[i] => S1 2:21\n\
align a[i] t[i] => S1 2:24\n\
align a with t[i] => S1 2:21\n\
align a[i] with t => S1 2:30\n\
shadow a[1][1:2][0:0] => -\n\
shadow a[1:2:3] => S1 2:25\n\
shadow a[:] => S1 2:22\n\
shadow a => S1 2:21\n\
shadow a[x:[1]:2] => -\n\
loop (i, j) on t[i][j+1]$for (;;) ; => -\n\
loop on t[i]$for (;;) ; => -\n\
loop on t[i] reduction(+:s) reduction(max:m, n)$for (;;) ; => -\n\
loop on t[i]$; => S1 3:1\n\
loop t[i]$for (;;) ; => S1 2:18\n\
loop () on t[i]$for (;;) ; => S1 2:19\n\
loop (i) on t$for (;;) ; => S1 2:26\n\
loop on t[i] reduction(-:s)$for (;;) ; => S1 2:36\n\
loop on t[i] reduction(+ s)$for (;;) ; => S1 2:38\n\
loop on t[i] reduction(mix:s)$for (;;) ; => S1 2:36\n\
loop on t[1]$for (;;) ; => S1 2:23\n\
reflect (a, b) => -\n\
reflect a => S1 2:21\n\
reflect (a,) => S1 2:24\n\
barrier => -\n\
barrier x => S1 2:21\n\
bcast (x) from p[0] => -\n\
bcast (x, y) from p[0:2][:] => -\n\
bcast (x) from p => -\n\
bcast (x) p[0] => S1 2:23\n\
bcast (x) from p[0:2:1] => S1 2:33\n\
bcast (x) from p[0 => S1 2:31\n\
gmove$a[0:4] = b[1:4:2]; => -\n\
gmove$a[:][x:[1]] = b; => -\n\
gmove$a = b + 1; => S1 3:7\n\
gmove$a[0:1:2:3] = b; => S1 3:8\n\
gmove$a += b; => S1 3:3\n\
gmove$a[0] = 1; => S1 3:8\n\
gmove x$a = b; => S1 2:19\n\
task on p[0]$; => -\n\
task on p[0:2]${ x = 1; } => -\n\
task p[0]$; => S1 2:18\n\
task on p[0]$int x; => S1 3:1\n\
task on p[0] => S1 3:1\n\
tasks${$#pragma xmp task on p[0]$;$#pragma xmp task on p[1]$;$} => -\n\
tasks${ } => -\n\
tasks${ ; } => S1 3:3\n\
tasks$; => S1 3:1\n\
tasks${$#pragma xmp barrier$} => S1 4:13\n\
tasks${$#pragma xmp task on p[0]$; => S1 6:2\n\
node p[1] => S1 2:13\n\
loops on t[i]$for (;;) ; => S1 2:13\n\
";

// The sizes of nodes in parentheses, and nodes arrays that name a set.
const NODES: &str = "\
nodes p(4) => -\n\
nodes p(2,2) => -\n\
nodes p(2, 2, 2) => -\n\
nodes p(N + 1, f(2)) => -\n\
nodes p(*) => -\n\
nodes p(*,2) => S1 2:22\n\
nodes p(* 2) => S1 2:23\n\
nodes p(2,*) => S1 2:23\n\
nodes p() => S1 2:21\n\
nodes p(2,) => S1 2:23\n\
nodes p(,2) => S1 2:21\n\
nodes p(2,,2) => S1 2:23\n\
nodes p(2 2) => S1 2:23\n\
nodes p(2,2 2) => S1 2:25\n\
nodes p(2:4) => S1 2:22\n\
nodes p(x:4) => S1 2:23\n\
nodes p(2 => S1 2:22\n\
nodes p(2,2 => S1 2:24\n\
nodes p(2)[2] => S1 2:23\n\
nodes p[2](2) => S1 2:23\n\
nodes p(2)(2) => S1 2:23\n\
nodes p(2,2)[2] => S1 2:25\n\
nodes p(4) q => S1 2:24\n\
nodes p(2,2) q => S1 2:26\n\
nodes q[2] = p[0:2] => -\n\
nodes q(2) = p(1:2) => -\n\
nodes q[2] = p(1:2) => -\n\
nodes q(2) = p[0:2] => -\n\
nodes q(2) = p => -\n\
nodes q(2) = p(:,1) => -\n\
nodes q[2][2] = p => S1 2:27\n\
nodes q(2,2) = p => S1 2:26\n\
nodes q[*] = p => S1 2:24\n\
nodes q(*) = p => S1 2:24\n\
nodes q(2) =  => S1 2:26\n\
nodes q(2) = p = p => S1 2:28\n\
nodes q(2) == p => S1 2:24\n\
nodes q(2) p => S1 2:24\n\
nodes q = p => S1 2:21\n\
";

// The bounds of templates.
const BOUNDS: &str = "\
template t(8) => -\n\
template t(0:7) => -\n\
template t(-3:6) => -\n\
template t(0:N-1, 8) => -\n\
template t(4,0:3,1:8) => -\n\
template t(x ? 1 : 2 : 3) => -\n\
template t(x :[1] : 3) => -\n\
template t() => S1 2:24\n\
template t(:) => S1 2:24\n\
template t(:7) => S1 2:24\n\
template t(0:) => S1 2:26\n\
template t(0:7:1) => S1 2:27\n\
template t(0::7) => S1 2:26\n\
template t(0:7,) => S1 2:28\n\
template t(,0:7) => S1 2:24\n\
template t(0:7,,8) => S1 2:28\n\
template t(0:7 8) => S1 2:28\n\
template t(4,5 0:3) => S1 2:28\n\
template t(4,5,6 7) => S1 2:30\n\
template t(*) => S1 2:24\n\
template t(0:7 => S1 2:27\n\
template t(0:7)[3] => S1 2:28\n\
template t[8](8) => S1 2:26\n\
template t[0:7] => S1 2:25\n\
template t(8)(8) => S1 2:26\n\
template t 8 => S1 2:24\n\
template t(8) 8 => S1 2:27\n\
";

// The forms of distributions in parentheses.
const FORMS: &str = "\
distribute t(block) onto p => -\n\
distribute t(block, *) onto p => -\n\
distribute t(cyclic, cyclic(2), gblock({1,2})) onto p => -\n\
distribute t(*) onto p => -\n\
distribute t() onto p => S1 2:26\n\
distribute t(,block) onto p => S1 2:26\n\
distribute t(block,) onto p => S1 2:32\n\
distribute t(block,,*) onto p => S1 2:32\n\
distribute t(block *) onto p => S1 2:32\n\
distribute t(block, * *) onto p => S1 2:35\n\
distribute t(blocks) onto p => S1 2:26\n\
distribute t(1) onto p => S1 2:26\n\
distribute t(cyclic()) onto p => S1 2:33\n\
distribute t(gblock) onto p => S1 2:32\n\
distribute t(block) p => S1 2:33\n\
distribute t(block)[block] onto p => S1 2:32\n\
distribute t[block](block) onto p => S1 2:32\n\
distribute t(block onto p => S1 2:32\n\
distribute t(block) onto p(1) => S1 2:39\n\
";

// The points of aligns and of loops.
const POINTS: &str = "\
align a[i] with t(i) => -\n\
align a[i][j] with t(i, j + 1) => -\n\
align a[i][j][k] with t(i, *, k - N) => -\n\
align a[i][*] with t(i,*) => -\n\
align a[i] with t(*) => -\n\
align a[i] with t(i+1, j-2) => -\n\
align a[i] with t(i + 2 * 3) => S1 2:37\n\
align a[i] with t(i + (2 * 3)) => -\n\
align a[i] with t[i + 2 * 3] => S1 2:37\n\
align a[i] with t[i + 2 / 3] => S1 2:37\n\
align a[i] with t[i + 2 % 3] => S1 2:37\n\
align a[i] with t[i + (2 * 3)] => -\n\
align a[i] with t[i - -1] => -\n\
align a[i] with t(i - -1) => -\n\
align a[i] with t(i + (int)2) => -\n\
align a[i] with t(i + f(1)) => -\n\
align a[i] with t(i + 1 + 2) => S1 2:37\n\
align a[i] with t(i + 1 < 2) => S1 2:37\n\
align a[i] with t(i + 1 ? 2 : 3) => S1 2:37\n\
align a[i] with t(i * 2) => S1 2:33\n\
align a[i] with t(i, ) => S1 2:34\n\
align a[i] with t() => S1 2:31\n\
align a[i] with t(, i) => S1 2:31\n\
align a[i] with t(i,,j) => S1 2:33\n\
align a[i] with t(i j) => S1 2:33\n\
align a[i] with t(i, j k) => S1 2:36\n\
align a[i] with t(1) => S1 2:31\n\
align a[i] with t(i +) => S1 2:34\n\
align a[i] with t(i + , j) => S1 2:35\n\
align a[i] with t(i)[j] => S1 2:33\n\
align a[i] with t[i](j) => S1 2:33\n\
align a[i] with t(i)(j) => S1 2:33\n\
align a[i] with t(i => S1 2:32\n\
align a[i] with t(:) => S1 2:31\n\
align a(i) with t(i) => S1 2:20\n\
align a[i,j] with t(i) => S1 2:22\n\
";

const LOOPS: &str = "\
loop (i) on t(i)$for (;;) ; => -\n\
loop on t(i)$for (;;) ; => -\n\
loop (i, j) on t(i, j + 1)$for (;;) ; => -\n\
loop on t(i, *, j - 2) reduction(+:s)$for (;;) ; => -\n\
loop (i) on t(i + 2 * 3)$for (;;) ; => S1 2:33\n\
loop (i) on t[i - 2 * 3]$for (;;) ; => S1 2:33\n\
loop (i) on t()$for (;;) ; => S1 2:27\n\
loop (i) on t(i,)$for (;;) ; => S1 2:29\n\
loop (i) on t(,i)$for (;;) ; => S1 2:27\n\
loop (i) on t(i i)$for (;;) ; => S1 2:29\n\
loop (i) on t(i)[i]$for (;;) ; => S1 2:29\n\
loop (i) on t[i](i)$for (;;) ; => S1 2:29\n\
loop (i) on t(i) (j)$for (;;) ; => S1 2:30\n\
loop (i) on t(i)$; => S1 3:1\n\
";

// Sets of nodes in parentheses.
const SETS: &str = "\
task on p(1)$; => -\n\
task on p(1:2)$; => -\n\
task on p(:)$; => -\n\
task on p(:, 1)$; => -\n\
task on p(1:2, :, 3)$; => -\n\
task on p(x :[1] : 2)$; => -\n\
task on p$; => -\n\
task on p()$; => S1 2:23\n\
task on p(1,)$; => S1 2:25\n\
task on p(,1)$; => S1 2:23\n\
task on p(1,,1)$; => S1 2:25\n\
task on p(1 2)$; => S1 2:25\n\
task on p(1, 2 3)$; => S1 2:28\n\
task on p(1:2:1)$; => S1 2:26\n\
task on p(1::2)$; => S1 2:25\n\
task on p(:1)$; => S1 2:24\n\
task on p(::)$; => S1 2:24\n\
task on p(1:)$; => S1 2:25\n\
task on p(*)$; => S1 2:23\n\
task on p(1)[1]$; => S1 2:25\n\
task on p[1](1)$; => S1 2:25\n\
task on p(1)(1)$; => S1 2:25\n\
task on p[1,2]$; => S1 2:24\n\
task on p(1$; => S1 2:24\n\
bcast (x) from p(1) => -\n\
bcast (x, y) from p(1:2, :) => -\n\
bcast (x) from p() => S1 2:30\n\
bcast (x) from p(1,) => S1 2:32\n\
bcast (x) from p(1)[1] => S1 2:32\n\
bcast (x) from p[0:2:1] => S1 2:33\n\
gmove$a[0:4] = b(1:4); => S1 3:11\n\
gmove$a(0:4) = b[1:4]; => S1 3:2\n\
tasks${$#pragma xmp task on p(1)$;$#pragma xmp task on p(2:3)$;$} => -\n\
";

/// The rows whose answers are others.
fn wrong_lines(alloc: Global, table: &str) -> Result<String, Fail> {
    wrong_rows(alloc, "int main(){\n#pragma xmp ", table, "\n}")
}

#[test]
fn directives_in_brackets_are_judged(rt: HostRuntime) -> Result<(), Fail> {
    let wrong = wrong_lines(rt.alloc(), IN_BRACKETS)?;
    assert_eq!(rt; wrong.as_str(), "");
    Ok(())
}

#[test]
fn mappings_in_parentheses_are_judged(rt: HostRuntime) -> Result<(), Fail> {
    for table in [NODES, BOUNDS, FORMS, POINTS] {
        let wrong = wrong_lines(rt.alloc(), table)?;
        assert_eq!(rt; wrong.as_str(), "");
    }
    Ok(())
}

#[test]
fn directives_in_parentheses_are_judged(rt: HostRuntime) -> Result<(), Fail> {
    for table in [LOOPS, SETS] {
        let wrong = wrong_lines(rt.alloc(), table)?;
        assert_eq!(rt; wrong.as_str(), "");
    }
    Ok(())
}
