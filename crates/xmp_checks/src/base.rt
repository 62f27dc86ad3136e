// Files, sinks, lists and the first of two refusals.

use std::io::{ErrorKind, Write};
use std::test::Fail;
use std::{fs, io};
use xmp_base::{
    Bytes, Failed, FileError, Files, HostFiles, HostSink, MemFiles, MemSink, Phase, Place, Refusal,
    Sink, Table, Words, earlier, put_all,
};

// What one call is to give: how many bytes it takes, or none where it fails.
#[derive(Clone, Copy)]
struct WriteCase {
    piece: &'static [u8],
    takes: Option<usize>,
    taken: &'static [u8],
}

#[test]
fn a_sink_in_memory_takes_what_it_has_room_for(rt: HostRuntime) -> Result<(), Fail> {
    let alloc = rt.alloc();
    let cases = [
        WriteCase {
            piece: b"abcd",
            takes: Some(3),
            taken: b"abc",
        },
        WriteCase {
            piece: b"d",
            takes: None,
            taken: b"abc",
        },
        WriteCase {
            piece: b"defg",
            takes: Some(2),
            taken: b"abcde",
        },
        WriteCase {
            piece: b"",
            takes: Some(0),
            taken: b"abcde",
        },
        WriteCase {
            piece: b"f",
            takes: None,
            taken: b"abcde",
        },
    ];
    let mut sink = MemSink::new(alloc, 5, 3, vec![in alloc; 2]?)?;
    for case in &cases {
        assert_eq!(rt; sink.write(case.piece).ok(), case.takes);
        assert_eq!(rt; sink.taken(), case.taken);
    }
    let mut whole = MemSink::new(alloc, 10, 2, Vec::new(alloc))?;
    assert_eq!(rt; put_all(&mut whole, b"abcde"), Ok(()));
    assert_eq!(rt; whole.taken(), b"abcde".as_slice());
    Ok(())
}

#[test]
fn files_in_memory_give_the_first_of_a_name(rt: HostRuntime) -> Result<(), Fail> {
    let alloc = rt.alloc();
    let first = ("a".to_string(alloc)?, b"xyz".to_vec(alloc)?);
    let second = ("a".to_string(alloc)?, b"no".to_vec(alloc)?);
    let entries = vec![in alloc; first, second]?;
    let mut files = MemFiles::new(alloc, entries, vec![in alloc; 2]?)?;
    // the name, the limit, and the bytes, or none where the read fails
    let cases: [(&str, usize, Option<&[u8]>); 5] = [
        ("a", 3, Some(b"xyz")),
        ("a", 3, None),
        ("a", 1, Some(b"xy")),
        ("b", 3, None),
        ("a", 0, Some(b"x")),
    ];
    for (name, limit, bytes) in cases {
        match files.read(alloc, name, limit) {
            Ok(read) => assert!(rt; bytes.is_some_and(|b| b == read.as_slice())),
            Err(e) => {
                assert_eq!(rt; e, FileError::Failed);
                assert!(rt; bytes.is_none());
            }
        }
    }
    Ok(())
}

#[test]
fn numbers_and_rows_grow(rt: HostRuntime) -> Result<(), Fail> {
    let alloc = rt.alloc();
    let mut words = Words::from_vec(vec![in alloc; 5]?);
    words.push(-1)?;
    assert_eq!(rt; words.as_slice(), [5, -1].as_slice());
    let mut table = Table::new(alloc);
    assert!(rt; table.push(words).is_ok());
    assert_eq!(rt; table.row(0), Some([5, -1].as_slice()));
    assert_eq!(rt; table.row(1), None);
    assert!(rt; Words::new(alloc).as_slice().is_empty());
    Ok(())
}

#[test]
fn bytes_grow(rt: HostRuntime) -> Result<(), Fail> {
    let alloc = rt.alloc();
    let mut copy = Bytes::copy_of(alloc, b"ca")?;
    copy.push(b't')?;
    assert_eq!(rt; copy.as_slice(), b"cat".as_slice());
    let mut taken = Bytes::from_vec(b"c".to_vec(alloc)?);
    taken.push_all(b"at")?;
    assert_eq!(rt; taken.as_slice(), b"cat".as_slice());
    Ok(())
}

#[test]
fn the_earlier_refusal_stands_first(rt: HostRuntime) {
    let at = |line: u32, column: u32, rule: u16| Refusal {
        phase: Phase::Lex,
        rule,
        at: Place { line, column },
    };
    let here = Some(at(1, 9, 5));
    assert_eq!(rt; earlier(Some(at(2, 1, 1)), here), here);
    assert_eq!(rt; earlier(Some(at(1, 9, 2)), here), Some(at(1, 9, 2)));
    assert_eq!(rt; earlier(None, here), here);
}

// What one call of a writer comes to.
#[derive(Clone, Copy)]
enum Gives {
    Takes(usize),
    Flushes,
    Interrupts,
    Fails,
}

// A writer whose calls come to these, in order, and then fail.
#[derive(Drop)]
struct Acting {
    calls: &'static [Gives],
}

impl Acting {
    fn next(&mut self) -> Gives {
        let Some((first, rest)) = self.calls.split_first() else {
            return Gives::Fails;
        };
        self.calls = rest;
        *first
    }
}

impl Write for Acting {
    fn write(&mut self, buf: &[u8]) -> io::Result<usize> {
        match self.next() {
            Gives::Takes(count) => Ok(count.min(buf.len())),
            Gives::Interrupts => Err(io::Error::new(ErrorKind::Interrupted, "interrupted")),
            _ => Err(io::Error::new(ErrorKind::Other, "failed")),
        }
    }

    fn flush(&mut self) -> io::Result<()> {
        match self.next() {
            Gives::Flushes => Ok(()),
            Gives::Interrupts => Err(io::Error::new(ErrorKind::Interrupted, "interrupted")),
            _ => Err(io::Error::new(ErrorKind::Other, "failed")),
        }
    }
}

// What the writer's calls come to, and how many bytes of two each write takes, or none where it fails.
type Written = (&'static [Gives], &'static [Option<usize>]);

const WRITTEN: [Written; 4] = [
    (
        &[
            Gives::Interrupts,
            Gives::Takes(1),
            Gives::Flushes,
            Gives::Takes(2),
            Gives::Flushes,
        ],
        &[Some(1), Some(2), None],
    ),
    (
        &[Gives::Takes(2), Gives::Interrupts, Gives::Flushes],
        &[Some(2), None],
    ),
    (
        &[
            Gives::Takes(2),
            Gives::Interrupts,
            Gives::Fails,
            Gives::Takes(2),
            Gives::Flushes,
        ],
        &[None, Some(2)],
    ),
    (
        &[Gives::Takes(0), Gives::Takes(1), Gives::Flushes],
        &[None, Some(1)],
    ),
];

#[test]
fn a_real_stream_is_tried_again_where_it_was_interrupted(rt: HostRuntime) -> Result<(), Fail> {
    for (calls, expected) in WRITTEN {
        let mut sink = HostSink::new(Acting { calls });
        for takes in expected {
            assert_eq!(rt; sink.write(b"ab").ok(), *takes);
        }
    }
    let mut sink = HostSink::new(Acting {
        calls: &[Gives::Takes(2), Gives::Flushes],
    });
    assert_eq!(rt; sink.write(b"").ok(), Some(0));
    Ok(())
}

#[test]
fn a_real_file_is_read_up_to_the_limit(rt: HostRuntime) -> Result<(), Fail> {
    let alloc = rt.alloc();
    // a test runs in a folder of its own
    let name = "real_file";
    fs::write(&rt, name, b"hello")?;
    let mut files = HostFiles::new(&rt);
    let whole = files
        .read(alloc, name, 5)
        .expect(&rt, "a file that is there");
    assert_eq!(rt; whole.as_slice(), b"hello".as_slice());
    let front = files
        .read(alloc, name, 2)
        .expect(&rt, "a file that is there");
    assert_eq!(rt; front.as_slice(), b"hel".as_slice());
    fs::remove_file(&rt, name)?;
    let gone = files.read(alloc, name, 5);
    assert_eq!(rt; gone.err(), Some(FileError::Failed));
    Ok(())
}
