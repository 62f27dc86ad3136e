// Names by scope.

use std::test::Fail;
use xmp_scopes::Scopes;

// What is done next, and what it is to answer.
#[derive(Clone, Copy)]
enum Step {
    Open,
    Close,
    Declare(&'static [u8], u8),
    // what the name means, where that was declared, and whether that is the innermost scope
    LookUp(&'static [u8], Option<u8>, Option<usize>, bool),
}

// A step, and how many scopes are open after it.
type Row = (Step, usize);

const ROWS: [Row; 25] = [
    (Step::LookUp(b"x", None, None, false), 0),
    (Step::Open, 1),
    (Step::Declare(b"x", 1), 1),
    (Step::Declare(b"xy", 2), 1),
    (Step::LookUp(b"x", Some(1), Some(1), true), 1),
    (Step::LookUp(b"xy", Some(2), Some(1), true), 1),
    (Step::LookUp(b"y", None, None, false), 1),
    (Step::Declare(b"x", 3), 1),
    (Step::LookUp(b"x", Some(3), Some(1), true), 1),
    (Step::Open, 2),
    (Step::LookUp(b"x", Some(3), Some(1), false), 2),
    (Step::Declare(b"x", 4), 2),
    (Step::Declare(b"y", 5), 2),
    (Step::Open, 3),
    (Step::Declare(b"y", 6), 3),
    (Step::Declare(b"y", 7), 3),
    (Step::LookUp(b"y", Some(7), Some(3), true), 3),
    (Step::LookUp(b"x", Some(4), Some(2), false), 3),
    (Step::Close, 2),
    (Step::LookUp(b"y", Some(5), Some(2), true), 2),
    (Step::Close, 1),
    (Step::LookUp(b"x", Some(3), Some(1), true), 1),
    (Step::Close, 0),
    (Step::Close, 0),
    (Step::Declare(b"x", 8), 1),
];

#[test]
fn a_name_means_its_innermost_declaration(rt: HostRuntime) -> Result<(), Fail> {
    let alloc = rt.alloc();
    let mut scopes = Scopes::new(alloc);
    for (step, depth) in ROWS {
        match step {
            Step::Open => assert_eq!(rt; scopes.open(), Ok(())),
            Step::Close => scopes.close(),
            Step::Declare(name, meaning) => {
                assert_eq!(rt; scopes.declare(alloc, name, meaning), Ok(()));
            }
            Step::LookUp(name, meaning, declared, here) => {
                assert_eq!(rt; scopes.look_up(name), meaning);
                assert_eq!(rt; scopes.depth_of(name), declared);
                assert_eq!(rt; scopes.is_declared_here(name), here);
            }
        }
        assert_eq!(rt; scopes.depth(), depth);
    }
    Ok(())
}

#[test]
fn sixty_thousand_names_are_hidden_and_found_again(rt: HostRuntime) -> Result<(), Fail> {
    let alloc = rt.alloc();
    let mut scopes = Scopes::new(alloc);
    for n in 0..60_000u32 {
        assert_eq!(rt;
            scopes.declare(alloc, n.to_le_bytes().as_slice(), n),
            Ok(())
        );
    }
    assert_eq!(rt; scopes.open(), Ok(()));
    for n in 0..60_000u32 {
        let name = n.to_le_bytes();
        assert_eq!(rt; scopes.look_up(name.as_slice()), Some(n));
        assert_eq!(rt; scopes.declare(alloc, name.as_slice(), n + 1), Ok(()));
        assert_eq!(rt; scopes.look_up(name.as_slice()), Some(n + 1));
    }
    scopes.close();
    for n in 0..60_000u32 {
        assert_eq!(rt; scopes.look_up(n.to_le_bytes().as_slice()), Some(n));
    }
    Ok(())
}
