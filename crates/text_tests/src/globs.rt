// Patterns of paths by rows, and hostile ones, which take no time that grows as a power.
use project_file::patterns::fits;
use std::test::Fail;

// Patterns with a path that they fit.
const FITTING: &[(&[u8], &[u8])] = &[
    (b"a.c", b"a.c"),
    (b"src/*.c", b"src/a.c"),
    (b"src/*.c", b"src/.c"),
    (b"*", b"a"),
    (b"*a*b*", b"xxaybz"),
    (b"a*", b"a"),
    (b"**", b"a"),
    (b"**", b"a/b/c"),
    (b"src/**", b"src"),
    (b"src/**", b"src/a/b"),
    (b"**/a.c", b"a.c"),
    (b"**/a.c", b"x/y/a.c"),
    (b"src/**/*.c", b"src/a.c"),
    (b"src/**/*.c", b"src/x/y/a.c"),
    (b"**/x/**/a", b"x/x/a"),
    (b"a**b/c", b"a--b/c"),
];

// Patterns with a path that they don't fit.
const OTHERS: &[(&[u8], &[u8])] = &[
    (b"a.c", b"a.cc"),
    (b"a.c", b"b/a.c"),
    (b"src/*.c", b"src/x/a.c"),
    (b"src/*.c", b"src/a.h"),
    (b"*", b"a/b"),
    (b"*a*b*", b"bza"),
    (b"src/**", b"srcs/a"),
    (b"**/a.c", b"x/ba.c"),
    (b"src/**/*.c", b"lib/a.c"),
    (b"**/x/**/x/a", b"x/a"),
    (b"", b"a"),
    (b"a", b""),
];

#[test]
fn patterns_fit(rt: HostRuntime) -> Result<(), Fail> {
    for (pattern, path) in FITTING {
        assert!(rt; fits(rt.alloc(), pattern, path)?);
    }
    for (pattern, path) in OTHERS {
        assert!(rt; !fits(rt.alloc(), pattern, path)?);
    }
    Ok(())
}

// 64 stars in a row of bytes that end otherwise, and 64 steps of folders.
#[test]
fn hostile_patterns_end(rt: HostRuntime) -> Result<(), Fail> {
    let mut stars = String::new(rt.alloc());
    let mut steps = String::new(rt.alloc());
    let mut path = String::new(rt.alloc());
    for _ in 0..64 {
        stars.push_str("*a")?;
        steps.push_str("**/a/")?;
        path.push_str("a/")?;
    }
    stars.push_str("b")?;
    steps.push_str("b")?;
    path.push_str("c")?;
    let name = "a".repeat(rt.alloc(), 255)?;
    assert!(rt; !fits(rt.alloc(), stars.as_bytes(), name.as_bytes())?);
    assert!(rt; !fits(rt.alloc(), steps.as_bytes(), path.as_bytes())?);
    Ok(())
}
