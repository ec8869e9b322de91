//! What no clause says: that the calls succeed, and what the host's files and streams give.
use super::*;
use std::alloc::{AllocError, Global};
use std::fs;
use std::test::Fail;

fn named(alloc: Global, path: &str) -> Result<FileName, AllocError> {
    Ok(FileName::Named(Text::new(alloc, path)?))
}

#[test]
fn text_keeps_its_bytes(rt: HostRuntime) -> Result<(), Fail> {
    let text = Text::new(rt.alloc(), "a≤b")?;
    assert_eq!(rt; text.as_str(), "a≤b");
    assert_eq!(rt; text.as_bytes(), [97, 226, 137, 164, 98].as_slice());
    assert_eq!(rt; text.len(), 5);
    assert!(rt; !text.is_empty());
    assert!(rt; Text::new(rt.alloc(), "")?.is_empty());
    Ok(())
}

#[test]
fn names_are_equal_to_their_clones_alone(rt: HostRuntime) -> Result<(), Fail> {
    let names = [
        FileName::Input,
        named(rt.alloc(), "a.ys")?,
        named(rt.alloc(), "b.ys")?,
    ];
    for (i, name) in names.iter().enumerate() {
        for (j, other) in names.iter().enumerate() {
            assert_eq!(rt; name.clone()?.is(other), i == j, "at {i} and {j}");
            assert_eq!(rt; *name == *other, i == j, "at {i} and {j}");
        }
    }
    Ok(())
}

#[test]
fn memory_source_reads_the_newest_bytes_by_name(rt: HostRuntime) -> Result<(), Fail> {
    let mut source = MemorySource::new(rt.alloc());
    source.add(FileName::Input, b"(exit)")?;
    source.add(named(rt.alloc(), "a.ys")?, b"(push)")?;
    source.add(named(rt.alloc(), "a.ys")?, b"(check)")?;
    let name = named(rt.alloc(), "a.ys")?;
    for (place, want) in [(0, "(che"), (4, "ck)"), (7, ""), (9, "")] {
        let mut piece = [0; 4];
        let count = source.read(&name, place, &mut piece)?;
        assert_eq!(rt; piece.get(..count), Some(want.as_bytes()), "at {place}");
    }
    let mut piece = [0; 8];
    assert_eq!(rt; source.read(&FileName::Input, 1, &mut piece), Ok(5));
    assert_eq!(rt;
        source.read(&named(rt.alloc(), "b.ys")?, 0, &mut piece),
        Err(Failed)
    );
    Ok(())
}

#[test]
fn failing_source_fails_once_at_its_stop(rt: HostRuntime) -> Result<(), Fail> {
    let mut inner = MemorySource::new(rt.alloc());
    inner.add(FileName::Input, b"(check)(check)")?;
    let mut source = FailingSource::new(inner, FileName::Input, 10);
    let mut piece = [0; 16];
    assert_eq!(rt; source.read(&FileName::Input, 0, &mut piece), Ok(10));
    assert_eq!(rt; source.read(&FileName::Input, 10, &mut piece), Err(Failed));
    assert_eq!(rt; source.read(&FileName::Input, 10, &mut piece), Ok(4));
    assert_eq!(rt; piece.get(..4), Some(b"eck)".as_slice()));
    assert_eq!(rt; source.read(&FileName::Input, 0, &mut piece), Ok(14));
    Ok(())
}

#[test]
fn failing_sink_fails_once_at_its_stop(rt: HostRuntime) -> Result<(), Fail> {
    let mut sink = FailingSink::new(MemorySink::new(rt.alloc(), 8)?, 3);
    assert_eq!(rt; sink.write(b"hello"), Ok(3));
    assert_eq!(rt; sink.write(b""), Ok(0));
    assert_eq!(rt; sink.write(b"lo"), Err(Failed));
    assert_eq!(rt; sink.write(b"lo"), Ok(2));
    assert_eq!(rt; sink.bytes(), b"hello".as_slice());
    Ok(())
}

#[test]
fn write_all_leaves_what_there_was_room_for(rt: HostRuntime) -> Result<(), Fail> {
    let mut sink = MemorySink::new(rt.alloc(), 7)?;
    assert_eq!(rt; write_all(&mut sink, b"sat\n"), Ok(()));
    assert_eq!(rt; write_all(&mut sink, b"unsat\n"), Err(Failed));
    assert_eq!(rt; sink.bytes(), b"sat\nuns".as_slice());
    Ok(())
}

#[test]
fn standard_source_and_sink_pass_a_file_on(rt: HostRuntime) -> Result<(), Fail> {
    let path = "y_io_passed_on.txt";
    fs::write(&rt, path, "(check)\n")?;
    let name = named(rt.alloc(), path)?;
    let mut source = StdSource::new(rt);
    let mut out = StdSink::output(rt.stdout());
    let mut errors = StdSink::errors(rt.stderr());
    let mut kept = MemorySink::new(rt.alloc(), 8)?;
    for (place, count) in [(0, 5), (5, 3), (8, 0), (99, 0)] {
        let mut piece = [0; 5];
        assert_eq!(rt;
            source.read(&name, place, &mut piece),
            Ok(count),
            "at {place}"
        );
        let got = piece.get(..count).unwrap_or(&[]);
        assert_eq!(rt; write_all(&mut kept, got), Ok(()));
        assert_eq!(rt; write_all(&mut out, got), Ok(()));
        assert_eq!(rt; write_all(&mut errors, got), Ok(()));
    }
    assert_eq!(rt; kept.bytes(), b"(check)\n".as_slice());
    fs::remove_file(&rt, path)?;
    let mut piece = [0; 5];
    assert_eq!(rt; source.read(&name, 0, &mut piece), Err(Failed));
    Ok(())
}
