// What no clause says: that each call succeeds where memory is ample, and the messages.
use std::alloc::{AllocError, Global};
use std::test::Fail;
use wire_io::{
    Failed, MemShelf, MemSink, NoMemory, QuietShelf, QuietSink, ReadRefusal, Shelf, Sink,
    WriteFailed, put_all, read_whole,
};

// Two pairs under one name, of which the first counts.
fn files(alloc: Global) -> Result<Vec<(String, Vec<u8>)>, AllocError> {
    let mut files = Vec::new(alloc);
    files.push((String::from_str(alloc, "a")?, b"abcde".to_vec(alloc)?))?;
    files.push((String::from_str(alloc, "a")?, b"xyz".to_vec(alloc)?))?;
    Ok(files)
}

#[test]
fn reads_a_file_up_to_its_limit(rt: HostRuntime) -> Result<(), Fail> {
    let alloc = rt.alloc();
    let mut shelf = MemShelf::new(files(alloc)?, 2, Vec::new(alloc));
    for limit in [5, 6, 1000] {
        let whole = read_whole(alloc, &mut shelf, "a", limit)?;
        assert_eq!(rt;
            whole.as_slice(),
            b"abcde".as_slice(),
            "at the limit {limit}"
        );
    }
    for (name, limit, want) in [
        ("a", 4, ReadRefusal::TooLong),
        ("a", 0, ReadRefusal::TooLong),
        ("b", 5, ReadRefusal::Failed),
    ] {
        let refusal = read_whole(alloc, &mut shelf, name, limit).err();
        assert_eq!(rt; refusal, Some(want), "{name} at the limit {limit}");
    }
    Ok(())
}

#[test]
fn a_read_fails_at_its_number_alone(rt: HostRuntime) -> Result<(), Fail> {
    let alloc = rt.alloc();
    let mut shelf = MemShelf::new(files(alloc)?, 3, [1].to_vec(alloc)?);
    let mut piece = [b'.'; 4];
    for (place, want, left) in [
        (1, Ok(3), b"bcd."),
        (0, Err(Failed), b"bcd."),
        (4, Ok(1), b"ecd."),
        (5, Ok(0), b"ecd."),
    ] {
        assert_eq!(rt; shelf.read_at("a", place, &mut piece), want, "at {place}");
        assert_eq!(rt; piece.as_slice(), left.as_slice(), "at {place}");
    }
    Ok(())
}

#[test]
fn a_quiet_shelf_has_an_empty_file_under_each_unknown_name(rt: HostRuntime) -> Result<(), Fail> {
    let alloc = rt.alloc();
    let mut shelf = QuietShelf::new(files(alloc)?, 2);
    let known = read_whole(alloc, &mut shelf, "a", 5)?;
    assert_eq!(rt; known.as_slice(), b"abcde".as_slice());
    let unknown = read_whole(alloc, &mut shelf, "b", 5)?;
    assert_eq!(rt; unknown.len(), 0);
    Ok(())
}

#[test]
fn a_sink_that_fails_holds_what_it_took(rt: HostRuntime) -> Result<(), Fail> {
    let alloc = rt.alloc();
    let mut sink = MemSink::new(alloc, 100, 10, [1].to_vec(alloc)?)?;
    let written = put_all(&mut sink, b"foxdec graph 1\n");
    assert_eq!(rt; written, Err(WriteFailed { taken: 10 }));
    assert_eq!(rt; sink.bytes(), b"foxdec gra".as_slice());
    put_all(&mut sink, b"ph 1\n")?;
    assert_eq!(rt; sink.bytes(), b"foxdec graph 1\n".as_slice());
    assert_eq!(rt; sink.put(b""), Ok(0));
    Ok(())
}

#[test]
fn a_quiet_sink_stalls_where_it_is_full(rt: HostRuntime) -> Result<(), Fail> {
    for (room, want, held) in [
        (7, Ok(()), b"valid\n".as_slice()),
        (6, Ok(()), b"valid\n".as_slice()),
        (5, Err(WriteFailed { taken: 5 }), b"valid".as_slice()),
        (0, Err(WriteFailed { taken: 0 }), b"".as_slice()),
    ] {
        let mut sink = QuietSink::new(rt.alloc(), room)?;
        assert_eq!(rt; put_all(&mut sink, b"valid\n"), want, "in the room {room}");
        assert_eq!(rt; sink.bytes(), held, "in the room {room}");
    }
    Ok(())
}

#[test]
fn each_refusal_says_what_it_is(rt: HostRuntime) -> Result<(), Fail> {
    let alloc = rt.alloc();
    for (refusal, want) in [
        (ReadRefusal::Failed, "read failed"),
        (ReadRefusal::TooLong, "too long"),
        (ReadRefusal::NoMemory, "out of memory"),
    ] {
        let text = format!(in alloc; "{refusal}")?;
        assert_eq!(rt; text.as_str(), want);
    }
    let (failed, write) = (Failed, WriteFailed { taken: 10 });
    let text = format!(in alloc; "{failed}, {NoMemory}, {write}")?;
    assert_eq!(rt;
        text.as_str(),
        "failed, out of memory, write failed after 10 bytes"
    );
    Ok(())
}
