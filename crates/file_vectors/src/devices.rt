use crate::asserts::{same, same_at};
use el_io::*;
use std::fs;
use std::test::Fail;

#[test]
fn sure_sink_keeps_the_first_bytes(rt: HostRuntime) -> Result<(), Fail> {
    let mut sink = SureSink::make(rt.alloc(), 3)?;
    for (bytes, kept) in [("ab", "ab"), ("", "ab"), ("cd", "abc"), ("e", "abc")] {
        put_all(&mut sink, bytes.as_bytes())?;
        same_at(&rt, bytes, sink.taken(), kept.as_bytes());
    }
    Ok(())
}

#[test]
fn mem_sink_fails_where_it_is_told_to(rt: HostRuntime) -> Result<(), Fail> {
    let mut sink = MemSink::make(rt.alloc(), 4, 2, &[2])?;
    let rows = [
        ("abc", Ok(2)),
        ("c", Err(Failed)),
        ("cde", Ok(2)),
        ("e", Err(Failed)),
        ("", Ok(0)),
    ];
    for (bytes, answer) in rows {
        same_at(&rt, bytes, sink.put(bytes.as_bytes()), answer);
    }
    same(&rt, sink.taken(), b"abcd".as_slice());
    Ok(())
}

// A stream that takes one byte a time and fails at its second call.
#[test]
fn put_all_stops_at_a_fault(rt: HostRuntime) -> Result<(), Fail> {
    let mut sink = MemSink::make(rt.alloc(), 16, 1, &[2])?;
    same(&rt, put_all(&mut sink, b"A\n"), Err(Failed));
    same(&rt, sink.taken(), b"A".as_slice());
    put_all(&mut sink, b"\n")?;
    same(&rt, sink.taken(), b"A\n".as_slice());
    Ok(())
}

#[test]
fn mem_shelf_fails_where_it_is_told_to(rt: HostRuntime) -> Result<(), Fail> {
    let names = [String::from_str(rt.alloc(), "a")?];
    let contents = [Vec::from_slice(rt.alloc(), b"xyz")?];
    let mut shelf = MemShelf::make(rt.alloc(), &names, &contents, &[3, 6])?;
    let reads = [
        ("a", 3, Ok("xyz")),
        ("a", 2, Err(ShelfFault::TooBig)),
        ("a", 3, Err(ShelfFault::Failed)),
        ("b", 3, Err(ShelfFault::Failed)),
    ];
    for (name, limit, answer) in reads {
        let read = shelf.read(rt.alloc(), name, limit);
        let bytes = read.as_ref().map(|bytes| bytes.as_slice());
        same_at(
            &rt,
            (name, limit),
            bytes,
            answer.as_ref().map(|text| text.as_bytes()),
        );
    }
    same(&rt, shelf.write(rt.alloc(), "b", b"new"), Ok(()));
    same(
        &rt,
        shelf.write(rt.alloc(), "a", b"lost"),
        Err(ShelfFault::Failed),
    );
    same(&rt, shelf.contents("a"), b"xyz".as_slice());
    same(&rt, shelf.contents("b"), b"new".as_slice());
    same(&rt, shelf.contents("c"), b"".as_slice());
    Ok(())
}

#[test]
fn sure_shelf_reads_a_missing_file_as_empty(rt: HostRuntime) -> Result<(), Fail> {
    let names = [String::from_str(rt.alloc(), "a")?];
    let contents = [Vec::from_slice(rt.alloc(), b"xyz")?];
    let mut shelf = SureShelf::make(rt.alloc(), &names, &contents)?;
    same(
        &rt,
        shelf.read(rt.alloc(), "a", 3)?.as_slice(),
        b"xyz".as_slice(),
    );
    same(
        &rt,
        shelf.read(rt.alloc(), "a", 2).err(),
        Some(ShelfFault::TooBig),
    );
    same(
        &rt,
        shelf.read(rt.alloc(), "b", 0)?.as_slice(),
        b"".as_slice(),
    );
    shelf.write(rt.alloc(), "a", b"")?;
    shelf.write(rt.alloc(), "b", b"new")?;
    same(&rt, shelf.contents("a"), b"".as_slice());
    same(&rt, shelf.contents("b"), b"new".as_slice());
    Ok(())
}

#[test]
fn folder_shelf_reads_what_it_wrote(rt: HostRuntime) -> Result<(), Fail> {
    let name = "el_io_folder_shelf.tmp";
    let mut shelf = FolderShelf::new(&rt, rt.alloc());
    let text = [b'x'; 5000];
    shelf.write(rt.alloc(), name, &text)?;
    same(
        &rt,
        shelf.read(rt.alloc(), name, 5000)?.as_slice(),
        text.as_slice(),
    );
    same(
        &rt,
        shelf.read(rt.alloc(), name, 4999).err(),
        Some(ShelfFault::TooBig),
    );
    fs::remove_file(&rt, name)?;
    same(
        &rt,
        shelf.read(rt.alloc(), name, 5000).err(),
        Some(ShelfFault::Failed),
    );
    let lost = shelf.write(rt.alloc(), "el_io_no_such_folder/file", &text);
    same(&rt, lost, Err(ShelfFault::Failed));
    Ok(())
}

/// What is no file of few bytes, a limit, and what reading it answers: a device without end, one without bytes, a folder,
/// and what is not there.
const UNUSUAL: &[(&str, u32, Result<usize, ShelfFault>)] = &[
    ("/dev/zero", 0, Err(ShelfFault::TooBig)),
    ("/dev/zero", 100_000, Err(ShelfFault::TooBig)),
    ("/dev/null", 0, Ok(0)),
    ("/dev", 100_000, Err(ShelfFault::Failed)),
    ("el_io_no_such_file", 100_000, Err(ShelfFault::Failed)),
    ("el_io_no_such_folder/file", 0, Err(ShelfFault::Failed)),
    ("", 0, Err(ShelfFault::Failed)),
];

// Of a device without end it reads one byte more than the limit, and then it stops.
#[test]
fn folder_shelf_ends_with_every_name(rt: HostRuntime) -> Result<(), Fail> {
    let mut shelf = FolderShelf::new(&rt, rt.alloc());
    for (name, limit, answer) in UNUSUAL {
        let read = shelf.read(rt.alloc(), name, *limit);
        let length = read.map(|bytes| bytes.len());
        same_at(&rt, (name, limit), length, *answer);
    }
    Ok(())
}

#[test]
fn stream_sink_writes_a_file(rt: HostRuntime) -> Result<(), Fail> {
    let name = "el_io_stream_sink.tmp";
    let mut sink = StreamSink::new(fs::create(&rt, name)?);
    put_all(&mut sink, b"one ")?;
    put_all(&mut sink, b"two")?;
    drop(sink);
    same(&rt, fs::read(&rt, name)?.as_slice(), b"one two".as_slice());
    let mut closed = StreamSink::new(fs::open(&rt, name)?);
    same_at(
        &rt,
        "a file open to be read",
        put_all(&mut closed, b"three"),
        Err(Failed),
    );
    fs::remove_file(&rt, name)?;
    Ok(())
}

#[test]
fn stream_sink_tells_what_a_list_holds(rt: HostRuntime) -> Result<(), Fail> {
    let mut list = Vec::new(rt.alloc());
    let mut sink = StreamSink::telling(&mut list);
    put_all(&mut sink, b"one ")?;
    put_all(&mut sink, b"two")?;
    drop(sink);
    same(&rt, list.as_slice(), b"one two".as_slice());
    Ok(())
}
