// Files and streams, real ones and those in memory.
use std::fs;
use std::process::Abort;
use std::rt::{Stderr, Stdout};
use std::test::Fail;
use tm_io::{
    Failed, FileShelf, MEM_SINK_ROOM, MemFile, MemShelf, MemSink, Shelf, Sink, Source, StdSink,
    write_all,
};

// Stands for a place that moves a value of this type to a thread.
fn may_cross<T: Send>() {}

#[test]
fn all_objects_may_cross_to_a_thread(_rt: HostRuntime) {
    may_cross::<FileShelf<HostRuntime>>();
    may_cross::<StdSink<Stdout>>();
    may_cross::<StdSink<Stderr>>();
    may_cross::<MemShelf>();
    may_cross::<MemSink>();
}

fn file(rt: &HostRuntime, name: &str, octets: &[u8], fails: &[u64]) -> Result<MemFile, Fail> {
    Ok(MemFile {
        name: String::from_str(rt.alloc(), name)?,
        bytes: Vec::from_slice(rt.alloc(), octets)?,
        fails: Vec::from_slice(rt.alloc(), fails)?,
    })
}

// Whether one read of at most four octets gives these, or fails where none are named.
fn gives<S: Source>(source: &mut S, expected: Option<&[u8]>) -> bool {
    let mut buf = [0u8; 4];
    match source.read(&mut buf) {
        Ok(count) => expected == Some(&buf[..count]),
        Err(Failed) => expected.is_none(),
    }
}

// Files `a` and `b`, read by two octets.
fn two_files(rt: &HostRuntime) -> Result<MemShelf, Fail> {
    let files = vec![in rt.alloc();
        file(rt, "a", b"abcdefg", &[5, 3])?,
        file(rt, "b", b"xy", &[0])?,
    ]?;
    Ok(MemShelf::new(files, 2))
}

#[test]
fn a_shelf_in_memory_gives_pieces_and_fails_once_at_each_position(
    rt: HostRuntime,
) -> Result<(), Fail> {
    let mut shelf = two_files(&rt)?;
    assert!(rt; gives(&mut shelf, Some(b"")), "nothing is open");
    assert_eq!(rt; shelf.aim("a"), Ok(true));
    let pieces: [Option<&[u8]>; 8] = [
        Some(b"ab"),
        Some(b"c"),
        None,
        Some(b"de"),
        None,
        Some(b"fg"),
        Some(b""),
        Some(b""),
    ];
    for expected in pieces {
        assert!(rt; gives(&mut shelf, expected));
    }
    Ok(())
}

// A turn to this file is answered so.
fn turns<S: Shelf>(rt: &impl Abort, shelf: &mut S, name: &str, answer: Result<bool, Failed>) {
    assert!(rt; shelf.aim(name) == answer, "{name}");
}

#[test]
fn a_shelf_in_memory_is_turned_to_its_files(rt: HostRuntime) -> Result<(), Fail> {
    let mut shelf = two_files(&rt)?;
    turns(&rt, &mut shelf, "c", Ok(false));
    turns(&rt, &mut shelf, "b", Ok(true));
    assert!(rt; gives(&mut shelf, None), "the file's own position");
    shelf.fail_aim(1);
    turns(&rt, &mut shelf, "a", Ok(true));
    turns(&rt, &mut shelf, "b", Err(Failed));
    turns(&rt, &mut shelf, "b", Ok(true));
    Ok(())
}

// A piece is written whole or not, and then these octets stand in the sink.
fn writes(rt: &impl Abort, sink: &mut MemSink, piece: &[u8], whole: bool, octets: &[u8]) {
    assert!(rt; write_all(sink, piece).is_ok() == whole);
    assert!(rt; sink.bytes() == octets);
}

// A sink's octets are handed on or not, and then these are.
fn flushes(rt: &impl Abort, sink: &mut MemSink, whole: bool, octets: &[u8]) {
    assert!(rt; sink.flush().is_ok() == whole);
    assert!(rt; sink.handed() == octets);
}

#[test]
fn a_sink_in_memory_takes_pieces_and_fails_once_at_each_position(
    rt: HostRuntime,
) -> Result<(), Fail> {
    let mut sink = MemSink::new(rt.alloc(), 3, Vec::from_slice(rt.alloc(), &[4])?)?;
    writes(&rt, &mut sink, b"abcdef", false, b"abcd");
    writes(&rt, &mut sink, b"efg", true, b"abcdefg");
    sink.fail_flush();
    flushes(&rt, &mut sink, false, b"");
    flushes(&rt, &mut sink, true, b"abcdefg");
    Ok(())
}

#[test]
fn a_sink_in_memory_fails_past_its_room(rt: HostRuntime) -> Result<(), Fail> {
    let mut sink = MemSink::new(rt.alloc(), MEM_SINK_ROOM, Vec::new(rt.alloc()))?;
    let octets = Vec::from_elem(rt.alloc(), 7u8, MEM_SINK_ROOM)?;
    assert_eq!(rt; sink.write(&octets), Ok(MEM_SINK_ROOM));
    assert_eq!(rt; sink.write(b""), Ok(0));
    assert_eq!(rt; sink.write(b"x"), Err(Failed));
    Ok(())
}

// A file of the octets `octets` is read, and the rest of it is at hand.
fn reads<S: Shelf>(rt: &impl Abort, shelf: &mut S, path: &str) {
    turns(rt, shelf, path, Ok(true));
    assert!(rt; shelf.at_hand().is_empty(), "nothing is read yet");
    assert!(rt; gives(shelf, Some(b"octe")));
    assert!(rt;
        shelf.at_hand() == b"ts".as_slice(),
        "the rest is read ahead"
    );
}

// No file of this name is there, and nothing is read of it.
fn misses<S: Shelf>(rt: &impl Abort, shelf: &mut S, path: &str) {
    turns(rt, shelf, path, Ok(false));
    assert!(rt; gives(shelf, Some(b"")), "{path}");
}

// A folder is turned to, and its first read fails.
fn fails<S: Shelf>(rt: &impl Abort, shelf: &mut S, path: &str) {
    turns(rt, shelf, path, Ok(true));
    assert!(rt; gives(shelf, None), "{path}");
}

#[test]
fn real_files_are_read_held_or_faulty(rt: HostRuntime) -> Result<(), Fail> {
    let path = "outside_tests_real_file";
    fs::write(&rt, path, "octets")?;
    let mut shelf = FileShelf::new(rt, rt.alloc())?;
    reads(&rt, &mut shelf, path);
    misses(&rt, &mut shelf, "outside_tests_no_such_file");
    misses(&rt, &mut shelf, "outside_tests_real_file/part");
    fails(&rt, &mut shelf, ".");
    turns(&rt, &mut shelf, "-", Ok(true));
    fs::remove_file(&rt, path)?;
    Ok(())
}

// A piece is taken whole through a reference, and handed on.
fn takes<S: Sink>(rt: &impl Abort, mut sink: &mut S, piece: &[u8]) {
    assert!(rt; write_all(&mut sink, piece).is_ok());
    assert!(rt; (&mut sink).flush().is_ok());
}

#[test]
fn standard_streams_take_whole_pieces(rt: HostRuntime) -> Result<(), Fail> {
    takes(
        &rt,
        &mut StdSink::new(rt.stdout(), rt.alloc())?,
        b"standard output\n",
    );
    takes(
        &rt,
        &mut StdSink::new(rt.stderr(), rt.alloc())?,
        b"standard error\n",
    );
    Ok(())
}
