//! Inputs and sinks: a folder, and those that lie in memory.
use io_edge::{
    CleanInputs, CleanSink, DirInputs, Failed, Inputs, ReadAllError, read_all, write_all,
};
use std::fs;

#[test]
fn a_folder_is_begun_and_not_read_and_nothing_is_taken_of_no_file(rt: HostRuntime) {
    let mut room = [0u8; 4];
    assert!(rt; fs::create_dir(&rt, "io_edge_folder").is_ok());
    let mut inputs = DirInputs::new(rt);
    assert!(rt; inputs.begin("io_edge_folder") == Ok(()));
    assert!(rt; inputs.take(&mut room) == Err(Failed) && inputs.take(&mut room) == Err(Failed));
    assert!(rt; inputs.begin("io_edge_absent.txt") == Err(Failed));
    assert!(rt; inputs.take(&mut room) == Ok(0));
    assert!(rt; fs::remove_dir(&rt, "io_edge_folder").is_ok());
}

#[test]
fn a_file_that_is_put_in_again_replaces_the_bytes(rt: HostRuntime) {
    let mut inputs = CleanInputs::new(rt.alloc());
    let mut room = [0u8; 8];
    inputs.file("a", b"old").expect(&rt, "memory");
    assert!(rt; inputs.begin("a") == Ok(()));
    inputs.file("a", b"new and longer").expect(&rt, "memory");
    assert!(rt; inputs.take(&mut room) == Ok(3));
    let whole = read_all(rt.alloc(), &mut inputs, "a", 14).expect(&rt, "a whole file");
    assert!(rt; whole.as_slice() == b"new and longer".as_slice());
    let long = read_all(rt.alloc(), &mut inputs, "a", 13);
    assert!(rt; long.err() == Some(ReadAllError::TooLong));
}

#[test]
fn a_sink_keeps_what_fits(rt: HostRuntime) {
    let room = Vec::with_capacity(rt.alloc(), 4).expect(&rt, "memory");
    let mut sink = CleanSink::new(room);
    for piece in [b"012".as_slice(), b"345".as_slice(), b"".as_slice()] {
        assert!(rt; write_all(&mut sink, piece).is_ok());
    }
    assert!(rt; sink.bytes() == b"0123".as_slice());
}
