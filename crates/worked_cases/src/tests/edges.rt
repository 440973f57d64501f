//! Files and streams of the system, in whose place stand some that fail, are slow or are interrupted.
ghost use Rattle.std.specs.Prelude.{IsErr};

use io_edge::{DirInputs, ReadAllError, StdSink, read_all, write_all};
use std::alloc::{Allocator, Global};
use std::fs::{Metadata, OpenFile, OpenOptions};
use std::io;
use std::io::{ErrorKind, Read, Seek, SeekFrom, Write};
use std::process::Abort;
use std::rt::Files;

const TEXT: &[u8] = b"1|2|-1\n1|3|-1\n";

// Which call of a stream fails, and which one a signal interrupts, both counted from 1; 0 for none.
#[derive(Clone, Copy)]
struct Calls {
    fails: u64,
    interrupted: u64,
    made: u64,
}

impl Calls {
    fn of(fails: u64, interrupted: u64) -> Calls {
        Calls {
            fails,
            interrupted,
            made: 0,
        }
    }

    // Counts a call.
    fn next(&mut self) -> io::Result<()> {
        self.made = self.made.saturating_add(1);
        if self.made == self.fails {
            return Err(io::Error::from(ErrorKind::Other));
        }
        if self.made == self.interrupted {
            return Err(io::Error::from(ErrorKind::Interrupted));
        }
        Ok(())
    }
}

fn unsupported<T>() -> io::Result<T>
    ensures { IsErr result }
{
    Err(io::Error::from(ErrorKind::Unsupported))
}

// A file that gives one byte a call.
#[derive(Drop)]
struct SlowFile {
    left: &'static [u8],
    calls: Calls,
}

impl Read for SlowFile {
    fn read(&mut self, buf: &mut [u8]) -> io::Result<usize> {
        self.calls.next()?;
        if buf.is_empty() {
            return Ok(0);
        }
        match self.left.split_first() {
            Some((byte, rest)) => {
                buf[0] = *byte;
                self.left = rest;
                Ok(1)
            }
            None => Ok(0),
        }
    }
}

impl Write for SlowFile {
    fn write(&mut self, _buf: &[u8]) -> io::Result<usize> {
        unsupported()
    }

    fn flush(&mut self) -> io::Result<()> {
        unsupported()
    }
}

impl Seek for SlowFile {
    fn seek(&mut self, _to: SeekFrom) -> io::Result<u64> {
        unsupported()
    }
}

impl OpenFile for SlowFile {
    fn metadata(&self) -> io::Result<Metadata> {
        unsupported()
    }

    fn set_len(&self, _size: u64) -> io::Result<()> {
        unsupported()
    }

    fn sync_all(&self) -> io::Result<()> {
        unsupported()
    }

    fn sync_data(&self) -> io::Result<()> {
        unsupported()
    }
}

// A system that has one slow file under each name.
#[derive(Drop)]
struct SlowFiles {
    calls: Calls,
}

impl Files for SlowFiles {
    type File = SlowFile;

    type Dir = SlowFile;

    fn open_file(&self, _how: &OpenOptions, _path: &str) -> io::Result<SlowFile> {
        Ok(SlowFile {
            left: TEXT,
            calls: self.calls,
        })
    }

    fn open_dir(&self, _path: &str) -> io::Result<SlowFile> {
        unsupported()
    }

    fn metadata(&self, _path: &str) -> io::Result<Metadata> {
        unsupported()
    }

    fn symlink_metadata(&self, _path: &str) -> io::Result<Metadata> {
        unsupported()
    }

    fn copy(&self, _from: &str, _to: &str) -> io::Result<u64> {
        unsupported()
    }

    fn rename(&self, _from: &str, _to: &str) -> io::Result<()> {
        unsupported()
    }

    fn remove_file(&self, _path: &str) -> io::Result<()> {
        unsupported()
    }

    fn create_dir(&self, _path: &str) -> io::Result<()> {
        unsupported()
    }

    fn remove_dir(&self, _path: &str) -> io::Result<()> {
        unsupported()
    }

    fn remove_dir_all<B: Allocator>(&self, _alloc: B, _path: &str) -> io::Result<()> {
        unsupported()
    }
}

// A stream that takes one byte a call and keeps it.
#[derive(Drop)]
struct SlowStream {
    kept: Vec<u8>,
    calls: Calls,
}

impl Write for SlowStream {
    fn write(&mut self, buf: &[u8]) -> io::Result<usize> {
        self.calls.next()?;
        match buf.first() {
            Some(byte) => {
                self.kept.push(*byte)?;
                Ok(1)
            }
            None => Ok(0),
        }
    }

    fn flush(&mut self) -> io::Result<()> {
        Ok(())
    }
}

// The file of which the calls of these numbers fail and are interrupted is read whole, or a read of it fails.
fn check_read(rt: &impl Abort, alloc: Global, fails: u64, interrupted: u64, whole: bool) {
    let mut inputs = DirInputs::new(SlowFiles {
        calls: Calls::of(fails, interrupted),
    });
    match read_all(alloc, &mut inputs, "rel", 14) {
        Ok(bytes) => assert!(rt; whole && bytes.as_slice() == TEXT),
        Err(error) => assert!(rt; !whole && error == ReadAllError::ReadFault),
    }
}

#[test]
fn a_file_that_fails_in_the_middle_does_not_end_there(rt: HostRuntime) {
    // Each of 14 calls gives a byte, and one more tells the end.
    for call in 1..17u64 {
        check_read(&rt, rt.alloc(), call, 0, call == 16);
        check_read(&rt, rt.alloc(), 0, call, true);
        check_read(&rt, rt.alloc(), call.saturating_add(1), call, call == 16);
    }
}

// A stream of which the calls of these numbers fail and are interrupted gets so many of the bytes, each once.
fn check_written(rt: &impl Abort, alloc: Global, fails: u64, interrupted: u64, count: usize) {
    let mut stream = SlowStream {
        kept: Vec::with_capacity(alloc, 16).expect(rt, "memory"),
        calls: Calls::of(fails, interrupted),
    };
    let mut sink = StdSink::new(&mut stream);
    let written = write_all(&mut sink, TEXT);
    drop(sink);
    assert!(rt; written.is_ok() == (count == 14));
    assert!(rt; Some(stream.kept.as_slice()) == TEXT.get(..count));
}

#[test]
fn a_slow_stream_gets_each_byte_once_or_a_front(rt: HostRuntime) {
    for count in 0..15usize {
        let next = (count as u64).saturating_add(1);
        check_written(&rt, rt.alloc(), next, 0, count);
        check_written(&rt, rt.alloc(), 0, next, 14);
    }
}
