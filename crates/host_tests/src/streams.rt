//! Readers as sources, and writers as sinks.
ghost use Rattle.std.specs.Prelude.{◌≡◌, IfOk};

use bn_outside::{Failed, NoSink, Source, read_to_end, send_all};
use host_outside::{ReaderSource, Writing};
use std::alloc::Global;
use std::fs::Files;
use std::io::{ErrorKind, Read, Write};
use std::test::Fail;
use std::{env, fs, io};

// Whether a source gives the first byte of a text, and then its others.
fn text_is_read(alloc: Global) -> bool {
    let mut source = ReaderSource::new(b"text".as_slice());
    let first = source.read(&NoSink, &mut [0]) == Ok(1);
    match read_to_end(alloc, &mut source, 0, 3) {
        Ok(rest) => first && rest.as_slice() == b"ext".as_slice(),
        Err(_) => false,
    }
}

// A reader that says at each other read that it ended, as a terminal can.
#[derive(Drop)]
struct Terminal {
    reads: u64,
}

impl Read for Terminal {
    fn read(&mut self, buffer: &mut [u8]) -> io::Result<usize> {
        self.reads = self.reads.saturating_add(1);
        Ok(if self.reads % 2 == 1 { 0 } else { buffer.len() })
    }
}

// What two reads give of a reader that has ended and could continue.
fn read_twice() -> [bool; 2] {
    let mut source = ReaderSource::new(Terminal { reads: 0 });
    [
        source.read(&NoSink, &mut [0]) == Ok(0),
        source.read(&NoSink, &mut [0]) == Ok(0),
    ]
}

#[test]
fn a_reader_that_has_ended_is_not_read_again(rt: HostRuntime) {
    assert_eq!(rt; read_twice(), [true; 2]);
}

// A stream at which each second call alone isn't interrupted.
#[derive(Drop)]
struct Shaken {
    calls: u64,
}

impl Shaken {
    fn moves(&mut self, count: usize) -> io::Result<usize>
        ensures { IfOk result (λ n. n ≡ count) }
    {
        self.calls = self.calls.saturating_add(1);
        if self.calls % 2 == 1 {
            return Err(io::Error::from(ErrorKind::Interrupted));
        }
        Ok(count)
    }
}

impl Read for Shaken {
    fn read(&mut self, buffer: &mut [u8]) -> io::Result<usize> {
        self.moves(buffer.len())
    }
}

impl Write for Shaken {
    fn write(&mut self, piece: &[u8]) -> io::Result<usize> {
        self.moves(piece.len())
    }

    fn flush(&mut self) -> io::Result<()> {
        Ok(())
    }
}

// Whether a read and a write that a signal interrupts are made again.
fn is_made_again() -> [bool; 2] {
    let mut source = ReaderSource::new(Shaken { calls: 0 });
    let mut sink = Writing::new(Shaken { calls: 0 });
    [
        source.read(&NoSink, &mut [0, 0]) == Ok(2),
        send_all(&mut sink, b"text") == Ok(()),
    ]
}

#[test]
fn what_a_signal_interrupts_is_made_again(rt: HostRuntime) {
    assert_eq!(rt; is_made_again(), [true; 2]);
}

// A reader whose first read alone fails.
#[derive(Drop)]
struct Faulty {
    reads: u64,
}

impl Read for Faulty {
    fn read(&mut self, buffer: &mut [u8]) -> io::Result<usize> {
        self.reads = self.reads.saturating_add(1);
        if self.reads == 1 {
            return Err(io::Error::from(ErrorKind::PermissionDenied));
        }
        Ok(buffer.len())
    }
}

// Whether a read that fails is told, and the next one is the reader's next.
fn is_told_once() -> [bool; 2] {
    let mut source = ReaderSource::new(Faulty { reads: 0 });
    [
        source.read(&NoSink, &mut [0, 0]) == Err(Failed),
        source.read(&NoSink, &mut [0, 0]) == Ok(2),
    ]
}

#[test]
fn a_read_that_fails_is_not_made_again(rt: HostRuntime) {
    assert_eq!(rt; is_told_once(), [true; 2]);
}

// Whether a folder can be opened, and not read.
fn folder_is_not_read<R: Files>(rt: &R, folder: &str) -> bool {
    match fs::open(rt, folder) {
        Ok(file) => ReaderSource::new(file).read(&NoSink, &mut [0]) == Err(Failed),
        Err(_) => false,
    }
}

#[test]
fn a_source_gives_what_its_reader_gives(rt: HostRuntime) -> Result<(), Fail> {
    let folder = env::temp_dir(&rt)?;
    let refused = folder_is_not_read(&rt, folder.as_str());
    assert!(rt; refused);
    assert!(rt; text_is_read(rt.alloc()));
    Ok(())
}

// What a writer of six bytes takes of a text twice: whether it takes all of it, and whether it fails then; and its bytes.
fn sent_twice() -> (bool, bool, [u8; 6]) {
    let mut room = [0; 6];
    let mut sink = Writing::new(room.as_mut_slice());
    let first = send_all(&mut sink, b"text") == Ok(());
    let second = send_all(&mut sink, b"text") == Err(Failed);
    drop(sink);
    (first, second, room)
}

#[test]
fn a_sink_fails_where_its_writer_takes_nothing(rt: HostRuntime) {
    let told = sent_twice();
    assert!(rt; told == (true, true, *b"textte"));
}
