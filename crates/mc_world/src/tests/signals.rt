//! A reader and a writer whose every other call is interrupted by a signal, from the first one on.
use crate::device::Device;
use crate::edge::{read_whole, write_piece};
use crate::{FetchFault, SinkFault};
use std::alloc::Global;
use std::io::{self, ErrorKind, Read, Write};

const TEXT: &str = "tasks 2\n";

// What happens at the calls, numbered from 1: each odd one is interrupted, one of the others may fail, and the rest
// move at most three bytes.
#[derive(Drop)]
struct Signals {
    calls: u64,
    fails: u64,
}

impl Signals {
    fn next_call(&mut self) -> io::Result<()> {
        self.calls = self.calls.saturating_add(1);
        if self.calls % 2 == 1 {
            return Err(io::Error::from(ErrorKind::Interrupted));
        }
        if self.calls == self.fails {
            return Err(io::Error::from(ErrorKind::Other));
        }
        Ok(())
    }
}

#[derive(Drop)]
struct SignalledReader {
    signals: Signals,
    left: &'static [u8],
}

impl Read for SignalledReader {
    fn read(&mut self, buffer: &mut [u8]) -> io::Result<usize> {
        self.signals.next_call()?;
        let most = buffer.len().min(3);
        self.left.read(&mut buffer[..most])
    }
}

#[derive(Drop)]
struct SignalledWriter<'a> {
    signals: Signals,
    taken: &'a mut Vec<u8>,
}

impl Write for SignalledWriter<'_> {
    fn write(&mut self, piece: &[u8]) -> io::Result<usize> {
        self.signals.next_call()?;
        let count = piece.len().min(3);
        self.taken.extend_from_slice(&piece[..count])?;
        Ok(count)
    }

    fn flush(&mut self) -> io::Result<()> {
        self.signals.next_call()
    }
}

// Whether the text is read with this result within the limit, in this number of bytes, from a reader that fails at this
// call.
fn is_read(
    alloc: Global,
    fails: u64,
    limit: usize,
    expected: Result<(), FetchFault>,
    read: u64,
) -> bool {
    let signals = Signals { calls: 0, fails };
    let left = TEXT.as_bytes();
    let mut bytes_read = 0;
    let mut reader = Device::new(SignalledReader { signals, left });
    let answer = read_whole(alloc, &mut reader, limit.min(8), &mut bytes_read);
    bytes_read == read
        && match answer {
            Ok(bytes) => expected.is_ok() && bytes.as_slice() == TEXT.as_bytes(),
            Err(fault) => expected == Err(fault),
        }
}

#[test]
fn an_interrupted_read_is_tried_again(rt: HostRuntime) {
    let cases = [
        // Three pieces, each with an interruption before it, and one before the end.
        (0, 8, Ok(()), 8),
        (0, 7, Err(FetchFault::TooLong), 8),
        (4, 8, Err(FetchFault::Failed), 3),
        // The read that would show the end of the text.
        (8, 8, Err(FetchFault::Failed), 8),
    ];
    for (fails, limit, expected, read) in cases {
        assert!(rt;
            is_read(rt.alloc(), fails, limit, expected, read),
            "{fails} {limit}"
        );
    }
}

// Whether two writes have these results, with a writer that fails at this call and has then taken these bytes.
fn is_written(
    alloc: Global,
    fails: u64,
    expected: [Result<usize, SinkFault>; 2],
    taken: &str,
) -> bool {
    let mut bytes = Vec::new(alloc);
    let signals = Signals { calls: 0, fails };
    let mut out = Device::new(SignalledWriter {
        signals,
        taken: &mut bytes,
    });
    let first = write_piece(&mut out, b"tasks");
    let second = write_piece(&mut out, b"k");
    [first, second] == expected && bytes.as_slice() == taken.as_bytes()
}

#[test]
fn an_interrupted_write_or_flush_is_tried_again(rt: HostRuntime) {
    let cases = [
        (0, [Ok(3), Ok(1)], "task"),
        // The write, the flush after it, and both for the second piece.
        (2, [Err(SinkFault), Ok(1)], "k"),
        (4, [Err(SinkFault), Ok(1)], "task"),
        (6, [Ok(3), Err(SinkFault)], "tas"),
        (8, [Ok(3), Err(SinkFault)], "task"),
    ];
    for (fails, expected, taken) in cases {
        assert!(rt; is_written(rt.alloc(), fails, expected, taken), "{fails}");
    }
}
