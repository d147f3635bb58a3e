//! Inputs and outputs that end, fail, or fall short.

use super::*;
use species_ast::OutOfMemory;
use std::alloc::Global;
use std::io;
use std::io::{ErrorKind, Read, Write};

const GREETING: &[u8] = b"hello, world";

fn source(alloc: Global, piece: usize, fails: &[u64]) -> Result<MemSource, OutOfMemory> {
    let bytes = Vec::from_slice(alloc, GREETING)?;
    let fails = Vec::from_slice(alloc, fails)?;
    Ok(MemSource::new(bytes, piece.max(1), fails))
}

#[test]
fn reads_to_the_end_or_says_why_not(rt: HostRuntime) {
    let cases: [(usize, &[u64], u32, Result<(), ReadAnswer>); 10] = [
        (5, &[], 12, Ok(())),
        (1, &[], 12, Ok(())),
        (12, &[], 4_194_304, Ok(())),
        // The end is said by call 3, and no call follows it.
        (5, &[4], 12, Ok(())),
        (5, &[3], 12, Err(ReadAnswer::ReadFault)),
        (5, &[0, 1], 12, Err(ReadAnswer::ReadFault)),
        (5, &[], 11, Err(ReadAnswer::TooLong)),
        (1, &[], 0, Err(ReadAnswer::TooLong)),
        // Ten bytes have come before call 2, and that is enough.
        (5, &[2], 9, Err(ReadAnswer::TooLong)),
        (5, &[2], 10, Err(ReadAnswer::ReadFault)),
    ];
    let alloc = rt.alloc();
    for (piece, fails, limit, want) in cases {
        let mut input = source(alloc, piece, fails).expect(&rt, "memory");
        let got = read_whole(alloc, &mut input, limit);
        match got {
            Ok(bytes) => {
                assert!(rt; want == Ok(()), "{piece} {limit}");
                assert!(rt; bytes.as_slice() == GREETING, "{piece} {limit}");
            }
            Err(answer) => assert!(rt; want == Err(answer), "{piece} {limit}"),
        }
    }
}

/// Keeps the bytes, and refuses what comes after so many pieces.
#[derive(Drop)]
struct Kept {
    bytes: Vec<u8>,
    pieces: usize,
    room: usize,
}

impl Piecewise for Kept {
    ghost use Rattle.std.specs.Prelude.{◌≡◌};

    ghost Means = { λ k bytes. k.bytes.items ≡ bytes };

    ghost room = { λ k. k.room };

    fn take(&mut self, piece: &[u8]) -> Result<(), OutOfMemory> {
        if self.pieces == 0 {
            return Err(OutOfMemory);
        }
        self.bytes.extend_from_slice(piece)?;
        self.pieces -= 1;
        self.room -= piece.len();
        Ok(())
    }
}

#[test]
fn hands_on_each_piece(rt: HostRuntime) {
    let cases: [(usize, &[u64], u32, usize, Result<(), ReadAnswer>, &[u8]); 8] = [
        (5, &[], 12, 3, Ok(()), GREETING),
        (1, &[], 12, 12, Ok(()), GREETING),
        (12, &[], 4_194_304, 1, Ok(()), GREETING),
        (5, &[3], 12, 3, Err(ReadAnswer::ReadFault), GREETING),
        (5, &[1], 12, 3, Err(ReadAnswer::ReadFault), b"hello"),
        (5, &[], 11, 3, Err(ReadAnswer::TooLong), b"hello, wor"),
        (1, &[], 0, 3, Err(ReadAnswer::TooLong), b""),
        (5, &[], 12, 2, Err(ReadAnswer::Memory), b"hello, wor"),
    ];
    let alloc = rt.alloc();
    for (piece, fails, limit, pieces, want, handed) in cases {
        let mut input = source(alloc, piece, fails).expect(&rt, "memory");
        let mut kept = Kept {
            bytes: Vec::new(alloc),
            pieces,
            room: 4_194_304,
        };
        let answer = read_each(&mut input, limit, &mut kept);
        assert!(rt;
            answer == want || answer == Err(ReadAnswer::Memory),
            "{piece} {limit}"
        );
        assert!(rt; kept.bytes.as_slice() == handed, "{piece} {limit}");
    }
}

#[test]
fn writes_all_or_a_prefix(rt: HostRuntime) {
    let cases: [(usize, usize, &[u64], Result<(), Failed>, &[u8]); 8] = [
        (16_777_216, 5, &[], Ok(()), GREETING),
        (12, 1, &[], Ok(()), GREETING),
        (12, 100, &[1], Ok(()), GREETING),
        (11, 5, &[], Err(Failed), b"hello, worl"),
        (0, 5, &[], Err(Failed), b""),
        (100, 5, &[0], Err(Failed), b""),
        (100, 5, &[2], Err(Failed), b"hello, wor"),
        (100, 1, &[7, 5], Err(Failed), b"hello"),
    ];
    let alloc = rt.alloc();
    for (room, piece, fails, want, taken) in cases {
        let fails = Vec::from_slice(alloc, fails).expect(&rt, "memory");
        let mut output = MemSink::new(alloc, room, piece.max(1), fails).expect(&rt, "memory");
        assert!(rt; write_all(&mut output, GREETING) == want, "{room} {piece}");
        assert!(rt; output.bytes() == taken, "{room} {piece}");
    }
}

/// Gives three bytes and then fails.
#[derive(Drop)]
struct Broken {
    calls: u32,
}

impl Read for Broken {
    fn read(&mut self, buf: &mut [u8]) -> io::Result<usize> {
        if self.calls == 1 || buf.len() < 3 {
            return Err(io::Error::from(ErrorKind::BrokenPipe));
        }
        self.calls = 1;
        buf[..3].copy_from_slice(b"abc");
        Ok(3)
    }
}

#[test]
fn reads_from_std(rt: HostRuntime) {
    let alloc = rt.alloc();
    let mut input = StdSource::new(GREETING);
    let whole = read_whole(alloc, &mut input, 12).expect(&rt, "all bytes");
    assert!(rt; whole.as_slice() == GREETING);

    let mut input = StdSource::new(Broken { calls: 0 });
    let answer = read_whole(alloc, &mut input, 12).err();
    assert!(rt; answer == Some(ReadAnswer::ReadFault));
}

#[derive(Clone, Copy, Drop, PartialEq)]
enum Fault {
    Write,
    NoByte,
    Flush,
}

/// Takes three bytes, and then has a fault.
#[derive(Drop)]
struct Jammed<'a> {
    taken: &'a mut Vec<u8>,
    fault: Fault,
}

impl<'a> Write for Jammed<'a> {
    fn write(&mut self, buf: &[u8]) -> io::Result<usize> {
        if self.taken.is_empty() {
            let n = buf.len().min(3);
            self.taken.extend_from_slice(&buf[..n])?;
            return Ok(n);
        }
        match self.fault {
            Fault::Write => Err(io::Error::from(ErrorKind::BrokenPipe)),
            Fault::NoByte => Ok(0),
            Fault::Flush => Ok(buf.len()),
        }
    }

    fn flush(&mut self) -> io::Result<()> {
        if self.fault == Fault::Flush {
            return Err(io::Error::from(ErrorKind::BrokenPipe));
        }
        Ok(())
    }
}

#[test]
fn writes_to_std(rt: HostRuntime) {
    let alloc = rt.alloc();
    let mut taken = Vec::new(alloc);
    let mut output = StdSink::new(&mut taken);
    assert!(rt; write_all(&mut output, GREETING) == Ok(()));
    assert!(rt; taken.as_slice() == GREETING);

    for fault in [Fault::Write, Fault::NoByte, Fault::Flush] {
        let mut taken = Vec::new(alloc);
        let mut output = StdSink::new(Jammed {
            taken: &mut taken,
            fault,
        });
        assert!(rt; write_all(&mut output, GREETING) == Err(Failed));
        assert!(rt; taken.as_slice() == b"hel".as_slice());
    }
}
