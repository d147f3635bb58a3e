//! An input read to its end, and bytes written to the last.

ghost use Rattle.std.specs.Prelude.{◌≡◌, ◌≤◌, ◌<◌, ◌+◌, ◌++◌, List, ℕ, Option, Some, Err, length, IfOk, IsErr, OnOk, OnErr};
ghost use Rattle.species_io.specs.Told.{Rose, before, then_bytes, AtEnd, IsLonger, GaveAtMost, GaveCount, TookPart};
ghost use Rattle.species_io.specs.Piecewise.{HandedOn};

use crate::piecewise::Piecewise;
use crate::sink::Sink;
use crate::source::{Failed, Source};
use std::alloc::{AllocError, AllocFailed, Global};
use thiserror::Error;

/// Why an input was not read to its end.
#[derive(Clone, Copy, Debug, PartialEq, Eq, Error)]
pub enum ReadAnswer {
    #[error("the input is longer than the limit")]
    TooLong,
    #[error("a read failed")]
    ReadFault,
    #[error("out of memory")]
    Memory,
}

impl From<AllocError> for ReadAnswer {
    ghost use Rattle.std.specs.Prelude.{◌≡◌};
    ghost use Rattle.species_io.specs.declared.whole.ReadAnswer.TheVariants.{Memory};

    ghost from_gives = { λ _ e. e ≡ Memory };

    fn from(_: AllocError) -> ReadAnswer {
        ReadAnswer::Memory
    }
}

impl<T: Drop> From<AllocFailed<T>> for ReadAnswer {
    ghost use Rattle.std.specs.Prelude.{◌≡◌};
    ghost use Rattle.species_io.specs.declared.whole.ReadAnswer.TheVariants.{Memory};

    ghost from_gives = { λ _ e. e ≡ Memory };

    fn from(_: AllocFailed<T>) -> ReadAnswer {
        ReadAnswer::Memory
    }
}

/// How many bytes one read asks for at most.
const BUFFER: usize = 65_536;

/// All bytes of a source, to its end.
///
/// No read asks for more than the limit and one byte allow, so that no byte behind these is taken,
/// whatever the answer is. After an error the source has given some bytes, and these are lost.
pub fn read_whole<S: Source>(alloc: Global, src: &mut S, limit: u32) -> Result<Vec<u8>, ReadAnswer>
    ensures value { IfOk result (λ v. S.left src.old ≡ before v.items (S.left src.new)) }
    ensures end { OnOk result (AtEnd (S.left src.new)) }
    ensures short { IfOk result (λ v. length v.items ≤ limit) }

    // Together: all bytes where they are told and within the limit, and else an error.
    ensures all { (bytes : List ℕ) → S.left src.old ≡ Some bytes → IfOk result (λ v. v.items ≡ bytes) }
    ensures refused { (bytes : List ℕ) → S.left src.old ≡ Some bytes → limit < length bytes → IsErr result }

    ensures long { result ≡ Err ReadAnswer.TooLong → IsLonger limit (S.left src.old) }
    ensures fault { result ≡ Err ReadAnswer.ReadFault → Rose (S.faults src.old) (S.faults src.new) }
    ensures never_falls { S.faults src.old ≤ S.faults src.new }

    // What was taken from the source: once more than `limit` bytes came, no more is asked.
    ensures budget { GaveAtMost (limit + 1) (S.left src.old) (S.left src.new) }
    ensures stopped { result ≡ Err ReadAnswer.TooLong → GaveCount (limit + 1) (S.left src.old) (S.left src.new) }
    ensures failed { result ≡ Err ReadAnswer.ReadFault → GaveAtMost limit (S.left src.old) (S.left src.new) }
{
    let most = limit as usize + 1;
    let mut whole = Vec::new(alloc);
    let mut buffer = [0u8; BUFFER];
    while whole.len() < most {
        let size = BUFFER.min(most - whole.len());
        match src.read(&mut buffer[..size]) {
            Ok(0) => return Ok(whole),
            Ok(n) => whole.extend_from_slice(&buffer[..n])?,
            Err(_) => return Err(ReadAnswer::ReadFault),
        }
    }
    Err(ReadAnswer::TooLong)
}

/// The next bytes of a source, at the front of the buffer, and none at its end.
fn read_piece<'b, S: Source>(src: &mut S, buffer: &'b mut [u8]) -> Result<&'b [u8], Failed>
    requires { 0 < length buffer.old }
    ensures took { IfOk result (λ piece. S.left src.old ≡ before piece.now (S.left src.new)) }
    ensures within { IfOk result (λ piece. length piece.now ≤ length buffer.old) }
    ensures ended { IfOk result (λ piece. length piece.now ≡ 0 → AtEnd (S.left src.old)) }
    ensures never_falls { S.faults src.old ≤ S.faults src.new }
    ensures failed { OnErr result (Rose (S.faults src.old) (S.faults src.new)) }
    ensures kept { OnErr result (S.left src.new ≡ S.left src.old) }
{
    match src.read(buffer) {
        Ok(n) => Ok(&buffer[..n]),
        Err(failed) => Err(failed),
    }
}

/// Hands on all bytes of a source, to its end, each piece as it comes. The only memory it takes is
/// what `to` takes.
///
/// No read asks for more than the limit and one byte allow, so that no byte behind these is taken,
/// whatever the answer is. Bytes past the limit are not handed on.
pub fn read_each<S: Source, P: Piecewise>(
    src: &mut S,
    limit: u32,
    to: &mut P,
) -> Result<(), ReadAnswer>
    requires { limit ≤ P.room to.old }
    ensures value { (bytes : List ℕ) → P.Means to.old bytes
        → OnOk result (HandedOn (P.Means to.new) limit (P.room to.old) (P.room to.new) bytes (S.left src.old) (S.left src.new)) }
    ensures end { OnOk result (AtEnd (S.left src.new)) }
    ensures part { (bytes : List ℕ) → P.Means to.old bytes
        → OnErr result ((rest : Option (List ℕ)) × HandedOn (P.Means to.new) limit (P.room to.old) (P.room to.new) bytes (S.left src.old) rest) }

    // Together: all bytes where they are told and within the limit, and else an error.
    ensures all { (had bytes : List ℕ) → S.left src.old ≡ Some had → P.Means to.old bytes → OnOk result (P.Means to.new (bytes ++ had)) }
    ensures refused { (had : List ℕ) → S.left src.old ≡ Some had → limit < length had → IsErr result }

    ensures long { result ≡ Err ReadAnswer.TooLong → IsLonger limit (S.left src.old) }
    ensures fault { result ≡ Err ReadAnswer.ReadFault → Rose (S.faults src.old) (S.faults src.new) }
    ensures never_falls { S.faults src.old ≤ S.faults src.new }

    // What was taken from the source: once more than `limit` bytes came, no more is asked.
    ensures budget { GaveAtMost (limit + 1) (S.left src.old) (S.left src.new) }
    ensures stopped { result ≡ Err ReadAnswer.TooLong → GaveCount (limit + 1) (S.left src.old) (S.left src.new) }
    ensures failed { result ≡ Err ReadAnswer.ReadFault → GaveAtMost limit (S.left src.old) (S.left src.new) }
{
    let most = limit as usize;
    let mut handed = 0;
    let mut buffer = [0u8; BUFFER];
    loop {
        let size = BUFFER.min(most + 1 - handed);
        match read_piece(src, &mut buffer[..size]) {
            Err(_) => return Err(ReadAnswer::ReadFault),
            Ok(piece) => {
                if piece.is_empty() {
                    return Ok(());
                }
                if piece.len() > most - handed {
                    return Err(ReadAnswer::TooLong);
                }
                match to.take(piece) {
                    Ok(()) => handed += piece.len(),
                    Err(_) => return Err(ReadAnswer::Memory),
                }
            }
        }
    }
}

/// Hands all bytes to a sink, or the first of them where a write fails. Takes no memory.
pub fn write_all<K: Sink>(out: &mut K, bytes: &[u8]) -> Result<(), Failed>
    ensures ok { OnOk result (K.taken out.new ≡ then_bytes (K.taken out.old) bytes.now) }
    ensures part { OnErr result (TookPart (K.taken out.old) (K.taken out.new) bytes.now) }
    ensures fault { OnErr result (Rose (K.faults out.old) (K.faults out.new)) }
    ensures never_falls { K.faults out.old ≤ K.faults out.new }
{
    let mut rest = bytes;
    while !rest.is_empty() {
        let n = out.write(rest)?;
        rest = &rest[n..];
    }
    Ok(())
}
