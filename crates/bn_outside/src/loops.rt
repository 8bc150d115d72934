//! The loops over a sink and a source. Each turn takes at least one byte.
ghost use Rattle.std.specs.Prelude.{◌≡◌, ◌≢◌, ◌≤◌, ◌<◌, ◌+◌, ◌++◌, ℕ, List, IfOk, IfSome, OnOk, OnErr, Err, vec_len, length};
ghost use Rattle.std.specs.Io.KnownBytes.{Appends};
ghost use Rattle.bn_outside.specs.Counts.{CountsFault, ReadCounts, Rose};
ghost use Rattle.bn_outside.specs.Streams.{AppendsPart, AppendsShort, ConsumesAll, ConsumesWithin};
ghost use Rattle.bn_outside.specs.declared.loops.ReadError.TheVariants as read_error;

use crate::{Failed, NoSink, Sink, Source};
use std::alloc::{AllocError, Global};
use thiserror::Error;

/// Why a source was not read to its end.
#[derive(Clone, Copy, Debug, Drop, PartialEq, Eq, Error)]
pub enum ReadError {
    /// More bytes were left than the limit.
    #[error("more bytes than the limit")]
    TooLong,
    /// A read failed.
    #[error("the read failed")]
    Failed,
    /// There was no memory for the bytes.
    #[error("out of memory")]
    OutOfMemory,
}

impl From<Failed> for ReadError {
    ghost from_gives = { λ _ error. error ≡ read_error.Failed };

    fn from(_: Failed) -> ReadError {
        ReadError::Failed
    }
}

impl From<AllocError> for ReadError {
    ghost from_gives = { λ _ error. error ≡ read_error.OutOfMemory };

    fn from(_: AllocError) -> ReadError {
        ReadError::OutOfMemory
    }
}

// How many bytes one read asks for.
const PIECE: usize = 65_536;

/// Writes all of a text.
///
/// It fails if a write did, which isn't made again. Then the sink was given a prefix of the text and
/// not all of it.
pub fn send_all<K: Sink>(sink: &mut K, text: &[u8]) -> Result<(), Failed>
    ensures ok { OnOk result (Appends (K.stream sink.old).text (K.stream sink.new).text text.now) }
    ensures part { AppendsPart (K.stream sink.old).text (K.stream sink.new).text text.now }
    ensures short { OnErr result (AppendsShort (K.stream sink.old).text (K.stream sink.new).text text.now) }
    ensures later { (K.stream sink.old).faults ≤ (K.stream sink.new).faults }
    ensures once { CountsFault (K.stream sink.old).faults (K.stream sink.new).faults result }
    ensures cause { OnErr result (Rose (K.stream sink.old).faults (K.stream sink.new).faults) }
{
    let mut sent = 0;
    while sent < text.len() {
        sent += sink.write(&text[sent..])?;
    }
    Ok(())
}

// Appends a piece to what was read, for all of which room is made with the first piece.
// Room is made only once bytes have come: so an empty file needs no memory, and a file that says a wrong size,
// or none, is read all the same.
fn gather(bytes: &mut Vec<u8>, piece: &[u8], expected: usize) -> Result<(), AllocError>
    ensures items { OnOk result (bytes.new.items ≡ bytes.old.items ++ piece.now) }
    ensures len { OnOk result (vec_len bytes.new ≡ vec_len bytes.old + length piece.now) }
{
    if bytes.is_empty() {
        bytes.reserve_exact(expected)?;
    }
    bytes.extend_from_slice(piece)
}

// Appends a piece to what was read, if both are at most `limit` together.
fn gather_within(
    bytes: &mut Vec<u8>,
    piece: &[u8],
    expected: usize,
    limit: usize,
) -> Result<(), ReadError>
    requires { vec_len bytes.old ≤ limit }
    ensures items { OnOk result (bytes.new.items ≡ bytes.old.items ++ piece.now) }
    ensures len { OnOk result (vec_len bytes.new ≡ vec_len bytes.old + length piece.now) }
    ensures within { OnOk result (vec_len bytes.new ≤ limit) }
    ensures long { result ≡ Err read_error.TooLong → limit < vec_len bytes.old + length piece.now }
    ensures memory { result ≡ Err read_error.OutOfMemory → vec_len bytes.old + length piece.now ≤ limit }
    ensures works { result ≢ Err read_error.Failed }
{
    if piece.len() > limit - bytes.len() {
        return Err(ReadError::TooLong);
    }
    gather(bytes, piece, expected.min(limit))?;
    Ok(())
}

/// Reads all bytes that a source has left, if they are at most `limit`.
///
/// Room for `expected` bytes, or for `limit` if that is less, is made once, when the first bytes have
/// come. It grows if more come.
///
/// It stops once more than `limit` bytes have come, so at most 65,536 bytes past the limit are
/// gone, whatever the answer. `Failed` comes if a read failed, which isn't made again. It runs out of
/// memory only if some bytes were left and some may come.
pub fn read_to_end<I: Source<NoSink>>(
    alloc: Global,
    source: &mut I,
    expected: usize,
    limit: usize,
) -> Result<Vec<u8>, ReadError>
    ensures bound { IfOk result (λ bytes. vec_len bytes ≤ limit) }
    ensures all { IfOk result (λ bytes.
        ConsumesAll (I.source source.old).left (I.source source.new).left bytes.items) }
    ensures long { result ≡ Err ReadError.TooLong →
        IfSome (I.source source.old).left (λ left. limit < length left) }
    ensures part { ConsumesWithin (limit + 65536) (I.source source.old).left (I.source source.new).left }
    ensures later { (I.source source.old).faults ≤ (I.source source.new).faults }
    ensures once { ReadCounts (I.source source.old).faults (I.source source.new).faults result }
    ensures cause { result ≡ Err ReadError.Failed →
        Rose (I.source source.old).faults (I.source source.new).faults }
    ensures memory { result ≡ Err ReadError.OutOfMemory →
        (0 < limit) × IfSome (I.source source.old).left (λ left. 0 < length left) }
{
    let mut bytes = Vec::new(alloc);
    let mut piece = [0u8; PIECE];
    'pieces: loop {
        let count = source.read(&NoSink, &mut piece)?;
        if count == 0 {
            return Ok(bytes);
        }
        gather_within(&mut bytes, &piece[..count], expected, limit)?;
    }
}
