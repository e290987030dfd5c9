//! Adapters over the real streams. They tell no content, and count their errors.
ghost use Rattle.std.specs.Prelude.{◌≡◌, ℕ, ◌<◌, ◌≤◌, None, length, take};
ghost use Rattle.std.specs.Io.KnownBytes.{Appends, Consumes, IsAtEnd, Keeps};
ghost use Rattle.kmp_base.specs.Streams.{IfGot, OnReadFailed, IfTook, OnWriteFailed, next_count};

use crate::{Read, Sink, Source, Wrote};

/// A source over any reader. Each error of the reader, an interrupted read too, is a fault.
#[derive(Drop)]
pub struct StdSource<R: std::io::Read> {
    /// Where the bytes come from.
    pub reader: R,
    /// The number of calls that failed, which stops at its last value.
    pub faults: u64,
}

/// A sink over any writer, which is flushed after each write. An error of a write or of a flush is
/// a fault, and so is a write that takes no byte. After a failed flush the writer may hold what it
/// took.
#[derive(Drop)]
pub struct StdSink<W: std::io::Write> {
    /// Where the bytes go to.
    pub writer: W,
    /// The number of calls that failed, which stops at its last value.
    pub faults: u64,
}

impl<R: std::io::Read> StdSource<R> {
    /// A source without a fault so far.
    pub fn new(reader: R) -> Self
        ensures reader { result.reader ≡ reader }
        ensures faults { result.faults ≡ 0 }
    {
        StdSource { reader, faults: 0 }
    }
}

impl<W: std::io::Write> StdSink<W> {
    /// A sink without a fault so far.
    pub fn new(writer: W) -> Self
        ensures writer { result.writer ≡ writer }
        ensures faults { result.faults ≡ 0 }
    {
        StdSink { writer, faults: 0 }
    }
}

impl<R: std::io::Read> Source for StdSource<R> {
    ghost left = { λ _. None };

    ghost faults = { λ source. source.faults };

    fn read(&mut self, buf: &mut [u8]) -> Read
        requires { 0 < length buf.old }
        ensures bound { IfGot result (λ n. n ≤ length buf.new) }
        ensures no_fault { IfGot result (λ _. self.new.faults ≡ self.old.faults) }
        ensures cause { OnReadFailed result (self.new.faults ≡ next_count self.old.faults) }
        ensures later { self.old.faults ≤ self.new.faults }

        // What became of the bytes that the reader had left, where it tells them.
        ensures next { IfGot result (λ n.
            Consumes (R.remaining self.old.reader) (R.remaining self.new.reader) (take n buf.new)) }
        ensures at_end { IfGot result (λ n. n ≡ 0 → IsAtEnd (R.remaining self.new.reader)) }
        ensures same { OnReadFailed result
            (Keeps (R.remaining self.old.reader) (R.remaining self.new.reader)) }
    {
        match self.reader.read(buf) {
            Ok(count) => Read::Got(count),
            Err(_) => {
                self.faults = self.faults.saturating_add(1);
                Read::Failed
            }
        }
    }
}

impl<W: std::io::Write> Sink for StdSink<W> {
    ghost held = { λ _. None };

    ghost faults = { λ sink. sink.faults };

    fn write(&mut self, piece: &[u8]) -> Wrote
        requires { 0 < length piece.now }
        ensures least { IfTook result (λ n. 0 < n) }
        ensures bound { IfTook result (λ n. n ≤ length piece.now) }
        ensures no_fault { IfTook result (λ _. self.new.faults ≡ self.old.faults) }
        ensures cause { OnWriteFailed result (self.new.faults ≡ next_count self.old.faults) }
        ensures later { self.old.faults ≤ self.new.faults }

        // What became of the bytes that the writer holds, where it tells them.
        ensures appended { IfTook result (λ n.
            Appends (W.contents self.old.writer) (W.contents self.new.writer) (take n piece.now)) }
        ensures part { OnWriteFailed result ((n : ℕ) ×
            Appends (W.contents self.old.writer) (W.contents self.new.writer) (take n piece.now)) }
    {
        match self.writer.write(piece) {
            Ok(count) if count > 0 && self.writer.flush().is_ok() => Wrote::Took(count),
            _ => {
                self.faults = self.faults.saturating_add(1);
                Wrote::Failed
            }
        }
    }
}
