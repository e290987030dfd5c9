//! The whole of an input, and the whole of a piece of output.
ghost use Rattle.std.specs.Prelude.{◌≡◌, ◌<◌, ◌≤◌, [], length, take, IsOk};
ghost use Rattle.kmp_base.specs.Streams.{Appended, Rose, Writes};
ghost use Rattle.kmp_base.specs.Input.{ReadsInput};

use crate::{Read, Sink, Source, Wrote};
use std::alloc::Global;
use thiserror::Error;

/// Why an input wasn't read to its end.
#[derive(Clone, Copy, Debug, PartialEq, Eq, Error)]
pub enum InputFault {
    /// No memory is left for what was read.
    #[error("no memory is left")]
    Memory,
    /// A read of the source failed.
    #[error("the source failed")]
    Failed,
    /// The input has more bytes than the limit.
    #[error("the input is too long")]
    TooLong,
}

/// A write of the sink failed, so a part of the output may be missing.
#[derive(Clone, Copy, Debug, PartialEq, Eq, Error)]
#[error("the sink failed")]
pub struct WriteFault;

// The fewest and the most bytes that are asked for at once.
const LEAST: usize = 4096;

const MOST: usize = 65_536;

/// Reads to the end of the input. Where it has more than `limit` bytes, one byte more than `limit`
/// is taken, and the rest stays unread. It asks for as many bytes again as it has, within bounds.
pub fn read_input<S: Source>(
    alloc: Global,
    source: &mut S,
    limit: usize,
) -> Result<Vec<u8>, InputFault>
    ensures reads { ReadsInput S.left S.faults source.old source.new limit result }
{
    let mut bytes = Vec::new(alloc);
    let mut part = Vec::new(alloc);
    'input: while bytes.len() <= limit {
        let most = (limit - bytes.len()).min(bytes.len().clamp(LEAST, MOST) - 1) + 1;
        if part.resize(most, 0).is_err() {
            return Err(InputFault::Memory);
        }
        match source.read(&mut part) {
            Read::Got(0) => return Ok(bytes),
            Read::Got(count) => {
                if bytes.extend_from_slice(&part[..count]).is_err() {
                    return Err(InputFault::Memory);
                }
            }
            Read::Failed => return Err(InputFault::Failed),
        }
    }
    Err(InputFault::TooLong)
}

// Appends the bytes, in order, by as many writes as the sink needs, until one fails, and says how
// many were appended. Without a byte it makes no write.
pub(crate) fn put_front<K: Sink>(sink: &mut K, bytes: &[u8]) -> usize
    ensures within { result ≤ length bytes.now }
    ensures appended { Appended (K.held sink.old) (K.held sink.new) (take result bytes.now) }
    ensures no_fault { result ≡ length bytes.now → K.faults sink.new ≡ K.faults sink.old }
    ensures cause { result < length bytes.now → Rose (K.faults sink.old) (K.faults sink.new) }
    ensures later { K.faults sink.old ≤ K.faults sink.new }
    ensures no_call { bytes.now ≡ [] → sink.new ≡ sink.old }
{
    let mut count = 0;
    while count < bytes.len() {
        match sink.write(&bytes[count..]) {
            Wrote::Took(more) => count += more,
            Wrote::Failed => return count,
        }
    }
    count
}

/// Appends all the bytes, in order, by as many writes as the sink needs; without a byte it makes
/// none. After a fault a front of the bytes was appended.
pub fn put<K: Sink>(sink: &mut K, bytes: &[u8]) -> Result<(), WriteFault>
    ensures writes { Writes K.held K.faults sink.old sink.new result bytes.now }
    ensures no_call { bytes.now ≡ [] → IsOk result × (sink.new ≡ sink.old) }
{
    if put_front(sink, bytes) < bytes.len() {
        return Err(WriteFault);
    }
    Ok(())
}
