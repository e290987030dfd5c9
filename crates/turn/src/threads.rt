//! What may cross threads: a turn over any memory that may, and its passes.
use crate::{Counted, Pass, Turn};
use mem_port::{FlatMemory, MemoryCore};

fn is_send<T: Send>(_: &T) {}

fn is_sync<T: Sync>(_: &T) {}

/// A turn and its passes may go to other threads, and the turn may be called from several at once.
fn crosses<M: MemoryCore + Send>(counted: &Counted<M>, turn: &Turn<M>, pass: &Pass<M>) {
    is_send(counted);
    is_send(turn);
    is_sync(turn);
    is_send(pass);
}

/// So those over flat memory may.
pub(crate) fn flat_crosses<'a>(
    counted: &Counted<FlatMemory<'a>>,
    turn: &Turn<FlatMemory<'a>>,
    pass: &Pass<FlatMemory<'a>>,
) {
    crosses(counted, turn, pass);
}
