//! The rows of a pipelined core's timetable.
ghost use Rattle.std.specs.Prelude.{◌≡◌, ◌+◌, ◌<◌, ◌^◌, ◌++◌, ◌∷◌, [], length, slice_get, IfOk};
ghost use Rattle.timetable.specs.Recurrence.{last_where};

use crate::NoMemory;
use std::alloc::Global;
use std::marker::Model;

/// The cycles in which an instruction passed the stages of a pipeline.
#[derive(Clone, Copy, Debug, PartialEq, Eq)]
pub struct TimeRow {
    /// In which its word was taken.
    pub i: u32,
    /// In which it left the stage of the fetch.
    pub f: u32,
    /// In which it left the stage of decoding.
    pub d: u32,
    /// In which it left the stage of execution.
    pub e: u32,
    /// In which the answer to its access was taken; none where it makes no access.
    pub a: Option<u32>,
    /// In which it left the stage of memory.
    pub m: u32,
    /// In which it left the last stage; none where it stopped.
    pub w: Option<u32>,
}

/// Cycles that instructions waited: for their words, for their operands in ID, and for the answers
/// to their accesses.
#[derive(Clone, Copy, Debug, PartialEq, Eq)]
pub struct Waits {
    pub fetch: u64,
    pub operand: u64,
    pub access: u64,
}

/// A list of rows, an instruction each, with room for so many more. It only grows. All these are
/// fewer than 2^29, so that what the instructions of eight cores waited fits 64 bits.
#[derive(Drop)]
pub struct Rows {
    rows: Vec<TimeRow>,
    spare: u32,
}

impl Model for Rows {
    ghost use Rattle.std.specs.Prelude.{◌+◌, ◌≤◌, ◌<◌, ◌^◌, vec_len, vec_capacity};
    ghost use Rattle.timetable.specs.Rows.{RowsValue};

    ghost Value = { RowsValue };

    ghost view = { λ r. record { rows = r.rows.items; spare = r.spare } };

    ghost invariant = { λ r. (vec_len r.rows + r.spare ≤ vec_capacity r.rows) × (vec_len r.rows + r.spare < 2 ^ 29) };
}

impl Rows {
    /// No rows, and no room. It takes no memory.
    pub fn empty(alloc: Global) -> Rows
        ensures rows { result.rows ≡ [] }
        ensures spare { result.spare ≡ 0 }
    {
        Rows {
            rows: Vec::new(alloc),
            spare: 0,
        }
    }

    /// No rows, and room for so many. All its memory is taken here. It fails for want of memory, as
    /// also where so many are more than a list of rows can have.
    pub fn new(alloc: Global, room: u32) -> Result<Rows, NoMemory>
        ensures rows { IfOk result (λ rows. rows.rows ≡ []) }
        ensures spare { IfOk result (λ rows. rows.spare ≡ room) }
    {
        if room >= 1 << 29 {
            return Err(NoMemory);
        }
        let rows = Vec::with_capacity(alloc, room as usize)?;
        Ok(Rows { rows, spare: room })
    }

    /// These rows, and no room for more. It takes no memory.
    pub fn from_vec(rows: Vec<TimeRow>) -> Rows
        requires few { length rows.items < 2 ^ 29 }
        ensures rows { result.rows ≡ rows.items }
        ensures spare { result.spare ≡ 0 }
    {
        Rows { rows, spare: 0 }
    }

    /// Appends a row. It takes no memory.
    pub fn push(&mut self, row: TimeRow)
        requires room { 0 < self.old.spare }
        ensures rows { self.new.rows ≡ self.old.rows ++ row ∷ [] }
        ensures spare { self.new.spare + 1 ≡ self.old.spare }
    {
        self.rows.push_reserved(row);
        self.spare -= 1;
    }

    /// How many rows there are.
    pub fn len(&self) -> u32
        ensures len { result ≡ length self.now.rows }
    {
        self.rows.len() as u32
    }

    /// The row of an instruction, counted from 0.
    pub fn get(&self, n: u32) -> Option<TimeRow>
        ensures row { result ≡ slice_get self.now.rows n }
    {
        self.rows.get(n as usize).copied()
    }

    /// The last row, if there is one.
    pub fn last(&self) -> Option<TimeRow>
        ensures row { result ≡ last_where self.now.rows }
    {
        self.rows.last().copied()
    }

    /// All rows, in order.
    pub fn as_slice(&self) -> &[TimeRow]
        ensures rows { result.now ≡ self.now.rows }
        ensures few { length result.now < 2 ^ 29 }
    {
        self.rows.as_slice()
    }
}
