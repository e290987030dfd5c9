//! The rows that an engine keeps.
ghost use Rattle.std.specs.Prelude.{◌≡◌, ◌<◌, ◌≤◌, ◌^◌, [], IfOk, None};
ghost use Rattle.pipe_core.specs.Table.{with_row, row_of, kept, instr_where};

use crate::Times;
use access_log::Request;
use mips_isa::Instr;
use pipe_regs::Slot;
use std::alloc::Global;
use std::marker::Model;
use timetable::{NoMemory, Rows, TimeRow};

/// Rows, each with its instruction, and room for more.
#[derive(Drop)]
pub struct Table {
    rows: Rows,
    instrs: Vec<Option<Instr>>,
}

impl Model for Table {
    ghost use Rattle.std.specs.Prelude.{◌+◌, ◌≤◌, vec_len, vec_capacity};
    ghost use Rattle.pipe_core.specs.Table.{TableValue};

    ghost Value = { TableValue };

    ghost view = { λ t. record { rows = t.rows.rows; instrs = t.instrs.items; spare = t.rows.spare } };

    ghost invariant = { λ t. vec_len t.instrs + t.rows.spare ≤ vec_capacity t.instrs };
}

impl Table {
    /// No rows, and room for so many.
    pub fn new(alloc: Global, room: u32) -> Result<Table, NoMemory>
        requires few { room < 2 ^ 29 }
        ensures empty { IfOk result (λ t. t ≡ record { rows = []; instrs = []; spare = room }) }
    {
        let rows = Rows::new(alloc, room)?;
        let instrs = Vec::with_capacity(alloc, room as usize)?;
        Ok(Table { rows, instrs })
    }

    fn push(&mut self, instr: Option<Instr>, row: TimeRow)
        requires room { 0 < self.old.spare }
        ensures pushed { self.new ≡ with_row self.old instr row }
    {
        self.rows.push(row);
        self.instrs.push_reserved(instr);
    }

    /// The instruction in M adds its row where it is executed.
    pub fn keep(
        &mut self,
        goes: Option<u32>,
        mem: &Option<Slot>,
        times: Times,
        access: &Option<Request>,
        clock: u32,
    )
        requires room { 0 < self.old.spare }
        requires clock { clock ≤ 1000000 }
        ensures kept { self.new ≡ kept goes mem.now times access.now clock self.old }
    {
        if goes.is_none() {
            return;
        }
        let Some(slot) = *mem else {
            return;
        };
        let a = match access {
            Some(_) => Some(clock),
            None => None,
        };
        self.push(
            slot.instr,
            TimeRow {
                i: times.i,
                f: times.f,
                d: times.d,
                e: times.e,
                a,
                m: clock,
                w: Some(clock + 1),
            },
        );
    }

    /// The instruction in M adds its row where it stops.
    pub fn end(&mut self, mem: &Option<Slot>, times: Times, clock: u32)
        requires room { 0 < self.old.spare }
        ensures ended { self.new ≡ with_row self.old (instr_where mem.now) (row_of times None clock None) }
    {
        let instr = match mem {
            Some(slot) => slot.instr,
            None => None,
        };
        self.push(
            instr,
            TimeRow {
                i: times.i,
                f: times.f,
                d: times.d,
                e: times.e,
                a: None,
                m: clock,
                w: None,
            },
        );
    }

    pub fn rows(&self) -> &Rows
        ensures rows { result.now.rows ≡ self.now.rows }
    {
        &self.rows
    }

    pub fn into_rows(self) -> Rows
        ensures rows { result.rows ≡ self.rows }
    {
        self.rows
    }
}
