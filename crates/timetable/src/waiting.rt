//! How long the instructions of a timetable waited.
ghost use Rattle.std.specs.Prelude.{◌≡◌, ◌<◌, ◌^◌};
ghost use Rattle.timetable.specs.Waits.{fetch_wait, operand_wait, access_wait, fetch_waits, operand_waits, access_waits};

use crate::recurrence::no_row;
use crate::{Rows, TimeRow, Waits};

fn fetch_wait(prior: &TimeRow, row: &TimeRow) -> u64
    ensures value { result ≡ fetch_wait prior.now row.now }
    ensures fits { result < 2 ^ 32 }
{
    u64::from(row.i).saturating_sub(u64::from(prior.f) + 1)
}

fn operand_wait(prior: &TimeRow, row: &TimeRow) -> u64
    ensures value { result ≡ operand_wait prior.now row.now }
    ensures fits { result < 2 ^ 32 }
{
    let ready = (u64::from(row.f) + 1).max(u64::from(prior.e));
    u64::from(row.d).saturating_sub(ready)
}

fn access_wait(prior: &TimeRow, row: &TimeRow) -> u64
    ensures value { result ≡ access_wait prior.now row.now }
    ensures fits { result < 2 ^ 32 }
{
    match row.a {
        Some(a) => u64::from(a).saturating_sub(u64::from(row.e) + 1),
        None => 0,
    }
}

/// What the instructions of these rows waited, by the rows alone. A difference that would be below 0
/// counts as 0; the rows of a timetable have none.
pub fn waits(rows: &Rows) -> Waits
    ensures fetch { result.fetch ≡ fetch_waits rows.now.rows }
    ensures operand { result.operand ≡ operand_waits rows.now.rows }
    ensures access { result.access ≡ access_waits rows.now.rows }
    ensures few { (result.fetch < 2 ^ 61) × (result.operand < 2 ^ 61) × (result.access < 2 ^ 61) }
{
    let mut waits = Waits {
        fetch: 0,
        operand: 0,
        access: 0,
    };
    let mut prior = no_row();
    for row in rows.as_slice() {
        waits.fetch += fetch_wait(&prior, row);
        waits.operand += operand_wait(&prior, row);
        waits.access += access_wait(&prior, row);
        prior = *row;
    }
    waits
}
