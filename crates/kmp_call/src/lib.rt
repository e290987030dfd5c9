//! What the programs share: the statuses of their calls, the rows of refusals, the report of a run, what stands around the
//! order of a call, and what is told on standard error.
//!
//! Laws for the crates above:
//! - `proofs/BeneathLaws`: an order that was carried out over a sink that collects.
//! - `proofs/CallLaws`: a call whose words ask for an order, or for none, and the statuses of what is due.
//! - `proofs/InputLaws`: an order whose input was read for its program.
//! - `proofs/WordLaws`: a call whose words ask for an order.
#![tactic(auto)]

mod call;
mod ending;
mod given;
mod last_row;
mod refused;
mod run;
mod status;
mod told;
mod unloaded;

pub use call::{begin_call, end_call};
pub use ending::Ending;
pub use given::{given_words, texts};
pub use last_row::{refuse_input, refuse_report, refuse_words, write_row};
pub use run::{report_run, write_run};
pub use status::{Status, status_of};
pub use told::{tell_end, tell_reading, tell_split};
pub use unloaded::end_unloaded;
