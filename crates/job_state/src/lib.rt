// The records that read or change a job's state between records: CH and RN the running join, SH and SQ the retaken
// sheets. Proved: the result, the bytes written and the state afterwards follow the record's rule (Handled). Rests on
// running, sheets and record_result.
#![tactic(auto)]

ghost use Rattle.std.specs.Prelude.{◌≡◌};
ghost use Rattle.job_state.specs.State.{state_none, state_of};

use running::Running;
use sheets::{STORE, Store};

mod record; // whether a record is taken, its mark, and the refusal of one
pub mod chain; // the running join
pub mod retakes; // the retaken sheets

// A job's state between records, besides its counts: the running join, and the store of the retaken sheets.
#[derive(Clone, Copy)]
pub struct JobState {
    pub running: Running,
    pub store: Store,
}

// The state before the first record.
pub fn fresh() -> JobState
    ensures { state_of result ≡ state_none }
{
    let mut store = [0; STORE];
    sheets::fresh(&mut store);
    JobState {
        running: Running::new(),
        store,
    }
}
