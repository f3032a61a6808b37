// Taking a while's body "sets every row below it to undone" (docs/DECISIONS.md, 40): the rows of a behaviour in the slot of the state that
// starts at `slot`. Exact on any bytes.
#![tactic(auto)]

ghost use Rattle.std.specs.Prelude.{◌≡◌, ◌+◌, ◌≤◌, length};
ghost use Rattle.state.specs.Places.{slot_size};
ghost use Rattle.state_reopening.specs.Reopening.{with_undone, rows_below};

use state_progress::Progress;

// Every row of the behaviour of B row r; rows past 255 have no progress.
pub fn reopen(file: &[u8], state: &mut [u8], slot: usize, r: u16)
    requires { slot + slot_size ≤ length state.old }
    ensures { state.new ≡ with_undone (rows_below file.now r) slot state.old }
{
    let marks = state_rows::rows_of(file, r);
    for i in 0..256 {
        if marks[i] != 0 {
            state_progress::put_progress(state, state::row_start(slot, i), Progress::Undone);
        }
    }
}
