// Closing a session. 01: "close: a done session becomes free; its queue is dropped".
#![tactic(auto)]

ghost use Rattle.std.specs.Prelude.{◌≡◌, length};
ghost use Rattle.move_rules.specs.Moves.{close_move};
ghost use Rattle.move_frame.specs.Made.{Made};

use refusal::{Outcome, Refusal};

pub fn close_move(file: &[u8], state: &mut [u8], q: u16, n: u16) -> Outcome
    requires { length state.old ≡ 65536 }
    ensures { Made file.now (λ N G. close_move N G q n) state.old state.new result }
{
    let Some((slot, b)) = move_frame::session_at(file, state, q, n) else {
        return refusal::refused(Refusal::MoveNotAllowed);
    };
    if !move_readiness::is_done(file, state, slot, b) {
        return refusal::refused(Refusal::MoveNotAllowed);
    }
    state_slots::release(state, slot);
    refusal::done(0)
}
