// What every move in a session begins with: the session's slot and what it runs.
#![tactic(auto)]

ghost use Rattle.move_frame.specs.Made.{RunsAt};

// Session n of service q, if it is live.
pub fn session_at(file: &[u8], state: &[u8], q: u16, n: u16) -> Option<(usize, u16)>
    ensures { RunsAt file.now state.now q n result }
{
    if 3 < q || 3 < n {
        return None;
    }
    let b = move_targets::behaviour_in(file, q, n)?;
    let slot = state::slot_start(q, n);
    if wire::byte_at(state, slot) == 0 {
        return None;
    }
    Some((slot, b))
}
