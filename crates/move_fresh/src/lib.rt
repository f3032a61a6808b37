// Fresh state, written for accepted files. 01: "Fresh state: written for accepted files; clients live in session 0, all else free."
#![tactic(auto)]

ghost use Rattle.std.specs.Prelude.{◌≡◌, ◌<◌, length};
ghost use Rattle.move_rules.specs.Fresh as definition;
ghost use Rattle.move_fresh.specs.Starting.{StartsClient};

use refusal::{Outcome, Refusal};

// Starts the client of service q, if it has one: session 0, which was free, becomes new.
fn start_client(file: &[u8], q: u16, state: &mut [u8])
    requires { (q < 4) × (length state.old ≡ 65536) }
    ensures { StartsClient file.now q state.old state.new }
{
    if network_rows::client_row(file, q) == 65535 {
        return;
    }
    state_slots::begin(state, state::slot_start(q, 0));
}

// Writes the fresh state of an accepted file. 01: "fresh [tries] 1 to 13".
pub fn fresh(file: &[u8], state: &mut [u8]) -> Outcome
    ensures value { result ≡ (definition.fresh file.now state.old).outcome }
    ensures state_after { state.new ≡ (definition.fresh file.now state.old).state }
{
    if state.len() != 65536 {
        return refusal::refused(Refusal::BufferSize);
    }
    let x = check_network::check(file);
    if let Err(why) = x.verdict {
        return refusal::refused(why);
    }
    let n = network_layout::service_count(file);
    if 4 < n {
        return refusal::refused(Refusal::SectionCount);
    }
    state.fill(0);
    for q in 0..n {
        start_client(file, q, state);
    }
    refusal::done(0)
}
