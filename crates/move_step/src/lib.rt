// The stepper: a move on a file, a state's bytes, an out buffer and the bytes that come from outside. 01: "moves [try] 1 to 5 and 14 to 19";
// "A move's result is a number and the bytes written out. Out bytes past that count stay."
#![tactic(auto)]

ghost use Rattle.std.specs.Prelude.{◌≡◌, ℕ, length};
ghost use Rattle.move_rules.specs.Step as definition;
ghost use Rattle.move_rules.specs.Moves.{move};
ghost use Rattle.move_frame.specs.Made.{MadeOut};
ghost use Rattle.move_step.specs.Moves.{move_of};

use refusal::{Outcome, Refusal};

// "A move names service, session and behaviour row"; a send also its target session, an outer message its operation's id, its target session
// and its reply number.
#[derive(Clone, Copy)]
pub enum Move {
    Local(u16, u16, u16),
    Receive(u16, u16, u16),
    Send(u16, u16, u16, u16),
    Reply(u16, u16, u16),
    OuterMessage(u16, u16, u16, u32),
    OuterReply(u16, u16, u16),
    Close(u16, u16),
}

// The move itself, in a state of the file's shape.
fn make(file: &[u8], state: &mut [u8], out: &mut [u8], m: Move, outside: &[u8]) -> Outcome
    requires { length state.old ≡ 65536 }
    ensures { MadeOut file.now (λ N G. move N G (move_of m) outside.now) state.old state.new out.old out.new result }
{
    match m {
        Move::Local(q, n, r) => move_local::local_move(file, state, q, n, r),
        Move::Receive(q, n, r) => move_receive::receive_move(file, state, q, n, r),
        Move::Send(q, n, r, to) => move_send::send_move(file, state, out, q, n, r, to),
        Move::Reply(q, n, r) => move_reply::reply_move(file, state, out, q, n, r),
        Move::OuterMessage(q, id, n, number) => move_outer::outer_message(
            file, state, q, id, n, number, outside,
        ),
        Move::OuterReply(q, n, r) => move_outer::outer_reply(file, state, q, n, r, outside),
        Move::Close(q, n) => move_close::close_move(file, state, q, n),
    }
}

// The move m, with the bytes `outside` where it takes some.
pub fn step(file: &[u8], state: &mut [u8], out: &mut [u8], m: Move, outside: &[u8]) -> Outcome
    ensures value { result ≡ (definition.step file.now state.old out.old (move_of m) outside.now).outcome }
    ensures state_after { state.new ≡ (definition.step file.now state.old out.old (move_of m) outside.now).state }
    ensures out_after { out.new ≡ (definition.step file.now state.old out.old (move_of m) outside.now).out }
{
    if state.len() != 65536 {
        return refusal::refused(Refusal::BufferSize);
    }
    if out.len() < 512 {
        return refusal::refused(Refusal::BufferSize);
    }
    if let Err(why) = network_form::form_of(file) {
        return refusal::refused(why);
    }
    tree::octets(state);
    if !state_shape::stands(file, state) {
        return refusal::refused(Refusal::NoState);
    }
    make(file, state, out, m, outside)
}
