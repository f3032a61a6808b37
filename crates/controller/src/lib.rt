// The controller, as a host calls it: the checker of network files, fresh state, the moves, the message reader, the reader of type
// declarations and the message that shows that two types do not fit. Nothing is asked of the caller. specs/Promises.antt and specs/RequestPromises.antt have all that is promised of them.
#![tactic(auto)]

ghost use Rattle.std.specs.Prelude.{◌≡◌};
ghost use Rattle.refusal.specs.Refusal.{outcome_number};
ghost use Rattle.tree_part.specs.Part.{part_of};
ghost use Rattle.tree_part.specs.Span.{span_of};
ghost use Rattle.check_files.specs.FileChecker.{check_file};
ghost use Rattle.check_network.specs.Answer.{check_answer, IfPassed, ShapedAll};
ghost use Rattle.check_listing.specs.Listed.{listed_number, listed_count, listed_bytes};
ghost use Rattle.move_rules.specs.Fresh as freshening;
ghost use Rattle.move_rules.specs.Step as stepper;
ghost use Rattle.move_step.specs.Moves.{move_of};
ghost use Rattle.soundness.specs.Property3.{NumberFits};
ghost use Rattle.soundness.specs.Calls.{SoundCall};
ghost use Rattle.type_writing.specs.Answer.{write_types};
ghost use Rattle.counterexample.specs.Answer as breaking;
ghost use Rattle.controller.specs.Parts.{PartAt};

pub use check_listing::Listing;
pub use check_network::Answer;
pub use move_step::Move;
pub use refusal::Outcome;
pub use tree_part::Span;

// Checks a network file: the verdict, and the environments of every service of an accepted one.
pub fn check(file: &[u8]) -> Answer
    ensures value { result ≡ check_answer (check_file file.now) }
    ensures if_passed { IfPassed ShapedAll (check_file file.now) }
{
    check_network::check(file)
}

// Writes those environments as records of 18 bytes, if the file is accepted and the buffer has room for all of them.
pub fn environments(file: &[u8], nodes: &mut [u8]) -> Listing
    ensures number_value { result.number ≡ listed_number (check_file file.now) nodes.old }
    ensures count_value { result.count ≡ listed_count (check_file file.now) }
    ensures nodes_after { nodes.new ≡ listed_bytes (check_file file.now) nodes.old }
{
    check_listing::list(file, nodes)
}

// Writes the fresh state of an accepted file.
pub fn fresh(file: &[u8], state: &mut [u8]) -> Outcome
    ensures value { result ≡ (freshening.fresh file.now state.old).outcome }
    ensures state_after { state.new ≡ (freshening.fresh file.now state.old).state }
{
    move_fresh::fresh(file, state)
}

// Reads nothing.
fn touch(number: u32) {}

// "u32 reply number", as a fact that `step` cites.
fn numbered(m: Move)
    ensures { NumberFits (move_of m) }
{
    if let Move::OuterMessage(_, _, _, number) = m {
        touch(number);
    }
}

// The move that is asked for, with the bytes `outside` where it takes some. The last promise is property 3 at this call: whatever moves led
// from fresh to these bytes, the file being accepted, this one gives no 18, a send or reply no 19, a ready assign, if or while 0, 22 or 1, and
// leaves the bytes after those moves and this one, every live session in them well typed and every string, as in what goes out, well formed.
pub fn step(file: &[u8], state: &mut [u8], out: &mut [u8], asked: Move, outside: &[u8]) -> Outcome
    ensures value { result ≡ (stepper.step file.now state.old out.old (move_of asked) outside.now).outcome }
    ensures state_after { state.new ≡ (stepper.step file.now state.old out.old (move_of asked) outside.now).state }
    ensures out_after { out.new ≡ (stepper.step file.now state.old out.old (move_of asked) outside.now).out }
    ensures sound_call { SoundCall file.now state.old (record { move = move_of asked; bytes = outside.now; out = out.old }) (outcome_number result) state.new }
{
    numbered(asked);
    tree::octets(outside);
    move_step::step(file, state, out, asked, outside)
}

// Where the message reader's part starts in the message, and how long it is; both 0 for the empty part.
pub fn part_span(message: &[u8], ids: [u16; 4]) -> Span
    ensures { result ≡ span_of message.now ids }
{
    tree_part::span_of(message, ids)
}

// The message reader: the encoding of the child at the path, as that part of the message; the empty part, at its start, where the child is
// missing or the path or the message is malformed.
pub fn part(message: &[u8], ids: [u16; 4]) -> &[u8]
    ensures result_value { result.now ≡ part_of message.now ids }
    ensures part_at { PartAt message.entry result (span_of message.now ids) }
{
    tree::octets(message);
    let span = part_span(message, ids);
    &message[span.start..span.start + span.len]
}

// Reads a text of type declarations and writes its T rows.
pub fn write_types(text: &[u8], out: &mut [u8]) -> Outcome
    ensures value { result ≡ (write_types text.now out.old).outcome }
    ensures out_after { out.new ≡ (write_types text.now out.old).out }
{
    type_writing::write_types(text, out)
}

// Writes the message that fits the type of row `first` and not that of row `second`: the fewest nodes, then the lowest bytes; nothing, with 0
// bytes, where the first is a subtype of the second.
pub fn counterexample(file: &[u8], first: u16, second: u16, out: &mut [u8]) -> Outcome
    ensures value { result ≡ (breaking.counterexample file.now first second out.old).outcome }
    ensures out_after { out.new ≡ (breaking.counterexample file.now first second out.old).out }
{
    counterexample::show(file, first, second, out)
}
