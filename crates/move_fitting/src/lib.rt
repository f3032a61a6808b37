// Whether bytes that come as a message, or as a reply, may pass. 01, 17: "Outside bytes are no message."; 19: "A message doesn't fit its input's
// request type, a reply its waiting row's reply type, or either, outbound, the sender's."
#![tactic(auto)]

ghost use Rattle.move_fitting.specs.Fitting.{Passes};

use refusal::Refusal;

// Do the bytes pass at the type of T row r? `other` is the refusal of bytes that are no message; then 19.
pub fn passes(message: &[u8], file: &[u8], r: u16, other: Refusal) -> Result<(), Refusal>
    ensures { Passes message.now file.now r other result }
{
    tree::octets(message);
    if !tree::is_message(message) {
        return Err(other);
    }
    if !check_types::fits(message, file, r) {
        return Err(Refusal::MessageMisfit);
    }
    Ok(())
}
