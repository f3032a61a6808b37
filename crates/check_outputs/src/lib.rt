// Refusal 13: "An output to a location in the file meets an input there of the same id and kind, its request type ≤ the input's, and the
// input's reply type ≤ its own."
#![tactic(auto)]

ghost use Rattle.std.specs.Prelude.{◌≡◌};
ghost use Rattle.check_outputs.specs.Outputs.{OutputAgrees, OutputTells, Outputs};

use refusal::Refusal;

// Does the output of O row o agree with the input of O row i, which it meets?
fn agrees(file: &[u8], o: u16, i: u16) -> bool
    ensures { OutputAgrees file.now o i result }
{
    if !check_types::row_order(
        file,
        network_rows::request_type(file, o),
        network_rows::request_type(file, i),
    ) {
        return false;
    }
    if network_rows::operation_two_way(file, o) != 1 {
        return true;
    }
    check_types::row_order(
        file,
        network_rows::reply_type(file, i),
        network_rows::reply_type(file, o),
    )
}

// Does O row o, if it is an output to a location in the file, meet an input there and agree with it?
fn output(file: &[u8], o: u16) -> bool
    ensures { OutputTells file.now o result }
{
    if network_rows::operation_direction(file, o) == 0 {
        return true;
    }
    if !check_operations::in_file(file, network_rows::operation_location(file, o)) {
        return true;
    }
    let Some(i) = check_operations::met_input(file, o) else {
        return false;
    };
    agrees(file, o, i)
}

// All outputs of the file: the first that meets no input, or disagrees with it.
pub fn check_outputs(file: &[u8]) -> Result<(), Refusal>
    ensures { Outputs file.now result }
{
    let n = network_layout::operation_count(file);
    for o in 0..n {
        if !output(file, o) {
            return Err(Refusal::OutputMismatch(o));
        }
    }
    Ok(())
}
