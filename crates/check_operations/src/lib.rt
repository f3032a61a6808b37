// Operations, given by their O rows. Refusal 6: "The operation has another service, direction or kind". 01, Typing: "An output to a location
// in the file meets an input there of the same id and kind". Exact on any bytes.
#![tactic(auto)]

ghost use Rattle.std.specs.Prelude.{◌≡◌};
ghost use Rattle.network.specs.Decode.{operation_of, network_of};
ghost use Rattle.network_syntax.specs.Meets.{location_of, in_file, meets, met_input};
ghost use Rattle.network_syntax.specs.Rows.{entry};
ghost use Rattle.check_typing.specs.Rules.{permits};
ghost use Rattle.check_operations.specs.Directions.{direction_of};
ghost use Rattle.check_operations.specs.Meeting.{operation_met};

use network_layout::both;

// Is the operation of O row o one of the service row q, an input or not, two-way or not?
pub fn permits(file: &[u8], q: u16, input: bool, twoway: bool, o: u16) -> bool
    ensures { result ≡ permits q (direction_of input) twoway (operation_of file.now o) }
{
    let service = u16::from(network_rows::operation_service(file, o)) == q;
    let way = (network_rows::operation_direction(file, o) == 0) == input;
    let kind = (network_rows::operation_two_way(file, o) == 1) == twoway;
    both(service, both(way, kind))
}

// Is it "a location in the file"?
pub fn in_file(file: &[u8], location: u16) -> bool
    ensures { result ≡ in_file (network_of file.now) location }
{
    for q in 0..network_layout::service_count(file) {
        if network_rows::service_location(file, q) == location {
            return true;
        }
    }
    false
}

// The location of service q; 0 where there is none.
fn location_of(file: &[u8], q: u16) -> u16
    ensures { result ≡ location_of (entry q (network_of file.now).services) }
{
    if network_layout::service_count(file) <= q {
        return 0;
    }
    network_rows::service_location(file, q)
}

// Is O row i "an input there of the same id and kind" for the output of O row o? Most have another id, so that is tried first.
fn meets(file: &[u8], o: u16, i: u16) -> bool
    ensures { result ≡ meets (network_of file.now) (operation_of file.now o) (operation_of file.now i) }
{
    if network_rows::operation_id(file, i) != network_rows::operation_id(file, o) {
        return false;
    }
    let place = location_of(file, u16::from(network_rows::operation_service(file, i)));
    let input = both(
        network_rows::operation_direction(file, i) == 0,
        place == network_rows::operation_location(file, o),
    );
    let kind = (network_rows::operation_two_way(file, i) == 1)
        == (network_rows::operation_two_way(file, o) == 1);
    both(input, kind)
}

// The input that the output of O row o meets.
pub fn met_input(file: &[u8], o: u16) -> Option<u16>
    ensures { operation_met file.now result ≡ met_input (network_of file.now) (operation_of file.now o) }
{
    for i in 0..network_layout::operation_count(file) {
        if meets(file, o, i) {
            return Some(i);
        }
    }
    None
}
