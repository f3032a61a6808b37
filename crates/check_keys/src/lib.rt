// Refusal 23. 02: "In a keyed service the request type of each input has that id as a mandatory int child of its root."
#![tactic(auto)]

ghost use Rattle.std.specs.Prelude.{◌≡◌, ◌+◌, ◌≤◌};
ghost use Rattle.tree_forest.specs.Forest.{present, find};
ghost use Rattle.network.specs.Layout.{service_count};
ghost use Rattle.network.specs.Decode.{siblings, type_of, service_of, rows_from};
ghost use Rattle.check_typing.specs.NetworkChecker.{is_mandatory_int};
ghost use Rattle.check_keys.specs.Keys.{some_keyed, TypeTells, InputTells, Keys};

use network_layout::both;
use refusal::Refusal;

// Is T row r a mandatory int?
fn mandatory_int(file: &[u8], r: u16) -> bool
    ensures { result ≡ is_mandatory_int (present (type_of file.now r)) }
{
    let mandatory = network_rows::cardinality(file, r) == 1;
    both(mandatory, network_rows::type_basic(file, r) == scalar::INT)
}

// Is the one of the n sibling T rows from r on with the id k a mandatory int? Ids rise, so the search stops at a larger one.
fn int_among(file: &[u8], k: u16, r: u16, n: u16) -> bool
    requires { r + n ≤ 65535 }
    ensures { result ≡ is_mandatory_int (find k (siblings file.now (type_of file.now) r n)) }
{
    for t in r..r + n {
        let id = network_rows::type_id(file, t);
        if k < id {
            return false;
        }
        if id == k {
            return mandatory_int(file, t);
        }
    }
    false
}

// Does the type of T row t have the id k "as a mandatory int child of its root"?
fn has_key(file: &[u8], k: u16, t: u16) -> bool
    ensures { TypeTells file.now k t result }
{
    let first = network_rows::first_child(file, t);
    let n = network_rows::child_count(file, t);
    if 65535 - first < n {
        return false;
    }
    int_among(file, k, first, n)
}

// Does O row o, if it is an input of a keyed service, have the key in its request type?
fn input_keyed(file: &[u8], o: u16) -> bool
    ensures { InputTells file.now o result }
{
    if network_rows::operation_direction(file, o) != 0 {
        return true;
    }
    let q = wire::byte_to_u16(network_rows::operation_service(file, o));
    let k = network_rows::service_key(file, q);
    if k == 0 {
        return true;
    }
    has_key(file, k, network_rows::request_type(file, o))
}

// Is a service of the file keyed?
fn any_keyed(file: &[u8]) -> bool
    ensures { result ≡ some_keyed (rows_from (service_of file.now) 0 (service_count file.now)) }
{
    let n = network_layout::service_count(file);
    for q in 0..n {
        if network_rows::service_key(file, q) != 0 {
            return true;
        }
    }
    false
}

// All inputs of the file: the first that is unfit. Where no service is keyed none is looked at.
pub fn check_keys(file: &[u8]) -> Result<(), Refusal>
    ensures { Keys file.now result }
{
    if !any_keyed(file) {
        return Ok(());
    }
    let n = network_layout::operation_count(file);
    for o in 0..n {
        if !input_keyed(file, o) {
            return Err(Refusal::UnfitKey(o));
        }
    }
    Ok(())
}
