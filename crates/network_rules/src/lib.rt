// Refusal 4 on the rows of P, T, O and S: the lowest place of a broken rule. Each function is its definition line by line; loops
// over a run's rows keep to the run.
#![tactic(auto, unfolding(network_rows::specs::Readers::path_ids, network::specs::Rows::path_row, network::specs::Rows::later_run, network::specs::Rows::children_fit, network::specs::Rows::id_before, network::specs::Rows::child_rule, network::specs::Rows::child_ids, network::specs::Rows::type_row, network::specs::Rows::root_fits, network::specs::Rows::location_fits, network::specs::Rows::reply_fits, network::specs::Rows::same_service, network::specs::Rows::same_name, network::specs::Rows::repeat_rule, network::specs::Rows::operation_fields, network::specs::Rows::operation_links, network::specs::Rows::operation_row, network::specs::Rows::starter_fits, network::specs::Rows::client_fits, network::specs::Rows::location_rule, network::specs::Rows::service_row, network::specs::Rows::path_rows, network::specs::Rows::type_rows, network::specs::Rows::operation_rows, network::specs::Rows::service_rows))]

ghost use Rattle.std.specs.Prelude.{◌≡◌};
ghost use Rattle.network.specs.Least.{least_over};
ghost use Rattle.network.specs.Rows.{in_run, path_row, later_run, children_fit, id_before, child_rule, child_ids, type_row};
ghost use Rattle.network.specs.Rows.{root_fits, location_fits, reply_fits, same_service, same_name, repeat_rule, operation_fields, operation_links, operation_row};
ghost use Rattle.network.specs.Rows.{starter_fits, client_fits, location_rule, service_row, path_rows, type_rows, operation_rows, service_rows};

use network_layout::{lowest, rule};

fn path_rule(s: &[u8], r: u16) -> Option<usize>
    ensures { result ≡ path_row s.now r }
{
    let at = network_layout::path_at(s, r);
    let [a, b, c, d] = network_rows::path_row(s, r);
    let m = rule(c != 0 || d == 0, at + 6, None);
    let m = rule(b != 0 || c == 0, at + 4, m);
    let m = rule(a != 0 || b == 0, at + 2, m);
    rule(a != 0, at, m)
}

pub fn path_rows(s: &[u8]) -> Option<usize>
    ensures { result ≡ path_rows s.now }
{
    lowest(0, network_layout::path_count(s), |i| path_rule(s, i))
}

// Is row j one of the n rows from `first` on?
pub fn in_run(first: u16, n: u16, j: u16) -> bool
    ensures { result ≡ in_run first n j }
{
    first <= j && usize::from(j) < usize::from(first) + usize::from(n)
}

// Are the n rows from `first` on later than r, and below `size`?
pub fn later_run(size: u16, r: u16, first: u16, n: u16) -> bool
    ensures { result ≡ later_run size r first n }
{
    r < first && usize::from(first) + usize::from(n) <= usize::from(size)
}

fn children_fit(s: &[u8], r: u16, first: u16, n: u16) -> bool
    ensures { result ≡ children_fit s.now r first n }
{
    if n == 0 {
        first == 0
    } else {
        later_run(network_layout::type_count(s), r, first, n)
    }
}

fn id_before(s: &[u8], first: u16, j: u16) -> u16
    ensures { result ≡ id_before s.now first j }
{
    if j == first {
        0
    } else {
        network_rows::type_id(s, j.saturating_sub(1))
    }
}

fn child_rule(s: &[u8], first: u16, n: u16, j: u16) -> Option<usize>
    ensures { result ≡ child_rule s.now first n j }
{
    let fits = !in_run(first, n, j) || id_before(s, first, j) < network_rows::type_id(s, j);
    rule(fits, network_layout::type_at(s, j), None)
}

fn child_ids(s: &[u8], first: u16, n: u16) -> Option<usize>
    ensures { result ≡ child_ids s.now first n }
{
    let size = network_layout::type_count(s);
    let from = network_layout::clipped(first, 0, size);
    let end = network_layout::clipped(first, n, size);
    lowest(from, end, |i| child_rule(s, first, n, i))
}

fn type_rule(s: &[u8], r: u16) -> Option<usize>
    ensures { result ≡ type_row s.now r }
{
    let at = network_layout::type_at(s, r);
    let first = network_rows::first_child(s, r);
    let n = network_rows::child_count(s, r);
    let m = child_ids(s, first, n);
    let m = rule(children_fit(s, r, first, n), at + 4, m);
    let m = rule(
        network_rows::type_basic(s, r) <= scalar::LAST_BASIC,
        at + 3,
        m,
    );
    rule(network_rows::cardinality(s, r) <= 1, at + 2, m)
}

pub fn type_rows(s: &[u8]) -> Option<usize>
    ensures { result ≡ type_rows s.now }
{
    lowest(0, network_layout::type_count(s), |i| type_rule(s, i))
}

fn root_fits(s: &[u8], t: u16) -> bool
    ensures { result ≡ root_fits s.now t }
{
    t < network_layout::type_count(s)
        && network_rows::type_id(s, t) == 0
        && network_rows::cardinality(s, t) == 1
}

fn location_fits(direction: u8, location: u16) -> bool
    ensures { result ≡ location_fits direction location }
{
    match direction {
        0 => location == 0,
        1 => location != 0,
        _ => true,
    }
}

fn reply_fits(s: &[u8], twoway: u8, t: u16) -> bool
    ensures { result ≡ reply_fits s.now twoway t }
{
    match twoway {
        0 => t == 0,
        1 => root_fits(s, t),
        _ => true,
    }
}

fn same_service(s: &[u8], r: u16, q: u16) -> bool
    ensures { result ≡ same_service s.now r q }
{
    network_rows::operation_service(s, r) == network_rows::operation_service(s, q)
        && network_rows::operation_direction(s, r) == network_rows::operation_direction(s, q)
}

fn same_name(s: &[u8], r: u16, q: u16) -> bool
    ensures { result ≡ same_name s.now r q }
{
    network_rows::operation_id(s, r) == network_rows::operation_id(s, q)
        && match network_rows::operation_direction(s, r) {
            0 => true,
            1 => network_rows::operation_location(s, r) == network_rows::operation_location(s, q),
            _ => false,
        }
}

#[tactic(auto, unfolding(network::specs::Least::least, network::specs::Least::rule, network::specs::Rows::repeat_rule))]
fn repeat_rule(s: &[u8], r: u16, q: u16) -> Option<usize>
    ensures { result ≡ repeat_rule s.now r q }
{
    let same = same_name(s, r, q) && same_service(s, r, q);
    same.then(|| network_layout::operation_at(s, r))
}

fn repeats(s: &[u8], r: u16) -> Option<usize>
    ensures { result ≡ least_over r (repeat_rule s.now r) }
{
    lowest(0, r, |i| repeat_rule(s, r, i))
}

fn operation_fields(s: &[u8], r: u16, others: Option<usize>) -> Option<usize>
    ensures { result ≡ operation_fields s.now r others }
{
    let at = network_layout::operation_at(s, r);
    let service = u16::from(network_rows::operation_service(s, r));
    let m = rule(network_rows::operation_id(s, r) != 0, at + 4, others);
    let m = rule(wire::byte_at(s, at + 3) == 0, at + 3, m);
    let m = rule(network_rows::operation_two_way(s, r) <= 1, at + 2, m);
    let m = rule(network_rows::operation_direction(s, r) <= 1, at + 1, m);
    rule(service < network_layout::service_count(s), at, m)
}

fn operation_links(s: &[u8], r: u16, others: Option<usize>) -> Option<usize>
    ensures { result ≡ operation_links s.now r others }
{
    let at = network_layout::operation_at(s, r);
    let location = location_fits(
        network_rows::operation_direction(s, r),
        network_rows::operation_location(s, r),
    );
    let request = root_fits(s, network_rows::request_type(s, r));
    let reply = reply_fits(
        s,
        network_rows::operation_two_way(s, r),
        network_rows::reply_type(s, r),
    );
    let m = rule(reply, at + 10, others);
    let m = rule(request, at + 8, m);
    rule(location, at + 6, m)
}

fn operation_rule(s: &[u8], r: u16) -> Option<usize>
    ensures { result ≡ operation_row s.now r }
{
    operation_fields(s, r, operation_links(s, r, repeats(s, r)))
}

pub fn operation_rows(s: &[u8]) -> Option<usize>
    ensures { result ≡ operation_rows s.now }
{
    let n = network_layout::operation_count(s);
    lowest(0, n, |i| operation_rule(s, i))
}

fn location_rule(s: &[u8], r: u16, q: u16) -> Option<usize>
    ensures { result ≡ location_rule s.now r q }
{
    let differs = network_rows::service_location(s, q) != network_rows::service_location(s, r);
    rule(differs, network_layout::service_at(s, r), None)
}

fn location_repeats(s: &[u8], r: u16) -> Option<usize>
    ensures { result ≡ least_over r (location_rule s.now r) }
{
    lowest(0, r, |i| location_rule(s, r, i))
}

fn starter_fits(s: &[u8], v: u16) -> bool
    ensures { result ≡ starter_fits s.now v }
{
    v == 65535
        || (v < network_layout::behaviour_count(s)
            && network_rows::is_choice(network_rows::kind_at(s, v)))
}

fn client_fits(s: &[u8], v: u16) -> bool
    ensures { result ≡ client_fits s.now v }
{
    v == 65535
        || (v < network_layout::behaviour_count(s)
            && !network_rows::is_branch(network_rows::kind_at(s, v)))
}

fn service_rule(s: &[u8], r: u16) -> Option<usize>
    ensures { result ≡ service_row s.now r }
{
    let at = network_layout::service_at(s, r);
    let m = location_repeats(s, r);
    let m = rule(client_fits(s, network_rows::client_row(s, r)), at + 4, m);
    let m = rule(starter_fits(s, network_rows::starter_row(s, r)), at + 2, m);
    rule(network_rows::service_location(s, r) != 0, at, m)
}

pub fn service_rows(s: &[u8]) -> Option<usize>
    ensures { result ≡ service_rows s.now }
{
    lowest(0, network_layout::service_count(s), |i| service_rule(s, i))
}
