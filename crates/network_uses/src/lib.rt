// Refusal 4, the last of its rules: "Each row is used exactly once, by a row or a service". One pass over the B and S rows in file
// order with a mark for each B row that is used; then refusal 4 as a whole.
#![tactic(auto, unfolding(network::specs::Uses::broken))]

ghost use Rattle.std.specs.Prelude.{◌≡◌, ◌≤◌};
ghost use Rattle.network.specs.Least.{least_over};
ghost use Rattle.network.specs.Layout.{behaviour_count};
ghost use Rattle.network.specs.declared.FieldSort.TheVariants.{BranchRun};
ghost use Rattle.network.specs.Uses.{uses_rows, broken};
ghost use Rattle.network_uses.specs.Marks.{MarkStep, use_of, field_use, row_use, service_use, never_used, Unmarked, ByRows, Beside, ByServices, AllUsed};

use network::FieldSort;
use network_layout::{least, lowest, rule};

// Marks row v, if it is one of the n rows: was it marked?
fn use_row(marks: &mut [u8; 256], n: u16, v: u16) -> bool
    requires { n ≤ 256 }
    ensures { MarkStep n (use_of v) marks.old marks.new result }
{
    if n <= v {
        return false;
    }
    let i = usize::from(v);
    let again = marks[i] != 0;
    marks[i] = 1;
    again
}

// Marks those of the n rows that are among the w rows from `first` on: was one marked?
fn use_run(marks: &mut [u8; 256], n: u16, first: u16, w: u16) -> bool
    requires { n ≤ 256 }
    ensures { MarkStep n (field_use BranchRun first w) marks.old marks.new result }
{
    let from = network_layout::clipped(first, 0, n);
    let mut again = false;
    for i in from..network_layout::clipped(first, w, n) {
        again |= use_row(marks, n, i);
    }
    again
}

fn use_field(marks: &mut [u8; 256], n: u16, q: FieldSort, v: u16, w: u16) -> bool
    requires { n ≤ 256 }
    ensures { MarkStep n (field_use q v w) marks.old marks.new result }
{
    match q {
        FieldSort::LaterRow | FieldSort::InputRow => use_row(marks, n, v),
        FieldSort::BranchRun => use_run(marks, n, v, w),
        _ => false,
    }
}

// The uses of B row r.
fn use_fields(s: &[u8], marks: &mut [u8; 256], n: u16, r: u16) -> bool
    requires { n ≤ 256 }
    ensures { MarkStep n (row_use s.now r) marks.old marks.new result }
{
    let at = network_layout::behaviour_at(s, r);
    let q = network_fields::behaviour_sorts(network_rows::kind_at(s, r));
    let a = wire::u16_at(s, at + 2);
    let b = wire::u16_at(s, at + 4);
    let c = wire::u16_at(s, at + 6);
    let d = wire::u16_at(s, at + 8);
    let x = use_field(marks, n, q.a, a, b);
    let y = use_field(marks, n, q.b, b, c);
    let z = use_field(marks, n, q.c, c, 0);
    let w = use_field(marks, n, q.d, d, 0);
    x | y | z | w
}

// The uses of S row r.
fn use_service(s: &[u8], marks: &mut [u8; 256], n: u16, r: u16) -> bool
    requires { n ≤ 256 }
    ensures { MarkStep n (service_use s.now r) marks.old marks.new result }
{
    let x = use_row(marks, n, network_rows::starter_row(s, r));
    let y = use_row(marks, n, network_rows::client_row(s, r));
    x | y
}

// Second uses by B rows; afterwards the rows that B rows use are marked.
fn rows_use(s: &[u8], marks: &mut [u8; 256], n: u16) -> Option<usize>
    requires { Unmarked s.now n marks.old }
    ensures { ByRows s.now n result marks.new }
{
    let mut m = None;
    for i in 0..n {
        let again = use_fields(s, marks, n, i);
        m = least(m, rule(!again, network_layout::behaviour_at(s, i), None));
    }
    m
}

// Second uses by services, after the B rows.
fn services_use(s: &[u8], marks: &mut [u8; 256], n: u16) -> Option<usize>
    requires { Beside s.now n marks.old }
    ensures { ByServices s.now n result marks.new }
{
    let mut m = None;
    for i in 0..network_layout::service_count(s) {
        let again = use_service(s, marks, n, i);
        m = least(m, rule(!again, network_layout::service_at(s, i), None));
    }
    m
}

// Rows without a mark.
fn never_used(s: &[u8], marks: &[u8; 256], n: u16) -> Option<usize>
    requires { AllUsed s.now n marks.now }
    ensures { result ≡ least_over n (never_used s.now) }
{
    lowest(0, n, |i| {
        let used = marks[usize::from(i)] != 0;
        rule(used, network_layout::behaviour_at(s, i), None)
    })
}

// "Each row is used exactly once, by a row or a service."
fn uses_rows(s: &[u8]) -> Option<usize>
    requires { behaviour_count s.now ≤ 256 }
    ensures { result ≡ uses_rows s.now }
{
    let n = network_layout::behaviour_count(s);
    let mut marks = [0u8; 256];
    let x = rows_use(s, &mut marks, n);
    let y = services_use(s, &mut marks, n);
    let z = never_used(s, &marks, n);
    least(z, least(x, y))
}

// Refusal 4: the lowest place of a broken rule in the file.
pub fn lowest_broken(s: &[u8]) -> Option<usize>
    requires { behaviour_count s.now ≤ 256 }
    ensures { result ≡ broken s.now }
{
    let m = network_rules::service_rows(s);
    let m = least(network_rules::operation_rows(s), m);
    let m = least(uses_rows(s), m);
    let m = least(network_fields::behaviour_rows(s), m);
    let m = least(network_fields::expression_rows(s), m);
    let m = least(network_rules::type_rows(s), m);
    least(network_rules::path_rows(s), m)
}
