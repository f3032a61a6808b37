// Refusal 4 on the rows of E and B, by the table of what each kind's fields are: the lowest place of a broken rule. The use of B
// rows is judged elsewhere.
#![tactic(auto, unfolding(network::specs::Kinds::expression_fields, network::specs::Kinds::behaviour_fields, network::specs::Layout::data_part, network::specs::Rows::sub_fits, network::specs::Rows::input_fits, network::specs::Rows::constant_fits, network::specs::Rows::field_fits, network::specs::Rows::fields_rule, network::specs::Rows::basic_fits, network::specs::Rows::expression_row, network::specs::Rows::expression_rows, network::specs::Rows::behaviour_head, network::specs::Rows::branch_rule, network::specs::Rows::branch_row_rule, network::specs::Rows::choice_run, network::specs::Rows::behaviour_row, network::specs::Rows::behaviour_rows))]

ghost use Rattle.std.specs.Prelude.{◌≡◌, ◌<◌};
ghost use Rattle.scalar.specs.Value.{is_value};
ghost use Rattle.wire.specs.Wire.{part};
ghost use Rattle.network.specs.declared.FieldSort.TheVariants.{Unruled, Unused};
ghost use Rattle.network.specs.Kinds.{fields, expression_fields, behaviour_fields};
ghost use Rattle.network.specs.Rows.{sub_fits, input_fits, constant_fits, field_fits, fields_rule, basic_fits, expression_row, expression_rows};
ghost use Rattle.network.specs.Rows.{branch_rule, branch_row_rule, choice_run, behaviour_row, behaviour_rows};

use network::{BehaviourKind, ExpressionKind, FieldSort, Fields};
use network_layout::{lowest, rule};

fn sorts_of(a: FieldSort, b: FieldSort, c: FieldSort, d: FieldSort) -> Fields
    ensures { result ≡ fields a b c d }
{
    Fields { a, b, c, d }
}

fn operands(a: FieldSort, b: FieldSort) -> Fields
    ensures { result ≡ fields a b Unused Unruled }
{
    Fields {
        a,
        b,
        c: FieldSort::Unused,
        d: FieldSort::Unruled,
    }
}

fn three(a: FieldSort, b: FieldSort, c: FieldSort) -> Fields
    ensures { result ≡ fields a b c Unused }
{
    Fields {
        a,
        b,
        c,
        d: FieldSort::Unused,
    }
}

fn two(a: FieldSort, b: FieldSort) -> Fields
    ensures { result ≡ fields a b Unused Unused }
{
    Fields {
        a,
        b,
        c: FieldSort::Unused,
        d: FieldSort::Unused,
    }
}

fn expression_sorts(k: ExpressionKind) -> Fields
    ensures { result ≡ expression_fields k }
{
    match k {
        ExpressionKind::Constant => operands(FieldSort::ConstantPart, FieldSort::Unruled),
        ExpressionKind::ValueAt | ExpressionKind::Presence => operands(
            FieldSort::PathRow,
            FieldSort::Unused,
        ),
        ExpressionKind::Not | ExpressionKind::Negate => operands(
            FieldSort::EarlierRow,
            FieldSort::Unused,
        ),
        ExpressionKind::Add
        | ExpressionKind::Subtract
        | ExpressionKind::Less
        | ExpressionKind::Equal
        | ExpressionKind::And => operands(FieldSort::EarlierRow, FieldSort::EarlierRow),
        ExpressionKind::Unknown => sorts_of(
            FieldSort::Unruled,
            FieldSort::Unruled,
            FieldSort::Unruled,
            FieldSort::Unruled,
        ),
    }
}

pub fn behaviour_sorts(k: BehaviourKind) -> Fields
    ensures { result ≡ behaviour_fields k }
{
    match k {
        BehaviourKind::Nil => two(FieldSort::Unused, FieldSort::Unused),
        BehaviourKind::OneWay => two(FieldSort::OperationRow, FieldSort::PathRow),
        BehaviourKind::RequestResponse => sorts_of(
            FieldSort::OperationRow,
            FieldSort::PathRow,
            FieldSort::PathRow,
            FieldSort::LaterRow,
        ),
        BehaviourKind::Notification => two(FieldSort::OperationRow, FieldSort::ExpressionRow),
        BehaviourKind::SolicitResponse => {
            three(
                FieldSort::OperationRow,
                FieldSort::ExpressionRow,
                FieldSort::PathRow,
            )
        }
        BehaviourKind::If => three(
            FieldSort::ExpressionRow,
            FieldSort::LaterRow,
            FieldSort::LaterRow,
        ),
        BehaviourKind::While => two(FieldSort::ExpressionRow, FieldSort::LaterRow),
        BehaviourKind::Sequence => two(FieldSort::LaterRow, FieldSort::LaterRow),
        BehaviourKind::Parallel => two(FieldSort::LaterRow, FieldSort::LaterRow),
        BehaviourKind::Assign => two(FieldSort::PathRow, FieldSort::ExpressionRow),
        BehaviourKind::Choice => two(FieldSort::BranchRun, FieldSort::BranchCount),
        BehaviourKind::Branch => two(FieldSort::InputRow, FieldSort::LaterRow),
        BehaviourKind::Unknown => sorts_of(
            FieldSort::Unruled,
            FieldSort::Unruled,
            FieldSort::Unruled,
            FieldSort::Unruled,
        ),
    }
}

fn sub_fits(s: &[u8], r: u16, v: u16) -> bool
    ensures { result ≡ sub_fits s.now r v }
{
    r < v
        && v < network_layout::behaviour_count(s)
        && !network_rows::is_branch(network_rows::kind_at(s, v))
}

fn input_fits(s: &[u8], r: u16, v: u16) -> bool
    ensures { result ≡ input_fits s.now r v }
{
    r < v
        && v < network_layout::behaviour_count(s)
        && network_rows::is_input(network_rows::kind_at(s, v))
}

// Are the bytes from `at` on, n of them as far as there are so many, a value of the basic type?
fn value_at(s: &[u8], at: usize, basic: u8, n: usize) -> bool
    ensures { result ≡ is_value basic (part s.now at n) }
{
    let from = at.min(s.len());
    scalar::value_ok(s, from, basic, n.min(s.len() - from))
}

fn constant_fits(s: &[u8], basic: u8, v: u16, n: u16) -> bool
    ensures { result ≡ constant_fits s.now basic v n }
{
    let start = usize::from(v);
    let n = usize::from(n);
    start + n <= usize::from(network_layout::data_size(s))
        && value_at(s, network_layout::data_start(s) + start, basic, n)
}

fn field_fits(s: &[u8], r: u16, basic: u8, q: FieldSort, v: u16, w: u16) -> bool
    ensures { result ≡ field_fits s.now r basic q v w }
{
    match q {
        FieldSort::Unruled => true,
        FieldSort::Unused => v == 0,
        FieldSort::PathRow => v < network_layout::path_count(s),
        FieldSort::EarlierRow => v < r,
        FieldSort::ExpressionRow => v < network_layout::expression_count(s),
        FieldSort::OperationRow => v < network_layout::operation_count(s),
        FieldSort::LaterRow => sub_fits(s, r, v),
        FieldSort::InputRow => input_fits(s, r, v),
        FieldSort::BranchRun => network_rules::later_run(
            network_layout::behaviour_count(s),
            r,
            v,
            w,
        ),
        FieldSort::BranchCount => 1 <= v && v <= 8,
        FieldSort::ConstantPart => constant_fits(s, basic, v, w),
    }
}

// The rules of fields a, b, c of row r, which are of these sorts and stand from `at` + 2 on.
fn fields_rule(
    s: &[u8],
    r: u16,
    basic: u8,
    q: Fields,
    at: usize,
    others: Option<usize>,
) -> Option<usize>
    requires { at < 1000000 }
    ensures { result ≡ fields_rule s.now r basic q at others }
{
    let a = wire::u16_at(s, at + 2);
    let b = wire::u16_at(s, at + 4);
    let c = wire::u16_at(s, at + 6);
    let m = rule(field_fits(s, r, basic, q.c, c, 0), at + 6, others);
    let m = rule(field_fits(s, r, basic, q.b, b, c), at + 4, m);
    rule(field_fits(s, r, basic, q.a, a, b), at + 2, m)
}

fn basic_fits(k: ExpressionKind, basic: u8) -> bool
    ensures { result ≡ basic_fits k basic }
{
    match k {
        ExpressionKind::Constant => basic <= scalar::LAST_BASIC,
        ExpressionKind::Unknown => true,
        _ => basic == 0,
    }
}

fn expression_rule(s: &[u8], r: u16) -> Option<usize>
    ensures { result ≡ expression_row s.now r }
{
    let at = network_layout::expression_at(s, r);
    let k = network_rows::expression_kind_at(s, r);
    let basic = wire::byte_at(s, at + 1);
    let m = fields_rule(s, r, basic, expression_sorts(k), at, None);
    let m = rule(basic_fits(k, basic), at + 1, m);
    rule(wire::byte_at(s, at) <= 9, at, m)
}

pub fn expression_rows(s: &[u8]) -> Option<usize>
    ensures { result ≡ expression_rows s.now }
{
    let n = network_layout::expression_count(s);
    lowest(0, n, |i| expression_rule(s, i))
}

fn branch_rule(s: &[u8], at: usize, j: u16) -> Option<usize>
    requires { at < 1000000 }
    ensures { result ≡ branch_rule s.now at j }
{
    let inside = network_rules::in_run(wire::u16_at(s, at + 2), wire::u16_at(s, at + 4), j);
    rule(
        !inside || network_rows::is_branch(network_rows::kind_at(s, j)),
        at + 2,
        None,
    )
}

fn branch_rows(s: &[u8], at: usize) -> Option<usize>
    requires { at < 1000000 }
    ensures { result ≡ branch_row_rule s.now at }
{
    let first = wire::u16_at(s, at + 2);
    let n = wire::u16_at(s, at + 4);
    let size = network_layout::behaviour_count(s);
    let from = network_layout::clipped(first, 0, size);
    let end = network_layout::clipped(first, n, size);
    lowest(from, end, |i| branch_rule(s, at, i))
}

fn choice_run(s: &[u8], r: u16) -> Option<usize>
    ensures { result ≡ choice_run s.now r }
{
    if network_rows::is_choice(network_rows::kind_at(s, r)) {
        branch_rows(s, network_layout::behaviour_at(s, r))
    } else {
        None
    }
}

fn behaviour_rule(s: &[u8], r: u16) -> Option<usize>
    ensures { result ≡ behaviour_row s.now r }
{
    let at = network_layout::behaviour_at(s, r);
    let q = behaviour_sorts(network_rows::kind_at(s, r));
    let d = wire::u16_at(s, at + 8);
    let m = rule(field_fits(s, r, 0, q.d, d, 0), at + 8, choice_run(s, r));
    let m = fields_rule(s, r, 0, q, at, m);
    let m = rule(wire::byte_at(s, at + 1) == 0, at + 1, m);
    rule(wire::byte_at(s, at) <= 11, at, m)
}

pub fn behaviour_rows(s: &[u8]) -> Option<usize>
    ensures { result ≡ behaviour_rows s.now }
{
    let n = network_layout::behaviour_count(s);
    lowest(0, n, |i| behaviour_rule(s, i))
}
