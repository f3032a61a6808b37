// Root ids that occur in expressions and behaviours, and refusal 11: "Parallel sides share a root". One table for the file has a set of
// root ids for each B row, 32 bytes with a bit for each P row: one P row stands for all that have its root id. Rows are filled after those
// that they name, so no row is walked twice.
#![tactic(auto)]

ghost use Rattle.std.specs.Prelude.{◌≡◌, ◌+◌, ◌*◌, ◌^◌, ◌<◌};
ghost use Rattle.check_roots.specs.Parts.{operands_in, operands_of, own_in};
ghost use Rattle.check_roots.specs.Sets.{Represents, WithPath, Joined, Stored, ExpressionSet, ExpressionSets, OwnSet, WithBranches, WithSubs, BehaviourSet, BehaviourSets, AnyParallel, SetsApart, Fills};

use network_row_parts::Subs;
use network_rows::{BehaviourRow, ExpressionRow};

// The path or the operands of an E row.
#[derive(Clone, Copy)]
pub enum Operands {
    Nothing,
    Path(u16),
    One(u16),
    Two(u16, u16),
}

// The paths and the expression that a B row names itself.
#[derive(Clone, Copy)]
pub enum Own {
    Nothing,
    Path(u16),
    Paths(u16, u16),
    Expression(u16),
    Both(u16, u16),
}

fn operands_in(row: ExpressionRow) -> Operands
    ensures { result ≡ operands_in row }
{
    match row {
        ExpressionRow::Constant(_, _, _) | ExpressionRow::Unknown => Operands::Nothing,
        ExpressionRow::ValueAt(p) | ExpressionRow::Presence(p) => Operands::Path(p),
        ExpressionRow::Not(a) | ExpressionRow::Negate(a) => Operands::One(a),
        ExpressionRow::Add(a, b)
        | ExpressionRow::Subtract(a, b)
        | ExpressionRow::Less(a, b)
        | ExpressionRow::Equal(a, b)
        | ExpressionRow::And(a, b) => Operands::Two(a, b),
    }
}

pub fn operands_of(s: &[u8], r: u16) -> Operands
    ensures { result ≡ operands_of s.now r }
{
    operands_in(network_rows::expression_row(s, r))
}

fn own_in(row: BehaviourRow) -> Own
    ensures { result ≡ own_in row }
{
    match row {
        BehaviourRow::OneWay(_, p) => Own::Path(p),
        BehaviourRow::RequestResponse(_, p, q, _) => Own::Paths(p, q),
        BehaviourRow::Notification(_, e) | BehaviourRow::If(e, _, _) | BehaviourRow::While(e, _) =>
            Own::Expression(e),
        BehaviourRow::SolicitResponse(_, e, p) => Own::Both(e, p),
        BehaviourRow::Assign(p, e) => Own::Both(e, p),
        BehaviourRow::Nil
        | BehaviourRow::Sequence(_, _)
        | BehaviourRow::Parallel(_, _)
        | BehaviourRow::Choice(_, _)
        | BehaviourRow::Branch(_, _)
        | BehaviourRow::Unknown => Own::Nothing,
    }
}

// For each root id of a P row one P row that has it.
fn represent(s: &[u8], table: &mut [u8; 65536])
    ensures { Represents s.now table.old table.new }
{
    let n = network_layout::smaller(usize::from(network_layout::path_count(s)), 256);
    let from = network_layout::path_at(s, 0);
    for p in (0..n).rev() {
        let id = usize::from(wire::u16_at(s, from + 8 * p));
        table[id] = (p % 256) as u8;
    }
}

// The bit k of a byte.
fn power(k: usize) -> u8
    requires { k < 8 }
    ensures { result ≡ 2 ^ k }
{
    1u8 << k
}

// The set and the root id of the path p.
fn with_path(s: &[u8], table: &[u8; 65536], set: [u8; 32], p: u16) -> [u8; 32]
    ensures { WithPath s.now table.now set p result }
{
    let id = usize::from(wire::u16_at(s, network_layout::path_at(s, p)));
    let k = usize::from(table[id]);
    let mut more = set;
    more[k / 8] |= power(k % 8);
    more
}

// The set and that of row r.
fn join(set: [u8; 32], sets: &[u8; 8192], r: u16) -> [u8; 32]
    ensures { Joined set sets.now r result }
{
    if 255 < r {
        return set;
    }
    let from = 32 * usize::from(r);
    let mut more = set;
    for k in 0..32 {
        more[k] |= sets[from + k];
    }
    more
}

// The set becomes that of row r.
fn store(sets: &mut [u8; 8192], r: u16, set: [u8; 32])
    ensures { Stored sets.old r set sets.new }
{
    if 255 < r {
        return;
    }
    let from = 32 * usize::from(r);
    sets[from..from + 32].copy_from_slice(&set);
}

// The set of E row r, from those of the rows before it.
fn expression_set(s: &[u8], table: &[u8; 65536], known: &[u8; 8192], r: u16) -> [u8; 32]
    ensures { ExpressionSet s.now table.now known.now r result }
{
    let none = [0u8; 32];
    match operands_of(s, r) {
        Operands::Nothing => none,
        Operands::Path(p) => with_path(s, table, none, p),
        Operands::One(a) => join(none, known, a),
        Operands::Two(a, b) => join(join(none, known, a), known, b),
    }
}

fn expression_sets(s: &[u8], table: &[u8; 65536], known: &mut [u8; 8192])
    ensures { ExpressionSets s.now table.now known.old known.new }
{
    for r in 0..network_layout::expression_count(s) {
        let set = expression_set(s, table, known, r);
        store(known, r, set);
    }
}

// The set of the root ids that a B row names itself.
fn own_set(s: &[u8], table: &[u8; 65536], known: &[u8; 8192], own: Own) -> [u8; 32]
    ensures { OwnSet s.now table.now known.now own result }
{
    let none = [0u8; 32];
    match own {
        Own::Nothing => none,
        Own::Path(p) => with_path(s, table, none, p),
        Own::Paths(p, q) => with_path(s, table, with_path(s, table, none, p), q),
        Own::Expression(e) => join(none, known, e),
        Own::Both(e, p) => with_path(s, table, join(none, known, e), p),
    }
}

// The set and those of the n branches whose rows stand from `at` on.
fn with_branches(s: &[u8], sets: &[u8; 8192], set: [u8; 32], at: usize, n: u16) -> [u8; 32]
    requires { at + 10 * n < 2000000 }
    ensures { WithBranches s.now sets.now set at n result }
{
    if n == 0 {
        return set;
    }
    let row = network_rows::branch_at(s, at);
    let input = join(set, sets, row.input);
    let both = join(input, sets, row.follow);
    with_branches(s, sets, both, at + 10, n - 1)
}

// The set and those of a row's sub-behaviours, which are later rows.
fn with_subs(s: &[u8], sets: &[u8; 8192], set: [u8; 32], subs: Subs) -> [u8; 32]
    ensures { WithSubs s.now sets.now set subs result }
{
    match subs {
        Subs::Nothing => set,
        Subs::One(a) => join(set, sets, a),
        Subs::Two(a, b) => join(join(set, sets, a), sets, b),
        Subs::Run(first, n) => with_branches(
            s,
            sets,
            set,
            network_layout::behaviour_at(s, first),
            n,
        ),
    }
}

// The set of B row r, from those of the E rows and of the later B rows.
fn behaviour_set(
    s: &[u8],
    table: &[u8; 65536],
    known: &[u8; 8192],
    sets: &[u8; 8192],
    r: u16,
) -> [u8; 32]
    ensures { BehaviourSet s.now table.now known.now sets.now r result }
{
    let row = network_rows::behaviour_row(s, r);
    let own = own_set(s, table, known, own_in(row));
    with_subs(s, sets, own, network_row_parts::subs_in(row))
}

fn behaviour_sets(s: &[u8], table: &[u8; 65536], known: &[u8; 8192], sets: &mut [u8; 8192])
    ensures { BehaviourSets s.now table.now known.now sets.old sets.new }
{
    for r in (0..network_layout::behaviour_count(s)).rev() {
        let set = behaviour_set(s, table, known, sets, r);
        store(sets, r, set);
    }
}

// Is a B row a parallel?
pub fn any_parallel(s: &[u8]) -> bool
    ensures { AnyParallel s.now result }
{
    for r in 0..network_layout::behaviour_count(s) {
        if wire::byte_at(s, network_layout::behaviour_at(s, r)) == 8 {
            return true;
        }
    }
    false
}

// The sets of the B rows, by which the sides of each parallel are told apart. Where no row is a parallel any bytes do.
pub fn fill(s: &[u8], sets: &mut [u8; 8192])
    ensures { Fills s.now sets.old sets.new }
{
    let mut table = [0u8; 65536];
    represent(s, &mut table);
    let mut known = [0u8; 8192];
    expression_sets(s, &table, &mut known);
    behaviour_sets(s, &table, &known, sets);
}

// Have the sets of the rows a and b no P row in common? No way out of the loop, so that many bytes are compared at once.
pub fn apart(sets: &[u8], a: u16, b: u16) -> bool
    ensures { SetsApart sets.now a b result }
{
    if sets.len() < 8192 || 255 < a || 255 < b {
        return true;
    }
    let p = 32 * usize::from(a);
    let q = 32 * usize::from(b);
    let mut common: usize = 0;
    for k in 0..32 {
        common |= usize::from(sets[p + k] & sets[q + k]);
    }
    common == 0
}
