// Starters and clients: "Starter branches and clients start from empty Γ; a root bound by two branches has one type, else 10; the starter's
// environment is their union." Each branch is checked once, and its environment united with those before it. Only where a root has two types
// or the union passes the limit are the branches checked again and compared two by two, for 10 comes before 12.
#![tactic(auto)]

ghost use Rattle.std.specs.Prelude.{ℕ, ◌+◌, ◌*◌, ◌<◌};
ghost use Rattle.check_roots.specs.Sets.{Separates};
ghost use Rattle.check_starters.specs.Starters.{BranchGives, Each, Against, OneEach, UnitesAll, Joins, Gathers, StarterChecks, Clients};

use check_environments::Environment;
use network_rows::BehaviourRow;
use refusal::Refusal;

// The branch whose row stands at `at`, from the empty environment.
fn branch(file: &[u8], sets: &[u8], q: u16, at: usize, left: u16) -> Result<Environment, Refusal>
    requires { (at < 2000000) × Separates file.now sets.now }
    ensures { BranchGives file.now q at left result }
{
    let row = network_rows::branch_at(file, at);
    check_behaviours::sequence(
        file,
        sets,
        q,
        row.input,
        row.follow,
        left,
        check_environments::empty(),
    )
}

// The n branches whose rows stand from `at` on, one after the other: the first refusal.
fn each(file: &[u8], sets: &[u8], q: u16, at: usize, n: u16, left: u16) -> Result<(), Refusal>
    requires { (at + 10 * n < 2000000) × Separates file.now sets.now }
    ensures { Each file.now q at n left result }
{
    if n == 0 {
        return Ok(());
    }
    branch(file, sets, q, at, left)?;
    each(file, sets, q, at + 10, n - 1, left)
}

// Has each root of d one type in all of the n branches?
fn against(file: &[u8], sets: &[u8], q: u16, d: Environment, at: usize, n: u16, left: u16) -> bool
    requires { (at + 10 * n < 2000000) × Separates file.now sets.now }
    ensures { Against file.now q d at n left result }
{
    if n == 0 {
        return true;
    }
    let Ok(e) = branch(file, sets, q, at, left) else {
        return true;
    };
    if !check_environments::one_type(d, e) {
        return false;
    }
    against(file, sets, q, d, at + 10, n - 1, left)
}

// Has each root one type in the n branches?
fn one_each(file: &[u8], sets: &[u8], q: u16, at: usize, n: u16, left: u16) -> bool
    requires { (at + 10 * n < 2000000) × Separates file.now sets.now }
    ensures { OneEach file.now q at n left result }
{
    if n == 0 {
        return true;
    }
    let Ok(d) = branch(file, sets, q, at, left) else {
        return true;
    };
    if !against(file, sets, q, d, at + 10, n - 1, left) {
        return false;
    }
    one_each(file, sets, q, at + 10, n - 1, left)
}

// The union of u and the environments of the n branches, or 12 at the row.
fn unite_all(
    file: &[u8],
    sets: &[u8],
    q: u16,
    row: u16,
    at: usize,
    n: u16,
    left: u16,
    u: Environment,
) -> Result<Environment, Refusal>
    requires { (at + 10 * n < 2000000) × Separates file.now sets.now }
    ensures { UnitesAll file.now q row at n left u result }
{
    if n == 0 {
        return Ok(u);
    }
    let d = branch(file, sets, q, at, left)?;
    let more = check_environments::unite(d, u, row)?;
    unite_all(file, sets, q, row, at + 10, n - 1, left, more)
}

// The n branches pass: 10 and then 12 at the starter's row.
fn join(
    file: &[u8],
    sets: &[u8],
    q: u16,
    row: u16,
    at: usize,
    n: u16,
    left: u16,
) -> Result<Environment, Refusal>
    requires { (at + 10 * n < 2000000) × Separates file.now sets.now }
    ensures { Joins file.now q row at n left result }
{
    if !one_each(file, sets, q, at, n, left) {
        return Err(Refusal::EnvironmentsDiffer(row));
    }
    unite_all(file, sets, q, row, at, n, left, check_environments::empty())
}

// The n branches whose rows stand from `at` on, after those whose union is u: not sure where a root has two types or the union is too large.
fn gather(
    file: &[u8],
    sets: &[u8],
    q: u16,
    row: u16,
    at: usize,
    n: u16,
    left: u16,
    u: Environment,
) -> Option<Result<Environment, Refusal>>
    requires { (at + 10 * n < 2000000) × Separates file.now sets.now }
    ensures { Gathers file.now q row at n left u result }
{
    if n == 0 {
        return Some(Ok(u));
    }
    let d = match branch(file, sets, q, at, left) {
        Ok(d) => d,
        Err(why) => return Some(Err(why)),
    };
    if !check_environments::one_type(d, u) {
        return None;
    }
    let Ok(more) = check_environments::unite(d, u, row) else {
        return None;
    };
    gather(file, sets, q, row, at + 10, n - 1, left, more)
}

// The starter of the service row q, whose row r is a choice.
pub fn check_starter(file: &[u8], sets: &[u8], q: u16, r: u16) -> Result<Environment, Refusal>
    requires { Separates file.now sets.now }
    ensures { StarterChecks file.now q r result }
{
    let left = network_layout::behaviour_count(file);
    let BehaviourRow::Choice(first, n) = network_rows::behaviour_row(file, r) else {
        return Ok(check_environments::empty());
    };
    let at = network_layout::behaviour_at(file, first);
    if let Some(all) = gather(file, sets, q, r, at, n, left, check_environments::empty()) {
        return all;
    }
    each(file, sets, q, at, n, left)?;
    join(file, sets, q, r, at, n, left)
}

// The client of the service row q.
pub fn check_client(file: &[u8], sets: &[u8], q: u16, r: u16) -> Result<Environment, Refusal>
    requires { Separates file.now sets.now }
    ensures { Clients file.now q r result }
{
    check_behaviours::check_row(
        file,
        sets,
        q,
        r,
        network_layout::behaviour_count(file),
        check_environments::empty(),
    )
}
