// The checker of behaviours, given by B rows: from an environment the environment that a row leaves, or the first refusal of 6 to 12.
// Sub-behaviours are later rows: `left` counts the rows left, so the walk ends on any bytes. `sets` are the root ids of the B rows.
#![tactic(auto)]

ghost use Rattle.std.specs.Prelude.{◌≡◌, ℕ, ◌+◌, ◌*◌, ◌<◌};
ghost use Rattle.network_rows.specs.declared.BehaviourRow.{BehaviourRow};
ghost use Rattle.check_roots.specs.Sets.{Separates};
ghost use Rattle.check_behaviours.specs.Checks.{SendChecks, SendsType, Receives, condition_step, Conditions, BranchesAgree, LeafChecks, RowChecks, ParallelChecks, Checks, Sequences, Settles, ChecksBranches};

use check_environments::Environment;
use check_expressions::Typed;
use network_layout::both;
use network_rows::BehaviourRow;
use refusal::Refusal;

// The expression of E row x is ≤ the type of T row t, else 9.
fn send_type(file: &[u8], r: u16, x: u16, t: u16, e: Environment) -> Result<Environment, Refusal>
    ensures { SendsType file.now r x t e result }
{
    match check_expressions::type_of(file, e, x, r)? {
        Typed::At(at, _) => {
            if check_environments::type_under(file, e, at, t) {
                return Ok(e);
            }
            Err(Refusal::TypeMisfit(r))
        }
        Typed::Leaf(b) => {
            if check_types::basic_under(file, b, t) {
                return Ok(e);
            }
            Err(Refusal::TypeMisfit(r))
        }
    }
}

// "Notification: expression ≤ request type. Solicit-response: the same"
fn send(
    file: &[u8],
    q: u16,
    r: u16,
    o: u16,
    x: u16,
    twoway: bool,
    e: Environment,
) -> Result<Environment, Refusal>
    ensures { SendChecks file.now q r o x twoway e result }
{
    if !check_operations::permits(file, q, false, twoway, o) {
        return Err(Refusal::WrongOperation(r));
    }
    send_type(file, r, x, network_rows::request_type(file, o), e)
}

// "One-way places the request type. Request-response places it"
fn receive(
    file: &[u8],
    q: u16,
    r: u16,
    o: u16,
    p: u16,
    twoway: bool,
    e: Environment,
) -> Result<Environment, Refusal>
    ensures { Receives file.now q r o p twoway e result }
{
    if !check_operations::permits(file, q, true, twoway, o) {
        return Err(Refusal::WrongOperation(r));
    }
    check_environments::place(file, e, p, network_rows::request_type(file, o), r)
}

fn bool_condition(r: u16, b: u8, e: Environment) -> Result<Environment, Refusal>
    ensures { result ≡ condition_step r b e }
{
    if b == scalar::BOOL {
        return Ok(e);
    }
    Err(Refusal::OperandType(r))
}

// "a bool", else 8.
fn condition(file: &[u8], r: u16, x: u16, e: Environment) -> Result<Environment, Refusal>
    ensures { Conditions file.now r x e result }
{
    match check_expressions::type_of(file, e, x, r)? {
        Typed::At(_, b) => bool_condition(r, b, e),
        Typed::Leaf(b) => bool_condition(r, b, e),
    }
}

// "Assigning e places only e's basic type"
fn assign(
    file: &[u8],
    q: u16,
    r: u16,
    p: u16,
    x: u16,
    e: Environment,
) -> Result<Environment, Refusal>
    ensures { LeafChecks file.now q r (BehaviourRow.Assign p x) e result }
{
    match check_expressions::type_of(file, e, x, r)? {
        Typed::At(_, b) => check_environments::assign(file, e, p, b, r),
        Typed::Leaf(b) => check_environments::assign(file, e, p, b, r),
    }
}

fn one_way(
    file: &[u8],
    q: u16,
    r: u16,
    o: u16,
    p: u16,
    e: Environment,
) -> Result<Environment, Refusal>
    ensures { LeafChecks file.now q r (BehaviourRow.OneWay o p) e result }
{
    receive(file, q, r, o, p, false, e)
}

fn notification(
    file: &[u8],
    q: u16,
    r: u16,
    o: u16,
    x: u16,
    e: Environment,
) -> Result<Environment, Refusal>
    ensures { LeafChecks file.now q r (BehaviourRow.Notification o x) e result }
{
    send(file, q, r, o, x, false, e)
}

// "Solicit-response: the same, then places the reply type."
fn solicit_response(
    file: &[u8],
    q: u16,
    r: u16,
    o: u16,
    x: u16,
    p: u16,
    e: Environment,
) -> Result<Environment, Refusal>
    ensures { LeafChecks file.now q r (BehaviourRow.SolicitResponse o x p) e result }
{
    send(file, q, r, o, x, true, e)?;
    check_environments::place(file, e, p, network_rows::reply_type(file, o), r)
}

// The environment d, where x is the same, else 10.
fn agree(r: u16, x: Environment, d: Environment) -> Result<Environment, Refusal>
    ensures { BranchesAgree r x d result }
{
    if check_environments::same(x, d) {
        return Ok(d);
    }
    Err(Refusal::EnvironmentsDiffer(r))
}

// What all branches of the choice c gave, if they gave the same, else 10.
fn settle(c: u16, d: Environment, same: bool) -> Result<Environment, Refusal>
    ensures { Settles c d same result }
{
    if same {
        return Ok(d);
    }
    Err(Refusal::EnvironmentsDiffer(c))
}

// "Sequence: a, then b."
#[cycle(branches_check_row_choice_if_then_else_parallel_request_response_sequence_while_do)]
pub fn sequence(
    file: &[u8],
    sets: &[u8],
    q: u16,
    a: u16,
    b: u16,
    left: u16,
    e: Environment,
) -> Result<Environment, Refusal>
    requires { Separates file.now sets.now }
    ensures { Sequences file.now q a b left e result }
{
    let d = check_row(file, sets, q, a, left, e)?;
    check_row(file, sets, q, b, left, d)
}

// "Parallel: no root id (a path's first id) occurs on both sides; left, then right."
#[cycle(branches_check_row_choice_if_then_else_parallel_request_response_sequence_while_do)]
fn parallel(
    file: &[u8],
    sets: &[u8],
    q: u16,
    r: u16,
    a: u16,
    b: u16,
    left: u16,
    e: Environment,
) -> Result<Environment, Refusal>
    requires { Separates file.now sets.now }
    ensures { ParallelChecks file.now q r a b left e result }
{
    if !check_roots::apart(sets, a, b) {
        return Err(Refusal::SharedRoot(r));
    }
    sequence(file, sets, q, a, b, left, e)
}

// "Request-response places it, types the body, then the reply path stands firm and is ≤ the reply type."
#[cycle(branches_check_row_choice_if_then_else_parallel_request_response_sequence_while_do)]
fn request_response(
    file: &[u8],
    sets: &[u8],
    q: u16,
    r: u16,
    o: u16,
    p: u16,
    c: u16,
    body: u16,
    left: u16,
    e: Environment,
) -> Result<Environment, Refusal>
    requires { Separates file.now sets.now }
    ensures { RowChecks file.now q r (BehaviourRow.RequestResponse o p c body) left e result }
{
    let d = receive(file, q, r, o, p, true, e)?;
    let f = check_row(file, sets, q, body, left, d)?;
    check_environments::ask(file, f, c, network_rows::reply_type(file, o), r)
}

// "If: a bool; both sides give equal Γ."
#[cycle(branches_check_row_choice_if_then_else_parallel_request_response_sequence_while_do)]
fn if_then_else(
    file: &[u8],
    sets: &[u8],
    q: u16,
    r: u16,
    x: u16,
    a: u16,
    b: u16,
    left: u16,
    e: Environment,
) -> Result<Environment, Refusal>
    requires { Separates file.now sets.now }
    ensures { RowChecks file.now q r (BehaviourRow.If x a b) left e result }
{
    condition(file, r, x, e)?;
    let d = check_row(file, sets, q, a, left, e)?;
    let f = check_row(file, sets, q, b, left, e)?;
    agree(r, f, d)
}

// "While: a bool; the body gives back Γ."
#[cycle(branches_check_row_choice_if_then_else_parallel_request_response_sequence_while_do)]
fn while_do(
    file: &[u8],
    sets: &[u8],
    q: u16,
    r: u16,
    x: u16,
    b: u16,
    left: u16,
    e: Environment,
) -> Result<Environment, Refusal>
    requires { Separates file.now sets.now }
    ensures { RowChecks file.now q r (BehaviourRow.While x b) left e result }
{
    condition(file, r, x, e)?;
    let d = check_row(file, sets, q, b, left, e)?;
    agree(r, d, e)
}

// The n further branches of the choice c, whose rows stand from `at` on; the first gave d, all so far the same or not.
#[cycle(branches_check_row_choice_if_then_else_parallel_request_response_sequence_while_do)]
fn branches(
    file: &[u8],
    sets: &[u8],
    q: u16,
    c: u16,
    at: usize,
    n: u16,
    left: u16,
    e: Environment,
    d: Environment,
    same: bool,
) -> Result<Environment, Refusal>
    requires { (at + 10 * n < 2000000) × Separates file.now sets.now }
    ensures { ChecksBranches file.now q c at n left e d same result }
{
    if n == 0 {
        return settle(c, d, same);
    }
    let row = network_rows::branch_at(file, at);
    let x = sequence(file, sets, q, row.input, row.follow, left, e)?;
    let again = both(same, check_environments::same(x, d));
    branches(file, sets, q, c, at + 10, n - 1, left, e, d, again)
}

// "Choice: all branches give equal Γ."
#[cycle(branches_check_row_choice_if_then_else_parallel_request_response_sequence_while_do)]
fn choice(
    file: &[u8],
    sets: &[u8],
    q: u16,
    r: u16,
    first: u16,
    n: u16,
    left: u16,
    e: Environment,
) -> Result<Environment, Refusal>
    requires { Separates file.now sets.now }
    ensures { RowChecks file.now q r (BehaviourRow.Choice first n) left e result }
{
    if n == 0 {
        return Ok(e);
    }
    let at = network_layout::behaviour_at(file, first);
    let row = network_rows::branch_at(file, at);
    let d = sequence(file, sets, q, row.input, row.follow, left, e)?;
    branches(file, sets, q, r, at + 10, n - 1, left, e, d, true)
}

// The behaviour of B row r, of the service row q, from the environment e; so many rows are left.
#[cycle(branches_check_row_choice_if_then_else_parallel_request_response_sequence_while_do)]
pub fn check_row(
    file: &[u8],
    sets: &[u8],
    q: u16,
    r: u16,
    left: u16,
    e: Environment,
) -> Result<Environment, Refusal>
    requires { Separates file.now sets.now }
    ensures { Checks file.now q r left e result }
{
    if left == 0 {
        return Ok(e);
    }
    match network_rows::behaviour_row(file, r) {
        BehaviourRow::Nil => Ok(e),
        BehaviourRow::OneWay(o, p) => one_way(file, q, r, o, p, e),
        BehaviourRow::RequestResponse(o, p, c, d) => request_response(
            file,
            sets,
            q,
            r,
            o,
            p,
            c,
            d,
            left - 1,
            e,
        ),
        BehaviourRow::Notification(o, x) => notification(file, q, r, o, x, e),
        BehaviourRow::SolicitResponse(o, x, p) => solicit_response(file, q, r, o, x, p, e),
        BehaviourRow::If(x, a, b) => if_then_else(file, sets, q, r, x, a, b, left - 1, e),
        BehaviourRow::While(x, b) => while_do(file, sets, q, r, x, b, left - 1, e),
        BehaviourRow::Sequence(a, b) => sequence(file, sets, q, a, b, left - 1, e),
        BehaviourRow::Parallel(a, b) => parallel(file, sets, q, r, a, b, left - 1, e),
        BehaviourRow::Assign(p, x) => assign(file, q, r, p, x, e),
        BehaviourRow::Choice(first, n) => choice(file, sets, q, r, first, n, left - 1, e),
        BehaviourRow::Branch(_, _) => Ok(e),
        BehaviourRow::Unknown => Ok(e),
    }
}
