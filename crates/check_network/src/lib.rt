// The checker of network files: refusals 2 to 13 and 23, or the environments of every service.
#![tactic(auto)]

ghost use Rattle.std.specs.Prelude.{◌≡◌, ℕ, ◌+◌, ◌≤◌};
ghost use Rattle.network.specs.Layout.{service_count};
ghost use Rattle.check_files.specs.FileChecker.{check_file};
ghost use Rattle.check_roots.specs.Sets.{Separates};
ghost use Rattle.check_network.specs.Answer.{empty_pair, refused_with, with_first, check_answer, IfPassed, ShapedAll};
ghost use Rattle.check_network.specs.Answer.{StarterGives, ClientGives, ServiceGives, ServicesGive, OperationsGive};

use check_environments::Environment;
use refusal::Refusal;

// The environments of a service's starter and client; that of one that is not there is empty.
#[derive(Clone, Copy)]
pub struct Pair {
    pub starter: Environment,
    pub client: Environment,
}

// What the checker answers: the verdict, and the environments of the services by row; those of a refused file and of services that are
// not there are empty.
#[derive(Clone, Copy)]
pub struct Answer {
    pub verdict: Result<(), Refusal>,
    pub first: Pair,
    pub second: Pair,
    pub third: Pair,
    pub fourth: Pair,
}

fn empty_pair() -> Pair
    ensures { result ≡ empty_pair }
{
    Pair {
        starter: check_environments::empty(),
        client: check_environments::empty(),
    }
}

// The verdict alone.
fn verdict_only(v: Result<(), Refusal>) -> Answer
    ensures { result ≡ refused_with v }
{
    Answer {
        verdict: v,
        first: empty_pair(),
        second: empty_pair(),
        third: empty_pair(),
        fourth: empty_pair(),
    }
}

// The starter of S row q, if there is one.
fn starter(file: &[u8], sets: &[u8], q: u16) -> Result<Environment, Refusal>
    requires { Separates file.now sets.now }
    ensures { StarterGives file.now q result }
{
    let r = network_rows::starter_row(file, q);
    if r == 65535 {
        return Ok(check_environments::empty());
    }
    check_starters::check_starter(file, sets, q, r)
}

// The client of S row q, if there is one.
fn client(file: &[u8], sets: &[u8], q: u16) -> Result<Environment, Refusal>
    requires { Separates file.now sets.now }
    ensures { ClientGives file.now q result }
{
    let r = network_rows::client_row(file, q);
    if r == 65535 {
        return Ok(check_environments::empty());
    }
    check_starters::check_client(file, sets, q, r)
}

// S row q, "starter first".
fn service(file: &[u8], sets: &[u8], q: u16) -> Result<Pair, Refusal>
    requires { Separates file.now sets.now }
    ensures { ServiceGives file.now q result }
{
    let x = starter(file, sets, q)?;
    let y = client(file, sets, q)?;
    Ok(Pair {
        starter: x,
        client: y,
    })
}

// The pair before those of the services that follow.
fn with_first(p: Pair, x: Answer) -> Answer
    ensures { result ≡ with_first p x }
{
    Answer {
        verdict: Ok(()),
        first: p,
        second: x.first,
        third: x.second,
        fourth: x.third,
    }
}

// The n services from row q on.
fn services(file: &[u8], sets: &[u8], q: u16, n: u16) -> Answer
    requires { (q + n ≤ 65535) × Separates file.now sets.now }
    ensures { ServicesGive file.now q n result }
{
    if n == 0 {
        return verdict_only(Ok(()));
    }
    let p = match service(file, sets, q) {
        Ok(p) => p,
        Err(why) => return verdict_only(Err(why)),
    };
    let others = services(file, sets, q + 1, n - 1);
    if let Err(why) = others.verdict {
        return verdict_only(Err(why));
    }
    with_first(p, others)
}

// All services, by the root ids of the file's B rows.
fn by_roots(file: &[u8], n: u16) -> Answer
    ensures { ServicesGive file.now 0 n result }
{
    let mut sets = [0u8; 8192];
    check_roots::fill(file, &mut sets);
    services(file, &sets, 0, n)
}

// All services; the root ids are asked for only where there is a parallel, so that without one any bytes do.
fn all_services(file: &[u8]) -> Answer
    ensures { ServicesGive file.now 0 (service_count file.now) result }
{
    let n = network_layout::service_count(file);
    if check_roots::any_parallel(file) {
        return by_roots(file, n);
    }
    services(file, file, 0, n)
}

// All operations: 13, then 23.
fn operations(file: &[u8]) -> Result<(), Refusal>
    ensures { OperationsGive file.now result }
{
    check_outputs::check_outputs(file)?;
    check_keys::check_keys(file)
}

// "The checker tries 2 to 13", and 23 "after 13". (Its environments keep to their limits, as a fact that callers can cite.)
pub fn check(file: &[u8]) -> Answer
    ensures value { result ≡ check_answer (check_file file.now) }
    ensures if_passed { IfPassed ShapedAll (check_file file.now) }
{
    if let Err(form) = network_form::form_of(file) {
        return verdict_only(Err(form));
    }
    let all = all_services(file);
    if let Err(why) = all.verdict {
        return verdict_only(Err(why));
    }
    if let Err(why) = operations(file) {
        return verdict_only(Err(why));
    }
    all
}
