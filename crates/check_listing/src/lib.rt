// The environments of an accepted file as bytes, 18 for each node, for callers in other languages.
#![tactic(auto)]

ghost use Rattle.std.specs.Prelude.{◌≡◌, ◌+◌, ◌*◌, ◌≤◌, ◌<◌, length};
ghost use Rattle.check_files.specs.FileChecker.{check_file};
ghost use Rattle.tree_edit.specs.Wrote.{Wrote};
ghost use Rattle.check_listing.specs.Listed.{id_bytes, node_bytes, listed_number, listed_count, listed_bytes};
ghost use Rattle.check_listing.specs.Writing.{nodes_by, pair_nodes_by, answer_nodes_by, EnvironmentWritten, PairWritten};

use check_environments::{Entry, Environment};
use check_network::{Answer, Pair};
use refusal::Refusal;

// Writes six ids.
fn put_ids(out: &mut [u8], w: usize, ids: [u16; 6]) -> usize
    requires { w + 12 ≤ length out.old }
    ensures { Wrote out.old out.new w result 12 (id_bytes ids) }
{
    let mut at = w;
    for id in ids {
        at = tree_edit::push_id(out, at, id);
    }
    at
}

// Writes a node's record.
fn put_node(out: &mut [u8], w: usize, q: u8, role: u8, x: Entry) -> usize
    requires { (w + 18 ≤ length out.old) × (x.depth < 256) }
    ensures { Wrote out.old out.new w result 18 (node_bytes q role x) }
{
    let a = tree_edit::push(out, w, q);
    let b = tree_edit::push(out, a, role);
    let c = tree_edit::push(out, b, u8::from(x.mandatory));
    let d = tree_edit::push(out, c, x.basic);
    let e = tree_edit::push(out, d, x.depth as u8);
    let f = tree_edit::push(out, e, 0);
    put_ids(out, f, x.ids)
}

// How many nodes the environment has, by its length.
fn node_count(e: Environment) -> usize
    ensures { (result ≡ nodes_by e) × (result ≤ 72) }
{
    if 512 < e.len {
        return 0;
    }
    if e.len < 5 {
        return 0;
    }
    (e.len - 5) / 7
}

// Writes the records of an environment.
fn put_environment(out: &mut [u8], w: usize, q: u8, role: u8, e: Environment) -> usize
    requires { w + 18 * nodes_by e ≤ length out.old }
    ensures { EnvironmentWritten e q role out.old out.new w result }
{
    let n = node_count(e);
    let mut at = w;
    for i in 0..n {
        let Some(x) = check_environments::node_at(e, i) else {
            return at;
        };
        if 6 < x.depth {
            return at;
        }
        at = put_node(out, at, q, role, x);
    }
    at
}

// Writes the records of a service, starter first.
fn put_pair(out: &mut [u8], w: usize, q: u8, p: Pair) -> usize
    requires { w + 18 * pair_nodes_by p ≤ length out.old }
    ensures { PairWritten p q out.old out.new w result }
{
    let a = put_environment(out, w, q, 0, p.starter);
    put_environment(out, a, q, 1, p.client)
}

fn pair_count(p: Pair) -> usize
    ensures { (result ≡ pair_nodes_by p) × (result ≤ 144) }
{
    node_count(p.starter) + node_count(p.client)
}

fn answer_count(x: Answer) -> usize
    ensures { (result ≡ answer_nodes_by x) × (result ≤ 576) }
{
    pair_count(x.first) + (pair_count(x.second) + (pair_count(x.third) + pair_count(x.fourth)))
}

// What is told of a file: 0, the number of its refusal, or 1 for too small a buffer; and how many nodes its environments have.
#[derive(Clone, Copy)]
pub struct Listing {
    pub number: u8,
    pub count: usize,
}

// Writes a record for each node of the file's environments, if the file is accepted and the buffer has room for all of them.
pub fn list(file: &[u8], out: &mut [u8]) -> Listing
    ensures number_value { result.number ≡ listed_number (check_file file.now) out.old }
    ensures count_value { result.count ≡ listed_count (check_file file.now) }
    ensures out_after { out.new ≡ listed_bytes (check_file file.now) out.old }
{
    let x = check_network::check(file);
    if let Err(why) = x.verdict {
        return Listing {
            number: refusal::number_of(why),
            count: 0,
        };
    }
    let n = answer_count(x);
    if out.len() < 18 * n {
        return Listing {
            number: 1,
            count: n,
        };
    }
    let a = put_pair(out, 0, 0, x.first);
    let b = put_pair(out, a, 1, x.second);
    let c = put_pair(out, b, 2, x.third);
    put_pair(out, c, 3, x.fourth);
    Listing {
        number: 0,
        count: n,
    }
}
