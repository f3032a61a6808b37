// Environments by value, in the byte form of trees: looking up, placing, assigning, comparing, uniting.
#![tactic(auto)]

ghost use Rattle.std.specs.Prelude.{◌≡◌, true, ℕ, ◌+◌, ◌≤◌, ◌<◌, length, get_or, drop};
ghost use Rattle.tree_forest.specs.Forest.{end};
ghost use Rattle.tree.specs.Decode.{is_tree};
ghost use Rattle.tree.specs.Ids.{steps};
ghost use Rattle.check_typing.specs.Result.{refused};
ghost use Rattle.check_environments.specs.Environment.{standing, step_of};
ghost use Rattle.check_environments.specs.Walk.{Looked, WalkReached, NoneMandatory, AssignsAt, PutsType, Grows, GrowsRow, GrowsLeaf, SameParts, RootSame, OneFrom, PutsRoot, UnitesFrom};
ghost use Rattle.check_environments.specs.Listing.{Lists, ListsFrom};
ghost use Rattle.check_environments.specs.Tells.{Places, Assigns, Asks, IsIn, ReadsFirm, TypeUnder, SameEnvironments, OneTyped, Unites};

use refusal::Refusal;

// An environment: the bytes of its tree and how many they are; zeros after them.
#[derive(Clone, Copy)]
pub struct Environment {
    pub bytes: [u8; 512],
    pub len: usize,
}

// Where a path leads: to a type at a place, below mandatory edges; to nothing, its longest part standing firm; or through an optional edge.
#[derive(Clone, Copy)]
pub enum Reach {
    Here(usize),
    Gap,
    Loose,
}

// A node as it is listed: the ids of its path (zeros after them) and how many they are, whether it is mandatory, its basic type.
#[derive(Clone, Copy)]
pub struct Entry {
    pub ids: [u16; 6],
    pub depth: usize,
    pub mandatory: bool,
    pub basic: u8,
}

// The empty environment.
pub fn empty() -> Environment
    ensures { result ≡ standing end }
{
    let mut b = [0u8; 512];
    b[2] = 6;
    Environment { bytes: b, len: 5 }
}

// Where the steps from k on lead from the n siblings at `at` on.
fn look_up(s: &[u8], ids: [u16; 4], k: usize, at: usize, n: u8) -> Reach
    requires { k < 4 }
    ensures { Looked s.now (get_or ids k 0) (steps (drop (k + 1) ids)) at n result }
{
    if n == 0 {
        return Reach::Gap;
    }
    let Some(node) = check_types::type_head(s, at, false) else {
        return Reach::Loose;
    };
    if ids[k] < node.id {
        return Reach::Gap;
    }
    if node.id < ids[k] {
        return look_up(s, ids, k, tree::extent(s, at), n - 1);
    }
    if tree::is_last(ids, k) {
        return Reach::Here(at);
    }
    if node.mandatory {
        return look_up(s, ids, k + 1, node.start, node.count);
    }
    Reach::Loose
}

// Where the path of P row p leads in the environment at the start of s.
fn reach_of(file: &[u8], s: &[u8], p: u16) -> Reach
    ensures { WalkReached file.now s.now p result }
{
    let Some(root) = tree::head_at(s, 0) else {
        return Reach::Loose;
    };
    look_up(
        s,
        network_rows::path_row(file, p),
        0,
        root.start,
        root.count,
    )
}

// Where the path of P row p stands firm.
pub fn read_firm(file: &[u8], e: Environment, p: u16) -> Option<(usize, u8)>
    ensures { ReadsFirm file.now e p result }
{
    let Reach::Here(at) = reach_of(file, &e.bytes, p) else {
        return None;
    };
    let node = check_types::type_head(&e.bytes, at, false)?;
    if !node.mandatory {
        return None;
    }
    Some((at, node.basic))
}

// Is the type that stands at `at` ≤ the type of T row r?
pub fn type_under(file: &[u8], e: Environment, at: usize, r: u16) -> bool
    ensures { TypeUnder file.now e at r result }
{
    check_types::tree_under(&e.bytes, at, false, file, r)
}

// The path of P row p stands firm (else 7) and is ≤ the type of T row r (else 9).
pub fn ask(file: &[u8], e: Environment, p: u16, r: u16, row: u16) -> Result<Environment, Refusal>
    ensures { Asks file.now e p r row result }
{
    let Some((at, _)) = read_firm(file, e, p) else {
        return Err(Refusal::PathNotFirm(row));
    };
    if type_under(file, e, at, r) {
        return Ok(e);
    }
    Err(Refusal::TypeMisfit(row))
}

// Is the path of P row p in the environment?
pub fn is_in(file: &[u8], e: Environment, p: u16) -> bool
    ensures { IsIn file.now e p result }
{
    tree::follow(&e.bytes, network_rows::path_row(file, p)).is_some()
}

// Is none of the n types that stand at `at` mandatory?
fn no_mandatory(s: &[u8], at: usize, n: u8) -> bool
    ensures { NoneMandatory s.now at n result }
{
    if n == 0 {
        return true;
    }
    let Some(node) = check_types::type_head(s, at, false) else {
        return false;
    };
    !node.mandatory && no_mandatory(s, tree::extent(s, at), n - 1)
}

// Assigns the basic type b where a type stands at `at`.
fn assign_at(e: Environment, at: usize, b: u8, row: u16) -> Result<Environment, Refusal>
    ensures { AssignsAt e at b row result }
{
    let Some(node) = check_types::type_head(&e.bytes, at, false) else {
        return Err(Refusal::PathNotFirm(row));
    };
    if b != node.basic {
        return Err(Refusal::TypeMisfit(row));
    }
    if node.mandatory || no_mandatory(&e.bytes, node.start, node.count) {
        return Ok(e);
    }
    Err(Refusal::PathNotFirm(row))
}

// Puts the type whose bytes m are at the path of the environment whose bytes g are.
fn put_type(g: &[u8], ids: [u16; 4], m: &[u8], row: u16) -> Result<Environment, Refusal>
    requires { (is_tree 6 48 g.now ≡ true) × (is_tree 6 48 m.now ≡ true) × (length g.now ≤ 341) × (length m.now ≤ 341) }
    ensures { PutsType g.now ids m.now row result }
{
    let mut out = [0u8; 768];
    let len = tree_edit::put(&mut out, g, ids, m, true);
    if !tree::within(&out, 6, 48) {
        return Err(Refusal::EnvironmentTooLarge(row));
    }
    if 341 < len {
        return Err(Refusal::EnvironmentTooLarge(row));
    }
    let mut bytes = [0u8; 512];
    tree_edit::append(&mut bytes, 0, &out, 0, len);
    Ok(Environment { bytes, len })
}

// Puts the type whose bytes m are at a path where nothing stands.
fn grow(e: Environment, ids: [u16; 4], m: &[u8], row: u16) -> Result<Environment, Refusal>
    ensures { Grows e ids m.now row result }
{
    tree::words(ids);
    if 341 < e.len || 341 < m.len() {
        return Err(Refusal::EnvironmentTooLarge(row));
    }
    let g = &e.bytes[..e.len];
    if !tree::is_tree(g, 6, 48) || !tree::is_tree(m, 6, 48) {
        return Err(Refusal::EnvironmentTooLarge(row));
    }
    put_type(g, ids, m, row)
}

// Puts the type of T row r at the path of P row p.
fn grow_row(file: &[u8], e: Environment, p: u16, r: u16, row: u16) -> Result<Environment, Refusal>
    ensures { GrowsRow file.now e p r row result }
{
    tree::octets(file);
    let mut m = [0u8; 112];
    let n = check_types::write_type(&mut m, file, r);
    grow(e, network_rows::path_row(file, p), &m[..n], row)
}

// Puts the basic type b alone at the path of P row p.
fn grow_leaf(file: &[u8], e: Environment, p: u16, b: u8, row: u16) -> Result<Environment, Refusal>
    ensures { GrowsLeaf file.now e p b row result }
{
    let mut m = [0u8; 7];
    let n = check_types::push_node(&mut m, 0, 0, true, b, 0);
    grow(e, network_rows::path_row(file, p), &m[..n], row)
}

// Places the type of T row r at the path of P row p.
pub fn place(file: &[u8], e: Environment, p: u16, r: u16, row: u16) -> Result<Environment, Refusal>
    ensures { Places file.now e p r row result }
{
    match reach_of(file, &e.bytes, p) {
        Reach::Here(at) => {
            if check_types::row_under(file, r, &e.bytes, at) {
                return Ok(e);
            }
            Err(Refusal::TypeMisfit(row))
        }
        Reach::Gap => grow_row(file, e, p, r, row),
        Reach::Loose => Err(Refusal::PathNotFirm(row)),
    }
}

// Assigns the basic type b at the path of P row p.
pub fn assign(file: &[u8], e: Environment, p: u16, b: u8, row: u16) -> Result<Environment, Refusal>
    ensures { Assigns file.now e p b row result }
{
    match reach_of(file, &e.bytes, p) {
        Reach::Here(at) => assign_at(e, at, b, row),
        Reach::Gap => grow_leaf(file, e, p, b, row),
        Reach::Loose => Err(Refusal::PathNotFirm(row)),
    }
}

// Are two environments equal?
pub fn same(e: Environment, d: Environment) -> bool
    ensures { SameEnvironments e d result }
{
    e.bytes == d.bytes
}

// Are the bytes of s from `at` to end those of d from p to q?
fn part_same(s: &[u8], at: usize, end: usize, d: &[u8], p: usize, q: usize) -> bool
    ensures { SameParts s.now at end d.now p q result }
{
    at <= end && end <= s.len() && p <= q && q <= d.len() && s[at..end] == d[p..q]
}

// Has the root i, whose type stands from `at` to end, the type that d binds there, if it binds one?
fn root_same(s: &[u8], at: usize, end: usize, i: u16, d: &[u8]) -> bool
    ensures { RootSame s.now at end i d.now result }
{
    let Some(p) = tree::down(d, 0, i) else {
        return true;
    };
    part_same(s, at, end, d, p, tree::extent(d, p))
}

// Have the n roots at `at` the types that d binds there, where it binds one?
fn one_from(s: &[u8], at: usize, n: u8, d: &[u8]) -> bool
    ensures { OneFrom s.now at n d.now result }
{
    if n == 0 {
        return true;
    }
    let Some(root) = tree::head_at(s, at) else {
        return false;
    };
    let end = tree::extent(s, at);
    root_same(s, at, end, root.id, d) && one_from(s, end, n - 1, d)
}

// Has each root that both environments bind one type?
pub fn one_type(e: Environment, d: Environment) -> bool
    ensures { OneTyped e d result }
{
    let Some(top) = tree::head_at(&e.bytes, 0) else {
        return false;
    };
    one_from(&e.bytes, top.start, top.count, &d.bytes)
}

// The environment f with the type that stands from `at` to end put at the root i.
fn put_root(
    s: &[u8],
    at: usize,
    end: usize,
    i: u16,
    f: Environment,
    row: u16,
) -> Result<Environment, Refusal>
    ensures { PutsRoot s.now at end i f row result }
{
    if s.len() < end || end < 5 || end - 5 < at || 341 < end - at {
        return Err(Refusal::EnvironmentTooLarge(row));
    }
    let mut m = [0u8; 341];
    let a = tree_edit::push_id(&mut m, 0, 0);
    let k = tree_edit::append(&mut m, a, s, at + 2, end - at - 2);
    grow(f, [i, 0, 0, 0], &m[..k], row)
}

// The n roots at `at` united with the environment d.
fn unite_from(s: &[u8], at: usize, n: u8, d: Environment, row: u16) -> Result<Environment, Refusal>
    ensures { UnitesFrom s.now at n d row result }
{
    if n == 0 {
        return Ok(d);
    }
    let Some(root) = tree::head_at(s, at) else {
        return Err(Refusal::EnvironmentTooLarge(row));
    };
    let end = tree::extent(s, at);
    let f = unite_from(s, end, n - 1, d, row)?;
    put_root(s, at, end, root.id, f, row)
}

// The union of two environments in which each root has one type.
pub fn unite(e: Environment, d: Environment, row: u16) -> Result<Environment, Refusal>
    ensures { Unites e d row result }
{
    let Some(top) = tree::head_at(&e.bytes, 0) else {
        return Err(Refusal::EnvironmentTooLarge(row));
    };
    unite_from(&e.bytes, top.start, top.count, d, row)
}

// The i-th node in preorder of the n siblings at `at`; the first `depth` ids are their parent's path.
fn entry_from(s: &[u8], at: usize, n: u8, i: usize, ids: [u16; 6], depth: usize) -> Option<Entry>
    ensures { ListsFrom s.now at n i ids depth result }
{
    if n == 0 {
        return None;
    }
    let node = check_types::type_head(s, at, false)?;
    if 5 < depth {
        return None;
    }
    let end = tree::extent(s, at);
    if end < at {
        return None;
    }
    let mut path = ids;
    path[depth] = node.id;
    if i == 0 {
        return Some(Entry {
            ids: path,
            depth: depth + 1,
            mandatory: node.mandatory,
            basic: node.basic,
        });
    }
    let size = (end - at) / 7;
    if i < size {
        return entry_from(s, node.start, node.count, i - 1, path, depth + 1);
    }
    entry_from(s, end, n - 1, i - size, ids, depth)
}

// The i-th node of the environment in preorder.
pub fn node_at(e: Environment, i: usize) -> Option<Entry>
    ensures { Lists e i result }
{
    let top = tree::head_at(&e.bytes, 0)?;
    entry_from(&e.bytes, top.start, top.count, i, [0u16; 6], 0)
}
