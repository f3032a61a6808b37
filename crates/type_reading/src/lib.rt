// Reading a text of types: are its bytes of the grammar, and how large is each type? A table keeps the types declared so far, a stack the child
// names of the lists that are open; both hold places of names in the text.
#![tactic(auto)]

ghost use Rattle.std.specs.Prelude.{◌≡◌, ◌⊎◌, suc, ◌+◌, ◌-◌, ◌*◌, ◌≤◌, ◌<◌, max, length};
ghost use Rattle.wire.specs.Wire.{u16_at};
ghost use Rattle.type_text.specs.Grammar.{same_word, among};
ghost use Rattle.type_text.specs.Reader.{items_at, next_place, is_new_type};
ghost use Rattle.type_reading.specs.Tables.{word_from, declared_names, noted, seen_names, held, WordUpTo, NoneEmpty, Named, Room};
ghost use Rattle.type_reading.specs.Readings.{MarkTold, WordTold, ChildTold, ColonTold, SideTold, TreeBegun, ListTold, TreeTold, StackKept, TypeFound, NextMark, NameTold, StartTold, RestTold};

use type_words::Item;

// What stands after a `:`: a type's name with the place past it and its entry; a basic word without braces, with the place past it and the basic
// type; or one with an opening brace, with the place past that and the basic type.
#[derive(Clone, Copy)]
pub enum Beginning {
    Known(usize, usize),
    Leaf(usize, u8),
    Braces(usize, u8),
}

// The place of what stands next from `at` on.
pub fn place_at(text: &[u8], at: usize) -> usize
    requires { at ≤ length text.now }
    ensures { result ≡ next_place (length text.now) (items_at text.now at) }
{
    match type_words::item_at(text, at) {
        Item::Word(p, _) | Item::Mark(_, p, _) | Item::Fault(p, _) => p,
        Item::End => text.len(),
    }
}

// Is the mark of this kind next?
pub fn mark_next(text: &[u8], at: usize, kind: u8) -> Option<usize>
    requires { (at ≤ length text.now) × (0 < kind) × (kind < 8) }
    ensures { NextMark text.now at kind result }
{
    let Item::Mark(k, _, a) = type_words::item_at(text, at) else {
        return None;
    };
    if k == kind {
        return Some(a);
    }
    None
}

// The place past the mark of this kind, which has to be next; or the offending byte.
fn expected(text: &[u8], at: usize, kind: u8) -> Result<usize, usize>
    requires { (at ≤ length text.now) × (0 < kind) × (kind < 8) }
    ensures { MarkTold text.now at kind result }
{
    mark_next(text, at, kind).ok_or_else(|| place_at(text, at))
}

// The word that has to be next, by its place and the place past it; or the offending byte.
fn word_at(text: &[u8], at: usize) -> Result<(usize, usize), usize>
    requires { at ≤ length text.now }
    ensures { WordTold text.now at result }
{
    match type_words::item_at(text, at) {
        Item::Word(p, q) => Ok((p, q)),
        _ => Err(place_at(text, at)),
    }
}

// Is the word from p to q the one at a?
pub fn same_name(text: &[u8], p: usize, q: usize, a: usize) -> bool
    requires { WordUpTo text.now p q × (a < 65536) }
    ensures { result ≡ same_word (word_from text.now p) (word_from text.now a) }
{
    let n = q - p;
    for i in 0..n {
        if wire::byte_at(text, a + i) != text[p + i] {
            return false;
        }
    }
    type_words::word_end(text, a + n) == a + n
}

// The entry of the word from p to q among the first n of the table.
pub fn find_type(text: &[u8], table: &[u8], n: usize, p: usize, q: usize) -> Option<usize>
    requires { WordUpTo text.now p q × (6 * n ≤ length table.now) }
    ensures { TypeFound text.now table.now n (word_from text.now p) result }
{
    for i in (0..n).rev() {
        if same_name(text, p, q, usize::from(wire::u16_at(table, 6 * i))) {
            return Some(i);
        }
    }
    None
}

// Is the word from p to q among the names of the stack's entries from `base` up to `top`?
fn is_seen(text: &[u8], stack: &[u8], base: usize, top: usize, p: usize, q: usize) -> bool
    requires { WordUpTo text.now p q × (base ≤ top) × (2 * top ≤ length stack.now) }
    ensures { result ≡ among (word_from text.now p) (seen_names text.now stack.now base (top - base)) }
{
    for i in (base..top).rev() {
        if same_name(text, p, q, usize::from(wire::u16_at(stack, 2 * i))) {
            return true;
        }
    }
    false
}

// A cardinality, or none, and a `:`.
pub fn colon_at(text: &[u8], at: usize) -> Result<(usize, bool), usize>
    requires { at ≤ length text.now }
    ensures { ColonTold text.now at result }
{
    match type_words::item_at(text, at) {
        Item::Mark(k, p, a) => {
            if k == 1 {
                return Ok((a, true));
            }
            if k < 5 {
                return Err(p);
            }
            let b = expected(text, a, 1)?;
            Ok((b, k == 7))
        }
        Item::Word(p, _) => Err(p),
        Item::Fault(_, q) => Err(q),
        Item::End => Err(text.len()),
    }
}

// A child's beginning at `at`: the place past its `.name`, cardinality and `:`, or none; or the offending byte. The stack's entries from `base` up to `top` are the names before it in its list, and its own is put on it.
fn child_at(
    text: &[u8],
    at: usize,
    stack: &mut [u8],
    base: usize,
    top: usize,
) -> Result<Option<usize>, usize>
    requires { Room text.now at stack.old top × (base ≤ top) }
    ensures told { ChildTold text.now at stack.old stack.new base (top - base) result }
    ensures kept { StackKept stack.old stack.new top }
{
    let Some(a) = mark_next(text, at, 4) else {
        return Ok(None);
    };
    let (p, q) = word_at(text, a)?;
    if !type_words::is_name(text, p, q) {
        return Err(p);
    }
    if is_seen(text, stack, base, top, p, q) {
        return Err(p);
    }
    let (b, _) = colon_at(text, q)?;
    wire::put_u16(stack, 2 * top, p as u16);
    Ok(Some(b))
}

// What follows the word from p to q where it is a basic type's.
fn tree_at(text: &[u8], p: usize, q: usize) -> Result<Beginning, usize>
    requires { WordUpTo text.now p q }
    ensures { TreeBegun text.now p q result }
{
    let b = type_words::basic_named(text, p, q).ok_or(p)?;
    let Some(a) = mark_next(text, q, 2) else {
        return Ok(Beginning::Leaf(q, b));
    };
    expected(text, a, 4)?;
    Ok(Beginning::Braces(a, b))
}

// What stands after a `:`, where the first n entries of the table are the names that may stand there.
pub fn side_at(text: &[u8], at: usize, table: &[u8], n: usize) -> Result<Beginning, usize>
    requires { (at ≤ length text.now) × (6 * n ≤ length table.now) × NoneEmpty text.now table.now n }
    ensures { SideTold text.now at table.now n result }
{
    let (p, q) = word_at(text, at)?;
    match find_type(text, table, n, p, q) {
        Some(i) => Ok(Beginning::Known(q, i)),
        None => tree_at(text, p, q),
    }
}

// A list that begins with a child of these sizes and goes on with a list of those.
fn joined(q: usize, nodes: u16, levels: u16, more: u16, deeper: u16) -> (usize, u16, u16)
    requires { (nodes ≤ 257) × (more ≤ 257) × (levels ≤ 5) × (deeper ≤ 5) }
    ensures { result ≡ (q, held 257 (suc nodes + more), held 5 (max (suc levels) deeper)) }
{
    (
        q,
        (nodes + 1 + more).min(257),
        (levels + 1).max(deeper).min(5),
    )
}

// The sizes that the table has of its entry i.
fn known(table: &[u8], q: usize, i: usize) -> (usize, u16, u16)
    requires { 6 * i + 6 ≤ length table.now }
    ensures { result ≡ (q, held 257 (u16_at table.now (6 * i + 2)), held 5 (u16_at table.now (6 * i + 4))) }
{
    (
        q,
        wire::u16_at(table, 6 * i + 2).min(257),
        wire::u16_at(table, 6 * i + 4).min(5),
    )
}

// Reads a tree, or a name among the first `allowed` of the table.
#[cycle(read_list_read_tree)]
fn read_tree(
    text: &[u8],
    at: usize,
    table: &[u8],
    allowed: usize,
    n: usize,
    stack: &mut [u8],
    top: usize,
) -> Result<(usize, u16, u16), usize>
    requires { Room text.now at stack.old top × Named text.now table.now n × ((allowed ≡ n) ⊎ (allowed ≡ 0)) }
    ensures told { TreeTold text.now at table.now allowed n result }
    ensures kept { StackKept stack.old stack.new top }
{
    match side_at(text, at, table, allowed)? {
        Beginning::Known(q, i) => Ok(known(table, q, i)),
        Beginning::Leaf(q, _) => Ok((q, 0, 0)),
        Beginning::Braces(a, _) => {
            let (b, nodes, levels) = read_list(text, a, table, n, stack, top, top)?;
            let q = expected(text, b, 3)?;
            Ok((q, nodes, levels))
        }
    }
}

// Reads a list of children, those before it in the list being on the stack from `base` up to `top`.
#[cycle(read_list_read_tree)]
fn read_list(
    text: &[u8],
    at: usize,
    table: &[u8],
    n: usize,
    stack: &mut [u8],
    base: usize,
    top: usize,
) -> Result<(usize, u16, u16), usize>
    requires { Room text.now at stack.old top × Named text.now table.now n × (base ≤ top) }
    ensures told { ListTold text.now at table.now n (seen_names text.now stack.old base (top - base)) result }
    ensures kept { StackKept stack.old stack.new top }
{
    let Some(a) = child_at(text, at, stack, base, top)? else {
        return Ok((at, 0, 0));
    };
    let (b, nodes, levels) = read_tree(text, a, table, n, n, stack, top + 1)?;
    let (q, more, deeper) = read_list(text, b, table, n, stack, base, top + 1)?;
    Ok(joined(q, nodes, levels, more, deeper))
}

// May the word from p to q name one more type?
fn is_new_type(text: &[u8], table: &[u8], n: usize, p: usize, q: usize) -> bool
    requires { WordUpTo text.now p q × (6 * n ≤ length table.now) }
    ensures { result ≡ is_new_type (declared_names text.now table.now n) (word_from text.now p) }
{
    type_words::is_name(text, p, q)
        && type_words::basic_named(text, p, q).is_none()
        && find_type(text, table, n, p, q).is_none()
}

// A declaration's name and `:`: the name's place, and the place past the `:`; or the offending byte.
fn name_at(text: &[u8], at: usize, table: &[u8], n: usize) -> Result<(usize, usize), usize>
    requires { (at ≤ length text.now) × (6 * n ≤ length table.now) }
    ensures { NameTold text.now at table.now n result }
{
    let (p, q) = word_at(text, at)?;
    if !is_new_type(text, table, n, p, q) {
        return Err(p);
    }
    let a = expected(text, q, 1)?;
    Ok((p, a))
}

// A declaration's beginning: its name's place and the place past its `:`, or none at the text's end; or the offending byte.
pub fn start_at(
    text: &[u8],
    at: usize,
    table: &[u8],
    n: usize,
) -> Result<Option<(usize, usize)>, usize>
    requires { (at ≤ length text.now) × (6 * n ≤ length table.now) }
    ensures { StartTold text.now at table.now n result }
{
    match type_words::item_at(text, at) {
        Item::End => Ok(None),
        Item::Mark(_, p, _) => Err(p),
        Item::Fault(p, _) => Err(p),
        Item::Word(p, q) => {
            if !type_words::is_type_word(text, p, q) {
                return Err(p);
            }
            let name = name_at(text, q, table, n)?;
            Ok(Some(name))
        }
    }
}

// Notes a type in the table's entry n.
fn note(table: &mut [u8], n: usize, p: usize, nodes: u16, levels: u16)
    requires { (6 * n + 6 ≤ length table.old) × (p < 65536) }
    ensures { table.new ≡ noted table.old n p nodes levels }
{
    wire::put_u16(table, 6 * n, p as u16);
    wire::put_u16(table, 6 * n + 2, nodes);
    wire::put_u16(table, 6 * n + 4, levels);
}

// Reads the declarations from `at` on; the table has the n types before them and takes theirs.
pub fn read_rest(
    text: &[u8],
    at: usize,
    table: &mut [u8],
    n: usize,
    stack: &mut [u8],
) -> Result<usize, usize>
    requires { Room text.now at stack.old 0 × NoneEmpty text.now table.old n × (2 * length text.now ≤ length table.old) × (3 * n ≤ at) }
    ensures { RestTold text.now at table.old table.new n result }
{
    let Some((p, a)) = start_at(text, at, table, n)? else {
        return Ok(n);
    };
    let (b, nodes, levels) = read_tree(text, a, table, 0, n, stack, 0)?;
    note(table, n, p, nodes, levels);
    read_rest(text, b, table, n + 1, stack)
}
