// The second pass over a text of types: the ids of its child names, and each declaration's type as an encoded tree.
#![tactic(auto)]

ghost use Rattle.std.specs.Prelude.{◌≡◌, [], ◌⊎◌, false, suc, ◌+◌, ◌*◌, ◌≤◌, ◌<◌, length};
ghost use Rattle.wire.specs.Wire.{u16_at};
ghost use Rattle.type_text.specs.Meaning.{first_uses, id_of};
ghost use Rattle.type_text.specs.Reader.{items_at};
ghost use Rattle.type_reading.specs.Tables.{word_from, WordUpTo, Named};
ghost use Rattle.type_images.specs.TypeImages.{TypeCopied};
ghost use Rattle.type_trees.specs.Names.{names_up_to, tokens_in, dot_names, NameAdded};
ghost use Rattle.type_trees.specs.Builds.{ClosingPassed, SideBuilt, ListBuilt, TreeBuilt};

use type_images::TypeImage;
use type_reading::Beginning;
use type_words::Item;

// A type that was made, and the place past what it was made of.
#[derive(Clone, Copy)]
pub struct Built {
    pub at: usize,
    pub image: TypeImage,
}

// The id of the word from p to q by the first n names.
pub fn id_of(text: &[u8], names: &[u8], n: usize, p: usize, q: usize) -> u16
    requires { WordUpTo text.now p q × (n < 65535) }
    ensures { result ≡ id_of (names_up_to text.now names.now n) (word_from text.now p) }
{
    for i in 0..n {
        if type_reading::same_name(text, p, q, usize::from(wire::u16_at(names, 2 * i))) {
            return (i + 1) as u16;
        }
    }
    (n + 1) as u16
}

// Puts the word from p to q after the first n names, if it is not among them, and gives how many there are.
fn add_name(text: &[u8], names: &mut [u8], n: usize, p: usize, q: usize) -> usize
    requires { WordUpTo text.now p q × (length text.now ≤ 8192) × (2 * n + 2 ≤ length names.old) × (n < 65535) }
    ensures { NameAdded text.now names.old names.new n (word_from text.now p) result }
{
    let id = usize::from(id_of(text, names, n, p, q));
    if id <= n {
        return n;
    }
    wire::put_u16(names, 2 * n, p as u16);
    n + 1
}

// Writes the places of the child names in the order of their ids, and gives how many there are.
pub fn gather(text: &[u8], names: &mut [u8]) -> usize
    requires { (length text.now ≤ 8192) × (length text.now ≤ length names.old) }
    ensures { names_up_to text.now names.new result ≡ first_uses [] (dot_names false (tokens_in (items_at text.now 0))) }
{
    let mut at: usize = 0;
    let mut n: usize = 0;
    let mut dot = false;
    loop {
        match type_words::item_at(text, at) {
            Item::Word(p, q) => {
                if dot {
                    n = add_name(text, names, n, p, q);
                }
                dot = false;
                at = q;
            }
            Item::Mark(k, _, q) => {
                dot = k == 4;
                at = q;
            }
            Item::Fault(_, _) | Item::End => return n,
        }
    }
}

// Past a closing brace, where one stands.
fn closed(text: &[u8], made: Built) -> Built
    requires { made.at ≤ length text.now }
    ensures { ClosingPassed text.now made result }
{
    match type_reading::mark_next(text, made.at, 3) {
        Some(at) => Built { at, ..made },
        None => made,
    }
}

// The known type of the table's entry i as a child.
fn known_type(table: &[u8], i: usize, images: &[u8], mandatory: bool) -> TypeImage
    requires { 6 * i + 6 ≤ length table.now }
    ensures { TypeCopied images.now (7 * u16_at table.now (6 * i + 4))
        (7 * suc (u16_at table.now (6 * i + 2))) mandatory result }
{
    let below = usize::from(wire::u16_at(table, 6 * i + 2));
    let row = usize::from(wire::u16_at(table, 6 * i + 4));
    type_images::copy_type(images, 7 * row, 7 * (below + 1), mandatory)
}

// The type of what stands after a `:`, where the first `allowed` types of the table may be named.
#[cycle(build_list_build_side)]
fn build_side(
    text: &[u8],
    at: usize,
    table: &[u8],
    allowed: usize,
    n: usize,
    names: &[u8],
    m: usize,
    images: &[u8],
    mandatory: bool,
) -> Built
    requires { (at ≤ length text.now) × Named text.now table.now n × ((allowed ≡ n) ⊎ (allowed ≡ 0)) × (m < 65535) }
    ensures { SideBuilt text.now at table.now allowed n names.now m images.now mandatory result }
{
    match type_reading::side_at(text, at, table, allowed) {
        Ok(Beginning::Known(q, i)) => Built {
            at: q,
            image: known_type(table, i, images, mandatory),
        },
        Ok(Beginning::Leaf(q, b)) => Built {
            at: q,
            image: type_images::leaf_type(mandatory, b),
        },
        Err(_) => Built {
            at,
            image: type_images::leaf_type(mandatory, 0),
        },
        Ok(Beginning::Braces(a, b)) => {
            let root = type_images::leaf_type(mandatory, b);
            let made = build_list(text, a, table, n, names, m, images, root);
            closed(text, made)
        }
    }
}

// The type that acc is with the children of a list put in.
#[cycle(build_list_build_side)]
fn build_list(
    text: &[u8],
    at: usize,
    table: &[u8],
    n: usize,
    names: &[u8],
    m: usize,
    images: &[u8],
    acc: TypeImage,
) -> Built
    requires { (at ≤ length text.now) × Named text.now table.now n × (m < 65535) }
    ensures { ListBuilt text.now at table.now n names.now m images.now acc result }
{
    let Some(a) = type_reading::mark_next(text, at, 4) else {
        return Built { at, image: acc };
    };
    let Item::Word(p, q) = type_words::item_at(text, a) else {
        return Built { at, image: acc };
    };
    let Ok((b, mandatory)) = type_reading::colon_at(text, q) else {
        return Built { at, image: acc };
    };
    let id = id_of(text, names, m, p, q);
    let side = build_side(text, b, table, n, n, names, m, images, mandatory);
    let grown = type_images::put_child(acc, id, side.image);
    build_list(text, side.at, table, n, names, m, images, grown)
}

// The type of the declaration whose tree stands at `at`.
pub fn build_tree(
    text: &[u8],
    at: usize,
    table: &[u8],
    n: usize,
    names: &[u8],
    m: usize,
    images: &[u8],
) -> Built
    requires { (at ≤ length text.now) × Named text.now table.now n × (m < 65535) }
    ensures { TreeBuilt text.now at table.now n names.now m images.now result }
{
    build_side(text, at, table, 0, n, names, m, images, true)
}
