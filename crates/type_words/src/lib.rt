// Words and marks of a text of types: what stands at a place, and what a word says.
#![tactic(auto)]

ghost use Rattle.std.specs.Prelude.{◌≡◌, ◌+◌, ◌-◌, ◌≤◌, ◌<◌, length, get_or, drop};
ghost use Rattle.wire.specs.Wire.{part};
ghost use Rattle.scalar.specs.Value.{word_of};
ghost use Rattle.type_text.specs.Spelling.{is_blank, is_letter, in_word};
ghost use Rattle.type_text.specs.Grammar.{same_word, is_name, type_word};
ghost use Rattle.type_text.specs.Reader.{word_bytes, bracket_end, bracket_at, mark_at};
ghost use Rattle.type_words.specs.Told.{mark_token, run_of, mark_item, ItemTold, BasicTold};

// What stands next in a text: a word or a mark with its first byte's place and the place past it; bytes that begin neither, with their place
// and that of the byte that departs; or the end.
#[derive(Clone, Copy)]
pub enum Item {
    Word(usize, usize),
    Mark(u8, usize, usize),
    Fault(usize, usize),
    End,
}

pub fn is_blank(b: u8) -> bool
    ensures { result ≡ is_blank b }
{
    matches!(b, b' ' | b'\n')
}

fn is_letter(b: u8) -> bool
    ensures { result ≡ is_letter b }
{
    matches!(b, b'A'..=b'Z' | b'a'..=b'z')
}

// A letter, a digit or an underscore.
pub fn in_word(b: u8) -> bool
    ensures { result ≡ in_word b }
{
    is_letter(b) || matches!(b, b'0'..=b'9' | b'_')
}

// The place of the first byte from `at` on that is no blank; the length if there is none.
fn skip_blanks(text: &[u8], at: usize) -> usize
    requires { at ≤ length text.now }
    ensures { (result ≡ at + run_of is_blank (drop at text.now)) × (result ≤ length text.now) }
{
    at + text[at..].iter().take_while(|b| is_blank(**b)).count()
}

// The place past the word bytes from p on.
pub fn word_end(text: &[u8], p: usize) -> usize
    requires { p ≤ length text.now }
    ensures { (result ≡ p + length (word_bytes (drop p text.now))) × (result ≤ length text.now) }
{
    p + text[p..].iter().take_while(|b| in_word(**b)).count()
}

// `[` at p with the first digit of the mark `kind` after it: do `,`, `1` and `]` follow?
fn bracket_end(text: &[u8], p: usize, kind: u8) -> Item
    requires { (p + 1 < length text.now) × (0 < kind) × (kind < 8) }
    ensures { result ≡ mark_item p (bracket_end (mark_token kind) (drop (p + 1) text.now)) }
{
    if wire::byte_at(text, p + 2) != b',' {
        return Item::Fault(p, p + 2);
    }
    if wire::byte_at(text, p + 3) != b'1' {
        return Item::Fault(p, p + 3);
    }
    if wire::byte_at(text, p + 4) != b']' {
        return Item::Fault(p, p + 4);
    }
    Item::Mark(kind, p, p + 5)
}

// The mark that begins with `[` at p.
fn bracket(text: &[u8], p: usize) -> Item
    requires { p < length text.now }
    ensures { result ≡ mark_item p (bracket_at (drop (p + 1) text.now)) }
{
    match wire::byte_at(text, p + 1) {
        b'0' => bracket_end(text, p, 6),
        b'1' => bracket_end(text, p, 7),
        _ => Item::Fault(p, p + 1),
    }
}

// The mark that begins at p.
fn mark_at(text: &[u8], p: usize) -> Item
    requires { p < length text.now }
    ensures { result ≡ mark_item p (mark_at (get_or text.now p 0) (drop (p + 1) text.now)) }
{
    match text[p] {
        b':' => Item::Mark(1, p, p + 1),
        b'{' => Item::Mark(2, p, p + 1),
        b'}' => Item::Mark(3, p, p + 1),
        b'.' => Item::Mark(4, p, p + 1),
        b'?' => Item::Mark(5, p, p + 1),
        b'[' => bracket(text, p),
        _ => Item::Fault(p, p),
    }
}

// What stands next from `at` on.
pub fn item_at(text: &[u8], at: usize) -> Item
    requires { at ≤ length text.now }
    ensures { ItemTold text.now at result }
{
    let p = skip_blanks(text, at);
    if p == text.len() {
        return Item::End;
    }
    if in_word(text[p]) {
        return Item::Word(p, word_end(text, p + 1));
    }
    mark_at(text, p)
}

// Are the words from p to q and from p2 to q2 the same?
pub fn same_word(text: &[u8], p: usize, q: usize, p2: usize, q2: usize) -> bool
    requires { (p ≤ q) × (q ≤ length text.now) × (p2 ≤ q2) × (q2 ≤ length text.now) }
    ensures { result ≡ same_word (part text.now p (q - p)) (part text.now p2 (q2 - p2)) }
{
    scalar::same_bytes(&text[p..q], &text[p2..q2])
}

// Is the word from p to q a name?
pub fn is_name(text: &[u8], p: usize, q: usize) -> bool
    requires { (p ≤ q) × (q ≤ length text.now) }
    ensures { result ≡ is_name (part text.now p (q - p)) }
{
    let n = q - p;
    if n == 0 {
        return false;
    }
    if 16 < n {
        return false;
    }
    is_letter(text[p])
}

// Is the word from p to q `type`?
pub fn is_type_word(text: &[u8], p: usize, q: usize) -> bool
    requires { (p ≤ q) × (q ≤ length text.now) }
    ensures { result ≡ same_word type_word (part text.now p (q - p)) }
{
    scalar::same_bytes(b"type", &text[p..q])
}

// Is the word from p to q that of the basic type b?
fn is_word_of(b: u8, text: &[u8], p: usize, q: usize) -> bool
    requires { (p ≤ q) × (q ≤ length text.now) }
    ensures { result ≡ same_word (word_of b) (part text.now p (q - p)) }
{
    scalar::same_bytes(scalar::word_of(b), &text[p..q])
}

// The basic type that the word from p to q names.
pub fn basic_named(text: &[u8], p: usize, q: usize) -> Option<u8>
    requires { (p ≤ q) × (q ≤ length text.now) }
    ensures { BasicTold (part text.now p (q - p)) result }
{
    for n in (0..scalar::LAST_BASIC + 1).rev() {
        if is_word_of(n, text, p, q) {
            return Some(n);
        }
    }
    None
}
