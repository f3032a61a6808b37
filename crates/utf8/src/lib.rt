// Is a sequence of octets UTF-8, as RFC 3629 defines it? Octets below 80 at the start are passed over by eights, then characters of three
// octets by fours or of two octets by twos; the rest is read character by character: the first octet tells how many it has, and in which range
// the second lies.
#![tactic(auto)]

ghost use Rattle.std.specs.Prelude.{◌≡◌, true, ◌+◌, ◌≤◌, eqb, length, drop, get_or};
ghost use Rattle.utf8.specs.Utf8.{range, in_range, tail, is_utf8};
ghost use Rattle.utf8.specs.Octets.{count_after, least_after, most_after, high_bits, word, Fitting, Whole};

// Does the octet lie in UTF8-tail, 80 to BF?
fn is_tail(a: u8) -> bool
    ensures { result ≡ in_range tail a }
{
    if a < 0x80 {
        return false;
    }
    a <= 0xBF
}

// May the octet be the second, after this first one? After E0 and F0 a lower one would begin a character that fewer octets hold, after ED a
// higher one a surrogate, D800 to DFFF, and after F4 what lies past 10FFFF.
fn is_second(first: u8, a: u8) -> bool
    ensures { result ≡ in_range (range (least_after first) (most_after first)) a }
{
    if !is_tail(a) {
        return false;
    }
    if first == 0xE0 {
        return 0xA0 <= a;
    }
    if first == 0xED {
        return a <= 0x9F;
    }
    if first == 0xF0 {
        return 0x90 <= a;
    }
    if first == 0xF4 {
        return a <= 0x8F;
    }
    true
}

// The octets of the character at `at`, whose first one says that it has two, three or four; 0 where they are no character.
fn two_at(v: &[u8], at: usize) -> usize
    requires { (at + 1 ≤ length v.now) × (1 ≡ count_after (get_or v.now at 0)) }
    ensures { Whole v.now at result }
{
    if v.len() - at < 2 {
        return 0; // it is cut short
    }
    if !is_second(v[at], v[at + 1]) {
        return 0;
    }
    2
}

fn three_at(v: &[u8], at: usize) -> usize
    requires { (at + 1 ≤ length v.now) × (2 ≡ count_after (get_or v.now at 0)) }
    ensures { Whole v.now at result }
{
    if v.len() - at < 3 {
        return 0;
    }
    if !is_second(v[at], v[at + 1]) {
        return 0;
    }
    if !is_tail(v[at + 2]) {
        return 0;
    }
    3
}

fn four_at(v: &[u8], at: usize) -> usize
    requires { (at + 1 ≤ length v.now) × (3 ≡ count_after (get_or v.now at 0)) }
    ensures { Whole v.now at result }
{
    if v.len() - at < 4 {
        return 0;
    }
    if !is_second(v[at], v[at + 1]) {
        return 0;
    }
    if !is_tail(v[at + 2]) {
        return 0;
    }
    if !is_tail(v[at + 3]) {
        return 0;
    }
    4
}

// How many octets the character at `at` has; 0 where none is there.
fn character_at(v: &[u8], at: usize) -> usize
    requires { at + 1 ≤ length v.now }
    ensures { Whole v.now at result }
{
    let first = v[at];
    if first < 0x80 {
        return 1;
    }
    if first < 0xC2 {
        return 0;
    }
    if first < 0xE0 {
        return two_at(v, at);
    }
    if first < 0xF0 {
        return three_at(v, at);
    }
    if first < 0xF5 {
        return four_at(v, at);
    }
    0
}

// Are the eight octets from `at` on all below 80, so that each is a character? They are tested together, by their highest bits.
fn eight_low(v: &[u8], at: usize) -> bool
    requires { at + 8 ≤ length v.now }
    ensures { result ≡ eqb (high_bits v.now at 0 8) 0 }
{
    let word = v[at] as u64
        + 0x100 * (v[at + 1] as u64)
        + 0x10000 * (v[at + 2] as u64)
        + 0x1000000 * (v[at + 3] as u64)
        + 0x100000000 * (v[at + 4] as u64)
        + 0x10000000000 * (v[at + 5] as u64)
        + 0x1000000000000 * (v[at + 6] as u64)
        + 0x100000000000000 * (v[at + 7] as u64);
    word & 0x8080808080808080 == 0
}

// So many octets at the start, counted in eights, are below 80.
fn low_start(v: &[u8]) -> usize
    ensures upper_bound { result ≤ length v.now }
    ensures v_value { is_utf8 (drop result v.now) ≡ is_utf8 v.now }
{
    let mut i: usize = 0;
    while 8 <= v.len() - i {
        if !eight_low(v, i) {
            return i;
        }
        i = i + 8;
    }
    i
}

// The four octets from `at` on as one number, the first one lowest.
fn quad(v: &[u8], at: usize) -> u32
    requires { at + 4 ≤ length v.now }
    ensures { result ≡ word v.now at 0 4 }
{
    v[at] as u32
        + 0x100 * (v[at + 1] as u32)
        + 0x10000 * (v[at + 2] as u32)
        + 0x1000000 * (v[at + 3] as u32)
}

// Of a character of three octets, are the first two right, where the highest bits of each say that it is one?
fn fits(first: u8, second: u8) -> bool
    ensures { Fitting result first second }
{
    if first == 0xE0 {
        return 0xA0 <= second;
    }
    if first == 0xED {
        return second <= 0x9F;
    }
    true
}

// Are the next four octets two characters? The highest bits of the four are tested together.
fn two_twos(v: &[u8], at: usize) -> bool
    requires { at + 4 ≤ length v.now }
    ensures { result ≡ true → Whole v.now at 4 }
{
    if quad(v, at) & 0xC0E0C0E0 != 0x80C080C0 {
        return false;
    }
    if v[at] < 0xC2 {
        return false;
    }
    0xC2 <= v[at + 2]
}

// Are the next twelve octets four characters of three octets each?
fn four_threes(v: &[u8], at: usize) -> bool
    requires { at + 12 ≤ length v.now }
    ensures { result ≡ true → Whole v.now at 12 }
{
    if quad(v, at) & 0xF0C0C0F0 != 0xE08080E0 {
        return false;
    }
    if quad(v, at + 4) & 0xC0F0C0C0 != 0x80E08080 {
        return false;
    }
    if quad(v, at + 8) & 0xC0C0F0C0 != 0x8080E080 {
        return false;
    }
    if !fits(v[at], v[at + 1]) {
        return false;
    }
    if !fits(v[at + 3], v[at + 4]) {
        return false;
    }
    if !fits(v[at + 6], v[at + 7]) {
        return false;
    }
    fits(v[at + 9], v[at + 10])
}

// Past the characters of two octets from `at` on, counted by twos.
fn past_twos(v: &[u8], at: usize) -> usize
    requires { at ≤ length v.now }
    ensures upper_bound { result ≤ length v.now }
    ensures v_value { is_utf8 (drop result v.now) ≡ is_utf8 (drop at v.now) }
{
    let mut i = at;
    while 4 <= v.len() - i {
        if !two_twos(v, i) {
            return i;
        }
        i = i + 4;
    }
    i
}

// Past the characters from `at` on that are seen to be of three octets each, or of two.
fn past_even(v: &[u8], at: usize) -> usize
    requires { at ≤ length v.now }
    ensures upper_bound { result ≤ length v.now }
    ensures v_value { is_utf8 (drop result v.now) ≡ is_utf8 (drop at v.now) }
{
    if 12 <= v.len() - at {
        if four_threes(v, at) {
            return at + 12;
        }
    }
    past_twos(v, at)
}

// Are the octets UTF-8? Any octets are answered.
pub fn is_utf8(v: &[u8]) -> bool
    ensures { result ≡ is_utf8 v.now }
{
    let low = low_start(v);
    let mut i = past_even(v, low);
    while i < v.len() {
        let n = character_at(v, i);
        if n == 0 {
            return false;
        }
        i = i + n;
    }
    true
}
