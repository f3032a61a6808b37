// The network file's sections; refusals 2 and 3; the lowest of places. Readers are total: a byte past the end counts as 0.
#![tactic(auto, unfolding(network::specs::Least::least, network::specs::Least::rule, network::specs::Layout::trailer, network::specs::Layout::start, network::specs::Layout::count, network::specs::Layout::path_at, network::specs::Layout::type_at, network::specs::Layout::expression_at, network::specs::Layout::behaviour_at, network::specs::Layout::operation_at, network::specs::Layout::service_at, network::specs::Layout::length_fits, network::specs::Layout::sections_follow, network::specs::Layout::ends_fit, network::specs::Layout::counted))]

ghost use Rattle.std.specs.Prelude.{ℕ, ◌≡◌, ◌&&◌, ◌||◌, ◌+◌, ◌<◌, ltb};
ghost use Rattle.basics.specs.Choice.{pick};
ghost use Rattle.network_layout.specs.Loops.{clip, LowestBy};
ghost use Rattle.network.specs.Least.{least, rule};
ghost use Rattle.network.specs.Layout.{trailer, start, count, path_count, type_count, expression_count, behaviour_count, operation_count, service_count, data_size};
ghost use Rattle.network.specs.Layout.{path_at, type_at, expression_at, behaviour_at, operation_at, service_at};
ghost use Rattle.network.specs.Layout.{D, length_fits, sections_follow, ends_fit, laid_out, counted};

pub fn either(a: bool, b: bool) -> bool
    ensures { result ≡ (a || b) }
{
    a || b
}

pub fn both(a: bool, b: bool) -> bool
    ensures { result ≡ (a && b) }
{
    a && b
}

pub fn smaller(p: usize, q: usize) -> usize
    ensures { result ≡ pick (ltb p q) p q }
{
    p.min(q)
}

// The end of the n rows from `first` on, among the first `size`.
pub fn clipped(first: u16, n: u16, size: u16) -> u16
    ensures { result ≡ clip (first + n) size }
{
    first.saturating_add(n).min(size)
}

pub fn least(a: Option<usize>, b: Option<usize>) -> Option<usize>
    ensures { result ≡ least a b }
{
    match (a, b) {
        (Some(p), Some(q)) => Some(p.min(q)),
        (None, other) | (other, None) => other,
    }
}

pub fn rule(holds: bool, place: usize, others: Option<usize>) -> Option<usize>
    ensures { result ≡ rule holds place others }
{
    if holds {
        others
    } else {
        least(Some(place), others)
    }
}

// The lowest place that a rule gives, over the rows from `first` on before `end`.
pub fn lowest<F: Fn(u16) -> Option<usize>>(first: u16, end: u16, rule: F) -> Option<usize>
    requires { (i : ℕ) → i < end → F.pre rule i }
    ensures { LowestBy (F.post rule) first end result }
{
    let mut m = None;
    for r in first..end {
        m = least(m, rule(r));
    }
    m
}

fn trailer(s: &[u8]) -> usize
    ensures { (result ≡ trailer s.now) × (result < 18446744073709551588) }
{
    s.len().saturating_sub(28)
}

// The first byte of section k.
pub fn start(s: &[u8], k: usize) -> usize
    requires { k < 7 }
    ensures { (result ≡ start s.now k) × (result < 65536) }
{
    usize::from(wire::u16_at(s, trailer(s) + 4 * k))
}

fn count(s: &[u8], k: usize) -> u16
    requires { k < 7 }
    ensures { result ≡ count s.now k }
{
    wire::u16_at(s, trailer(s) + 4 * k + 2)
}

// How many rows each section has, for D how many bytes.
pub fn path_count(s: &[u8]) -> u16
    ensures { result ≡ path_count s.now }
{
    count(s, 0)
}

pub fn type_count(s: &[u8]) -> u16
    ensures { result ≡ type_count s.now }
{
    count(s, 1)
}

pub fn expression_count(s: &[u8]) -> u16
    ensures { result ≡ expression_count s.now }
{
    count(s, 2)
}

pub fn behaviour_count(s: &[u8]) -> u16
    ensures { result ≡ behaviour_count s.now }
{
    count(s, 3)
}

pub fn operation_count(s: &[u8]) -> u16
    ensures { result ≡ operation_count s.now }
{
    count(s, 4)
}

pub fn service_count(s: &[u8]) -> u16
    ensures { result ≡ service_count s.now }
{
    count(s, 5)
}

pub fn data_size(s: &[u8]) -> u16
    ensures { result ≡ data_size s.now }
{
    count(s, 6)
}

// The first byte of D.
pub fn data_start(s: &[u8]) -> usize
    ensures { (result ≡ start s.now D) × (result < 65536) }
{
    start(s, 6)
}

// The first byte of row r of each section.
pub fn path_at(s: &[u8], r: u16) -> usize
    ensures { (result ≡ path_at s.now r) × (result < 1000000) }
{
    start(s, 0) + 8 * usize::from(r)
}

pub fn type_at(s: &[u8], r: u16) -> usize
    ensures { (result ≡ type_at s.now r) × (result < 1000000) }
{
    start(s, 1) + 8 * usize::from(r)
}

pub fn expression_at(s: &[u8], r: u16) -> usize
    ensures { (result ≡ expression_at s.now r) × (result < 1000000) }
{
    start(s, 2) + 8 * usize::from(r)
}

pub fn behaviour_at(s: &[u8], r: u16) -> usize
    ensures { (result ≡ behaviour_at s.now r) × (result < 1000000) }
{
    start(s, 3) + 10 * usize::from(r)
}

pub fn operation_at(s: &[u8], r: u16) -> usize
    ensures { (result ≡ operation_at s.now r) × (result < 1000000) }
{
    start(s, 4) + 12 * usize::from(r)
}

pub fn service_at(s: &[u8], r: u16) -> usize
    ensures { (result ≡ service_at s.now r) × (result < 1000000) }
{
    start(s, 5) + 8 * usize::from(r)
}

fn length_fits(s: &[u8]) -> bool
    ensures { result ≡ length_fits s.now }
{
    28 <= s.len() && s.len() <= 32768
}

fn sections_follow(s: &[u8]) -> bool
    ensures { result ≡ sections_follow s.now }
{
    start(s, 1) == path_at(s, path_count(s))
        && start(s, 2) == type_at(s, type_count(s))
        && start(s, 3) == expression_at(s, expression_count(s))
        && start(s, 4) == behaviour_at(s, behaviour_count(s))
        && start(s, 5) == operation_at(s, operation_count(s))
        && start(s, 6) == service_at(s, service_count(s))
}

fn ends_fit(s: &[u8]) -> bool
    ensures { result ≡ ends_fit s.now }
{
    start(s, 0) == 0 && trailer(s) == data_start(s) + usize::from(data_size(s))
}

// Refusal 2: does the file keep to it?
pub fn laid_out(s: &[u8]) -> bool
    ensures { result ≡ laid_out s.now }
{
    length_fits(s) && ends_fit(s) && sections_follow(s)
}

// Refusal 3: does the file keep to it?
pub fn counted(s: &[u8]) -> bool
    ensures { result ≡ counted s.now }
{
    path_count(s) <= 256
        && type_count(s) <= 256
        && expression_count(s) <= 256
        && behaviour_count(s) <= 256
        && operation_count(s) <= 64
        && 1 <= service_count(s)
        && service_count(s) <= 4
}
