// Scalars: values of the basic types, and the operators on them.
#![tactic(auto)]

ghost use Rattle.std.specs.Prelude.{◌≡◌, true, [], ◌+◌, ◌≤◌, length, take, drop, replicate};
ghost use Rattle.std.specs.Float.{binary64};
ghost use Rattle.std.specs.Float.Ieee.{of_bits, to_bits, nan_bits, lt, eq};
ghost use Rattle.scalar.specs.Basic.{string};
ghost use Rattle.scalar.specs.Value.{value, bytes_of, is_value, word_of, least_bytes, SoundValue, SoundText};
ghost use Rattle.wire.specs.Wire.{part, with_part};
ghost use Rattle.scalar.specs.Operator.{not_of, negate_of, and_of, add_of, subtract_of, less_of, equal_of, equal_bytes};
ghost use Rattle.scalar.specs.Scalar.{value_of, value_beside, answer_of, int_answer, long_answer, beside, truth_of};

// The numbers of the basic types.
pub const BOOL: u8 = 0;

pub const INT: u8 = 1;

pub const DOUBLE: u8 = 2;

pub const LONG: u8 = 3;

pub const STRING: u8 = 4;

pub const RAW: u8 = 5;

pub const VOID: u8 = 6;

// The largest number of a basic type.
pub const LAST_BASIC: u8 = VOID;

// A value of a basic type. The bytes of a string or a raw stand beside it.
#[derive(Clone, Copy)]
pub enum Scalar {
    Bool(bool),
    Int(i32),
    Double(f64),
    Long(i64),
    String,
    Raw,
    Void,
}

// A scalar and the bytes beside it: the first `len`.
#[derive(Clone, Copy)]
pub struct Operand {
    pub scalar: Scalar,
    pub bytes: [u8; 16],
    pub len: usize,
}

// Why an operator gives nothing: its operands are of the wrong kind; or its result is outside its width, with a scalar of the result's kind.
#[derive(Clone, Copy)]
pub enum Failure {
    Wrong,
    Outside(Scalar),
}

// Are the `len` bytes at `at` a string's: at most 16, well-formed UTF-8?
fn is_string(s: &[u8], at: usize, len: usize) -> bool
    requires { at + len ≤ length s.now }
    ensures { result ≡ is_value string (take len (drop at s.now)) }
{
    len <= 16 && utf8::is_utf8(&s[at..at + len])
}

// Are the `len` bytes at `at` a value of the basic type?
pub fn value_ok(s: &[u8], at: usize, basic: u8, len: usize) -> bool
    requires { at + len ≤ length s.now }
    ensures { result ≡ is_value basic (take len (drop at s.now)) }
{
    match basic {
        BOOL => len == 1 && wire::byte_at(s, at) <= 1,
        INT => len == 4,
        DOUBLE => {
            if len != 8 {
                return false;
            }
            let n = wire::u64_at(s, at);
            n % 0x8000000000000000 <= 0x7FF0000000000000 || n == 0x7FF8000000000000
        }
        LONG => len == 8,
        STRING => is_string(s, at, len),
        RAW => len <= 16,
        VOID => len == 0,
        _ => false,
    }
}

// Is the pattern a NaN's?
fn is_nan(n: u64) -> bool
    ensures { result ≡ nan_bits binary64 n }
{
    n % 0x8000000000000000 / 0x10000000000000 == 2047 && n % 0x10000000000000 != 0
}

// The double of a pattern; every NaN's pattern gives the one NaN.
pub fn double_of(n: u64) -> f64
    ensures { result ≡ of_bits binary64 n }
{
    if is_nan(n) {
        0.0 / 0.0
    } else {
        f64::from_bits(n)
    }
}

// The pattern of a double; a NaN has the one.
pub fn double_bits(x: f64) -> u64
    ensures { result ≡ to_bits binary64 x }
{
    if x != x {
        0x7FF8000000000000
    } else {
        f64::to_bits(x)
    }
}

// False where one is a NaN.
fn double_less(p: f64, q: f64) -> bool
    ensures { result ≡ lt p q }
{
    p < q
}

// IEEE equality: false where one is a NaN, and 0.0 equals -0.0.
fn double_equal(p: f64, q: f64) -> bool
    ensures { result ≡ eq p q }
{
    p == q
}

// Are the bytes of two slices the same?
pub fn same_bytes(s: &[u8], t: &[u8]) -> bool
    ensures { result ≡ equal_bytes s.now t.now }
{
    s == t
}

pub fn logical_not(a: Operand) -> Result<Scalar, Failure>
    ensures { answer_of result ≡ not_of (value_of a) }
{
    match a.scalar {
        Scalar::Bool(p) => Ok(Scalar::Bool(!p)),
        _ => Err(Failure::Wrong),
    }
}

fn int_computed(s: Option<i32>) -> Result<Scalar, Failure>
    ensures { answer_of result ≡ int_answer s }
{
    match s {
        Some(z) => Ok(Scalar::Int(z)),
        None => Err(Failure::Outside(Scalar::Int(0))),
    }
}

fn long_computed(s: Option<i64>) -> Result<Scalar, Failure>
    ensures { answer_of result ≡ long_answer s }
{
    match s {
        Some(z) => Ok(Scalar::Long(z)),
        None => Err(Failure::Outside(Scalar::Long(0))),
    }
}

pub fn negate(a: Operand) -> Result<Scalar, Failure>
    ensures { answer_of result ≡ negate_of (value_of a) }
{
    match a.scalar {
        Scalar::Int(p) => int_computed(integer::int_negate(p)),
        Scalar::Long(p) => long_computed(integer::long_negate(p)),
        Scalar::Double(p) => Ok(Scalar::Double(-p)),
        _ => Err(Failure::Wrong),
    }
}

pub fn logical_and(a: Operand, b: Operand) -> Result<Scalar, Failure>
    ensures { answer_of result ≡ and_of (value_of a) (value_of b) }
{
    match (a.scalar, b.scalar) {
        (Scalar::Bool(p), Scalar::Bool(q)) => Ok(Scalar::Bool(p && q)),
        _ => Err(Failure::Wrong),
    }
}

pub fn add(a: Operand, b: Operand) -> Result<Scalar, Failure>
    ensures { answer_of result ≡ add_of (value_of a) (value_of b) }
{
    match (a.scalar, b.scalar) {
        (Scalar::Int(p), Scalar::Int(q)) => int_computed(integer::int_add(p, q)),
        (Scalar::Long(p), Scalar::Long(q)) => long_computed(integer::long_add(p, q)),
        (Scalar::Double(p), Scalar::Double(q)) => Ok(Scalar::Double(p + q)),
        _ => Err(Failure::Wrong),
    }
}

pub fn subtract(a: Operand, b: Operand) -> Result<Scalar, Failure>
    ensures { answer_of result ≡ subtract_of (value_of a) (value_of b) }
{
    match (a.scalar, b.scalar) {
        (Scalar::Int(p), Scalar::Int(q)) => int_computed(integer::int_subtract(p, q)),
        (Scalar::Long(p), Scalar::Long(q)) => long_computed(integer::long_subtract(p, q)),
        (Scalar::Double(p), Scalar::Double(q)) => Ok(Scalar::Double(p - q)),
        _ => Err(Failure::Wrong),
    }
}

pub fn less(a: Operand, b: Operand) -> Result<Scalar, Failure>
    ensures { answer_of result ≡ less_of (value_of a) (value_of b) }
{
    match (a.scalar, b.scalar) {
        (Scalar::Int(p), Scalar::Int(q)) => Ok(Scalar::Bool(p < q)),
        (Scalar::Long(p), Scalar::Long(q)) => Ok(Scalar::Bool(p < q)),
        (Scalar::Double(p), Scalar::Double(q)) => Ok(Scalar::Bool(double_less(p, q))),
        _ => Err(Failure::Wrong),
    }
}

// Are the bytes beside two operands the same?
fn same_beside(a: Operand, b: Operand) -> bool
    ensures { result ≡ equal_bytes (beside a) (beside b) }
{
    same_bytes(&a.bytes[..a.len.min(16)], &b.bytes[..b.len.min(16)])
}

pub fn equal(a: Operand, b: Operand) -> Result<Scalar, Failure>
    ensures { answer_of result ≡ equal_of (value_of a) (value_of b) }
{
    match (a.scalar, b.scalar) {
        (Scalar::Bool(p), Scalar::Bool(q)) => Ok(Scalar::Bool(p == q)),
        (Scalar::Int(p), Scalar::Int(q)) => Ok(Scalar::Bool(p == q)),
        (Scalar::Long(p), Scalar::Long(q)) => Ok(Scalar::Bool(p == q)),
        (Scalar::Double(p), Scalar::Double(q)) => Ok(Scalar::Bool(double_equal(p, q))),
        (Scalar::String, Scalar::String) => Ok(Scalar::Bool(same_beside(a, b))),
        (Scalar::Raw, Scalar::Raw) => Ok(Scalar::Bool(same_beside(a, b))),
        _ => Err(Failure::Wrong),
    }
}

// A scalar with no bytes beside it.
pub fn plain(x: Scalar) -> Operand
    ensures { value_of result ≡ value_beside x [] }
{
    Operand {
        scalar: x,
        bytes: [0; 16],
        len: 0,
    }
}

// A scalar with the `len` bytes at `at` beside it.
fn with_bytes(x: Scalar, s: &[u8], at: usize, len: usize) -> Operand
    requires { (at + len ≤ length s.now) × (len ≤ 16) }
    ensures { value_of result ≡ value_beside x (part s.now at len) }
{
    let mut bytes = [0; 16];
    bytes[..len].copy_from_slice(&s[at..at + len]);
    Operand {
        scalar: x,
        bytes,
        len,
    }
}

// Reads the value of `len` bytes at `at`.
pub fn read(s: &[u8], at: usize, basic: u8, len: usize) -> Operand
    requires { (at + len ≤ length s.now) × (is_value basic (part s.now at len) ≡ true) }
    ensures { value_of result ≡ value basic (part s.now at len) }
{
    match basic {
        BOOL => plain(Scalar::Bool(wire::byte_at(s, at) == 1)),
        INT => plain(Scalar::Int(integer::int_of(wire::u32_at(s, at)))),
        DOUBLE => plain(Scalar::Double(double_of(wire::u64_at(s, at)))),
        LONG => plain(Scalar::Long(integer::long_of(wire::u64_at(s, at)))),
        STRING => with_bytes(Scalar::String, s, at, len),
        RAW => with_bytes(Scalar::Raw, s, at, len),
        _ => plain(Scalar::Void),
    }
}

// Copies the bytes beside an operand to `at`, and says how many there are.
fn write_beside(out: &mut [u8], at: usize, x: Operand) -> usize
    requires { at + length (beside x) ≤ length out.old }
    ensures { (result ≡ length (beside x)) × (out.new ≡ with_part out.old at (beside x)) }
{
    let n = x.len.min(16);
    out[at..at + n].copy_from_slice(&x.bytes[..n]);
    n
}

// Writes the bytes of an operand's value to `at`, and says how many there are.
pub fn write(out: &mut [u8], at: usize, x: Operand) -> usize
    requires { at + length (bytes_of (value_of x)) ≤ length out.old }
    ensures { (result ≡ length (bytes_of (value_of x))) × (out.new ≡ with_part out.old at (bytes_of (value_of x))) }
{
    match x.scalar {
        Scalar::Bool(p) => {
            wire::put_u8(out, at, u8::from(p));
            1
        }
        Scalar::Int(p) => {
            wire::put_u32(out, at, integer::int_bits(p));
            4
        }
        Scalar::Double(p) => {
            wire::put_u64(out, at, double_bits(p));
            8
        }
        Scalar::Long(p) => {
            wire::put_u64(out, at, integer::long_bits(p));
            8
        }
        Scalar::String => write_beside(out, at, x),
        Scalar::Raw => write_beside(out, at, x),
        Scalar::Void => 0,
    }
}

// What a value says as a condition; none where it is no bool.
pub fn truth_of(v: Operand) -> Option<bool>
    ensures { result ≡ truth_of (value_of v) }
{
    match v.scalar {
        Scalar::Bool(p) => Some(p),
        _ => None,
    }
}

// The basic type of a value; the bytes beside a string are to be its text.
pub fn basic_of(v: Operand) -> u8
    requires { SoundText (value_of v) }
    ensures { SoundValue result (value_of v) }
{
    match v.scalar {
        Scalar::Bool(_) => BOOL,
        Scalar::Int(_) => INT,
        Scalar::Double(_x) => DOUBLE,
        Scalar::Long(_) => LONG,
        Scalar::String => STRING,
        Scalar::Raw => RAW,
        Scalar::Void => VOID,
    }
}

// How many bytes, all of them 0, the least value of a basic type has.
pub fn least_size(basic: u8) -> usize
    ensures { (least_bytes basic ≡ replicate result 0) × (result ≤ 8) }
{
    match basic {
        BOOL => 1,
        INT => 4,
        DOUBLE => 8,
        LONG => 8,
        _ => 0,
    }
}

// The word of a basic type; empty for a number past the last one.
pub fn word_of(basic: u8) -> &'static [u8]
    ensures { (result.now ≡ word_of basic) × (length result.now ≤ 6) }
{
    match basic {
        BOOL => b"bool",
        INT => b"int",
        DOUBLE => b"double",
        LONG => b"long",
        STRING => b"string",
        RAW => b"raw",
        VOID => b"void",
        _ => b"",
    }
}
