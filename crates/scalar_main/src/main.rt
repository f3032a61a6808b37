// Runs the operators on vectors and prints a line for each: the operator, its operands and what it gives. Numbers are printed
// as their patterns in hexadecimal, strings and raws as their bytes.
#![tactic(auto)]

use scalar::{BOOL, DOUBLE, Failure, INT, LONG, Operand, RAW, STRING, Scalar, VOID};
use std::io;
use std::io::Write;

fn say<W: Write>(out: &mut W, text: &[u8]) -> io::Result<()> {
    out.write_all(text)
}

// A number in hexadecimal, with zeros in front up to so many digits.
fn show_number<W: Write>(out: &mut W, name: &[u8], bytes: &[u8], digits: usize) -> io::Result<()> {
    say(out, name)?;
    let number = wire::u64_at(bytes, 0);
    match digits {
        2 => write!(out, "{number:02x}"),
        8 => write!(out, "{number:08x}"),
        _ => write!(out, "{number:016x}"),
    }
}

fn show_bytes<W: Write>(out: &mut W, name: &[u8], bytes: &[u8]) -> io::Result<()> {
    say(out, name)?;
    for byte in bytes {
        write!(out, "{byte:02x}")?;
    }
    Ok(())
}

fn show<W: Write>(out: &mut W, x: Operand) -> io::Result<()> {
    let mut buf = [0u8; 16];
    let n = scalar::write(&mut buf, 0, x);
    match x.scalar {
        Scalar::Bool(_) => show_number(out, b" bool ", &buf, 2),
        Scalar::Int(_) => show_number(out, b" int ", &buf, 8),
        Scalar::Double(_) => show_number(out, b" double ", &buf, 16),
        Scalar::Long(_) => show_number(out, b" long ", &buf, 16),
        Scalar::String => show_bytes(out, b" string ", &buf[..n]),
        Scalar::Raw => show_bytes(out, b" raw ", &buf[..n]),
        Scalar::Void => say(out, b" void"),
    }
}

fn show_result<W: Write>(out: &mut W, r: Result<Scalar, Failure>) -> io::Result<()> {
    say(out, b" =")?;
    match r {
        Ok(x) => show(out, scalar::plain(x))?,
        Err(Failure::Wrong) => say(out, b" wrong")?,
        Err(Failure::Outside(_)) => say(out, b" outside")?,
    }
    say(out, b"\n")
}

fn one<W: Write>(
    out: &mut W,
    name: &[u8],
    a: Operand,
    r: Result<Scalar, Failure>,
) -> io::Result<()> {
    say(out, name)?;
    show(out, a)?;
    show_result(out, r)
}

fn two<W: Write>(
    out: &mut W,
    name: &[u8],
    a: Operand,
    b: Operand,
    r: Result<Scalar, Failure>,
) -> io::Result<()> {
    say(out, name)?;
    show(out, a)?;
    show(out, b)?;
    show_result(out, r)
}

// Every operator of two operands.
fn both<W: Write>(out: &mut W, a: Operand, b: Operand) -> io::Result<()> {
    two(out, b"add", a, b, scalar::add(a, b))?;
    two(out, b"subtract", a, b, scalar::subtract(a, b))?;
    two(out, b"less", a, b, scalar::less(a, b))?;
    two(out, b"equal", a, b, scalar::equal(a, b))?;
    two(out, b"and", a, b, scalar::logical_and(a, b))
}

// Every operator of one operand.
fn single<W: Write>(out: &mut W, a: Operand) -> io::Result<()> {
    one(out, b"not", a, scalar::logical_not(a))?;
    one(out, b"negate", a, scalar::negate(a))
}

fn length_of(basic: u8) -> usize {
    match basic {
        BOOL => 1,
        INT => 4,
        DOUBLE | LONG => 8,
        _ => 0,
    }
}

// The value of a basic type whose bytes are those of a number; void where they are none.
fn number(basic: u8, bits: u64) -> Operand {
    let mut buf = [0u8; 8];
    wire::put_u64(&mut buf, 0, bits);
    let n = length_of(basic);
    value(basic, &buf, n)
}

// The value of a basic type with the first `n` bytes; void where they are none.
fn value(basic: u8, bytes: &[u8], n: usize) -> Operand {
    if bytes.len() < n {
        return scalar::plain(Scalar::Void);
    }
    if scalar::value_ok(bytes, 0, basic, n) {
        return scalar::read(bytes, 0, basic, n);
    }
    scalar::plain(Scalar::Void)
}

fn string(bytes: &[u8]) -> Operand {
    value(STRING, bytes, bytes.len())
}

fn raw(bytes: &[u8]) -> Operand {
    value(RAW, bytes, bytes.len())
}

// Two numbers of a basic type: add, subtract, less and equal, and negate of the first.
fn numbers<W: Write>(out: &mut W, basic: u8, a: u64, b: u64) -> io::Result<()> {
    let x = number(basic, a);
    let y = number(basic, b);
    two(out, b"add", x, y, scalar::add(x, y))?;
    two(out, b"subtract", x, y, scalar::subtract(x, y))?;
    two(out, b"less", x, y, scalar::less(x, y))?;
    two(out, b"equal", x, y, scalar::equal(x, y))?;
    one(out, b"negate", x, scalar::negate(x))
}

fn all_numbers<W: Write>(out: &mut W, basic: u8, pairs: &[(u64, u64)]) -> io::Result<()> {
    for (a, b) in pairs {
        numbers(out, basic, *a, *b)?;
    }
    Ok(())
}

fn bools<W: Write>(out: &mut W, a: u64, b: u64) -> io::Result<()> {
    let x = number(BOOL, a);
    let y = number(BOOL, b);
    two(out, b"and", x, y, scalar::logical_and(x, y))?;
    two(out, b"equal", x, y, scalar::equal(x, y))?;
    one(out, b"not", x, scalar::logical_not(x))
}

// The ends of the range, zero, and the ones next to them.
fn ints<W: Write>(out: &mut W) -> io::Result<()> {
    all_numbers(
        out,
        INT,
        &[
            (0x7FFFFFFF, 1),
            (0x80000000, 0xFFFFFFFF),
            (0x80000000, 0x80000000),
            (0x7FFFFFFF, 0x80000000),
            (0, 0x80000000),
            (0xFFFFFFFF, 1),
            (12, 0xFFFFFFEC),
        ],
    )
}

fn longs<W: Write>(out: &mut W) -> io::Result<()> {
    all_numbers(
        out,
        LONG,
        &[
            (0x7FFFFFFFFFFFFFFF, 1),
            (0x8000000000000000, 0xFFFFFFFFFFFFFFFF),
            (0x8000000000000000, 0x8000000000000000),
            (0x7FFFFFFFFFFFFFFF, 0x8000000000000000),
            (0, 0x8000000000000000),
            (0xFFFFFFFFFFFFFFFF, 1),
            (0x7FFFFFFF, 1),
        ],
    )
}

// Signed zeros, infinities and NaN.
fn special_doubles<W: Write>(out: &mut W) -> io::Result<()> {
    all_numbers(
        out,
        DOUBLE,
        &[
            (0x0000000000000000, 0x8000000000000000),
            (0x8000000000000000, 0x8000000000000000),
            (0x8000000000000000, 0x0000000000000000),
            (0x7FF0000000000000, 0x7FF0000000000000),
            (0x7FF0000000000000, 0xFFF0000000000000),
            (0x7FF8000000000000, 0x3FF0000000000000),
            (0x3FF0000000000000, 0x7FF8000000000000),
        ],
    )
}

// Sums that lie halfway between two doubles go to the even one.
fn halfway_doubles<W: Write>(out: &mut W) -> io::Result<()> {
    all_numbers(
        out,
        DOUBLE,
        &[
            (0x3FB999999999999A, 0x3FC999999999999A),
            (0x3FF0000000000000, 0x3CA0000000000000),
            (0x3FF0000000000001, 0x3CA0000000000000),
            (0x3FF0000000000000, 0x3CA0000000000001),
            (0x3FF0000000000000, 0x3C90000000000000),
            (0x4340000000000000, 0x3FF0000000000000),
            (0x4340000000000001, 0x3FF0000000000000),
        ],
    )
}

// The largest doubles, and subnormal ones.
fn outer_doubles<W: Write>(out: &mut W) -> io::Result<()> {
    all_numbers(
        out,
        DOUBLE,
        &[
            (0x7FEFFFFFFFFFFFFF, 0x7FEFFFFFFFFFFFFF),
            (0x7FEFFFFFFFFFFFFF, 0x7C90000000000000),
            (0x7FEFFFFFFFFFFFFF, 0x7C8FFFFFFFFFFFFF),
            (0x0000000000000001, 0x0000000000000001),
            (0x0010000000000000, 0x0000000000000001),
            (0x000FFFFFFFFFFFFF, 0x0000000000000001),
            (0xFFEFFFFFFFFFFFFF, 0x7FEFFFFFFFFFFFFF),
        ],
    )
}

fn all_bools<W: Write>(out: &mut W) -> io::Result<()> {
    for (a, b) in [(0, 0), (0, 1), (1, 0), (1, 1)] {
        bools(out, a, b)?;
    }
    Ok(())
}

fn compared<W: Write>(out: &mut W, a: Operand, b: Operand) -> io::Result<()> {
    two(out, b"equal", a, b, scalar::equal(a, b))
}

fn strings<W: Write>(out: &mut W) -> io::Result<()> {
    let pairs: [(&[u8], &[u8]); 8] = [
        (b"hoist", b"hoist"),
        (b"hoist", b"hoisT"),
        (b"hoist", b"hois"),
        (b"hois", b"hoist"),
        (b"", b""),
        (b"", b"h"),
        (b"sixteen bytes ok", b"sixteen bytes ok"),
        (b"sixteen bytes ok", b"sixteen bytes oK"),
    ];
    for (a, b) in pairs {
        compared(out, string(a), string(b))?;
    }
    Ok(())
}

fn raws<W: Write>(out: &mut W) -> io::Result<()> {
    let pairs: [(&[u8], &[u8]); 4] = [
        (b"load", b"load"),
        (b"load", b"lord"),
        (b"0", b""),
        (b"0123456789abcdef", b"0123456789abcdef"),
    ];
    for (a, b) in pairs {
        compared(out, raw(a), raw(b))?;
    }
    Ok(())
}

// Operands of different kinds, or of a kind that an operator does not take, are wrong.
fn unlike<W: Write>(out: &mut W) -> io::Result<()> {
    both(out, number(INT, 1), number(LONG, 1))?;
    both(out, number(LONG, 1), number(DOUBLE, 0))?;
    both(out, number(BOOL, 1), number(INT, 1))?;
    both(out, string(b"a"), raw(b"a"))?;
    both(out, string(b"a"), string(b"a"))?;
    both(out, number(VOID, 0), number(VOID, 0))?;
    both(out, number(INT, 0), number(VOID, 0))
}

fn single_operands<W: Write>(out: &mut W) -> io::Result<()> {
    single(out, number(BOOL, 1))?;
    single(out, number(INT, 5))?;
    single(out, number(DOUBLE, 0))?;
    single(out, number(LONG, 5))?;
    single(out, string(b"a"))?;
    single(out, raw(b"a"))?;
    single(out, number(VOID, 0))
}

// Bytes that are no value: 17 bytes of a string, a second NaN, a bool of 2. They are taken for void.
fn no_values<W: Write>(out: &mut W) -> io::Result<()> {
    single(out, string(b"seventeen bytes !"))?;
    single(out, number(DOUBLE, 0x7FF8000000000001))?;
    single(out, number(DOUBLE, 0xFFF8000000000000))?;
    single(out, number(BOOL, 2))
}

fn main(rt: HostRuntime) -> io::Result<()> {
    let mut out = rt.stdout();
    ints(&mut out)?;
    longs(&mut out)?;
    special_doubles(&mut out)?;
    halfway_doubles(&mut out)?;
    outer_doubles(&mut out)?;
    all_bools(&mut out)?;
    strings(&mut out)?;
    raws(&mut out)?;
    unlike(&mut out)?;
    single_operands(&mut out)?;
    no_values(&mut out)
}
