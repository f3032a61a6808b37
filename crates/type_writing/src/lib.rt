// Writing the T rows of a text of types.
#![tactic(auto)]

ghost use Rattle.std.specs.Prelude.{◌≡◌, ◌*◌, ◌≤◌, ◌<◌, length};
ghost use Rattle.type_reading.specs.Tables.{held, Named};
ghost use Rattle.type_writing.specs.Answer.{is_used_byte, text_offence, write_types};
ghost use Rattle.type_writing.specs.Passes.{ImageWrote, TypeWrote, RestWritten, TextWritten, RowsTold};
ghost use Rattle.type_writing.specs.Sums.{table_rows, LargeTold};

use refusal::{Outcome, Refusal};
use type_images::TypeImage;

// Does the grammar use the byte?
#[tactic(auto, unfolding(crate::specs::Answer::is_used_byte))]
fn is_used(b: u8) -> bool
    ensures { result ≡ is_used_byte b }
{
    type_words::in_word(b)
        || type_words::is_blank(b)
        || matches!(b, b':' | b'{' | b'}' | b'.' | b'?' | b'[' | b',' | b']')
}

// The refusal of a text whose first offending byte is at p.
#[tactic(auto, unfolding(crate::specs::Answer::text_offence))]
fn offence(text: &[u8], p: usize) -> Refusal
    ensures { result ≡ text_offence text.now p }
{
    if text.len() <= p {
        return Refusal::BrokenText(p);
    }
    if is_used(text[p]) {
        return Refusal::BrokenText(p);
    }
    Refusal::UnknownByte(p)
}

// The rows of the first n entries of the table, held at 257.
fn count_rows(table: &[u8], n: usize) -> usize
    requires { 6 * n ≤ length table.now }
    ensures { result ≡ held 257 (table_rows table.now 0 n) }
{
    let mut rows: usize = 0;
    for i in 0..n {
        rows += 1 + usize::from(wire::u16_at(table, 6 * i + 2));
        if 256 < rows {
            return 257;
        }
    }
    rows
}

// The first of the n entries of the table that is too large.
fn first_large(table: &[u8], n: usize) -> Option<usize>
    requires { (6 * n ≤ length table.now) × (table_rows table.now 0 n ≤ 256) }
    ensures { LargeTold table.now n result }
{
    let mut row: usize = 0;
    for i in 0..n {
        let nodes = usize::from(wire::u16_at(table, 6 * i + 2));
        if 15 < nodes {
            return Some(row);
        }
        if 3 < wire::u16_at(table, 6 * i + 4) {
            return Some(row);
        }
        row += 1 + nodes;
    }
    None
}

// Writes the type whose image s is: its rows from `row` on, the image beside those of the types before. Gives the row past them.
fn write_image(s: &[u8], images: &mut [u8], out: &mut [u8], row: u16) -> u16
    ensures { ImageWrote s.now row images.old images.new out.old out.new result }
{
    let first = usize::from(row);
    if 112 < s.len() {
        return row;
    }
    if out.len() < 8 * first {
        return row;
    }
    if images.len() < 7 * first + s.len() {
        return row;
    }
    let end = type_lines::emit_tree(s, out, row);
    if 2048 < end {
        return row;
    }
    tree_edit::append(images, 7 * first, s, 0, s.len());
    (end / 8) as u16
}

// The same of the type that e holds.
fn write_type(e: TypeImage, images: &mut [u8], out: &mut [u8], row: u16) -> u16
    ensures { TypeWrote e row images.old images.new out.old out.new result }
{
    if 112 < e.len {
        return row;
    }
    write_image(&e.bytes[..e.len], images, out, row)
}

// Writes the rows of the declarations from `at` on. The table has all `total` types, of the first n with their first rows; `names` has the m
// child names in the order of their ids, `images` the first n types.
fn write_rest(
    text: &[u8],
    at: usize,
    table: &mut [u8],
    n: usize,
    total: usize,
    names: &[u8],
    m: usize,
    images: &mut [u8],
    out: &mut [u8],
    row: u16,
)
    requires { (at ≤ length text.now) × (n ≤ total) × Named text.now table.old total × (m < 65535) }
    ensures { RestWritten text.now at table.old n total names.now m images.old out.old out.new row }
{
    if n == total {
        return;
    }
    let Ok(Some((_, a))) = type_reading::start_at(text, at, table, n) else {
        return;
    };
    let made = type_trees::build_tree(text, a, table, n, names, m, images);
    let end = write_type(made.image, images, out, row);
    wire::put_u16(table, 6 * n + 4, row);
    write_rest(
        text,
        made.at,
        table,
        n + 1,
        total,
        names,
        m,
        images,
        out,
        end,
    )
}

// Writes the rows of a text that was read; the table has its n types.
fn write_rows(text: &[u8], table: &mut [u8], n: usize, out: &mut [u8])
    requires { (length text.now ≤ 8192) × Named text.now table.old n }
    ensures { TextWritten text.now table.old n out.old out.new }
{
    let mut names = [0u8; 8192];
    let mut images = [0u8; 1792];
    let m = type_trees::gather(text, &mut names);
    if 65534 < m {
        return;
    }
    write_rest(text, 0, table, 0, n, &names, m, &mut images, out, 0)
}

// The answer to a text that was read; the table has its n types.
fn answer_rows(text: &[u8], table: &mut [u8], n: usize, out: &mut [u8]) -> Outcome
    requires { (length text.now ≤ 8192) × Named text.now table.old n }
    ensures { RowsTold text.now table.old n out.old out.new result }
{
    if out.len() < 2048 {
        return refusal::refused(Refusal::BufferSize);
    }
    let rows = count_rows(table, n);
    if 256 < rows {
        return refusal::refused(Refusal::SectionCount);
    }
    match first_large(table, n) {
        Some(r) => refusal::refused(Refusal::TooLarge(8 * r)),
        None => {
            write_rows(text, table, n, out);
            refusal::done(8 * rows)
        }
    }
}

// Reads a text of type declarations and writes its T rows.
pub fn write_types(text: &[u8], out: &mut [u8]) -> Outcome
    ensures value { result ≡ (write_types text.now out.old).outcome }
    ensures out_after { out.new ≡ (write_types text.now out.old).out }
{
    if 8192 < text.len() {
        return refusal::refused(Refusal::FileLayout);
    }
    let mut table = [0u8; 16384];
    let mut stack = [0u8; 8192];
    match type_reading::read_rest(text, 0, &mut table, 0, &mut stack) {
        Err(p) => refusal::refused(offence(text, p)),
        Ok(n) => answer_rows(text, &mut table, n, out),
    }
}
