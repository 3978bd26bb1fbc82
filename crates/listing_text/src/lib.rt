#![tactic(auto)]
// The printed sheet (document 01).
ghost use Rattle.std.specs.Prelude.{◌≡◌, ◌+◌, ◌*◌, ◌<◌, ◌≤◌, length};
ghost use Rattle.refusal.specs.Refusal.{number_of};
ghost use Rattle.matrix.specs.Matrix.{at};
ghost use Rattle.sizes.specs.Sizes.{largest_order};
ghost use Rattle.text.specs.Pages.{HasRoom, Puts};
ghost use Rattle.listing_text.specs.Printed.{value_field, column_of, head_of, text_line_of, text_lines_of, text_line_room};
ghost use Rattle.listing_text.specs.Printed.{room_for, printable, printing, print_of, refused_word, refusal_of};

use refusal::Refusal;
use sizes::LARGEST_ORDER;
use text::Page;

// The room for the printed sheet of the largest order.
pub const LONGEST: usize = 15 + LARGEST_ORDER * (23 + 17 * LARGEST_ORDER);

// Prints what a run has given into lent bytes, and answers how many they are. Nothing is printed where the order, the numbers or the
// lengths are not those of a run, or there may be too little room.
#[tactic(auto, using(sizes::proofs::Orders::order_is), unfolding(crate::specs::Printed::print_of, crate::specs::Printed::printable))]
pub fn print(
    n: usize,
    sweeps: usize,
    ticks: usize,
    codes: &[u16],
    matrix: &[f64],
    vectors: &[f64],
    out: &mut [u8],
) -> usize
    ensures { printing result out.new
        ≡ print_of n sweeps ticks codes.now matrix.now vectors.now out.old }
{
    if !is_printable(
        n,
        sweeps,
        ticks,
        codes.len(),
        matrix.len(),
        vectors.len(),
        out.len(),
    ) {
        return 0;
    }
    let mut page = Page { bytes: out, end: 0 };
    put_head(&mut page, n, sweeps, ticks);
    put_text_lines(&mut page, n, codes, matrix, vectors);
    page.end
}

// Prints a refusal into lent bytes, and answers how many they are. Nothing is printed where there may be too little room.
#[tactic(auto, using(text::proofs::Decimals::at_most_four), unfolding(crate::specs::Printed::refusal_of))]
pub fn print_refusal(refused: Refusal, out: &mut [u8]) -> usize
    ensures { printing result out.new ≡ refusal_of (number_of refused) out.old }
{
    if out.len() < 13 {
        return 0;
    }
    let mut page = Page { bytes: out, end: 0 };
    put_word(&mut page);
    page.put_decimal(u64::from(u8::from(refused)));
    page.put(b'\n');
    page.end
}

// The bytes that are enough for the printed sheet of an order.
pub fn room_for(n: usize) -> usize
    requires { n ≤ largest_order }
    ensures { result ≡ room_for n }
{
    15 + n * (23 + 17 * n)
}

// The word refused, and a space.
fn put_word(page: &mut Page)
    requires { HasRoom page.old 8 }
    ensures { Puts page.old refused_word page.new }
{
    let end = page.end + 8;
    page.bytes[page.end..end].copy_from_slice(b"refused ");
    page.end = end;
}

// Whether these are sizes of a run, and the bytes are enough.
#[tactic(auto, using(sizes::proofs::Orders::order_is), unfolding(crate::specs::Printed::printable))]
fn is_printable(
    n: usize,
    sweeps: usize,
    ticks: usize,
    codes: usize,
    matrix: usize,
    vectors: usize,
    room: usize,
) -> bool
    ensures { result ≡ printable n sweeps ticks codes matrix vectors room }
{
    sizes::is_order(n)
        && sweeps < 10000
        && ticks < 10000
        && codes == n
        && matrix::is_square(n, matrix)
        && matrix::is_square(n, vectors)
        && room >= room_for(n)
}

// The first text line.
#[tactic(auto, using(text::proofs::Decimals::at_most_four))]
fn put_head(page: &mut Page, n: usize, sweeps: usize, ticks: usize)
    requires { (n < 10000) × (sweeps < 10000) × (ticks < 10000) × HasRoom page.old 15 }
    ensures put { Puts page.old (head_of n sweeps ticks) page.new }
    ensures upper_bound { page.new.end ≤ page.old.end + 15 }
{
    page.put_decimal(n as u64);
    page.put(b' ');
    page.put_decimal(sweeps as u64);
    page.put(b' ');
    page.put_decimal(ticks as u64);
    page.put(b'\n');
}

// A text line for each code.
#[tactic(auto, using(crate::proofs::Room::text_line_fits, crate::proofs::Room::text_line_more))]
fn put_text_lines(page: &mut Page, n: usize, codes: &[u16], matrix: &[f64], vectors: &[f64])
    requires { (length codes.now ≡ n) × (length matrix.now ≡ n * n) × (length vectors.now ≡ n * n)
        × HasRoom page.old (n * text_line_room n) }
    ensures { Puts page.old
        (text_lines_of n codes.now (at n matrix.now) (at n vectors.now) n) page.new }
{
    for (k, code) in codes.iter().enumerate() {
        put_text_line(page, n, k + 1, *code, matrix, vectors);
    }
}

// The text line of line k: its code, its diagonal entry, and that column of the eigenvectors from the top.
#[tactic(auto, using(text::proofs::Decimals::at_most_five))]
fn put_text_line(page: &mut Page, n: usize, k: usize, code: u16, matrix: &[f64], vectors: &[f64])
    requires { (1 ≤ k) × (k ≤ n) × (length matrix.now ≡ n * n) × (length vectors.now ≡ n * n)
        × HasRoom page.old (text_line_room n) }
    ensures put { Puts page.old
        (text_line_of n code (at n matrix.now) (at n vectors.now) k) page.new }
    ensures upper_bound { page.new.end ≤ page.old.end + text_line_room n }
{
    page.put_decimal(code as u64);
    put_field(page, matrix::entry(n, k, k, matrix));
    put_column(page, n, k, vectors);
    page.put(b'\n');
}

// The bits of the values in column c, from the top.
fn put_column(page: &mut Page, n: usize, c: usize, vectors: &[f64])
    requires { (1 ≤ c) × (c ≤ n) × (length vectors.now ≡ n * n) × HasRoom page.old (17 * n) }
    ensures put { Puts page.old (column_of (at n vectors.now) c n) page.new }
    ensures value { page.new.end ≡ page.old.end + 17 * n }
{
    for r in 1..=n {
        put_field(page, matrix::entry(n, r, c, vectors));
    }
}

// A space and the bits of a value.
fn put_field(page: &mut Page, x: f64)
    requires { HasRoom page.old 17 }
    ensures put { Puts page.old (value_field x) page.new }
    ensures value { page.new.end ≡ page.old.end + 17 }
{
    page.put(b' ');
    page.put_hex(float64::to_bits(x));
}
