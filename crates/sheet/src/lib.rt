#![tactic(auto)]
// The form of a sheet, its length, and its line codes (document 01, "A sheet"; document 02 (i)).
ghost use Rattle.std.specs.Prelude.{◌≡◌, ◌+◌, ◌≤◌, get_or};
ghost use Rattle.sizes.specs.Sizes.{largest_order};
ghost use Rattle.sheet.specs.Format.{sheet_length, first_byte, width_in, order_in};
ghost use Rattle.sheet.specs.Codes.{bad_codes, long_codes, width_for};

use sizes::LARGEST_ORDER;

// The length of the longest sheet.
pub const LONGEST: usize = 2 + 2 * LARGEST_ORDER + 4 * LARGEST_ORDER * (LARGEST_ORDER + 1);

// What the long form, that of codes of two bytes, adds to the first byte.
const LONG_FORM: u8 = 128;

// How many bytes a sheet of order n has whose codes have `width` bytes.
#[tactic(auto, using(crate::proofs::Triangle::small_lengths))]
pub fn length_of(width: usize, n: usize) -> usize
    requires { (width ≤ 2) × (n ≤ largest_order) }
    ensures { result ≡ sheet_length width n }
{
    2 + width * n + 4 * n * (n + 1)
}

// The bytes of each code in a sheet, by its first byte.
// Stays a number and no enum of two forms: the length of a sheet and the place of a code, `length_of` and `code_at`, are counted with it.
#[tactic(auto, unfolding(crate::specs::Format::width_in))]
pub fn width_in(sheet: &[u8]) -> usize
    ensures { result ≡ width_in sheet.now }
{
    if first_of(sheet) < LONG_FORM { 1 } else { 2 }
}

// The order in a sheet, and 0 where there is no first byte.
// Stays 0 and no Option: the clause is the definition `order_in`, which reads a byte that there is not as 0.
#[tactic(auto, unfolding(crate::specs::Format::order_in))]
pub fn order_in(sheet: &[u8]) -> usize
    ensures { result ≡ order_in sheet.now }
{
    let first = first_of(sheet);
    if first < LONG_FORM {
        first as usize
    } else {
        (first - LONG_FORM) as usize
    }
}

// The first byte of a sheet, and 0 where there is none.
fn first_of(sheet: &[u8]) -> u8
    ensures { result ≡ get_or sheet.now 0 0 }
{
    sheet.first().copied().unwrap_or(0)
}

// The first byte of a sheet of order n whose codes have `width` bytes.
#[tactic(auto, unfolding(crate::specs::Format::first_byte))]
pub fn first_byte(width: usize, n: usize) -> u8
    requires { n ≤ largest_order }
    ensures { result ≡ first_byte width n }
{
    if width == 2 {
        n as u8 + LONG_FORM
    } else {
        n as u8
    }
}

// The bytes of each code in the sheet of these codes.
#[tactic(auto, unfolding(crate::specs::Codes::width_for))]
pub fn width_for(codes: &[u16]) -> usize
    ensures { result ≡ width_for codes.now }
{
    if has_long_code(codes) { 2 } else { 1 }
}

// Whether one of the codes does not fit a byte.
pub fn has_long_code(codes: &[u16]) -> bool
    ensures { result ≡ long_codes codes.now }
{
    codes.iter().any(|&code| code > 255)
}

// Whether one of the codes is zero, or used before.
pub fn has_bad_code(codes: &[u16]) -> bool
    ensures { result ≡ bad_codes codes.now }
{
    codes
        .iter()
        .enumerate()
        .any(|(k, &code)| code == 0 || codes[..k].contains(&code))
}
