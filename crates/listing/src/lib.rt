#![tactic(auto)]
// The listing of a sheet: read, run by the array and printed (document 01, "The printed sheet").
ghost use Rattle.std.specs.Prelude.{◌≡◌, true, ◌*◌, length};
ghost use Rattle.sizes.specs.Sizes.{is_order};
ghost use Rattle.sheet.specs.Format.{order_in};
ghost use Rattle.listing.specs.Listing.{listing_answered, list_of};

use refusal::Refusal;
use sheet_reader::Sizes;
use sizes::{LARGEST_ORDER, MOST_ENTRIES};

// Lists a sheet into lent bytes, and answers how many they are; a refusal leaves them as they were. The buffers have the sizes that the sheet
// asks for; an order above the largest is refused before any is used.
#[tactic(auto, using(crate::proofs::ListingParts::few_entries))]
pub fn list(sheet: &[u8], text: &mut [u8]) -> Result<usize, Refusal>
    ensures { listing_answered result text.new ≡ list_of sheet.now text.old }
{
    let n = sheet::order_in(sheet).min(LARGEST_ORDER);
    let entries = n * n;
    let mut codes = [0; LARGEST_ORDER];
    let mut matrix = [0.0; MOST_ENTRIES];
    let mut result = [0.0; MOST_ENTRIES];
    let mut vectors = [0.0; MOST_ENTRIES];
    list_in(
        sheet,
        &mut codes[..n],
        &mut matrix[..entries],
        &mut result[..entries],
        &mut vectors[..entries],
        text,
    )
}

// Lists a sheet by way of buffers of these sizes: the refusals of the sheet, refusal 7, and then the run.
fn list_in(
    sheet: &[u8],
    codes: &mut [u16],
    matrix: &mut [f64],
    res: &mut [f64],
    vectors: &mut [f64],
    text: &mut [u8],
) -> Result<usize, Refusal>
    requires { is_order (order_in sheet.now) ≡ true
        → (length codes.old ≡ order_in sheet.now) × (length matrix.old ≡ order_in sheet.now * order_in sheet.now)
        × (length res.old ≡ order_in sheet.now * order_in sheet.now)
        × (length vectors.old ≡ order_in sheet.now * order_in sheet.now) }
    ensures { listing_answered result text.new ≡ list_of sheet.now text.old }
{
    let Sizes { n, sweeps } = sheet_reader::read(sheet, codes, matrix)?;
    if text.len() < listing_text::room_for(n) {
        return Err(Refusal::TooShort);
    }
    let report = array_run::run(n, sweeps, matrix, res, vectors)?;
    Ok(listing_text::print(n, sweeps, report.ticks, codes, res, vectors, text))
}
