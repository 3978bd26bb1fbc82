// The listing of a sheet.
ghost use Rattle.std.specs.Prelude.{◌≡◌};
ghost use Rattle.listing.specs.Listing.{list_of};
ghost use Rattle.capi.specs.CAnswers.{c_answer};
ghost use Rattle.capi.specs.Calls.{of_listing};

#[tactic(auto, unfolding(crate::specs::Calls::of_listing, crate::specs::CAnswers::c_answer_of))]
#[unsafe(no_mangle)]
pub extern "C" fn weimrukas_list(
    sheet: &[u8],
    text: &mut [u8],
    printed: &mut usize,
    row: &mut usize,
    column: &mut usize,
) -> u8
    ensures { (c_answer result row.new column.new, printed.new, text.new)
        ≡ of_listing (list_of sheet.now text.old) row.old column.old }
{
    match listing::list(sheet, text) {
        Ok(count) => {
            *printed = count;
            0
        }
        Err(refused) => {
            *printed = 0;
            crate::answers::refuse(refused, row, column)
        }
    }
}
