// The planner's calls for C and Rust to link. A number of the answer that is not returned is written through a pointer;
// every other word of each promise is that of the call itself. (An answer is matched here and in the trials: the check does not cover `err()`
// beside a second use of it.)
// `as` stands where a number is proved small enough, or where a size is made 64 bits wide: `From` has neither.
#![tactic(auto)]

ghost use Rattle.ground.specs.Meanings.Sheet.{fault};
ghost use Rattle.ground.specs.Meanings.Listing.{Lists, left};
ghost use Rattle.ground.specs.Meanings.Folding.{Folds, folded};

use ground::Told;

// Lists the plans of a sheet once per kind into the lent lists, and returns the number of the answer.
#[unsafe(no_mangle)]
pub extern "C" fn saucewagon_list(
    sheet: &[u8],
    allowance: u64,
    bytes: &mut [u8],
    sizes: &mut [u64],
    place: &mut u64,
    listed: &mut u64,
    opened: &mut u64,
    total: &mut u64,
) -> u64
    ensures { Lists sheet.now allowance bytes.old sizes.old (left (fault result place.new) listed.new opened.new total.new bytes.new sizes.new) }
{
    let (refused, counted) = match listing::list(sheet, allowance, bytes, sizes) {
        Ok(counted) => (None, counted),
        Err(refused) => (Some(refused.fault()), refused.listed()),
    };
    let told = Told::from(refused);
    *place = told.place as u64;
    *listed = counted.listed as u64;
    *opened = counted.opened;
    *total = counted.total;
    u64::from(told.number)
}

// Folds a row of a sheet into the lent buffers, and returns the number of the answer.
#[unsafe(no_mangle)]
pub extern "C" fn saucewagon_fold(
    sheet: &[u8],
    row: &[u8],
    first: &mut [u8],
    member: &mut [u8],
    place: &mut u64,
    size: &mut u64,
) -> u64
    ensures { Folds sheet.now row.now first.old member.old (folded (fault result place.new) size.new first.new member.new) }
{
    let (refused, images) = match folding::fold(sheet, row, first, member) {
        Ok(images) => (None, images),
        Err(fault) => (Some(fault), 0),
    };
    let told = Told::from(refused);
    *place = told.place as u64;
    *size = images;
    u64::from(told.number)
}
