// Listing: every plan once per kind, with its class size.
//
// The sheet is read once, its tables are searched, and what the search wrote stands, unless the allowance or the room was not
// enough: then both lists are filled over. The promise is the meaning itself: `Lists` of ground's Meanings/Listing.antt.
#![tactic(auto)]

ghost use Rattle.std.specs.Prelude.{◌≡◌};
ghost use Rattle.ground.specs.Meanings.Listing.{Lists};
ghost use Rattle.search.specs.Answer.{left_by};
ghost use Rattle.listing.specs.Answering.{counted, told, SheetRefused, fault_of, numbers_of};
ghost use Rattle.listing.specs.Settling.{answer_of, settled};

use ground::{CARRIERS, Fault, Refusal, SWAPS, Tables};
use last::Tally;
use search::{Stopped, search};
use sheet::read_sheet;
use std::error::Error;
use std::fmt;
use tree::Limits;

// What a listing counts: how many plans are listed, how many rows were opened, and how many plans there are.
#[derive(Clone, Copy, Debug, Default, PartialEq, Eq)]
pub struct Listed {
    pub listed: usize,
    pub opened: u64,
    pub total: u64,
}

// The search counts the same.
impl From<Tally> for Listed {
    ghost from_gives = { λ tally listed. listed ≡ counted tally.listed tally.opened tally.total };

    fn from(tally: Tally) -> Listed {
        Listed {
            listed: tally.listed,
            opened: tally.opened,
            total: tally.total,
        }
    }
}

// Why a listing is refused, and what is counted all the same.
#[derive(Clone, Copy, Debug, PartialEq, Eq)]
pub enum Refused {
    // The sheet is refused.
    Sheet(Fault),

    // More rows are opened than the allowance; so many were.
    BeyondAllowance(u64),

    // More plans are listed than there is room for.
    BeyondRoom(Listed),
}

// A fault of the sheet refuses the listing.
impl From<Fault> for Refused {
    ghost use Rattle.listing.specs.declared.Refused.{Refused};

    ghost from_gives = { λ fault refused. refused ≡ Refused.Sheet fault };

    fn from(fault: Fault) -> Refused {
        Refused::Sheet(fault)
    }
}

impl Refused {
    // The number and the place of the refusal.
    pub fn fault(&self) -> Fault
        ensures { result ≡ fault_of self.now }
    {
        match *self {
            Refused::Sheet(fault) => fault,
            Refused::BeyondAllowance(_) => Fault::at(Refusal::BeyondAllowance, 0),
            Refused::BeyondRoom(_) => Fault::at(Refusal::BeyondRoom, 0),
        }
    }

    // What is counted all the same.
    pub fn listed(&self) -> Listed
        ensures { result ≡ numbers_of self.now }
    {
        match *self {
            Refused::Sheet(_) => Listed::default(),
            Refused::BeyondAllowance(opened) => Listed {
                opened,
                ..Listed::default()
            },
            Refused::BeyondRoom(listed) => listed,
        }
    }
}

// The number and the place of the refusal, as text.
impl fmt::Display for Refused {
    ghost use Rattle.std.specs.Prelude.{Some};
    ghost use Rattle.ground.specs.Laws.Refusals.{text_of};
    ghost use Rattle.listing.specs.Answering.{fault_of};

    ghost output = { λ refused. Some (text_of (fault_of refused)) };

    fn fmt<W: fmt::Write>(&self, f: &mut fmt::Formatter<W>) -> fmt::Result {
        write!(f, "{}", self.fault())
    }
}

impl Error for Refused {}

// The answer to what the search counted, where there is room for so many lines.
fn answer(searched: Result<Tally, Stopped>, room: usize) -> Result<Listed, Refused>
    ensures { result ≡ answer_of searched room }
{
    let tally = searched.map_err(|stopped| Refused::BeyondAllowance(stopped.tally.opened))?;
    let listed = Listed::from(tally);
    if room < listed.listed {
        return Err(Refused::BeyondRoom(listed));
    }
    Ok(listed)
}

// The answer to what the search left. Both lists are filled over if the allowance was used up, or if there was no room for all lines.
fn settle(
    searched: Result<Tally, Stopped>,
    room: usize,
    bytes: &mut [u8],
    sizes: &mut [u64],
) -> Result<Listed, Refused>
    ensures answer { result ≡ answer_of searched room }
    ensures settled { told result bytes.new sizes.new ≡ settled room (left_by searched bytes.old sizes.old) }
{
    let answer = answer(searched, room);
    if answer.is_err() {
        bytes.fill(255);
        sizes.fill(0);
    }
    answer
}

// Lists the plans of a sheet: the rows into `bytes`, one after another from the start, their class sizes into `sizes`. A listing that is
// refused beyond the allowance or the room leaves `bytes` all 255 and `sizes` all 0, and where the sheet is refused both are as they came.
// (Rows and sizes are two lists, as C lends them.)
pub fn list(
    sheet: &[u8],
    allowance: u64,
    bytes: &mut [u8],
    sizes: &mut [u64],
) -> Result<Listed, Refused>
    ensures lists { Lists sheet.now allowance bytes.old sizes.old (told result bytes.new sizes.new) }
    ensures sheet { SheetRefused sheet.now result }
{
    let mut tables = Tables::blank();
    let mut swaps = [[0u8; CARRIERS]; SWAPS];
    let head = read_sheet(sheet, &mut tables, &mut swaps)?;
    let room = (bytes.len() / head.risers).min(sizes.len());
    let limits = Limits {
        carriers: head.carriers,
        risers: head.risers,
        room,
        allowance,
    };
    let searched = search(limits, &tables, &swaps[..head.swaps], bytes, sizes);
    settle(searched, room, bytes, sizes)
}
