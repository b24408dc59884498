// What all crates share: the limits of a job sheet, its tables, the refusals, the fault, which is a refusal at a place, and what an answer
// tells of it. The definitions' own names for them are in specs/Meanings/Sheet.antt. The rest of this crate is definitions, under specs/,
// and laws, under proofs/.
#![tactic(auto)]

ghost use Rattle.std.specs.Prelude.{◌≡◌};
ghost use Rattle.ground.specs.Laws.Refusals.{refusal_of};
ghost use Rattle.ground.specs.Laws.Tables.{blank_tables};
ghost use Rattle.ground.specs.Meanings.Sheet.{Fault, fault, no_fault, fault_told, number_of};

use std::error::Error;
use std::fmt;
use std::marker::Model;

// The most carriers a rack has, and so the width of a swap.
pub const CARRIERS: usize = 15;

// The most risers a sheet has.
pub const RISERS: usize = 12;

// The most rules a sheet has.
pub const RULES: usize = 66;

// The most pairs a rule allows: each carrier with each.
pub const PAIRS: usize = 225;

// The most swaps a sheet declares.
pub const SWAPS: usize = 8;

// The length of the longest sheet, in bytes.
pub const LONGEST: usize = 30214;

// The entries of the table of lists: one for each riser and carrier.
pub const LISTED: usize = RISERS * CARRIERS;

// The entries of the table of allowed pairs: one for each rule and each pair of carriers.
pub const ALLOWED: usize = RULES * PAIRS;

// The entries of the table of rules by their risers: one for each two risers.
pub const ENDS: usize = RISERS * RISERS;

// What a sheet's lists and rules say, as tables: 1 at r · 15 + c where carrier c is in riser r's list, 1 at q · 225 + u · 15 + v where
// rule q allows the pair (u, v), and q + 1 at b · 12 + a where rule q is of the risers a and b; else 0. So the rules that end at a riser
// are one row of `ends`. (They are numbers in flat lists, and no flags and options, since the laws of tables speak of them: `Flag`,
// `Ending` and `Serves` of specs/Laws/Tables.antt.)
#[derive(Drop)]
pub struct Tables {
    pub listed: [u8; LISTED],
    pub allowed: [u8; ALLOWED],
    pub ends: [u8; ENDS],
}

impl Tables {
    // Tables that say nothing.
    pub fn blank() -> Tables
        ensures { result ≡ blank_tables }
    {
        Tables {
            listed: [0; LISTED],
            allowed: [0; ALLOWED],
            ends: [0; ENDS],
        }
    }
}

// The number of an accepted answer: there is no refusal.
pub const ACCEPTED: u8 = 0;

// The number and the place that an answer tells, as C gets them and programs print them; 0 and 0 where it is accepted.
#[derive(Clone, Copy, Debug, PartialEq, Eq)]
pub struct Told {
    pub number: u8,
    pub place: usize,
}

impl Told {
    // A number, and a place.
    pub fn of(number: u8, place: usize) -> Told
        ensures { fault result.number result.place ≡ fault number place }
    {
        Told { number, place }
    }

    // What an accepted answer tells.
    pub fn none() -> Told
        ensures { fault result.number result.place ≡ no_fault }
    {
        Told {
            number: ACCEPTED,
            place: 0,
        }
    }
}

// Why a call refuses.
#[derive(Clone, Copy, Debug, PartialEq, Eq)]
pub enum Refusal {
    // The sheet ends before the next field is whole.
    SheetEnds,

    // A count is outside its limits.
    WrongCount,

    // A riser's carrier is none of the sheet's, or not above the one before.
    WrongCarrier,

    // A rule's two risers are not in order, or do not follow the rule before.
    WrongRule,

    // An allowed pair is outside the lists, or not after the pair before.
    WrongPair,

    // A swap is not a permutation of the carriers.
    NoPermutation,

    // A swap takes some riser's list out of itself.
    ListNotKept,

    // A swap takes an allowed pair of some rule to a pair that is not allowed there.
    RuleNotKept,

    // Bytes follow the last swap.
    BytesFollow,

    // More rows are opened than the allowance.
    BeyondAllowance,

    // More plans are listed than there is room for.
    BeyondRoom,

    // A row to fold has not a carrier for each riser from its list.
    RowNotWhole,

    // The folding buffers do not have exactly a row's and a swap's bytes.
    BuffersNotFitting,
}

// The number that a refusal has in the table of refusals.
impl From<Refusal> for u8 {
    ghost from_gives = { λ refusal n. n ≡ number_of refusal };

    fn from(refusal: Refusal) -> u8 {
        match refusal {
            Refusal::SheetEnds => 1,
            Refusal::WrongCount => 2,
            Refusal::WrongCarrier => 3,
            Refusal::WrongRule => 4,
            Refusal::WrongPair => 5,
            Refusal::NoPermutation => 6,
            Refusal::ListNotKept => 7,
            Refusal::RuleNotKept => 8,
            Refusal::BytesFollow => 9,
            Refusal::BeyondAllowance => 10,
            Refusal::BeyondRoom => 11,
            Refusal::RowNotWhole => 12,
            Refusal::BuffersNotFitting => 13,
        }
    }
}

// What a refusal tells: why, and the place that it is about. The definitions' `Fault` has the refusal's number.
#[derive(Clone, Copy, Debug, PartialEq, Eq)]
pub struct Fault {
    refusal: Refusal,
    place: usize,
}

impl Model for Fault {
    ghost Value = { Fault };

    ghost view = { λ f. fault (number_of f.refusal) f.place };

    ghost inverse = { λ f. record { refusal = refusal_of f.number; place = f.place } };
}

impl Fault {
    // A refusal, at a place.
    pub fn at(refusal: Refusal, place: usize) -> Fault
        ensures { result ≡ fault (number_of refusal) place }
    {
        Fault { refusal, place }
    }

    // The number of the refusal.
    pub fn number(self) -> u8
        ensures { result ≡ self.number }
    {
        u8::from(self.refusal)
    }

    // The place that it is about.
    pub fn place(self) -> usize
        ensures { result ≡ self.place }
    {
        self.place
    }
}

// What an answer tells that may be refused: its refusal's number and place or, where it is accepted, 0 and 0.
impl From<Option<Fault>> for Told {
    ghost from_gives = { λ refused told. fault told.number told.place ≡ fault_told refused };

    fn from(refused: Option<Fault>) -> Told {
        match refused {
            Some(fault) => Told::of(fault.number(), fault.place()),
            None => Told::none(),
        }
    }
}

// The number and the place, as text.
impl fmt::Display for Fault {
    ghost use Rattle.std.specs.Prelude.{Some};
    ghost use Rattle.ground.specs.Laws.Refusals.{text_of};

    ghost output = { λ f. Some (text_of f) };

    fn fmt<W: fmt::Write>(&self, f: &mut fmt::Formatter<W>) -> fmt::Result {
        write!(f, "{} at {}", self.number(), self.place)
    }
}

impl Error for Fault {}
