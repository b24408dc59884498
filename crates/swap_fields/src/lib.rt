// The swaps' section of a job sheet: its count, then as many swaps, each of k bytes. A swap must be a permutation, then keep each riser's
// list, then keep each rule; it is entered into the table of swaps with the carriers from k on staying.
#![tactic(auto)]

ghost use Rattle.std.specs.Prelude.{◌≡◌, List, [], ℕ, ◌+◌, ◌≤◌, ◌<◌, length, take, drop, MatchResult};
ghost use Rattle.ground.specs.Meanings.Sheet.{fault, sheet_ends, many, swap, most_carriers, most_swaps};
ghost use Rattle.fields.specs.Tables.{is_listed, is_allowed, padded, put_swap, put_all};
ghost use Rattle.fields.specs.Answers.{Answers, tell_section, tell_count};
ghost use Rattle.fields.specs.Sections.{section};
ghost use Rattle.swap_fields.specs.Swaps.{tell_swap};

use fields::count_at;
use ground::{ALLOWED, CARRIERS, Fault, LISTED, Refusal, SWAPS};
use swap_tests::{first_riser_out, first_rule_out};
use swaps::{Swap, is_permutation};

// The k bytes from a place on, if the sheet has them.
fn bytes_at(s: &[u8], at: usize, k: usize) -> Result<&[u8], Fault>
    ensures { MatchResult result
        (λ bytes. (at + k ≤ length s.now) × (bytes.now ≡ take k (drop at s.now)))
        (λ f. (length s.now < at + k) × (f ≡ fault sheet_ends at)) }
{
    s.get(at..)
        .and_then(|rest| rest.get(..k))
        .ok_or(Fault::at(Refusal::SheetEnds, at))
}

// The bytes of a swap, and after them the carriers that stay.
fn padded_swap(bytes: &[u8]) -> [u8; CARRIERS]
    requires { length bytes.now ≤ most_carriers }
    ensures { result ≡ padded most_carriers bytes.now }
{
    let mut g = Swap::identity().to;
    g[..bytes.len()].copy_from_slice(bytes);
    g
}

// What a sheet says before its swaps, by which they are tested: how many carriers, risers and rules it has, its lists and its pairs.
#[derive(Clone, Copy)]
struct Before<'a> {
    carriers: usize,
    risers: usize,
    rules: usize,
    listed: &'a [u8; LISTED],
    allowed: &'a [u8; ALLOWED],
    ghost few: { carriers ≤ most_carriers },
}

impl Before<'_> {
    // A swap: that it is a permutation, then that it keeps each riser's list, then that it keeps each rule. The answer is the swap, and
    // the place after it.
    fn read_swap(&self, s: &[u8], at: usize) -> Result<([u8; CARRIERS], usize), Fault>
        ensures { result ≡ tell_swap (swap self.now.carriers self.now.risers self.now.rules (is_listed self.now.listed.now) (is_allowed self.now.allowed.now) [] s.now at) }
    {
        let k = self.carriers;
        let bytes = bytes_at(s, at, k)?;
        if !is_permutation(bytes) {
            return Err(Fault::at(Refusal::NoPermutation, at));
        }
        let g = padded_swap(bytes);
        if first_riser_out(g, k, self.risers, self.listed).is_some() {
            return Err(Fault::at(Refusal::ListNotKept, at));
        }
        if first_rule_out(g, k, self.rules, self.allowed).is_some() {
            return Err(Fault::at(Refusal::RuleNotKept, at));
        }
        Ok((g, at + k))
    }

    // As many swaps as there is room for. The answer is the place after them. (A loop of its own, as each run of items has: crate
    // `fields`.)
    fn read_swaps(
        &self,
        s: &[u8],
        from: usize,
        swaps: &mut [[u8; CARRIERS]],
    ) -> Result<usize, Fault>
        ensures { Answers tell_section (many (swap self.now.carriers self.now.risers self.now.rules (is_listed self.now.listed.now) (is_allowed self.now.allowed.now)) (length swaps.old) [] s.now from) result (λ (l : List (List ℕ)). swaps.new ≡ put_all put_swap swaps.old 0 l) }
    {
        let mut at = from;
        for swap in swaps {
            let (g, next) = self.read_swap(s, at)?;
            *swap = g;
            at = next;
        }
        Ok(at)
    }
}

// The swaps' section: their count, then as many swaps. The answer is how many swaps there are, and the place after the section.
// What is said before the swaps is packed into `Before` here and not by the caller, since `Before` holds at most 15 carriers, as this
// function's own clause asks. (The bytes and the place are two parameters, as in crate `fields`.)
pub fn swaps_section(
    s: &[u8],
    at: usize,
    k: usize,
    n: usize,
    rules: usize,
    listed: &[u8; LISTED],
    allowed: &[u8; ALLOWED],
    swaps: &mut [[u8; CARRIERS]; SWAPS],
) -> Result<(usize, usize), Fault>
    requires { k ≤ most_carriers }
    ensures { Answers tell_count (section 0 most_swaps (swap k n rules (is_listed listed.now) (is_allowed allowed.now)) s.now at) result (λ (l : List (List ℕ)). swaps.new ≡ put_all put_swap swaps.old 0 l) }
{
    let (count, first) = count_at(s, at, 0, SWAPS)?;
    let before = Before {
        carriers: k,
        risers: n,
        rules,
        listed,
        allowed,
    };
    let next = before.read_swaps(s, first, &mut swaps[..count])?;
    Ok((count, next))
}
