// What a search goes through, row by row. The laws of it are under specs/; what they have in common with the code is the one struct here.
#![tactic(auto)]

// What stays the same through a search: how many carriers and risers there are, how many lines there is room for, and how many rows
// may be opened.
#[derive(Clone, Copy)]
pub struct Limits {
    pub carriers: usize,
    pub risers: usize,
    pub room: usize,
    pub allowance: u64,
}
