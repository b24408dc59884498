// Answers groups: for each group of the standard input one line, the orbit lengths along its chain.
//
// A group is one byte, the number of its swaps, and 15 bytes for each swap. A swap that is cut short is no permutation. A read or a
// write that fails ends the program with that error.
#![tactic(auto)]

use arrayvec::ArrayVec;
use chain_lengths::{LAST, chain_lengths};
use ground::CARRIERS;
use std::io;
use std::io::{Read, Write};
use text::read_full;

// The most swaps of a group: its number is one byte.
const MOST: usize = 255;

// Reads a swap; none where it is cut short.
fn read_swap(input: &mut impl Read) -> io::Result<Option<[u8; CARRIERS]>> {
    let mut swap = [0; CARRIERS];
    let read = read_full(input, &mut swap)?;
    Ok((read == CARRIERS).then_some(swap))
}

// Reads this many swaps; none where one is cut short. All are read then too, so that what comes after them is the next group.
fn read_swaps(
    input: &mut impl Read,
    count: u8,
) -> io::Result<Option<ArrayVec<[u8; CARRIERS], MOST>>> {
    let mut swaps = ArrayVec::new();
    let mut whole = true;
    for _ in 0..count {
        match read_swap(input)? {
            Some(swap) => swaps.push(swap),
            None => whole = false,
        }
    }
    Ok(whole.then_some(swaps))
}

// Writes the lengths with one space between two, and ends the line.
fn write_lengths(out: &mut impl Write, lengths: &[u8; CARRIERS]) -> io::Result<()> {
    for (c, length) in lengths.iter().enumerate() {
        let after = if c < LAST { ' ' } else { '\n' };
        write!(out, "{length}{after}")?;
    }
    Ok(())
}

// Reads a group and writes its line; whether there was one. (It says whether to go on: an enum of two names would say no more.)
fn answer_group(input: &mut impl Read, out: &mut impl Write) -> io::Result<bool> {
    let mut size = [0];
    if read_full(input, &mut size)? == 0 {
        return Ok(false);
    }
    let swaps = read_swaps(input, size[0])?;
    match swaps.and_then(|swaps| chain_lengths(&swaps)) {
        Some(lengths) => write_lengths(out, &lengths)?,
        None => out.write_all(b"no permutation\n")?,
    }
    Ok(true)
}

// Answers groups while there are some.
fn main(rt: HostRuntime) -> io::Result<()> {
    let mut input = rt.reader();
    let mut out = io::writer(&rt);
    for _ in 0..u64::MAX {
        if !answer_group(&mut input, &mut out)? {
            break;
        }
    }
    Ok(())
}
