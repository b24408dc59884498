// The folds of examples/README.md that are worked by hand, K, L and M, and a fold for each kind of refusal.
//
// A line has the number, the place and the size that folding answers, then the first buffer and the second as they are after the
// call. Before the first call both are full of 255. A write that fails ends the program with that error.
#![tactic(auto)]

use folding::fold;
use ground::Told;
use std::io;
use std::io::Write;

// Prints a colon, and each carrier after a space.
fn print_carriers(out: &mut impl Write, row: &[u8]) -> io::Result<()> {
    write!(out, " :")?;
    for carrier in row {
        write!(out, " {carrier}")?;
    }
    Ok(())
}

// Folds the row and prints what is left.
fn print_fold(
    out: &mut impl Write,
    sheet: &[u8],
    row: &[u8],
    first: &mut [u8],
    member: &mut [u8],
) -> io::Result<()> {
    let (refused, size) = match fold(sheet, row, first, member) {
        Ok(size) => (None, size),
        Err(fault) => (Some(fault), 0),
    };
    let told = Told::from(refused);
    write!(out, "{} {} {size}", told.number, told.place)?;
    print_carriers(out, first)?;
    print_carriers(out, member)?;
    writeln!(out)
}

// Sheet A is two risers that must differ, and three carriers that are all alike; D is the same with the one swap 1 2 0; in F the
// swap takes the riser's list out of itself.
fn main(rt: HostRuntime) -> io::Result<()> {
    let mut out = io::writer(&rt);
    let alike =
        b"\x03\x02\x03\x00\x01\x02\x03\x00\x01\x02\x01\x00\x01\x06\x00\x01\x00\x02\x01\x00\x01\x02\x02\x00\x02\x01\x02\x01\x00\x02\x01\x02\x00";
    let turned =
        b"\x03\x02\x03\x00\x01\x02\x03\x00\x01\x02\x01\x00\x01\x06\x00\x01\x00\x02\x01\x00\x01\x02\x02\x00\x02\x01\x01\x01\x02\x00";
    let unkept = b"\x02\x01\x01\x00\x00\x01\x01\x00";
    let mut first = [255u8; 2];
    let mut member = [255u8; 3];
    let mut short = [255u8; 1];
    // refused: a sheet by 7; rows by 12, the first though a buffer is short too; buffers by 13
    print_fold(&mut out, unkept, &[0], &mut short, &mut first)?;
    print_fold(&mut out, alike, &[2], &mut short, &mut member)?;
    print_fold(&mut out, alike, &[2, 3], &mut first, &mut member)?;
    print_fold(&mut out, alike, &[2, 0], &mut short, &mut member)?;
    print_fold(&mut out, alike, &[2, 0], &mut first, &mut short)?;
    // accepted: K, L and M
    print_fold(&mut out, alike, &[2, 0], &mut first, &mut member)?;
    print_fold(&mut out, alike, &[2, 2], &mut first, &mut member)?;
    print_fold(&mut out, turned, &[1, 0], &mut first, &mut member)?;
    Ok(())
}
