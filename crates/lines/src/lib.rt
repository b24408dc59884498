// A line of the listing: a row is written into the lent list, four carriers at a time where there are as many.
#![tactic(auto)]

ghost use Rattle.std.specs.Prelude.{◌≡◌, ◌+◌, ◌≤◌, length, take, drop};
ghost use Rattle.std.proofs.Math.Seq.{paste};
ghost use Rattle.ground.specs.Meanings.Sheet.{most_risers};

use ground::RISERS;

// Copies one list over another that is as long. (`copy_from_slice` was tried: a search then takes 2 to 11 in a hundred more instructions.
// Over `to.iter_mut().zip(from)` the proof did not close.)
fn copy(from: &[u8], to: &mut [u8])
    requires { length to.old ≡ length from.now }
    ensures { to.new ≡ from.now }
{
    for (i, carrier) in from.iter().enumerate() {
        to[i] = *carrier;
    }
}

// Writes four of the row's carriers, from its carrier `from` on, to their places in the line of `rows` that begins at `at`. They are
// first taken as an array: so the four are read at once, and written at once.
fn write_piece(row: &[u8; RISERS], from: usize, rows: &mut [u8], at: usize)
    requires { (from + 4 ≤ most_risers) × (at + from + 4 ≤ length rows.old) }
    ensures { rows.new ≡ paste rows.old (at + from) (take 4 (drop from row.now)) 4 }
{
    let place = at + from;
    let piece: [u8; 4] = *row[from..from + 4].as_array().unwrap();
    copy(&piece, &mut rows[place..place + 4]);
}

// Writes the row's first n carriers to `rows`, from `at` on: four at a time where there are as many, the last four over some that
// stand there already. (`rows` is the whole list, with the place of the line in it: the promise is of all that stands in the list.)
pub fn write_row(row: &[u8; RISERS], n: usize, rows: &mut [u8], at: usize)
    requires { (n ≤ most_risers) × (at + n ≤ length rows.old) }
    ensures { rows.new ≡ paste rows.old at row.now n }
{
    if n < 4 {
        copy(&row[..n], &mut rows[at..at + n]);
        return;
    }
    write_piece(row, 0, rows, at);
    if n >= 8 {
        write_piece(row, 4, rows, at);
    }
    write_piece(row, n - 4, rows, at);
}
