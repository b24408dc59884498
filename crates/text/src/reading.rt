// A list read full.
ghost use Rattle.std.specs.Prelude.{◌<◌, ◌≤◌, ◌≡◌, length, take, OnErr, IfOk};
ghost use Rattle.std.specs.Io.KnownBytes.{Consumes, IsAtEnd};

use std::io;
use std::io::Read;

// Reads until the list is full or the input ends, and answers how many bytes were put at the start of the list. A read that fails ends
// it, also one that a signal cut short before a byte came. Each read puts as many bytes as it likes, so that there is nothing for a
// `for` to go over.
pub fn read_full<R: Read>(input: &mut R, list: &mut [u8]) -> io::Result<usize>
    ensures within { IfOk result (λ count. count ≤ length list.new) }
    ensures bytes { IfOk result (λ count. Consumes (R.remaining input.old) (R.remaining input.new) (take count list.new)) }
    ensures end { IfOk result (λ count. count < length list.new → IsAtEnd (R.remaining input.new)) }
{
    let mut count = 0;
    while count < list.len() {
        let more = input.read(&mut list[count..])?;
        if more == 0 {
            break;
        }
        count += more;
    }
    Ok(count)
}
