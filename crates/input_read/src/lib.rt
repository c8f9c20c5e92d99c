// A program's input, brought into a lent buffer. Which octets a reader gives is its own: they are named where it names them.
#![tactic(auto)]

ghost use Rattle.std.specs.Prelude.{◌≡◌, ◌≤◌, ◌<◌, ⊤, length, take, MatchOption};
ghost use Rattle.std.specs.Io.KnownBytes.{Consumes, IsAtEnd};

use std::io::Read;

// Reads until the buffer is full, the input ends or a read fails, and answers how many octets it put at the buffer's start.
// Where the buffer is empty it doesn't read.
pub fn read_full<R: Read>(from: &mut R, buf: &mut [u8]) -> usize
    ensures in_bounds { result ≤ length buf.new }
    ensures part_long { length (take result buf.new) ≡ result }
    ensures octets { Consumes (R.remaining from.old) (R.remaining from.new) (take result buf.new) }
{
    let mut done = 0usize;
    // No for: how many reads there are is the reader's to say.
    while done < buf.len() {
        let Ok(n) = from.read(&mut buf[done..]) else {
            break;
        };
        if n == 0 {
            break;
        }
        done += n;
    }
    done
}

// Reads as `read_full` does, and where the buffer didn't fill one octet more, which shows whether the input goes on: None where
// it does, or where that read fails.
pub fn read_whole<R: Read>(from: &mut R, buf: &mut [u8]) -> Option<usize>
    ensures in_bounds { MatchOption result ⊤ (λ n. n ≤ length buf.new) }
    ensures octets { MatchOption result ⊤ (λ n. Consumes (R.remaining from.old) (R.remaining from.new) (take n buf.new)) }
    ensures whole { MatchOption result ⊤ (λ n. n < length buf.new → IsAtEnd (R.remaining from.new)) }
{
    let n = read_full(from, buf);
    if n < buf.len() {
        let mut next = [0u8; 1];
        if !matches!(from.read(&mut next), Ok(0)) {
            return None;
        }
    }
    Some(n)
}
