// The marks of the calendar entries, in words 16 to 31 of the lent bits: the first one of a stretch of entries, and the nearest one after
// entry T. Whole words are looked at, no entry by itself.
#![tactic(auto)]

ghost use Rattle.std.specs.Prelude.{◌≡◌, ℕ, ◌≤◌, ◌<◌, length, slice_index, MatchOption, IfSome, unwrap_or};
ghost use Rattle.meaning.specs.Numbers.{most_n, bit_words};
ghost use Rattle.meaning.specs.Next.{next_mark};
ghost use Rattle.mem_marks.specs.First.{NoMark, First};

// How many words at the front are 0, four at a time: at least so many, of which the next four are not all 0, or fewer are left.
fn skip(words: &[u64]) -> usize
    ensures { (result ≤ length words.now) × ((w : ℕ) → w < result → slice_index words.now w ≡ 0) }
{
    let (fours, _) = words.as_chunks::<4>();
    for (k, [a, b, c, d]) in fours.iter().enumerate() {
        if (*a | *b | *c | *d) != 0 {
            return 4 * k;
        }
    }
    4 * fours.len()
}

// The first marked entry from `from` on and below `to`.
fn first_mark(bits: &[u64], from: u16, to: u16) -> Option<u16>
    requires { (to ≤ most_n) × (length bits.now ≡ bit_words) }
    ensures { MatchOption result (NoMark bits.now from to) (First bits.now from to) }
{
    if from >= to {
        return None;
    }
    let k = 1024 + from;
    let part = bits[usize::from(k / 64)] >> (k % 64);
    if part != 0 {
        let e = from + part.trailing_zeros() as u16;
        return (e < to).then_some(e);
    }
    let next = usize::from(k / 64) + 1;
    let last = usize::from((1024 + to + 63) / 64);
    for i in next + skip(&bits[next..last])..last {
        let word = bits[i];
        if word != 0 {
            let e = (64 * i - 1024) as u16 + word.trailing_zeros() as u16;
            return (e < to).then_some(e);
        }
    }
    None
}

// How far the nearest marked entry is from entry T in ring order, 1 to N-1; none where none is marked. Entry T is not looked at.
pub fn next_mark(n: u16, turn: u16, bits: &[u64]) -> Option<u16>
    requires { (turn < n) × (n ≤ most_n) × (length bits.now ≡ bit_words) }
    ensures is { unwrap_or result 0 ≡ next_mark n turn bits.now }
    ensures low { IfSome result (λ d. (1 ≤ d) × (d < n)) }
{
    if let Some(e) = first_mark(bits, turn + 1, n) {
        return Some(e - turn);
    }
    let f = first_mark(bits, 0, turn)?;
    Some(n - turn + f)
}
