// The lent words of bits: whether those of the free spaces fit, the lowest free space, one space taken or given back; and the mark of
// an entry, looked at, set or cleared, in the sixteen words behind them.
#![tactic(auto)]

ghost use Rattle.std.specs.Prelude.{◌≡◌, true, false, IsTrue, ◌↔◌, All, sum_by, count_ones, ◌*◌, ◌/◌, ◌≤◌, ◌<◌, length};
ghost use Rattle.meaning.specs.Plain.{when◌then◌else◌};
ghost use Rattle.meaning.specs.Numbers.{most_n, free_words, bit_words, word_bits};
ghost use Rattle.meaning.specs.Bits.{is_set, is_free_space, is_marked, ones_below, spaces_fit, lowest_free, with_bit, without_bit, taken, given, marked, unmarked};

// The ones in some words.
fn ones_in(words: &[u64]) -> u32
    requires { sum_by count_ones words.now ≤ most_n }
    ensures { result ≡ sum_by count_ones words.now }
{
    words.iter().map(|word| word.count_ones()).sum()
}

// No word has a bit: one OR each and one test, where `all` would test each word.
fn none_in(words: &[u64]) -> bool
    ensures { IsTrue result ↔ All (λ w. w ≡ 0) words.now }
{
    words.iter().fold(0, |any, word| any | *word) == 0
}

// N cuts word `whole`: it has no bit at N or above, the words after it have none, and the ones are as many as the number says.
fn fits_cut(n: u16, free: u16, bits: &[u64], whole: usize) -> bool
    requires { (n / 64 ≡ whole) × (whole < free_words) × (length bits.now ≡ bit_words) }
    ensures { result ≡ spaces_fit n free bits.now }
{
    let cut = bits[whole];
    cut >> (n % 64) == 0
        && none_in(&bits[whole + 1..16])
        && ones_in(&bits[..whole]) + cut.count_ones() == u32::from(free)
}

// "a bit at or above N, a number other than the ones": neither is so. Only the words that N reaches are counted. An N from 64 to 127
// has a call of its own, which is compiled without a loop.
pub fn fits(n: u16, free: u16, bits: &[u64]) -> bool
    requires { (n ≤ most_n) × (length bits.now ≡ bit_words) }
    ensures { result ≡ spaces_fit n free bits.now }
{
    match usize::from(n / 64) {
        1 => fits_cut(n, free, bits, 1),
        16 => ones_in(&bits[..16]) == u32::from(free),
        whole => fits_cut(n, free, bits, whole),
    }
}

// "the lowest free space by counting trailing zeros", in the first word that is not 0; 1,024 where there is none.
pub fn lowest(bits: &[u64]) -> u16
    requires { length bits.now ≡ bit_words }
    ensures { result ≡ lowest_free bits.now }
{
    for i in 0..16 {
        let word = bits[usize::from(i)];
        if word != 0 {
            return 64 * i + word.trailing_zeros() as u16;
        }
    }
    1024
}

// Whether bit k is set.
fn is_set(bits: &[u64], k: u16) -> bool
    requires { (k < bit_words * word_bits) × (length bits.now ≡ bit_words) }
    ensures { result ≡ is_set bits.now k }
{
    (bits[usize::from(k / 64)] >> (k % 64)) % 2 == 1
}

// Bit k is set, also where it was set before.
fn set_bit(bits: &mut [u64], k: u16)
    requires { (k < bit_words * word_bits) × (length bits.old ≡ bit_words) }
    ensures { bits.new ≡ (when is_set bits.old k then bits.old else with_bit bits.old k) }
{
    bits[usize::from(k / 64)] |= 1 << (k % 64);
}

// Bit k is cleared, also where it was clear before. It is set first, so that taking it off clears it alone.
fn clear_bit(bits: &mut [u64], k: u16)
    requires { (k < bit_words * word_bits) × (length bits.old ≡ bit_words) }
    ensures { bits.new ≡ (when is_set bits.old k then without_bit bits.old k else bits.old) }
{
    let w = usize::from(k / 64);
    let bit = 1u64 << (k % 64);
    bits[w] = (bits[w] | bit) - bit;
}

// Whether space x is free.
pub fn is_free(bits: &[u64], x: u16) -> bool
    requires { (x < most_n) × (length bits.now ≡ bit_words) }
    ensures { result ≡ is_free_space bits.now x }
{
    is_set(bits, x)
}

// Whether entry e is marked.
pub fn is_marked(bits: &[u64], e: u16) -> bool
    requires { (e < most_n) × (length bits.now ≡ bit_words) }
    ensures { result ≡ is_marked bits.now e }
{
    is_set(bits, 1024 + e)
}

// Space x, which is free, is taken.
// That x is free is asked of the caller, here and in `occupy`: `lowest` answers 1,024 where none is, so it alone does not tell.
pub fn take(bits: &mut [u64], x: u16)
    requires { (length bits.old ≡ bit_words) × (is_free_space bits.old x ≡ true) }
    ensures { bits.new ≡ taken bits.old x }
{
    clear_bit(bits, x);
}

// Space x, which is not free, is given back.
pub fn give(bits: &mut [u64], x: u16)
    requires { (x < most_n) × (length bits.old ≡ bit_words) × (is_free_space bits.old x ≡ false) }
    ensures { bits.new ≡ given bits.old x }
{
    set_bit(bits, x);
}

// A cell has joined entry e: its bit is set, also where it was set before.
pub fn mark(bits: &mut [u64], e: u16)
    requires { (e < most_n) × (length bits.old ≡ bit_words) }
    ensures { bits.new ≡ marked bits.old e }
{
    set_bit(bits, 1024 + e);
}

// Entry e is emptied: its bit is cleared, also where it was clear before.
pub fn unmark(bits: &mut [u64], e: u16)
    requires { (e < most_n) × (length bits.old ≡ bit_words) }
    ensures { bits.new ≡ unmarked bits.old e }
{
    clear_bit(bits, 1024 + e);
}

// A cell takes space x, which is free, and joins entry e.
pub fn occupy(bits: &mut [u64], x: u16, e: u16)
    requires { (length bits.old ≡ bit_words) × (is_free_space bits.old x ≡ true) × (e < most_n) }
    ensures { bits.new ≡ marked (taken bits.old x) e }
{
    take(bits, x);
    mark(bits, e);
}

// A cell leaves space x, which is not free; where on, entry e was emptied before.
pub fn release(bits: &mut [u64], x: u16, on: bool, e: u16)
    requires { (x < most_n) × (length bits.old ≡ bit_words) × (is_free_space bits.old x ≡ false) × (on ≡ true → e < most_n) }
    ensures { bits.new ≡ given (when on then unmarked bits.old e else bits.old) x }
{
    if on {
        unmark(bits, e);
    }
    give(bits, x);
}
