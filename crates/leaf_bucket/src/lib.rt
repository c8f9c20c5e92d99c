// A VC's buckets, in parts of 1/L slot: products and quotients by L = 2^m are shifts.
#![tactic(auto)]

ghost use Rattle.std.specs.Prelude.{◌≡◌, ◌+◌, ◌-◌, ◌*◌, ◌/◌, ◌%◌, ◌^◌, ◌≤◌};
ghost use Rattle.meaning.specs.Bucket.{bucket_of, obeys_rules, elapsed};
ghost use Rattle.meaning.specs.Words.{second_obeys};

// L
pub fn rate(m: u32) -> u32
    requires { m ≤ 15 }
    ensures { result ≡ 2 ^ m }
{
    1u32 << m
}

// "m from 0 to 15; F from L to 16,777,216; C of at least F, with floor((C-F)/L) at most N-1", judged in that order: L is
// taken only of an m in its range, and C-F only where it is none below 0. What this and the next ask alike, judged first in a
// function of its own, would cost the slot three instructions.
pub fn obeys_rules(n: u16, m: u32, f: u32, c: u32) -> bool
    ensures { result ≡ obeys_rules n (bucket_of m f c 0) }
{
    m <= 15 && rate(m) <= f && f <= 16_777_216 && f <= c && (c - f) >> m < u32::from(n)
}

// A second bucket: "m (0 to 15), F (1 to 2^24), C (F to 2^30)", a flag of 0 or 1; or none, of which all are 0.
// No `Option`: clurimoon_open_sustained hands over 0, 0, 0 and 0 for none, and they are stored so (`Words.second_obeys`).
pub fn obeys_second(m: u32, f: u32, c: u32, tag: u32) -> bool
    ensures { result ≡ second_obeys (bucket_of m f c 0) tag }
{
    match f {
        0 => m == 0 && c == 0 && tag == 0,
        1..=16_777_216 => m <= 15 && f <= c && c <= 1_073_741_824 && tag <= 1,
        _ => false,
    }
}

// The slots from last to t, on the clock that wraps.
fn elapsed_slots(t: u32, last: u32) -> u32
    ensures { result ≡ elapsed t last }
{
    t.wrapping_sub(last)
}

// S/L rounded up: after so many slots S is 0. A rest that fills no slot takes one more. S/L plus one fits for every S, where
// S plus L-1 would not.
fn slots_to_empty(s: u32, m: u32) -> u32
    requires { m ≤ 15 }
    ensures { result ≡ (s + (2 ^ m - 1)) / 2 ^ m }
{
    let whole = s >> m;
    if whole << m < s { whole + 1 } else { whole }
}

// S as it has fallen from slot last to slot t. The product has up to 47 bits, but it is wanted only where fewer slots have
// elapsed than empty the bucket: there it is below S, and no bit of 32 is lost.
pub fn fallen_to(s: u32, m: u32, last: u32, t: u32) -> u32
    requires { m ≤ 15 }
    ensures { result ≡ s - elapsed t last * 2 ^ m }
{
    let slots = elapsed_slots(t, last);
    if slots >= slots_to_empty(s, m) {
        0
    } else {
        let fall = slots << m;
        s - fall
    }
}

// D = floor(S/L)
pub fn delay_of(s: u32, m: u32) -> u32
    requires { m ≤ 15 }
    ensures { result ≡ s / 2 ^ m }
{
    s >> m
}
