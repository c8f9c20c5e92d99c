// The update of a bucket as a function of numbers alone, so that its machine code can be looked at (bench/update). An export
// takes every m: above 15 it is taken modulo 16.
#![tactic(auto)]

ghost use Rattle.std.specs.Prelude.{◌≡◌, ◌-◌, ◌*◌, ◌%◌, ◌^◌};
ghost use Rattle.meaning.specs.Bucket.{elapsed};

#[unsafe(no_mangle)]
pub extern "C" fn narrow_fallen_to(s: u32, m: u32, last: u32, t: u32) -> u32
    ensures { result ≡ s - elapsed t last * 2 ^ (m % 16) }
{
    leaf_bucket::fallen_to(s, m % 16, last, t)
}
