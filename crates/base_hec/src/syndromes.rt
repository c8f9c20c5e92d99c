// The table of 256 entries, one for each syndrome.
ghost use Rattle.std.specs.Prelude.{◌≡◌};
ghost use Rattle.base_hec.specs.WrongBit.{wrong_bit, named};

// The wrong bit that each syndrome names: 0 to 39, 40 for no error, 41 for more than one.
const WRONG_BITS: [u8; 256] = [
    40, 39, 38, 41, 37, 41, 41, 31, 36, 41, 41, 8, 41, 41, 30, 41, 35, 41, 41, 41, 41, 23, 7, 41,
    41, 41, 41, 41, 29, 41, 41, 41, 34, 41, 41, 41, 41, 41, 41, 41, 41, 41, 22, 41, 6, 41, 41, 41,
    41, 0, 41, 41, 41, 41, 41, 41, 28, 41, 41, 41, 41, 41, 41, 41, 33, 41, 41, 10, 41, 41, 41, 41,
    41, 41, 41, 41, 41, 41, 41, 41, 41, 12, 41, 41, 21, 41, 41, 19, 5, 41, 41, 17, 41, 41, 41, 41,
    41, 41, 41, 41, 41, 41, 41, 3, 41, 41, 41, 15, 41, 41, 41, 41, 27, 41, 41, 41, 41, 41, 41, 41,
    41, 41, 41, 41, 41, 41, 41, 41, 32, 41, 41, 41, 41, 41, 9, 41, 41, 24, 41, 41, 41, 41, 41, 41,
    41, 41, 41, 41, 41, 41, 41, 41, 41, 41, 41, 1, 41, 41, 41, 41, 41, 41, 11, 41, 41, 41, 41, 41,
    20, 41, 41, 13, 41, 41, 18, 41, 4, 41, 41, 41, 41, 41, 16, 41, 41, 41, 41, 41, 41, 41, 41, 41,
    41, 41, 41, 41, 41, 41, 41, 25, 41, 41, 41, 41, 41, 41, 2, 41, 41, 41, 41, 41, 41, 41, 14, 41,
    41, 41, 41, 41, 41, 41, 41, 41, 26, 41, 41, 41, 41, 41, 41, 41, 41, 41, 41, 41, 41, 41, 41, 41,
    41, 41, 41, 41, 41, 41, 41, 41, 41, 41, 41, 41, 41, 41, 41, 41,
];

// What the syndrome says is wrong, as a number: by the table, each entry of which this contract holds against the search of the forty
// bits (theorem base_hec/TableRule.table_rule).
pub fn wrong_bit(syndrome: u8) -> u8
    ensures { result ≡ wrong_bit syndrome }
{
    WRONG_BITS[usize::from(syndrome)]
}

// The one bit that is wrong, where the syndrome names one.
pub fn named_bit(syndrome: u8) -> Option<u8>
    ensures { result ≡ named (wrong_bit syndrome) }
{
    let bit = wrong_bit(syndrome);
    if bit < 40 { Some(bit) } else { None }
}
