// salvage: a damaged trace on standard input, the mended one on standard output, and on standard error a line `FIRST LENGTH`
// for each stretch that was skipped; `stop 17` alone where the input doesn't begin with a readable GM, GR or GN.
//
// 524,288 octets are kept; what lies beyond is read and counted, as part of the last stretch. A read that fails, or an input
// that goes on after its end, ends the program with nothing written; a write that fails ends it there.
#![tactic(auto)]

fn main(rt: HostRuntime) {
    let mut from = rt.stdin();
    // There is no heap: an array takes what is kept of the input, and `long` says how much of it was read.
    let mut input = [0u8; 524288];
    let long = input_read::read_full(&mut from, &mut input);
    let Ok(total) = mend_write::count_on(&mut from, long) else {
        return;
    };
    // fewer octets were kept than there is room for, and yet more came: a read in between had failed
    if long < input.len() && total != long {
        return;
    }
    let mut out = [0u8; 65536];
    let mut text = [0u8; 65536];
    mend_write::mend(
        &mut rt.stdout(),
        &mut rt.stderr(),
        &input[..long],
        total,
        &mut out,
        &mut text,
    );
}
