// unscribe: a trace on standard input, the text that it can be written from on standard output, a line a record; where a
// record can't be read `stop 10 PLACE` on standard error, after the lines before it.
//
// 524,288 octets are read as a trace, and one more shows whether the input goes on: a record that isn't wholly within them is
// refused at its place. A read that fails, or an input that goes on after its end, ends the program with nothing written; a
// write that fails ends it there.
#![tactic(auto)]

fn main(rt: HostRuntime) {
    // There is no heap: an array takes the longest input and one octet more, and `long` says how much of it was read.
    let mut input = [0u8; 524289];
    let Some(long) = input_read::read_whole(&mut rt.stdin(), &mut input) else {
        return;
    };
    let mut out = [0u8; 65536];
    text_show::show(&mut rt.stdout(), &mut rt.stderr(), &input[..long], &mut out);
}
