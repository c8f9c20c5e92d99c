// scribe: a text on standard input, its trace on standard output; where the text is refused, nothing there, and on standard
// error one line: `stop 10 PLACE` with the first octet of the first line that isn't good, or `stop 14` where the trace is too
// long.
//
// Text and trace have up to 524,288 octets each. It reads one octet more, which shows whether the text goes on. A read that
// fails, or an input that goes on after its end, ends the program with nothing written; a write that fails ends it there.
#![tactic(auto)]

fn main(rt: HostRuntime) {
    // There is no heap: an array takes the longest input and one octet more, and `long` says how much of it was read.
    let mut input = [0u8; 524289];
    let Some(long) = input_read::read_whole(&mut rt.stdin(), &mut input) else {
        return;
    };
    let mut trace = [0u8; 524288];
    let mut line = [0u8; 64];
    let mut out = [0u8; 65536];
    text_scribe::hand_over(
        &mut rt.stdout(),
        &mut rt.stderr(),
        &input[..long],
        &mut trace,
        &mut line,
        &mut out,
    );
}
