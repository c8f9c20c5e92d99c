// spacer: a trace on standard input, its listing on standard output.
//
// It reads one octet more than it lists, which shows whether the input goes on. A read that fails, or an input that goes on
// after its end, ends the program with nothing written; a write that fails ends it there.
#![tactic(auto)]

fn main(rt: HostRuntime) {
    // There is no heap: an array takes the longest input and one octet more, and `long` says how much of it was read.
    let mut input = [0u8; 65537];
    let Some(long) = input_read::read_whole(&mut rt.stdin(), &mut input) else {
        return;
    };
    // There is no heap: each memory is an array for the highest N and V, and list_write::list takes them one by one.
    let mut cells = [0u8; 54272];
    let mut links = [0u16; 1024];
    let mut calendar = [0u16; 2048];
    let mut words = [0u32; 15360];
    let mut bits = [0u64; 32];
    let mut arrived = [0u32; 1024];
    let mut out = [0u8; 65536];
    list_write::list(
        &mut rt.stdout(),
        &input[..long],
        &mut cells,
        &mut links,
        &mut calendar,
        &mut words,
        &mut bits,
        &mut arrived,
        &mut out,
    );
}
