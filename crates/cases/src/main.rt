// A table of cases: each file c00, c01, .. is an input; its name and its listing are written. A new case is a new file and
// its lines in stdout.
#![tactic(auto)]

use std::fs::File;
use std::io::Write;

// Runs case k, and answers whether there is such a file.
fn one_case(rt: &HostRuntime, k: u8) -> bool {
    // Two digits always, a 0 in front too, so each is worked out by itself.
    let name = [b'c', b'0' + k / 10 % 10, b'0' + k % 10];
    let path = str::from_utf8(&name).unwrap();
    let Ok(mut file) = File::open(rt, path) else {
        return false;
    };
    // There is no heap: an array takes the longest input and one octet more, and `long` says how much of it was read.
    let mut input = [0u8; 65537];
    let long = input_read::read_full(&mut file, &mut input);
    drop(file);
    let mut to = rt.stdout();
    let _ = to.write_all(&name);
    let _ = to.write_all(b"\n");
    // There is no heap: each memory is an array for the highest N and V, and list_write::list takes them one by one.
    let mut cells = [0u8; 54272];
    let mut links = [0u16; 1024];
    let mut calendar = [0u16; 2048];
    let mut words = [0u32; 15360];
    let mut bits = [0u64; 32];
    let mut arrived = [0u32; 1024];
    let mut out = [0u8; 65536];
    list_write::list(
        &mut to,
        &input[..long],
        &mut cells,
        &mut links,
        &mut calendar,
        &mut words,
        &mut bits,
        &mut arrived,
        &mut out,
    );
    true
}

fn main(rt: HostRuntime) {
    for k in 0..100 {
        if !one_case(&rt, k) {
            break;
        }
    }
}
