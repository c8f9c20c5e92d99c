// A connection's words in the lent memory: read and written here, in one place.
#![tactic(auto)]

ghost use Rattle.std.specs.Prelude.{◌≡◌, ◌+◌, ◌*◌, ◌≤◌, length};
ghost use Rattle.meaning.specs.State.{HasConnection};
ghost use Rattle.meaning.specs.Bucket.{bucket_of};
ghost use Rattle.meaning.specs.Words.{second_of, connection_at, write_connection, bucket_fits, second_in_range, connection_fits};
ghost use Rattle.mem_words.specs.Connections.{has_none, bare_connection};

use leaf_bucket::{obeys_rules, obeys_second};
use meaning::{
    AT_C, AT_F, AT_LAST, AT_M, AT_S, AT_SECOND_C, AT_SECOND_F, AT_SECOND_M, AT_SECOND_S, AT_TAG,
    AT_WAITING, WORDS_PER_CONNECTION,
};

// "an open VC's m, F and C obey the rules, S is at most C"
pub fn bucket_fits(n: u16, words: &[u32], conn: u16) -> bool
    requires { HasConnection conn words.now }
    ensures { result ≡ bucket_fits n (connection_at words.now conn).bucket }
{
    let base = WORDS_PER_CONNECTION * usize::from(conn);
    let c = words[base + AT_C];
    obeys_rules(n, words[base + AT_M], words[base + AT_F], c) && words[base + AT_S] <= c
}

// Whether a connection has no second bucket, and all words of one are 0: the common case. Told by two tests of several words at once: as
// one test they would be loaded as a vector, in more instructions.
pub fn none_second(words: &[u32], conn: u16) -> bool
    requires { HasConnection conn words.now }
    ensures { result ≡ has_none (connection_at words.now conn) }
{
    let base = WORDS_PER_CONNECTION * usize::from(conn);
    words[base + AT_SECOND_M] | words[base + AT_SECOND_F] | words[base + AT_SECOND_C] == 0
        && words[base + AT_SECOND_S] | words[base + AT_TAG] == 0
}

// A second bucket's words and the flag, as the peak bucket's. By other rules, of other places and with the flag: one function for
// both would be no plainer.
pub fn second_fits(words: &[u32], conn: u16) -> bool
    requires { HasConnection conn words.now }
    ensures { result ≡ second_in_range (connection_at words.now conn).second (connection_at words.now conn).tag }
{
    let base = WORDS_PER_CONNECTION * usize::from(conn);
    let c = words[base + AT_SECOND_C];
    obeys_second(
        words[base + AT_SECOND_M],
        words[base + AT_SECOND_F],
        c,
        words[base + AT_TAG],
    ) && words[base + AT_SECOND_S] <= c
}

// The words of a closed connection fit whatever they hold, but for the open word; those of an open one by their ranges.
pub fn connection_fits(n: u16, words: &[u32], conn: u16) -> bool
    requires { HasConnection conn words.now }
    ensures { result ≡ connection_fits n (connection_at words.now conn) }
{
    let base = WORDS_PER_CONNECTION * usize::from(conn);
    match words[base] {
        0 => true,
        1 => bucket_fits(n, words, conn)
            && second_fits(words, conn)
            && words[base + AT_WAITING] <= u32::from(n),
        _ => false,
    }
}

// All words of a connection set as an opening or a closing has them: nothing in its buckets, and no cell waits.
pub fn write_connection(
    words: &mut [u32],
    conn: u16,
    opened: u32,
    m: u32,
    f: u32,
    c: u32,
    last: u32,
    m2: u32,
    f2: u32,
    c2: u32,
    tag: u32,
)
    requires { HasConnection conn words.old }
    ensures { words.new ≡ write_connection words.old conn (bare_connection opened (bucket_of m f c 0) last (second_of m2 f2 c2 tag)) }
{
    let base = WORDS_PER_CONNECTION * usize::from(conn);
    words[base] = opened;
    words[base + AT_M] = m;
    words[base + AT_F] = f;
    words[base + AT_C] = c;
    words[base + AT_S] = 0;
    words[base + AT_LAST] = last;
    words[base + AT_WAITING] = 0;
    words[base + AT_SECOND_M] = m2;
    words[base + AT_SECOND_F] = f2;
    words[base + AT_SECOND_C] = c2;
    words[base + AT_SECOND_S] = 0;
    words[base + AT_TAG] = tag;
}
