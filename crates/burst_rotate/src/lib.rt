// Step 2 on a likely way: `slot_arrive::bring` again, without its tests for numbers 0 and V, over wide numbers, and laid into the
// burst's loop. What is out of range leaves the likely way with everything as it came, and the slot is then served as the call has it.
#![tactic(auto)]

ghost use Rattle.std.specs.Prelude.{◌≡◌, true, ◌≤◌, ◌<◌, get_or};
ghost use Rattle.meaning.specs.Numbers.{most_n, most_v, connections_in, connection_place, unused};
ghost use Rattle.meaning.specs.State.{HasConnection};
ghost use Rattle.meaning.specs.Words.{connection_at};
ghost use Rattle.slot_arrive.specs.Arrival.{connection_now, brought_of};
ghost use Rattle.slot_arrive.specs.Both.{brought_both};

use burst_way::Way;
use meaning::{
    AT_C, AT_F, AT_LAST, AT_M, AT_S, AT_SECOND_C, AT_SECOND_F, AT_SECOND_M, AT_SECOND_S, AT_TAG,
    WORDS_PER_CONNECTION,
};
use slot_arrive::Fall;

// Records 0 and V are no connection's, and nothing is written to them: their open word is 0, as the caller knows, so that the test for
// a closed connection is theirs too. Where nothing is in the bucket and there is no second one nothing falls: most are so, and it is
// told early, by two tests of several words at once. The words are read at one place b: a number narrowed for a callee would be
// widened again there.
pub fn turned(w: Way, words: &[u32]) -> Option<Option<Fall>>
    requires n_le_most_n { (w.n ≤ most_n) × (HasConnection w.rotation words.now) × (unused w.v w.rotation ≡ true → get_or words.now (connection_place w.rotation) 0 ≡ 0) }
    requires v_le_most_v { (w.v ≤ most_v) × (w.rotation < connections_in w.v) }
    ensures { result ≡ brought_of w.n w.v w.t words.now w.rotation }
{
    let b = WORDS_PER_CONNECTION * w.rotation;
    let o = words[b];
    if o == 0 {
        return Some(None);
    }
    if o == 1 {
        let c = words[b + AT_C];
        if leaf_bucket::obeys_rules(w.n as u16, words[b + AT_M], words[b + AT_F], c) {
            if words[b + AT_S] | words[b + AT_SECOND_M] | words[b + AT_SECOND_F] == 0
                && words[b + AT_SECOND_C] | words[b + AT_SECOND_S] | words[b + AT_TAG] == 0
            {
                return Some(Some(Fall { s: 0, second: 0 }));
            }
            if words[b + AT_S] <= c {
                let fall = bring_at(w, words, b)?;
                return Some(Some(fall));
            }
        }
    }
    None
}

// Step 2 of an open connection whose peak bucket is in range, its words standing at b: as `slot_arrive::bring` has it.
fn bring_at(w: Way, words: &[u32], b: usize) -> Option<Fall>
    requires b_value { (b ≡ connection_place w.rotation) × (HasConnection w.rotation words.now) × (w.rotation < connections_in most_v) }
    requires rotation_bound { (connection_at words.now w.rotation).bucket.m ≤ 15 }
    ensures { result ≡ brought_both w.t (connection_at words.now w.rotation) (connection_now w.t (connection_at words.now w.rotation)).bucket.S }
{
    let s = leaf_bucket::fallen_to(words[b + AT_S], words[b + AT_M], words[b + AT_LAST], w.t);
    if words[b + AT_SECOND_M] | words[b + AT_SECOND_F] | words[b + AT_SECOND_C] == 0
        && words[b + AT_SECOND_S] | words[b + AT_TAG] == 0
    {
        return Some(Fall { s, second: 0 });
    }
    slot_arrive::bring_both(words, w.rotation as u16, w.t, s)
}
