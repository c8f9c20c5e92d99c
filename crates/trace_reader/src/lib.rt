// The trace reader: the lent trace together with its place in it. Each function is thin: it takes the reader apart, and
// the crate trace_record does the work on a plain slice and a number.
#![tactic(auto)]

ghost use Rattle.trace_reader.specs.Promises.{make_promise, next_promise, on_promise, here_promise};
ghost use Rattle.trace_record.specs.Promises.{event_promise};

use trace_record::Found;

#[derive(Clone, Copy)]
pub struct Reader<'a> {
    trace: &'a [u8],
    at: usize,
}

impl<'a> Reader<'a> {
    // A reader of a trace, at a place of it: 0 for the first record.
    pub fn make(trace: &'a [u8], at: usize) -> Reader<'a>
        ensures { make_promise trace.entry at result }
    {
        Reader { trace, at }
    }

    // What stands at the reader's place.
    pub fn read_next(self) -> Found
        ensures { next_promise self.entry result }
    {
        trace_record::event_at(self.trace, self.at)
    }

    // The reader at the place after what it found.
    pub fn move_on(self, found: Found) -> Reader<'a>
        ensures { on_promise self.entry found result }
    {
        Reader {
            at: trace_record::place_after(found, self.at),
            ..self
        }
    }

    // Where the reader stands.
    pub fn place(self) -> usize
        ensures { here_promise self.entry result }
    {
        self.at
    }
}

// What stands at a place, with plain parameters: whoever calls this one needs no walk.
pub fn read_at(trace: &[u8], at: usize) -> Found
    ensures { event_promise trace.now at result }
{
    Reader::make(trace, at).read_next()
}
