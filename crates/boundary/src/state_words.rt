// The state as words: the count, then address and length of each record. `loaded` and `stored` undo
// each other on a state of the right length (proofs/WordLaws.antt).
ghost use Rattle.std.specs.Prelude.{◌≡◌, ◌<◌, length, get_or, drop};
ghost use Rattle.region.specs.Limits.{writes_limit};
ghost use Rattle.records.specs.Record.{no_record};
ghost use Rattle.records.specs.Words.{records_of};
ghost use Rattle.boundary.specs.Words.{state_words, state_of, words_of};

use desk::state::State;
use records::{LIST_WORDS, NO_RECORD, RECORD_WORDS, Record};
use region::WRITES_LIMIT;

pub const STATE_WORDS: usize = 1 + LIST_WORDS;

// What a program that links the library can ask.
pub fn state_words() -> usize
    ensures { result ≡ state_words }
{
    STATE_WORDS
}

// The state that the words say.
pub fn loaded(words: &[u64]) -> State
    requires { length words.now ≡ state_words }
    ensures { result ≡ state_of words.now }
{
    let mut records = [NO_RECORD; WRITES_LIMIT];
    for (i, r) in records.iter_mut().enumerate() {
        *r = record_at(words, i);
    }
    State {
        count: words[0] as usize,
        records,
    }
}

// The record that stands at index i among them.
#[tactic(auto, using(crate::proofs::WordLaws::said_at))]
fn record_at(words: &[u64], i: usize) -> Record
    requires { (length words.now ≡ state_words) × (i < writes_limit) }
    ensures { result ≡ get_or (records_of (drop 1 words.now)) i no_record }
{
    let at = 1 + RECORD_WORDS * i;
    Record {
        addr: words[at] as usize,
        len: words[at + 1] as usize,
    }
}

// The words that say the state.
pub fn stored(words: &mut [u64], state: State)
    requires { length words.old ≡ state_words }
    ensures { words.new ≡ words_of state }
{
    words[0] = state.count as u64;
    for (i, r) in state.records.iter().enumerate() {
        let at = 1 + RECORD_WORDS * i;
        words[at] = r.addr as u64;
        words[at + 1] = r.len as u64;
    }
}
