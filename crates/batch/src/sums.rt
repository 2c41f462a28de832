// A sum over bytes that goes by place, so that bytes that change places change it; and the same over every number of parts.
ghost use Rattle.std.specs.Prelude.{◌≡◌, ◌%◌, ◌<◌};
ghost use Rattle.model.specs.Bytes.{word_bytes, long_bytes};
ghost use Rattle.batch.specs.Batch.{sum_from};
ghost use Rattle.batch.specs.Parts.{words_bytes, kind_numbers, transition_numbers, table_numbers, recording_numbers, witness_numbers};

use model::{RecordingParts, TableParts, WitnessParts};

// A sum so far: it stays below this prime.
#[derive(Clone, Copy)]
struct Total {
    value: u64,
    ghost below: { value < 1000003 },
}

impl Total {
    // From any number on.
    fn from(value: u64) -> Total
        ensures { result.value ≡ value % 1000003 }
    {
        Total {
            value: value % 1000003,
        }
    }

    fn bytes(self, bytes: &[u8]) -> Total
        ensures { result.value ≡ sum_from self.value bytes.now }
    {
        let mut total = self;
        for b in bytes {
            total = Total::from(total.value * 257 + *b as u64 + 1);
        }
        total
    }

    fn word(self, word: u16) -> Total
        ensures { result.value ≡ sum_from self.value (word_bytes word) }
    {
        self.bytes(&word.to_be_bytes())
    }

    fn long(self, long: u32) -> Total
        ensures { result.value ≡ sum_from self.value (long_bytes long) }
    {
        self.bytes(&long.to_be_bytes())
    }

    fn words(self, words: &[u16]) -> Total
        ensures { result.value ≡ sum_from self.value (words_bytes words.now) }
    {
        let mut total = self;
        for w in words {
            total = total.word(*w);
        }
        total
    }
}

// Goes on from a sum.
pub fn sum(from: u64, bytes: &[u8]) -> u64
    ensures { (result ≡ sum_from (from % 1000003) bytes.now) × (result < 1000003) }
{
    Total::from(from).bytes(bytes).value
}

#[tactic(auto, using(crate::proofs::Summing::sum_append))]
fn sum_kinds(t: TableParts) -> Total
    ensures { result.value ≡ sum_from 1 (kind_numbers t) }
{
    let counts = [
        t.version,
        t.states,
        t.variables,
        t.clocks,
        t.kinds,
        t.transitions,
    ];
    Total::from(1)
        .bytes(&counts)
        .bytes(&t.directions)
        .bytes(&t.airtimes)
        .bytes(&t.devices)
}

fn sum_transitions(from: Total, t: TableParts) -> Total
    ensures { result.value ≡ sum_from from.value (transition_numbers t) }
{
    from.bytes(&t.sources)
        .bytes(&t.targets)
        .bytes(&t.triggers)
        .bytes(&t.sets)
        .bytes(&t.clears)
        .bytes(&t.resets)
        .bytes(&t.lengths)
        .bytes(&t.guards)
}

#[tactic(auto, using(crate::proofs::Summing::sum_append), unfolding(crate::specs::Parts::table_numbers))]
pub fn sum_table(t: TableParts) -> u64
    ensures { (result ≡ sum_from 1 (table_numbers t)) × (result < 1000003) }
{
    sum_transitions(sum_kinds(t), t).value
}

#[tactic(auto, using(crate::proofs::Summing::sum_append), unfolding(crate::specs::Parts::recording_numbers))]
pub fn sum_recording(r: RecordingParts) -> u64
    ensures { (result ≡ sum_from 1 (recording_numbers r)) × (result < 1000003) }
{
    Total::from(1)
        .word(r.count)
        .words(&r.times)
        .bytes(&r.kinds)
        .value
}

#[tactic(auto, using(crate::proofs::Summing::sum_append), unfolding(crate::specs::Parts::witness_numbers))]
pub fn sum_witness(w: WitnessParts) -> u64
    ensures { (result ≡ sum_from 1 (witness_numbers w)) × (result < 1000003) }
{
    Total::from(1)
        .long(w.count)
        .bytes(&w.marks)
        .words(&w.times)
        .bytes(&w.kinds)
        .bytes(&w.transitions)
        .value
}
