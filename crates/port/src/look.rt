// How a call looks at what the host lends before it does anything: all of it, or its lengths alone.
ghost use Rattle.std.specs.Prelude.{◌≡◌, ℕ, List};
ghost use Rattle.stream.specs.Replies.{refusal_number};
ghost use Rattle.fitness.specs.Fit.{lent_refusal};
ghost use Rattle.port.specs.Long.{Long};
ghost use Rattle.port.specs.Quick.{length_refusal};
ghost use Rattle.port.specs.Enough.{lent_enough, long_enough};

use stream::Refusal;

// A way to look at what is lent.
pub trait Look {
    // The number of the refusal of record and memory, 18 or 19, or 0.
    ghost lent: { List ℕ → List ℕ → ℕ };

    // The refusal of record and memory, where they are refused.
    fn look(port: &[u8], memory: &[u8]) -> Result<(), Refusal>
        ensures { refusal_number result ≡ lent port.now memory.now };

    // What is not refused is long enough.
    ghost enough: { (p m : List ℕ) → lent p m ≡ 0 → Long p m };
}

// The calls' way: the record and the frames that wait are scanned whole.
pub struct Scanned;

impl Look for Scanned {
    ghost lent = { lent_refusal };

    fn look(port: &[u8], memory: &[u8]) -> Result<(), Refusal> {
        fitness::refusal(port, memory)
    }

    ghost enough = { lent_enough };
}

// The quick calls' way, for a host that alone writes the record: nothing is scanned. On a fit record each quick call equals the call.
pub struct Unscanned;

impl Look for Unscanned {
    ghost lent = { length_refusal };

    fn look(port: &[u8], memory: &[u8]) -> Result<(), Refusal> {
        if memory.len() < record::head::memory_length(port) {
            return Err(Refusal::ShortMemory);
        }
        if port.len() < record::RECORD_LENGTH {
            return Err(Refusal::UnfitRecord);
        }
        Ok(())
    }

    ghost enough = { long_enough };
}
