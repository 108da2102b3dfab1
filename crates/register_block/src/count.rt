// The counts that are held for each stream, and each stream's place for them in the block.
ghost use Rattle.std.specs.Prelude.{◌≡◌, ◌<◌};
ghost use Rattle.record.specs.Layout.{stream_count};
ghost use Rattle.register_block.specs.Layout.{WholeBlock};
ghost use Rattle.register_block.specs.Fields.{word_at, with_word};
ghost use Rattle.register_block.specs.Events.{for_stream, raised};
ghost use Rattle.register_block.specs.Shown.{shown_count};
ghost use Rattle.register_block.specs.Kinds.{count_octet};

// Where the counts of stream 0 begin, the octets of a stream's two, and those of one.
pub(crate) const START: usize = 16;

pub(crate) const BOTH_LENGTH: usize = 8;

const LENGTH: usize = crate::REGISTER_LENGTH as usize;

// A count: of a stream's accepted frames, or of its discards.
#[derive(Clone, Copy, Debug, PartialEq, Eq, Drop)]
pub enum Count {
    Accepted,
    Discarded,
}

impl Count {
    // Where the count of a stream begins.
    fn octet(self, stream: u8) -> usize
        ensures { result ≡ count_octet self stream }
    {
        let accepted = START + usize::from(stream) * BOTH_LENGTH;
        match self {
            Count::Accepted => accepted,
            Count::Discarded => accepted + LENGTH,
        }
    }

    // The count of a stream.
    pub fn of(self, block: &[u8], stream: u8) -> u32
        requires { WholeBlock block.now × (stream < stream_count) }
        ensures { result ≡ word_at block.now (count_octet self stream) }
    {
        crate::word_at(block, self.octet(stream))
    }

    // Raises the count of a stream; for a number that is no stream's it does nothing.
    pub(crate) fn raise(self, block: &mut [u8], stream: u8)
        requires { WholeBlock block.old }
        ensures { block.new ≡ for_stream stream (λ l. raised l (count_octet self stream)) block.old }
    {
        if stream < record::STREAMS {
            crate::raise(block, self.octet(stream));
        }
    }

    // Sets the count of a stream to 0.
    pub(crate) fn clear(self, block: &mut [u8], stream: u8)
        requires { WholeBlock block.old × (stream < stream_count) }
        ensures { block.new ≡ with_word block.old (count_octet self stream) 0 }
    {
        crate::put_word(block, self.octet(stream), 0);
    }

    // The count of the chosen stream, 0 where no stream is chosen.
    #[tactic(auto, unfolding(crate::specs::Shown::shown_count))]
    pub(crate) fn chosen(self, block: &[u8]) -> u32
        requires { WholeBlock block.now }
        ensures { result ≡ shown_count (count_octet self) block.now }
    {
        match u8::try_from(crate::word_at(block, crate::CHOICE)) {
            Ok(stream) if stream < record::STREAMS => self.of(block, stream),
            _ => 0,
        }
    }
}
