// The events of a capture, each played on a port by the quick calls: on a record that was fit at first, as a fresh one is, they are the calls.
ghost use Rattle.std.specs.Prelude.{◌≡◌, true, ◌+◌, ◌*◌, ◌≤◌, ◌<◌, length};
ghost use Rattle.fitness.specs.Fit.{record_fits};
ghost use Rattle.stream.specs.Replies.{answered};
ghost use Rattle.steps.specs.Outcome.{outcome};
ghost use Rattle.port_laws.specs.Lists.{fresh_record, fresh_memory};
ghost use Rattle.port.specs.Quick.{quickly_called};
ghost use Rattle.text.specs.Pages.{Written};
ghost use Rattle.capture_file.specs.File.{kind_of, most_events, chain_within};
ghost use Rattle.capture_file.specs.Checks.{most_octets, chain_refusal};
ghost use Rattle.capture_file.specs.Kinds.{kind_number};
ghost use Rattle.capture.specs.Events.{call_of, event_line, lines_of};
ghost use Rattle.capture.specs.Output.{line_bound};
ghost use Rattle.capture.specs.Quick.{quick_event};

use capture_file::{Kind, Record};
use port::Unscanned;
use stream::{Numbers, Refusal, Reply};
use text::Page;

// A port that is played: its number, its record, and the memory that it is lent, which is enough for the fewest queues.
#[derive(Drop)]
pub(crate) struct Played {
    number: u8,
    port: [u8; record::RECORD_LENGTH],
    memory: [u8; record::LEAST_MEMORY_LENGTH],
}

impl Played {
    // The port of this number, which was never opened.
    pub(crate) fn fresh(number: u8) -> Played
        ensures numbered { result.number ≡ number }
        ensures blank_port { result.port ≡ fresh_record }
        ensures blank_memory { result.memory ≡ fresh_memory }
    {
        Played {
            number,
            port: [0; record::RECORD_LENGTH],
            memory: [0; record::LEAST_MEMORY_LENGTH],
        }
    }

    // Makes the call of a kind.
    fn call(&mut self, kind: Kind, stream: u8, a: u32, b: u32) -> Result<Numbers, Refusal>
        ensures called { outcome (answered result) self.new.port self.new.memory ≡ quickly_called (call_of (kind_number kind) stream a b) self.old.port self.old.memory }
        ensures same_number { self.new.number ≡ self.old.number }
    {
        let Played { port, memory, .. } = self;
        match kind {
            Kind::Open => port::open_port::<Unscanned>(port, memory, a, b),
            Kind::Reserve => port::reserve::<Unscanned>(port, memory, stream, a),
            Kind::Arrive => port::arrive::<Unscanned>(port, memory, stream, a, b),
            Kind::BestEffort => port::best_effort::<Unscanned>(port, memory, a, b),
            Kind::Tick => port::tick::<Unscanned>(port, memory),
            Kind::Transmit => port::transmit::<Unscanned>(port, memory),
            Kind::Withdraw => port::withdraw::<Unscanned>(port, memory, stream),
        }
    }

    // Makes the call of an event. One of no kind, which no good file has, is a transmit.
    #[tactic(auto, using(crate::proofs::PlayLaws::kind_calls))]
    fn play(&mut self, event: Record<'_>) -> Result<Numbers, Refusal>
        ensures played { outcome (answered result) self.new.port self.new.memory ≡ quick_event event.entry.file.now event.entry.index self.old.port self.old.memory }
        ensures same_number { self.new.number ≡ self.old.number }
    {
        let kind = Kind::try_from(event.kind()).unwrap_or(Kind::Transmit);
        self.call(kind, event.stream(), event.number_a(), event.number_b())
    }

    // Plays an event as the one of this number, and writes its line.
    fn put_event(&mut self, event: Record<'_>, number: u32, page: &mut Page<'_>)
        requires numbers { (self.old.number < 10) × ((number < 10000) × (kind_of event.file.now event.index < 10)) }
        requires room { page.old.end + line_bound ≤ length page.old.octets.now }
        ensures written { Written page.old (event_line self.old.number number (kind_of event.entry.file.now event.entry.index) (quick_event event.entry.file.now event.entry.index self.old.port self.old.memory).reply) page.new }
        ensures record_after { self.new.port ≡ (quick_event event.entry.file.now event.entry.index self.old.port self.old.memory).port }
        ensures memory_after { self.new.memory ≡ (quick_event event.entry.file.now event.entry.index self.old.port self.old.memory).memory }
        ensures same_number { self.new.number ≡ self.old.number }
        ensures bound { page.new.end ≤ page.old.end + line_bound }
    {
        let reply = Reply::from(self.play(event));
        crate::lines::put_reply(page, self.number, number, event.kind(), reply);
    }

    // Plays the events of a chain in turn, and writes their lines.
    #[tactic(auto, using(crate::proofs::PlayLaws::chain_steps))]
    pub(crate) fn put_chain(&mut self, first: Record<'_>, page: &mut Page<'_>)
        requires good_chain { (chain_refusal first.file.now (most_events first.file.now) first.index).number ≡ 0 }
        requires numbers { (self.old.number < 10) × (length first.file.now ≤ most_octets) }
        requires fit { record_fits self.old.port self.old.memory ≡ true }
        requires room { page.old.end + most_events first.file.now * line_bound ≤ length page.old.octets.now }
        ensures written { Written page.old (lines_of first.entry.file.now self.old.number 1 (chain_within first.entry.file.now (most_events first.entry.file.now) first.entry.index) self.old.port self.old.memory) page.new }
        ensures bound { page.new.end ≤ page.old.end + most_events first.entry.file.now * line_bound }
    {
        let mut event = first;
        let mut number: u32 = 1;
        // Stays a `while`: a chain ends where a next index is 0, and a range of numbers would only count beside it.
        while event.index != 0 {
            self.put_event(event, number, page);
            event = Record::new(event.file, event.next());
            number += 1;
        }
    }
}
