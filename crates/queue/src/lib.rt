// Frames in the memory that the host lends, and one queue of them: first in first out over 256 places, in the queue's part of the
// memory. The definitions are in specs/.
#![tactic(auto)]

mod place;

ghost use Rattle.std.specs.Prelude.{◌≡◌, ◌+◌, ◌*◌, ◌≤◌, ◌<◌, length};
ghost use Rattle.queue.specs.Place.{frame_at, with_frame};
ghost use Rattle.queue.specs.Ring.{place_count, part_length, HasPart, ring_offset, memory_offset, joined_memory, front_of, joined_queue, sent_queue, empty_queue};
ghost use Rattle.queue.specs.Waiting.{waiting, charges_of};

// The places of a queue, and the octets of its part of the memory.
pub const PLACES: u16 = 256;

const PLACE_COUNT: usize = PLACES as usize;

pub const PART_LENGTH: usize = PLACE_COUNT * place::LENGTH;

// A frame by its stream, its charge (the octets that it costs on the wire) and its tag (the caller's number for it).
#[derive(Clone, Copy, Drop)]
pub struct Frame {
    pub stream: u16,
    pub charge: u16,
    pub tag: u32,
}

// A queue: the place of its oldest frame, and how many frames wait. It stays two numbers beside the memory, and no collection: the host lends both, and
// nothing is allocated. Its number in the memory stays a parameter beside it: the record has start and count by that number, where they go back.
#[derive(Clone, Copy, Drop)]
pub struct Queue {
    pub start: u16,
    pub count: u16,
}

impl Queue {
    // A queue with no frame, as opening and purging leave it.
    pub fn empty() -> Queue
        ensures { result ≡ empty_queue }
    {
        Queue { start: 0, count: 0 }
    }

    // The queue after a frame has joined.
    pub fn joined(self) -> Queue
        requires { self.count < place_count }
        ensures { result ≡ joined_queue self }
    {
        Queue {
            start: self.start,
            count: self.count + 1,
        }
    }

    // The queue after its oldest frame has been sent.
    pub fn sent(self) -> Queue
        requires { 0 < self.count }
        ensures { result ≡ sent_queue self }
    {
        Queue {
            start: ((self.start as usize + 1) % PLACE_COUNT) as u16,
            count: self.count - 1,
        }
    }

    // Where, in the queue's part, the place of its frame number i begins, counted from its oldest.
    fn offset(self, i: u16) -> usize
        ensures { result ≡ ring_offset self i }
    {
        (self.start as usize + i as usize) % PLACE_COUNT * place::LENGTH
    }
}

// Where the part of the queue of this number begins in the whole memory.
fn part_start(number: u8) -> usize
    ensures { result ≡ number * part_length }
{
    number as usize * PART_LENGTH
}

// The frame joins the queue whose part this is: it is written after the last that waits.
fn join(part: &mut [u8], queue: Queue, frame: Frame)
    requires { part_length ≤ length part.old }
    ensures { part.new ≡ with_frame part.old (ring_offset queue queue.count) frame }
{
    place::write(part, queue.offset(queue.count), frame);
}

// The frame joins the queue of this number in the whole memory, whose part of it is handed on: no octet of another place changes.
#[tactic(auto, using(crate::proofs::PlaceLaws::frame_put_mid), unfolding(crate::specs::Ring::joined_memory))]
pub fn join_at(memory: &mut [u8], number: u8, queue: Queue, frame: Frame)
    requires { HasPart memory.old number }
    ensures { memory.new ≡ joined_memory memory.old number queue frame }
{
    let from = part_start(number);
    let to = from + PART_LENGTH;
    join(&mut memory[from..to], queue, frame);
}

// The frame number i, counted from the oldest, of the queue of this number in the whole memory.
pub fn frame_at(memory: &[u8], number: u8, queue: Queue, i: u16) -> Frame
    requires { HasPart memory.now number }
    ensures { result ≡ frame_at memory.now (memory_offset number queue i) }
{
    place::read(memory, part_start(number) + queue.offset(i))
}

// The oldest frame of the queue of this number in the whole memory.
#[tactic(auto, unfolding(crate::specs::Ring::front_of))]
pub fn front_at(memory: &[u8], number: u8, queue: Queue) -> Frame
    requires { HasPart memory.now number }
    ensures { result ≡ front_of memory.now number queue }
{
    frame_at(memory, number, queue, 0)
}

// The charge of the frame number i, counted from the oldest, of the queue of this number in the whole memory.
fn charge_at(memory: &[u8], number: u8, queue: Queue, i: u16) -> u16
    requires { HasPart memory.now number }
    ensures { result ≡ (frame_at memory.now (memory_offset number queue i)).charge }
{
    place::charge(memory, part_start(number) + queue.offset(i))
}

// The sum of the charges that wait in the queue of this number in the whole memory.
#[tactic(auto, using(crate::proofs::WaitingLaws::charges_waiting), unfolding(lists::specs::Turns::sum_to))]
pub fn charges(memory: &[u8], number: u8, queue: Queue) -> u32
    requires { HasPart memory.now number }
    ensures { result ≡ charges_of (waiting memory.now number queue) }
{
    let mut sum: u32 = 0;
    for i in 0..queue.count {
        sum += charge_at(memory, number, queue, i) as u32;
    }
    sum
}
