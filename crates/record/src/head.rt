// The fields of the record's head: open or closed, prior, K, L, W, the number of queues, and the start and count of each. Each stays a pair of
// functions of its own, and no generic field by its place and width: the bodies are one line, and each contract says which field it is.
#![tactic(auto, unfolding(crate::specs::Head::open_at, crate::specs::Head::with_open, crate::specs::Head::prior_at, crate::specs::Head::with_prior, crate::specs::Head::delay_at, crate::specs::Head::with_delay, crate::specs::Head::link_at, crate::specs::Head::with_link, crate::specs::Head::waits_at, crate::specs::Head::with_waits))]

ghost use Rattle.std.specs.Prelude.{◌≡◌, ◌≤◌, ◌<◌};
ghost use Rattle.stream.specs.State.{least_queues, most_queues};
ghost use Rattle.record.specs.Layout.{Whole, memory_length, queue_room, queue_offset};
ghost use Rattle.record.specs.Queues.{queues_at, last_place_at, best_effort_at};
ghost use Rattle.record.specs.Head.{open_at, with_open, prior_at, with_prior, delay_at, with_delay, link_at, with_link, waits_at, with_waits, queue_at, with_queue};

use queue::Queue;

// Where the fields begin.
const OPEN: usize = 0;

const PRIOR: usize = 1;

const DELAY: usize = 2;

const LINK: usize = 6;

const WAITS: usize = 8;

const QUEUES: usize = 16;

// The octets of a queue's start and count, and where among them the count begins.
const QUEUE_LENGTH: usize = 4;

const COUNT: usize = 2;

// Whether the port is open.
pub fn is_open(port: &[u8]) -> bool
    requires { Whole port.now }
    ensures { result ≡ open_at port.now }
{
    port[OPEN] == crate::YES
}

// Marks the port open.
pub fn put_open(port: &mut [u8])
    requires { Whole port.old }
    ensures { port.new ≡ with_open port.old }
{
    crate::put_octet(port, OPEN, crate::YES);
}

// The number of the queue that is prior.
pub fn prior(port: &[u8]) -> u8
    requires { Whole port.now }
    ensures { result ≡ prior_at port.now }
{
    port[PRIOR]
}

// Makes the queue of this number prior.
pub fn put_prior(port: &mut [u8], number: u8)
    requires { Whole port.old }
    ensures { port.new ≡ with_prior port.old number }
{
    crate::put_octet(port, PRIOR, number);
}

// K, the best-effort delay bound in epochs.
pub fn delay(port: &[u8]) -> u8
    requires { Whole port.now }
    ensures { result ≡ delay_at port.now }
{
    port[DELAY]
}

// Writes K.
pub fn put_delay(port: &mut [u8], epochs: u8)
    requires { Whole port.old }
    ensures { port.new ≡ with_delay port.old epochs }
{
    crate::put_octet(port, DELAY, epochs);
}

// L, the link octets in an epoch.
pub fn link(port: &[u8]) -> u16
    requires { Whole port.now }
    ensures { result ≡ link_at port.now }
{
    octets::two_at(port, LINK)
}

// Writes L.
pub fn put_link(port: &mut [u8], octets: u16)
    requires { Whole port.old }
    ensures { port.new ≡ with_link port.old octets }
{
    octets::put_two(port, LINK, octets);
}

// W, the sum of charges waiting in best effort.
pub fn waits(port: &[u8]) -> u32
    requires { Whole port.now }
    ensures { result ≡ waits_at port.now }
{
    octets::four_at(port, WAITS)
}

// Writes W.
pub fn put_waits(port: &mut [u8], octets: u32)
    requires { Whole port.old }
    ensures { port.new ≡ with_waits port.old octets }
{
    octets::put_four(port, WAITS, octets);
}

// The queues for reserved traffic, of a slice of any length.
#[tactic(auto, using(crate::proofs::QueueLaws::queues_least, crate::proofs::QueueLaws::queues_most), unfolding(crate::specs::Queues::queues_at))]
pub fn lent_queues(port: &[u8]) -> u8
    ensures { (result ≡ queues_at port.now) × ((least_queues ≤ result) × (result ≤ most_queues)) }
{
    crate::LEAST_QUEUES
}

// The queues for reserved traffic, of a whole record. It stays beside the one above, by which 18 goes: what is said of a whole record is asked of one.
pub fn queues(port: &[u8]) -> u8
    requires { Whole port.now }
    ensures { (result ≡ queues_at port.now) × ((least_queues ≤ result) × (result ≤ most_queues)) }
{
    lent_queues(port)
}

// The last place.
pub fn last_place(port: &[u8]) -> u8
    requires { Whole port.now }
    ensures { result ≡ last_place_at port.now }
{
    queues(port) - 1
}

// The octets of the memory that the port asks for, of a slice of any length.
pub fn memory_length(port: &[u8]) -> usize
    ensures { result ≡ memory_length (queues_at port.now) }
{
    crate::memory_length(lent_queues(port))
}

// Where the start and count of the queue of this number begin.
fn queue_start(number: u8) -> usize
    ensures { result ≡ queue_offset number }
{
    QUEUES + number as usize * QUEUE_LENGTH
}

// The start and count of the queue of this number.
#[tactic(auto, using(crate::proofs::HeadLaws::queue_read))]
pub fn queue_at(port: &[u8], number: u8) -> Queue
    requires { Whole port.now × (number < queue_room) }
    ensures { result ≡ queue_at port.now number }
{
    let at = queue_start(number);
    Queue {
        start: octets::two_at(port, at),
        count: octets::two_at(port, at + COUNT),
    }
}

// The start and count of best effort.
pub fn best_effort(port: &[u8]) -> Queue
    requires { Whole port.now }
    ensures { result ≡ queue_at port.now (best_effort_at port.now) }
{
    queue_at(port, queues(port))
}

// Writes the start and count of the queue of this number.
#[tactic(auto, using(crate::proofs::HeadLaws::queue_written))]
pub fn put_queue(port: &mut [u8], number: u8, queue: Queue)
    requires { Whole port.old × (number < queue_room) }
    ensures { port.new ≡ with_queue port.old number queue }
{
    let at = queue_start(number);
    octets::put_two(port, at, queue.start);
    octets::put_two(port, at + COUNT, queue.count);
}
