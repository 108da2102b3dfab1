// What the steps of a port share: the roles of the queues, and a stream moved. The steps themselves stand in the crates above, each
// what a call does once nothing refuses it. Each is defined for every record and memory that are long enough, fit or not, and writes only
// what its rule names.
#![tactic(auto)]

ghost use Rattle.std.specs.Prelude.{◌≡◌, ◌+◌, ◌%◌, ◌≤◌, ◌<◌};
ghost use Rattle.stream.specs.State.{least_queues, most_queues};
ghost use Rattle.record.specs.Layout.{Whole, stream_count};
ghost use Rattle.record.specs.Queues.{queues_at};
ghost use Rattle.record.specs.Head.{prior_at};
ghost use Rattle.steps.specs.Moves.{moved};

use stream::Stream;

// The roles prior and current. A role is a number and no enum: the roles from current on have the numbers of the places, and a role's queue
// is counted on from prior's by it.
pub const PRIOR: u8 = 0;

pub const CURRENT: u8 = stream::CURRENT;

// What the roles of the queues go by, read once for a step: how many queues there are for reserved traffic, and which of them is prior.
#[derive(Clone, Copy, Drop)]
pub struct Roles {
    pub queues: u8,
    pub prior: u8,
}

impl Roles {
    // The roles of a port.
    pub fn of(port: &[u8]) -> Roles
        requires { Whole port.now }
        ensures { ((result.queues ≡ queues_at port.now) × (result.prior ≡ prior_at port.now)) × ((least_queues ≤ result.queues) × (result.queues ≤ most_queues)) }
    {
        Roles {
            queues: record::head::queues(port),
            prior: record::head::prior(port),
        }
    }

    // The number of the queue in a role.
    pub fn queue(self, role: u8) -> u8
        requires { 0 < self.queues }
        ensures { (result ≡ (self.prior + role) % self.queues) × (result < self.queues) }
    {
        ((self.prior as u16 + role as u16) % self.queues as u16) as u8
    }
}

// Puts the stream where its rule has moved it.
pub fn move_to(port: &mut [u8], stream: u8, next: Stream)
    requires { Whole port.old × (stream < stream_count) }
    ensures { port.new ≡ moved port.old stream next }
{
    record::entry::put_place(port, stream, next.place, next.left);
}
