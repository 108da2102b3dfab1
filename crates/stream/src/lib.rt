// The rules of one reserved stream: what an arriving frame and a tick do to its record. The record goes in by value and comes
// back, with the answer. The definitions are in specs/, in document 01's order.
#![tactic(auto)]

pub mod answer;

ghost use Rattle.std.specs.Prelude.{◌≡◌, ◌≤◌, ◌<◌};
ghost use Rattle.stream.specs.State.{at_place, full_at, reserve_of};
ghost use Rattle.stream.specs.Steps.{advanced, advanced_if_spent, joined, discarded, arrive_of, tick_of};
ghost use Rattle.stream.specs.Replies.{answered, reply_of, stream_of};

pub use answer::{Numbers, Refusal};

// The first place, current: a number and no enum, since the later places and the queues' roles are counted on from it.
pub const CURRENT: u8 = 1;

// One stream: whether it is reserved, its permitted octets per epoch (P), its place, and the octets still free there (left). The methods
// below neither read nor change whether it is reserved: that is for the port to ask. Those of an arrival take the port's last place.
// Reserved stays a flag beside the numbers, and no Option of them: the layout is that of an export (`bunnysolder_stream_arrive`).
#[repr(C)]
#[derive(Clone, Copy, Drop)]
pub struct Stream {
    pub reserved: bool,
    pub permitted: u16,
    pub place: u8,
    pub left: u16,
}

// What becomes of an arriving frame: it joins the queue at a place, or it is discarded. The stream's new record comes with it. It stays an enum of its own,
// and no Result: a discard has a record that the caller stores, which `?` would pass by.
#[derive(Clone, Copy, Drop)]
pub enum Arrival {
    Joined(u8, Stream),
    Discarded(Stream),
}

// The reply of a call: its refusal, or 0, and two numbers. It stays numbers: C is handed them so, and the definitions speak of them. Code answers a Result.
#[derive(Clone, Copy, Drop)]
pub struct Reply {
    pub refusal: u8,
    pub first: u32,
    pub second: u32,
}

impl Stream {
    // A stream as its reservation leaves it: at current, with all of P left.
    pub fn reserve(permitted: u16) -> Stream
        ensures { result ≡ reserve_of permitted }
    {
        Stream {
            reserved: true,
            permitted,
            place: CURRENT,
            left: permitted,
        }
    }

    // The same stream at a place, with so much left there.
    fn at(self, place: u8, left: u16) -> Stream
        ensures { result ≡ at_place self place left }
    {
        Stream {
            reserved: self.reserved,
            permitted: self.permitted,
            place,
            left,
        }
    }

    // The same stream at a place, with all of P left there.
    fn full_at(self, place: u8) -> Stream
        ensures { result ≡ full_at self place }
    {
        self.at(place, self.permitted)
    }

    // One place further.
    fn advanced(self) -> Stream
        requires { self.place < 255 }
        ensures { result ≡ advanced self }
    {
        self.full_at(self.place + 1)
    }

    // One place further if nothing is left, unless the place is the last.
    fn advanced_if_spent(self, last: u8) -> Stream
        ensures { result ≡ advanced_if_spent last self }
    {
        if self.left != 0 {
            return self;
        }
        if last <= self.place {
            return self;
        }
        self.advanced()
    }

    // A frame that fits joins the queue at the place.
    fn joined(self, last: u8, charge: u16) -> Arrival
        requires { charge ≤ self.left }
        ensures { result ≡ joined last self charge }
    {
        let place = self.place;
        let spent = self.at(place, self.left - charge);
        Arrival::Joined(place, spent.advanced_if_spent(last))
    }

    // A frame that does not fit at the place joins the queue at the one after it.
    fn joined_next(self, last: u8, charge: u16) -> Arrival
        requires { (self.place < last) × (charge ≤ self.permitted) }
        ensures { result ≡ joined last (advanced self) charge }
    {
        self.advanced().joined(last, charge)
    }

    // A frame that fits nowhere is discarded, and the stream is spent.
    fn discarded(self, last: u8) -> Arrival
        ensures { result ≡ discarded last self }
    {
        Arrival::Discarded(self.at(last, 0))
    }

    // The frame joins at the place, or at the one after it, or is discarded. After one advance left is P, so a frame that fits neither
    // at the place nor in P fits nowhere, and no further place has to be tried.
    pub fn arrive(self, last: u8, charge: u16) -> Arrival
        ensures { result ≡ arrive_of last self charge }
    {
        if charge <= self.left {
            return self.joined(last, charge);
        }
        if self.permitted < charge {
            return self.discarded(last);
        }
        if self.place < last {
            return self.joined_next(last, charge);
        }
        self.discarded(last)
    }

    // An arrival on a stream that the caller keeps: the record that the rule hands back is stored.
    pub fn receive(&mut self, last: u8, charge: u16) -> Arrival
        ensures { (result ≡ arrive_of last self.old charge) × (self.new ≡ stream_of (arrive_of last self.old charge)) }
    {
        let arrival = (*self).arrive(last, charge);
        *self = arrival.stream();
        arrival
    }

    // A tick: at current the stream has all of P again; from a later place it comes one place nearer.
    pub fn tick(self) -> Stream
        ensures { result ≡ tick_of self }
    {
        if self.place <= CURRENT {
            return self.at(CURRENT, self.permitted);
        }
        self.at(self.place - 1, self.left)
    }
}

impl Arrival {
    // The stream's record after the arrival.
    pub fn stream(self) -> Stream
        ensures { result ≡ stream_of self }
    {
        match self {
            Arrival::Joined(_, stream) => stream,
            Arrival::Discarded(stream) => stream,
        }
    }

    // What the arrival answers: the place and what is left, or that the frame is discarded.
    pub fn answer(self) -> Result<Numbers, Refusal>
        ensures { answered result ≡ reply_of self }
    {
        match self {
            Arrival::Joined(place, stream) => Ok(Numbers::new(place as u32, stream.left as u32)),
            Arrival::Discarded(_) => Err(Refusal::Discard),
        }
    }
}
