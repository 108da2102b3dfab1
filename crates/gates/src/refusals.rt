// What each call refuses of a record and memory that are long enough: the first refusal that applies, where one does.
ghost use Rattle.std.specs.Prelude.{◌≡◌, false, ◌+◌, ◌≤◌, ◌<◌, length, leb, ltb};
ghost use Rattle.stream.specs.Replies.{refusal_number};
ghost use Rattle.queue.specs.Ring.{place_count};
ghost use Rattle.record.specs.Layout.{Whole, address_length};
ghost use Rattle.record.specs.Queues.{best_effort_at};
ghost use Rattle.record.specs.Head.{link_at, waits_at, queue_at};
ghost use Rattle.ranges.specs.Ranges.{share_of};
ghost use Rattle.record.specs.Reservations.{permitted_sum};
ghost use Rattle.steps.specs.Call.{terms};
ghost use Rattle.best_effort.specs.BestEffort.{WaitsKept};
ghost use Rattle.gates.specs.Refusals.{open_refusal, reserve_refusal, stream_refusal, withdraw_refusal, arrive_refusal, closed_refusal, best_effort_limit, best_effort_refusal};
ghost use Rattle.gates.specs.FrameRefusals.{bind_refusal, frame_refusal};

use stream::Refusal;

// The refusal of Open.
pub(crate) fn open_port(port: &[u8], link: u32, delay: u32) -> Result<(), Refusal>
    requires { Whole port.now }
    ensures { refusal_number result ≡ open_refusal port.now (terms link delay) }
{
    if record::head::is_open(port) {
        return Err(Refusal::OpenAlready);
    }
    if !ranges::link_fits(link) {
        return Err(Refusal::LinkRange);
    }
    if !ranges::delay_fits(delay) {
        return Err(Refusal::DelayRange);
    }
    Ok(())
}

// The refusal of Tick and Transmit; every call but Open asks it first.
pub(crate) fn closed(port: &[u8]) -> Result<(), Refusal>
    requires { Whole port.now }
    ensures { refusal_number result ≡ closed_refusal port.now }
{
    if !record::head::is_open(port) {
        return Err(Refusal::Closed);
    }
    Ok(())
}

// What every call on a stream refuses first.
fn on_stream(port: &[u8], stream: u8) -> Result<(), Refusal>
    requires { Whole port.now }
    ensures { refusal_number result ≡ stream_refusal port.now stream }
{
    closed(port)?;
    if record::STREAMS <= stream {
        return Err(Refusal::StreamRange);
    }
    if record::entry::drains(port, stream) {
        return Err(Refusal::Draining);
    }
    Ok(())
}

// The refusal of Withdraw; Arrive and Bind, which are on a reserved stream too, ask it first.
pub(crate) fn on_reserved(port: &[u8], stream: u8) -> Result<(), Refusal>
    requires { Whole port.now }
    ensures { refusal_number result ≡ withdraw_refusal port.now stream }
{
    on_stream(port, stream)?;
    if !record::entry::stream_at(port, stream).reserved {
        return Err(Refusal::NotReserved);
    }
    Ok(())
}

// Whether R with this P is above the share. Where it is not, P is a number of 16 bits, since L is.
fn exceeds_share(port: &[u8], permitted: u32) -> bool
    requires { Whole port.now }
    ensures { (result ≡ ltb (share_of (link_at port.now)) (permitted_sum port.now + permitted)) × (result ≡ false → permitted < 65536) }
{
    let sum = fitness::streams::permitted_sum(port) as u64 + permitted as u64;
    (ranges::share(record::head::link(port)) as u64) < sum
}

// The refusal of Reserve. Where it refuses nothing, P is a number of 16 bits, since L is.
pub(crate) fn reserve(port: &[u8], stream: u8, permitted: u32) -> Result<(), Refusal>
    requires { Whole port.now }
    ensures { (refusal_number result ≡ reserve_refusal port.now stream permitted) × (refusal_number result ≡ 0 → permitted < 65536) }
{
    on_stream(port, stream)?;
    if record::entry::stream_at(port, stream).reserved {
        return Err(Refusal::ReservedAlready);
    }
    if !ranges::permitted_fits(permitted) {
        return Err(Refusal::PermittedRange);
    }
    if exceeds_share(port, permitted) {
        return Err(Refusal::ShareExceeded);
    }
    Ok(())
}

// The refusal of Arrive.
pub(crate) fn arrive(port: &[u8], stream: u8, charge: u32) -> Result<(), Refusal>
    requires { Whole port.now }
    ensures { refusal_number result ≡ arrive_refusal port.now stream charge }
{
    on_reserved(port, stream)?;
    if !ranges::charge_fits(charge) {
        return Err(Refusal::ChargeRange);
    }
    Ok(())
}

// The most octets that may wait in best effort: K times what of L is not reserved.
fn best_effort_limit(port: &[u8]) -> u32
    requires { Whole port.now }
    ensures { result ≡ best_effort_limit port.now }
{
    let link = record::head::link(port) as u32;
    let taken = fitness::streams::permitted_sum(port);
    record::head::delay(port) as u32 * link.saturating_sub(taken)
}

// Whether as many frames wait in best effort as it has places.
fn is_full(port: &[u8]) -> bool
    requires { Whole port.now }
    ensures { result ≡ leb place_count (queue_at port.now (best_effort_at port.now)).count }
{
    queue::PLACES <= record::head::best_effort(port).count
}

// Whether W with this charge is above the limit. Where it is not, it is a number of 32 bits, since the limit is.
fn exceeds_limit(port: &[u8], charge: u32) -> bool
    requires { Whole port.now }
    ensures { (result ≡ ltb (best_effort_limit port.now) (waits_at port.now + charge)) × (result ≡ false → WaitsKept port.now charge) }
{
    let sum = record::head::waits(port) as u64 + charge as u64;
    (best_effort_limit(port) as u64) < sum
}

// The refusal of Best effort. Where it refuses nothing, W with the charge is a number of 32 bits, since the limit is.
pub(crate) fn best_effort(port: &[u8], charge: u32) -> Result<(), Refusal>
    requires { Whole port.now }
    ensures { (refusal_number result ≡ best_effort_refusal port.now charge) × (refusal_number result ≡ 0 → WaitsKept port.now charge) }
{
    closed(port)?;
    if !ranges::charge_fits(charge) {
        return Err(Refusal::ChargeRange);
    }
    if is_full(port) {
        return Err(Refusal::BestEffortFull);
    }
    if exceeds_limit(port, charge) {
        return Err(Refusal::LimitExceeded);
    }
    Ok(())
}

// The refusal of Bind; the address is the first six of the octets.
pub(crate) fn bind(port: &[u8], stream: u8, address: &[u8], vid: u32) -> Result<(), Refusal>
    requires { Whole port.now × (address_length ≤ length address.now) }
    ensures { refusal_number result ≡ bind_refusal port.now stream address.now vid }
{
    on_reserved(port, stream)?;
    if !ranges::vid_fits(vid) {
        return Err(Refusal::VidRange);
    }
    if record::entry::is_bound(port, stream) {
        return Err(Refusal::BoundAlready);
    }
    if binding::finding::of_pair(port, address, vid)
        .found
        .is_some()
    {
        return Err(Refusal::PairBoundAlready);
    }
    Ok(())
}

// The refusal of Frame.
pub(crate) fn frame(port: &[u8], octets: &[u8]) -> Result<(), Refusal>
    requires { Whole port.now }
    ensures { refusal_number result ≡ frame_refusal port.now octets.now }
{
    closed(port)?;
    if !header::length_fits(octets) {
        return Err(Refusal::FrameLength);
    }
    Ok(())
}
