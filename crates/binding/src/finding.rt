// The lookup: the bindings are gone through by rising stream, up to the one that is looked for.
// Address and VID stay two parameters: a Frame lends its own octets as the address, so a struct of both would be made and opened in each function.
// The address stays a slice of six octets or more for the same reason, and no array of six.
ghost use Rattle.std.specs.Prelude.{◌≡◌, ◌≤◌, ◌<◌, ◌*◌, length};
ghost use Rattle.record.specs.Layout.{Whole, stream_count, address_length};
ghost use Rattle.record.specs.Entry.{address_at};
ghost use Rattle.header.specs.Header.{header_length};
ghost use Rattle.binding.specs.Finding.{compared_back, compared_at, lookup, frame_lookup};

use crate::{Answer, Comparison};

// The address of the stream's binding compared with the first six of the octets, from the last octet back, where so many octets were compared before.
#[tactic(auto, using(crate::proofs::FindingLaws::back_equal, crate::proofs::FindingLaws::back_differs), unfolding(crate::specs::Finding::compared_back))]
fn compare_back(port: &[u8], address: &[u8], stream: u8, before: u32) -> Comparison
    requires { Whole port.now × ((address_length ≤ length address.now) × ((stream < stream_count) × (before ≤ address_length * stream))) }
    ensures { result ≡ compared_back (address_at port.now stream) address.now address_length before }
{
    let mut compared = before;
    for index in (0..record::ADDRESS_LENGTH).rev() {
        compared += 1;
        if record::entry::address_octet(port, stream, index) != address[index] {
            return Comparison {
                equal: false,
                compared,
            };
        }
    }
    Comparison {
        equal: true,
        compared,
    }
}

// The pair compared with the stream's binding, if it has one: the VID, and only where that is equal the address.
#[tactic(auto, using(crate::proofs::FindingLaws::passed_unbound, crate::proofs::FindingLaws::passed_vid, crate::proofs::FindingLaws::compared_vid))]
fn compare(port: &[u8], address: &[u8], vid: u32, stream: u8, before: u32) -> Comparison
    requires { Whole port.now × ((address_length ≤ length address.now) × ((stream < stream_count) × (before ≤ address_length * stream))) }
    ensures { result ≡ compared_at port.now address.now vid stream before }
{
    if record::entry::is_bound(port, stream) {
        if record::entry::vid(port, stream) as u32 == vid {
            return compare_back(port, address, stream, before);
        }
    }
    Comparison {
        equal: false,
        compared: before,
    }
}

// The lookup of the address, the first six of the octets, and the VID.
#[tactic(auto, using(crate::proofs::FindingLaws::at_most, crate::proofs::FindingLaws::found_here, crate::proofs::FindingLaws::passed_over, crate::proofs::FindingLaws::none_left), unfolding(crate::specs::Finding::lookup))]
pub fn of_pair(port: &[u8], address: &[u8], vid: u32) -> Answer
    requires { Whole port.now × (address_length ≤ length address.now) }
    ensures { result ≡ lookup port.now address.now vid }
{
    let mut compared: u32 = 0;
    for s in 0..record::STREAMS {
        let here = compare(port, address, vid, s, compared);
        compared = here.compared;
        if here.equal {
            return Answer {
                found: Some(s),
                compared,
            };
        }
    }
    Answer {
        found: None,
        compared,
    }
}

// The stream of the frame, by its destination and the VID in its header.
#[tactic(auto, unfolding(crate::specs::Finding::frame_lookup))]
pub fn of_frame(port: &[u8], frame: &[u8]) -> Option<u8>
    requires { Whole port.now × (header_length ≤ length frame.now) }
    ensures { result ≡ frame_lookup port.now frame.now }
{
    if !header::is_tagged(frame) {
        return None;
    }
    of_pair(port, frame, header::vid(frame) as u32).found
}
