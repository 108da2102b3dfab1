// The clause of 19 on the waiting frames.
ghost use Rattle.std.specs.Prelude.{◌≡◌};
ghost use Rattle.lists.specs.Turns.{all_of};
ghost use Rattle.queue.specs.Ring.{HasPart};
ghost use Rattle.queue.specs.Waiting.{waiting};
ghost use Rattle.record.specs.Layout.{Whole};
ghost use Rattle.record.specs.Queues.{HasMemory};
ghost use Rattle.fitness.specs.Clauses.{frame_stream_fits, frame_fits, frames_fit};

use queue::{Frame, Queue};

// The stream of a best-effort frame. It stays a number: a frame in the memory, and a reply that C is handed, have it so.
pub const BEST_EFFORT_STREAM: u16 = 255;

// Whether a frame of this stream may wait in the queue of this number, where `best` is that of best effort.
fn frame_stream_fits(best: u8, number: u8, stream: u16) -> bool
    ensures { result ≡ frame_stream_fits best number stream }
{
    if number == best {
        stream == BEST_EFFORT_STREAM
    } else {
        stream < record::STREAMS as u16
    }
}

// Whether the frame may wait in the queue of this number.
fn frame_fits(best: u8, number: u8, frame: Frame) -> bool
    ensures { result ≡ frame_fits best number frame }
{
    frame_stream_fits(best, number, frame.stream) && ranges::charge_fits(frame.charge as u32)
}

// Whether every frame that waits in the queue of this number may.
fn queue_fits(memory: &[u8], best: u8, number: u8, queue: Queue) -> bool
    requires { HasPart memory.now number }
    ensures { result ≡ all_of (frame_fits best number) (waiting memory.now number queue) }
{
    (0..queue.count).all(|i| frame_fits(best, number, queue::frame_at(memory, number, queue, i)))
}

// Whether every waiting frame may wait where it does.
pub(crate) fn fit(port: &[u8], memory: &[u8]) -> bool
    requires { Whole port.now × HasMemory port.now memory.now }
    ensures { result ≡ frames_fit port.now memory.now }
{
    let best = record::head::queues(port);
    (0..best + 1).all(|q| queue_fits(memory, best, q, record::head::queue_at(port, q)))
}
