// The window of a peer at an opening: stated, or the default.
ghost use Rattle.std.specs.Prelude.{◌≡◌};
ghost use Rattle.queue.specs.Queue.{window_of};

use crate::queue::RequestQueue;

// The window that it is.
pub fn size(window: Option<u32>) -> u32
    ensures { result ≡ window_of window }
{
    window.unwrap_or(RequestQueue::DEFAULT_WINDOW)
}
