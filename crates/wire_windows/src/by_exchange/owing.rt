// What the streams are owed.
ghost use Rattle.std.specs.FinMap.{get};
ghost use Rattle.std.specs.Prelude.{◌≡◌, min, option_map};
ghost use Rattle.wire_windows.specs.RecvWindows.{changed_at};
ghost use Rattle.wire_windows.specs.Owing.{owing_most};

use super::ByExchange;
use crate::recv_stream::RecvStream;

impl ByExchange<RecvStream> {
    /// n octets that a stream holds, or all of them where it holds fewer, are owed. Answers what the stream is then, and how
    /// many they were; None exactly where it isn't there. Takes no memory.
    #[inline(always)]
    pub(crate) fn owe(&mut self, x: u64, n: u32) -> Option<(RecvStream, u32)>
        ensures answer { result ≡ option_map (λ s. (owing_most n s, min n s.window.held)) (get self.old x) }
        ensures owes { self.new ≡ changed_at x (owing_most n) self.old }
    {
        let Some(stream) = self.map.get_mut(&x) else {
            return None;
        };
        let n = n.min(stream.window.held());
        stream.window.moved(n);
        Some((*stream, n))
    }
}
