// Frames of peers, made in memory.
use h2_frames::frame_head;
use io_ports::{NoMemory, Octets};
use std::alloc::Global;

/// A frame's length is less.
const LENGTHS: u32 = 1 << 24;

/// The number of a stream is less.
const STREAMS: u32 = 1 << 31;

/// What a client sends first.
const PREFACE: &[u8] = b"PRI * HTTP/2.0\r\n\r\nSM\r\n\r\n";

/// `:method` GET, `:scheme` https, `:path` /, `:authority` a, `user-agent` h2load.
const GET: &[u8] = b"\x82\x87\x84\x01\x01a\x0f\x2b\x06h2load";

/// The same with POST.
const POST: &[u8] = b"\x83\x87\x84\x01\x01a\x0f\x2b\x06h2load";

/// `:status` 200, `content-type` text/plain.
const OK: &[u8] = b"\x88\x0f\x10\x0atext/plain";

/// Octets that a peer sends, frame by frame.
#[derive(Drop)]
pub struct Wire {
    octets: Octets,
}

impl Wire {
    pub fn new(alloc: Global) -> Self {
        Wire {
            octets: Octets::new(alloc),
        }
    }

    /// The octets, in a block that the core may share.
    pub fn into_octets(self) -> Result<Octets, NoMemory> {
        self.octets.shared()
    }

    pub fn preface(&mut self) -> Result<(), NoMemory> {
        self.octets.push_all(PREFACE)
    }

    // A frame whose length and stream are taken in their 24 and 31 bits.
    fn frame(&mut self, kind: u8, flags: u8, stream: u32, payload: &[u8]) -> Result<(), NoMemory> {
        let len = u32::try_from(payload.len()).unwrap_or(0) % LENGTHS;
        self.octets
            .push_all(&frame_head(len, kind, flags, stream % STREAMS))?;
        self.octets.push_all(payload)
    }

    pub fn get(&mut self, stream: u32) -> Result<(), NoMemory> {
        self.frame(1, 5, stream, GET)
    }

    pub fn post(&mut self, stream: u32) -> Result<(), NoMemory> {
        self.frame(1, 4, stream, POST)
    }

    pub fn ok(&mut self, stream: u32) -> Result<(), NoMemory> {
        self.frame(1, 4, stream, OK)
    }

    pub fn data(&mut self, stream: u32, octets: &[u8], last: bool) -> Result<(), NoMemory> {
        self.frame(0, u8::from(last), stream, octets)
    }

    /// SETTINGS that name this setting.
    pub fn setting(&mut self, id: u16, value: u32) -> Result<(), NoMemory> {
        self.settings(id, value, 1)
    }

    /// SETTINGS that name this setting so many times.
    pub fn settings(&mut self, id: u16, value: u32, times: usize) -> Result<(), NoMemory> {
        let len = u32::try_from(times.saturating_mul(6)).unwrap_or(0) % LENGTHS;
        self.octets.push_all(&frame_head(len, 4, 0, 0))?;
        for _time in 0..times {
            self.octets.push_all(&id.to_be_bytes())?;
            self.octets.push_all(&value.to_be_bytes())?;
        }
        Ok(())
    }

    pub fn window(&mut self, stream: u32, n: u32) -> Result<(), NoMemory> {
        self.frame(8, 0, stream, &n.to_be_bytes())
    }
}
