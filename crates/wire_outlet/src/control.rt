// Control frames as octets.
ghost use Rattle.std.specs.Prelude.{◌≡◌, ◌≤◌, ◌<◌, ◌*◌, ◌^◌, ◌++◌, length, IfOk, OnOk};
ghost use Rattle.h2_frames.specs.Spelling.{IsWritable, spelling};
ghost use Rattle.h2_frames.specs.View.{view};
ghost use Rattle.wire_outlet.specs.Control.{entries_of, goaway_octets, ping_ack_octets, preface, rst_stream_octets, settings_ack_octets, settings_octets};

use h2_frames::{Frame, write_frame};
use io_ports::{NoMemory, Octets};
use std::alloc::Global;
use std::marker::Model;

/// What a client sends first on a connection (RFC 9113 section 3.4).
const PREFACE: &[u8; 24] = b"PRI * HTTP/2.0\r\n\r\nSM\r\n\r\n";

/// A control frame, or the client preface with a SETTINGS frame: octets that are framed as they are.
/// They are at most 16,417: a payload that every peer takes, the head of its frame, and the preface.
#[derive(Drop)]
pub struct Control {
    octets: Octets,
}

impl Model for Control {
    ghost use Rattle.std.specs.Prelude.{List, ℕ, length, ◌≤◌};

    ghost Value = { List ℕ };

    ghost view = { λ a. a.octets };

    ghost invariant = { λ a. length a.octets ≤ 16417 };
}

impl Control {
    /// SETTINGS with these numbers and values, in their order (RFC 9113 section 6.5). The payload is at most 16,384 octets,
    /// which every peer takes. Refused only for lack of memory.
    pub fn settings(alloc: Global, settings: &[(u16, u32)]) -> Result<Self, NoMemory>
        requires { 6 * length settings.now ≤ 16384 }
        ensures { IfOk result (λ control. control ≡ settings_octets settings.now) }
    {
        let mut octets = Octets::new(alloc);
        push_settings(alloc, settings, &mut octets)?;
        Ok(Control { octets })
    }

    /// The client preface, and SETTINGS behind it (RFC 9113 section 3.4). Refused only for lack of memory.
    pub fn preface_settings(alloc: Global, settings: &[(u16, u32)]) -> Result<Self, NoMemory>
        requires { 6 * length settings.now ≤ 16384 }
        ensures { IfOk result (λ control. control ≡ preface ++ settings_octets settings.now) }
    {
        let mut octets = Octets::from_slice(alloc, PREFACE)?;
        push_settings(alloc, settings, &mut octets)?;
        Ok(Control { octets })
    }

    /// SETTINGS that acknowledges the peer's (RFC 9113 section 6.5.3). Refused only for lack of memory.
    pub fn settings_ack(alloc: Global) -> Result<Self, NoMemory>
        ensures { IfOk result (λ control. control ≡ settings_ack_octets) }
    {
        let frame = Frame::Settings {
            ack: true,
            entries: &[],
        };
        Ok(Control {
            octets: frame_octets(alloc, &frame)?,
        })
    }

    /// PING that answers one with these eight octets (RFC 9113 section 6.7). Refused only for lack of memory.
    pub fn ping_ack(alloc: Global, octets: &[u8]) -> Result<Self, NoMemory>
        requires { length octets.now ≡ 8 }
        ensures { IfOk result (λ control. control ≡ ping_ack_octets octets.now) }
    {
        let frame = Frame::Ping {
            ack: true,
            octets: eight(octets),
        };
        Ok(Control {
            octets: frame_octets(alloc, &frame)?,
        })
    }

    /// RST_STREAM with an error code (RFC 9113 section 6.4).
    pub fn rst_stream(alloc: Global, stream: u32, code: u32) -> Result<Self, NoMemory>
        requires on_stream { 0 < stream }
        requires fits { stream < 2 ^ 31 }
        ensures { IfOk result (λ control. control ≡ rst_stream_octets stream code) }
    {
        Ok(Control {
            octets: frame_octets(alloc, &Frame::Reset { stream, code })?,
        })
    }

    /// GOAWAY with the last stream that was or may be processed and an error code, without debug
    /// data (RFC 9113 section 6.8).
    pub fn goaway(alloc: Global, last: u32, code: u32) -> Result<Self, NoMemory>
        requires { last < 2 ^ 31 }
        ensures { IfOk result (λ control. control ≡ goaway_octets last code) }
    {
        let frame = Frame::GoAway {
            last,
            code,
            debug: &[],
        };
        Ok(Control {
            octets: frame_octets(alloc, &frame)?,
        })
    }

    /// The octets, at most 16,417.
    pub fn as_slice(&self) -> &[u8]
        ensures octets { result.now ≡ self.now }
        ensures fits { length result.now ≤ 16417 }
    {
        self.octets.as_slice()
    }

    /// The octets themselves. Takes no memory.
    pub fn into_octets(self) -> Octets
        ensures octets { result ≡ self }
        ensures fits { length result ≤ 16417 }
    {
        self.octets
    }
}

// The octets of a frame.
fn frame_octets(alloc: Global, frame: &Frame) -> Result<Octets, NoMemory>
    requires { IsWritable (view frame.now) }
    ensures { IfOk result (λ octets. octets ≡ spelling (view frame.now)) }
{
    let mut octets = Octets::new(alloc);
    write_frame(frame, &mut octets)?;
    Ok(octets)
}

// The array of eight octets.
fn eight(octets: &[u8]) -> [u8; 8]
    requires { length octets.now ≡ 8 }
    ensures { result ≡ octets.now }
{
    let mut eight = [0; 8];
    eight.copy_from_slice(octets);
    eight
}

// Appends a SETTINGS frame.
fn push_settings(alloc: Global, settings: &[(u16, u32)], into: &mut Octets) -> Result<(), NoMemory>
    requires { 6 * length settings.now ≤ 16384 }
    ensures { OnOk result (into.new ≡ into.old ++ settings_octets settings.now) }
{
    let entries = entries_of(alloc, settings)?;
    let frame = Frame::Settings {
        ack: false,
        entries: entries.as_slice(),
    };
    write_frame(&frame, into)
}

// The entries of a SETTINGS frame, six octets each.
fn entries_of(alloc: Global, settings: &[(u16, u32)]) -> Result<Octets, NoMemory>
    ensures entries { IfOk result (λ entries. entries ≡ entries_of settings.now) }
    ensures len { IfOk result (λ entries. length entries ≡ 6 * length settings.now) }
{
    let mut entries = Octets::new(alloc);
    for (number, value) in settings {
        entries.push_all(&number.to_be_bytes())?;
        entries.push_all(&value.to_be_bytes())?;
    }
    Ok(entries)
}
