// What one frame means for the connection that it came on.
ghost use Rattle.std.specs.Prelude.{◌≡◌, ◌==◌, length};
ghost use Rattle.h2_session.specs.Errors.{settings_of};
ghost use Rattle.h2_session.specs.Iter.{settings_left};
ghost use Rattle.h2_session.specs.Values.{named_in};

use crate::named::{Named, read_named};
use crate::settings::{SETTING_SIZE, SettingIter};
use io_ports::Octets;
use std::marker::Model;

/// One entry of a SETTINGS frame.
#[derive(Clone, Copy, Debug, PartialEq, Eq)]
pub struct Setting {
    pub id: u16,
    pub value: u32,
}

/// The entries of a SETTINGS frame, in its order. They are kept as the octets that spell them, beside what they come to.
#[derive(Drop)]
pub struct SettingList {
    octets: Octets,
    named: Named,
}

impl Model for SettingList {
    ghost use Rattle.std.specs.Prelude.{List, ◌≡◌};
    ghost use Rattle.h2_session.specs.Errors.{settings_of};
    ghost use Rattle.h2_session.specs.declared.act.Setting.{Setting};

    ghost Value = { List Setting };

    ghost use Rattle.h2_session.specs.Values.{named_in};

    ghost view = { λ a. settings_of a.octets };

    ghost invariant = { λ a. a.named ≡ named_in (settings_of a.octets) };
}

impl SettingList {
    /// The settings that these octets spell. Takes no memory.
    pub fn from_octets(octets: Octets) -> Self
        ensures { result ≡ settings_of octets }
    {
        let (named, _) = read_named(octets.as_slice(), 1);
        SettingList { octets, named }
    }

    /// As `from_octets`, where it is known what they come to.
    pub(crate) fn of(octets: Octets, named: Named) -> Self
        requires { named ≡ named_in (settings_of octets) }
        ensures { result ≡ settings_of octets }
    {
        SettingList { octets, named }
    }

    /// What the settings come to. Takes no time.
    pub fn named(&self) -> Named
        ensures { result ≡ named_in self.now }
    {
        self.named
    }

    /// The octets that spell these settings. Takes no memory.
    pub fn into_octets(self) -> Octets
        ensures { settings_of result ≡ self }
    {
        self.octets
    }

    /// The settings, one after another.
    pub fn iter(&self) -> SettingIter<'_>
        ensures { settings_left result ≡ self.now }
    {
        SettingIter::new(self.octets.as_slice())
    }

    /// How many settings there are.
    pub fn len(&self) -> usize
        ensures { result ≡ length self.now }
    {
        self.octets.len() / SETTING_SIZE
    }

    /// Whether there are no settings.
    pub fn is_empty(&self) -> bool
        ensures { result ≡ (length self.now == 0) }
    {
        self.len() == 0
    }
}

/// What a frame means.
#[derive(Drop)]
pub enum Act {
    /// Nothing.
    Ignore,
    /// Content of an open stream.
    Body {
        stream: u32,
        octets: Octets,
        padded: u32,
        last: bool,
    },
    /// So many octets of flow-controlled content on a closed stream, padding counted.
    Late {
        stream: u32,
        n: u32,
    },
    /// The field block of a head.
    Head {
        stream: u32,
        block: Octets,
        last: bool,
    },
    /// The field block of trailers, which end their stream.
    Trailers {
        stream: u32,
        block: Octets,
    },
    /// A field block that only the decoder needs.
    OldBlock {
        block: Octets,
    },
    /// The peer's settings.
    Settings {
        list: SettingList,
    },
    /// The peer acknowledges this side's settings.
    Ack,
    /// The peer asks for an answer with these octets.
    Ping {
        octets: Octets,
    },
    /// A send window grows, that of the connection where the stream is 0.
    WindowUp {
        stream: u32,
        n: u32,
    },
    /// The peer reset a stream.
    PeerReset {
        stream: u32,
        code: u32,
    },
    /// The peer leaves, and the greatest stream that it takes up.
    GoAway {
        last: u32,
        code: u32,
    },
    /// A stream error, with the field block that the decoder still needs: none where the frame ends none.
    /// The content of a DATA frame counts against the windows here too: `Frame::content` tells how much.
    StreamError {
        stream: u32,
        code: u32,
        block: Octets,
    },
    /// A connection error.
    ConnError {
        code: u32,
    },
}
