// The entries of SETTINGS frames (RFC 9113 section 6.5.1).
ghost use Rattle.std.specs.Prelude.{◌≡◌, ◌≤◌, ◌+◌, ◌∷◌, length, IfOk};
ghost use Rattle.h2_session.specs.Errors.{settings_of};

use crate::act::{Setting, SettingList};
use io_ports::{NoMemory, Octets};
use std::alloc::Global;

/// The octets of an entry.
pub(crate) const SETTING_SIZE: usize = 6;

/// The first entry, and the octets behind it.
#[inline(always)]
pub(crate) fn first_setting(entries: &[u8]) -> (Setting, &[u8])
    requires { 6 ≤ length entries.now }
    ensures settings { settings_of entries.now ≡ result.0 ∷ settings_of result.1.now }
    ensures len { length result.1.now + 6 ≡ length entries.now }
{
    let (entry, rest) = entries.split_at(6);
    let setting = Setting {
        id: u16::from_be_bytes([entry[0], entry[1]]),
        value: u32::from_be_bytes([entry[2], entry[3], entry[4], entry[5]]),
    };
    (setting, rest)
}

/// The settings that octets spell, one after another.
#[derive(Clone, Copy, Debug)]
pub struct SettingIter<'a> {
    octets: &'a [u8],
}

impl<'a> SettingIter<'a> {
    ghost use Rattle.h2_session.specs.Iter.{settings_left};

    /// The settings that these octets spell.
    pub(crate) fn new(octets: &'a [u8]) -> Self
        ensures { settings_left result ≡ settings_of octets.now }
    {
        SettingIter { octets }
    }
}

impl<'a> Iterator for SettingIter<'a> {
    ghost use Rattle.h2_session.specs.Iter.{settings_left};
    ghost use Rattle.std.specs.Iterator.{YieldsFirst, item_count};

    type Item = Setting;

    ghost next_gives = { YieldsFirst settings_left };

    ghost remaining = { item_count settings_left };

    #[inline(always)]
    fn next(&mut self) -> Option<Setting> {
        if self.octets.len() < SETTING_SIZE {
            return None;
        }
        let (setting, rest) = first_setting(self.octets);
        self.octets = rest;
        Some(setting)
    }
}

/// The settings that a frame's entries spell.
pub fn read_settings(alloc: Global, entries: &[u8]) -> Result<SettingList, NoMemory>
    ensures { IfOk result (λ list. list ≡ settings_of entries.now) }
{
    Ok(SettingList::from_octets(Octets::from_slice(alloc, entries)?))
}
