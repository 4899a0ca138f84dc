// The names of clusters.
ghost use Rattle.std.specs.Prelude.{◌≡◌, ◌==◌, ◌-◌, ◌<◌, ◌^◌, ◌++◌, ◌∷◌, ◌↔◌, [], false, None, IsSome, length, OnOk, OnErr};
ghost use Rattle.std.specs.List.{list_all};
ghost use Rattle.flow_notes.specs.Name as spec;
ghost use Rattle.flow_notes.specs.Name.{AreNames, IsName, cluster_name, place_of};
ghost use Rattle.flow_notes.specs.declared.names.NameRefusal.TheVariants as refusals;

use io_ports::{NoMemory, Octets};
use std::alloc::Global;
use std::error::Error;
use std::fmt;
use std::marker::Model;

/// Why a name was refused.
#[derive(Clone, Copy, Debug, PartialEq, Eq)]
pub enum NameRefusal {
    NoMemory,
    /// It isn't 1 to 64 octets of `a` to `z`, `0` to `9`, `-` and `_`.
    BadForm,
    /// It is listed already.
    Doubled,
    /// 4,294,967,295 names are listed.
    Full,
}

impl From<NoMemory> for NameRefusal {
    ghost from_gives = { λ _ refusal. refusal ≡ refusals.NoMemory };

    fn from(_: NoMemory) -> Self {
        NameRefusal::NoMemory
    }
}

impl fmt::Display for NameRefusal {
    fn fmt<W: fmt::Write>(&self, f: &mut fmt::Formatter<W>) -> fmt::Result {
        f.write_str(match self {
            NameRefusal::NoMemory => "out of memory",
            NameRefusal::BadForm => "a name has 1 to 64 octets of a to z, 0 to 9, - and _",
            NameRefusal::Doubled => "the name is listed already",
            NameRefusal::Full => "the list of names is full",
        })
    }
}

impl Error for NameRefusal {}

/// The names of clusters, in the configuration's order: fewer than 2^32, and none twice.
#[derive(Drop)]
pub struct Names {
    names: Vec<Octets>,
}

impl Model for Names {
    ghost use Rattle.std.specs.Prelude.{List, ℕ};
    ghost use Rattle.flow_notes.specs.Name.{AreNames};

    ghost Value = { List (List ℕ) };

    ghost view = { λ a. a.names.items };

    ghost invariant = { λ a. AreNames a.names.items };
}

fn is_name_octet(octet: u8) -> bool
    ensures { result ≡ spec.is_name_octet octet }
{
    matches!(octet, b'a'..=b'z' | b'0'..=b'9' | b'-' | b'_')
}

fn are_name_octets(octets: &[u8]) -> bool
    ensures { result ≡ list_all spec.is_name_octet octets.now }
{
    octets.iter().all(|octet| is_name_octet(*octet))
}

fn is_name(name: &[u8]) -> bool
    ensures { result ≡ spec.is_name name.now }
{
    !name.is_empty() && name.len() <= 64 && are_name_octets(name)
}

fn place(names: &[Octets], name: &[u8]) -> Option<usize>
    ensures { result ≡ place_of names.now name.now }
{
    names.iter().position(|known| known.as_slice() == name)
}

fn push_copy(names: &mut Vec<Octets>, name: &[u8]) -> Result<(), NoMemory>
    ensures ok { OnOk result (names.new.items ≡ names.old.items ++ name.now ∷ []) }
    ensures err { OnErr result (names.new.items ≡ names.old.items) }
{
    let alloc = *names.allocator();
    names.push(Octets::from_slice(alloc, name)?)?;
    Ok(())
}

impl Names {
    /// No names. Takes no memory.
    pub fn new(alloc: Global) -> Self
        ensures { result ≡ [] }
    {
        Names {
            names: Vec::new(alloc),
        }
    }

    /// Appends a name. A refused name changes nothing. Where several refusals fit, it is the first
    /// of a bad form, a doubled name and a full list.
    pub fn push(&mut self, name: &[u8]) -> Result<(), NameRefusal>
        ensures ok { OnOk result (self.new ≡ self.old ++ name.now ∷ []) }
        ensures err { OnErr result (self.new ≡ self.old) }

        ensures bad_form { (result ≡ Err NameRefusal.BadForm) ↔ (spec.is_name name.now ≡ false) }
        ensures doubled { (result ≡ Err NameRefusal.Doubled)
            ↔ (IsName name.now × IsSome (place_of self.old name.now)) }
        ensures full { (result ≡ Err NameRefusal.Full) ↔ (IsName name.now
            × (place_of self.old name.now ≡ None) × (length self.old ≡ 2 ^ 32 - 1)) }
    {
        if !is_name(name) {
            return Err(NameRefusal::BadForm);
        }
        if place(self.names.as_slice(), name).is_some() {
            return Err(NameRefusal::Doubled);
        }
        if self.names.len() >= MOST {
            return Err(NameRefusal::Full);
        }
        push_copy(&mut self.names, name)?;
        Ok(())
    }

    /// Says what holds of each list of names.
    pub fn known(&self)
        ensures { AreNames self.now }
    {
        let _ = &self.names;
    }

    /// How many names there are.
    pub fn len(&self) -> usize
        ensures len { result ≡ length self.now }
        ensures names { AreNames self.now }
    {
        self.names.len()
    }

    /// Whether there are no names.
    pub fn is_empty(&self) -> bool
        ensures { result ≡ (length self.now == 0) }
    {
        self.names.is_empty()
    }

    /// The name of a cluster.
    pub fn name(&self, cluster: u32) -> &[u8]
        requires { cluster < length self.now }
        ensures { result.now ≡ cluster_name self.now cluster }
    {
        self.names[cluster as usize].as_slice()
    }

    /// The cluster of a name, if it is listed.
    pub fn find(&self, name: &[u8]) -> Option<u32>
        ensures place { result ≡ place_of self.now name.now }
        ensures names { AreNames self.now }
    {
        let place = place(self.names.as_slice(), name)?;
        Some(place as u32)
    }
}

/// The most names.
const MOST: usize = 4_294_967_295;
