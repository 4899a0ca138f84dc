// One table of the document, and how its keys are spelled.
ghost use Rattle.std.specs.Prelude.{◌≡◌, ◌++◌, ◌∷◌, [], map, option_map, unwrap_or, filter, find, string_bytes, IfOk};
ghost use Rattle.std.specs.BTreeMap.{keys as map_keys};
ghost use Rattle.std.specs.List.Sorted.{IsStrictlySortedBy};
ghost use Rattle.std.specs.Option.{option_copied};
ghost use Rattle.std.specs.String.{string_cmp};
ghost use Rattle.toml.specs.Data.{get_member};
ghost use Rattle.toml.specs.View.{view, table_view};
ghost use Rattle.config_tables.specs.Answers.{Checks, members_of};
ghost use Rattle.config_tables.specs.Keys.{least, key_faults, keys_faults, unknown_faults, table_faults, number_at};
ghost use Rattle.config_tables.specs.Kinds.{key_of, is_unknown};
ghost use Rattle.config_tables.specs.Texts.{is_among};
ghost use Rattle.config_tables.specs.Values.{keys_of, has_key, text_at, list_at, strings_at, table_at, number_or};

use crate::fault::ConfigFault;
use crate::judge::Verdict;
use crate::keys::{Key, Kind};
use crate::strings::{as_items, copies};
use io_ports::{NoMemory, Octets};
use proxy_config::NameList;
use std::alloc::Global;
use toml::{Table, Value};

/// A table of the document, or none, which reads as an empty one.
#[derive(Clone, Copy)]
pub struct Section<'a> {
    pub alloc: Global,
    /// What stands before each key: nothing at the top, else as `limits.` or `routes.0.`.
    pub place: &'a str,
    pub table: Option<&'a Table>,
}

impl<'a> Section<'a> {
    fn get(&self, name: &str) -> Option<&'a Value>
        ensures { option_map (λ v. view v.now) result ≡ get_member name.now (members_of self.now.table) }
    {
        match self.table {
            Some(table) => table.get(name),
            None => None,
        }
    }

    pub fn has(&self, name: &str) -> bool
        ensures { result ≡ has_key name.now (members_of self.now.table) }
    {
        self.get(name).is_some()
    }

    /// The number at the key, where it is in the key's range, or else what stands for it.
    pub fn number(&self, key: &Key) -> u32
        ensures { result ≡ number_at (key_of key.now) (members_of self.now.table) }
    {
        match key.kind {
            Kind::Number { least, most, other } => {
                number_or(
                    least,
                    most,
                    other,
                    self.get(key.name).and_then(Value::as_integer),
                )
            }
            _ => 0,
        }
    }

    /// The string at the key.
    pub fn text(&self, name: &str) -> Option<&'a str>
        ensures { option_copied result ≡ text_at name.now (members_of self.now.table) }
    {
        match self.get(name) {
            Some(value) => value.as_str(),
            None => None,
        }
    }

    /// The string at a key that is checked to be there.
    pub fn word(&self, name: &str) -> &'a str
        ensures { result.now ≡ unwrap_or (text_at name.now (members_of self.now.table)) [] }
    {
        self.text(name).unwrap_or("")
    }

    /// A copy of the string at the key.
    pub fn octets(&self, name: &str) -> Result<Option<Octets>, NoMemory>
        ensures { IfOk result (λ text. text ≡ text_at name.now (members_of self.now.table)) }
    {
        match self.text(name) {
            Some(text) => Ok(Some(Octets::from_slice(self.alloc, text.as_bytes())?)),
            None => Ok(None),
        }
    }

    /// Copies of the strings in the list at the key.
    pub fn names(&self, name: &str) -> Result<NameList, NoMemory>
        ensures { IfOk result (λ names. names ≡ strings_at name.now (members_of self.now.table)) }
    {
        copies(self.alloc, self.list(name))
    }

    /// The items of the list at the key.
    pub fn list(&self, name: &str) -> &'a [Value]
        ensures { map view result.now ≡ list_at name.now (members_of self.now.table) }
    {
        match self.get(name) {
            Some(value) => as_items(value).unwrap_or(&[]),
            None => &[],
        }
    }

    /// The table at the key, whose keys are spelled after this place.
    fn inner<'b>(&self, place: &'b str, name: &str) -> Section<'b>
    where
        'a: 'b,
        ensures place { result.place.now ≡ place.now }
        ensures table { members_of result.table ≡ table_at name.now (members_of self.now.table) }
    {
        let table = match self.get(name) {
            Some(value) => value.as_table(),
            None => None,
        };
        Section {
            alloc: self.alloc,
            place,
            table,
        }
    }

    /// Refuses a fault of the key, and else opens the table there.
    pub fn open<'b>(&self, key: &Key, place: &'b str) -> Result<Section<'b>, ConfigFault>
    where
        'a: 'b,
        ensures faults { Checks (keys_faults self.now.place.now (members_of self.now.table) (key_of key.now ∷ [])) result }
        ensures place { IfOk result (λ section. section.place.now ≡ place.now) }
        ensures table { IfOk result (λ section. members_of section.table ≡ table_at key.now.name.now (members_of self.now.table)) }
    {
        self.check(&[*key])?;
        Ok(self.inner(place, key.name))
    }

    fn spelled(&self, name: &str) -> Result<Octets, NoMemory>
        ensures { IfOk result (λ key. key ≡ self.now.place.now ++ name.now) }
    {
        let mut key = Octets::from_slice(self.alloc, self.place.as_bytes())?;
        key.push_all(name.as_bytes())?;
        Ok(key)
    }

    #[tactic(auto, unfolding(crate::specs::Keys::key_faults))]
    fn check_key(&self, key: &Key) -> Result<(), ConfigFault>
        ensures { Checks (key_faults self.now.place.now (members_of self.now.table) (key_of key.now)) result }
    {
        let Some(value) = self.get(key.name) else {
            if key.needed {
                return Err(ConfigFault::Missing(self.spelled(key.name)?));
            }
            return Ok(());
        };
        match key.kind.judge(value) {
            Verdict::Fits => Ok(()),
            Verdict::OtherKind => Err(ConfigFault::WrongKind(self.spelled(key.name)?)),
            Verdict::Beyond => Err(ConfigFault::OutOfRange(self.spelled(key.name)?)),
        }
    }

    /// Refuses the first fault of these keys, in their order.
    #[tactic(auto, using(crate::proofs::Faults::first_append))]
    pub fn check(&self, keys: &[Key]) -> Result<(), ConfigFault>
        ensures { Checks (keys_faults self.now.place.now (members_of self.now.table) (map key_of keys.now)) result }
    {
        for key in keys {
            self.check_key(key)?;
        }
        Ok(())
    }

    /// Refuses the least key that isn't one of these.
    #[tactic(auto, unfolding(crate::specs::Keys::unknown_faults))]
    pub fn end(&self, keys: &[Key]) -> Result<(), ConfigFault>
        ensures { Checks (unknown_faults self.now.place.now (members_of self.now.table) (map key_of keys.now)) result }
    {
        let Some(table) = self.table else {
            return Ok(());
        };
        match least_unknown(table, keys) {
            Some(name) => Err(ConfigFault::Unknown(self.spelled(name)?)),
            None => Ok(()),
        }
    }

    /// Refuses the first fault of these keys, and then the least key that isn't one of them.
    #[tactic(auto, using(crate::proofs::Faults::first_append))]
    pub fn check_all(&self, keys: &[Key]) -> Result<(), ConfigFault>
        ensures { Checks (table_faults self.now.place.now (members_of self.now.table) (map key_of keys.now)) result }
    {
        self.check(keys)?;
        self.end(keys)
    }
}

fn number_or(least: u32, most: u32, other: u32, found: Option<i64>) -> u32
    ensures { result ≡ number_or least most other found }
{
    match found {
        Some(found) => match u32::try_from(found) {
            Ok(n) if least <= n && n <= most => n,
            _ => other,
        },
        None => other,
    }
}

fn is_key(keys: &[Key], name: &str) -> bool
    ensures { result ≡ is_among (map (λ key. key.name) (map key_of keys.now)) name.now }
{
    for key in keys {
        if name == key.name {
            return true;
        }
    }
    false
}

// The first key of the table that isn't one of these.
fn find_unknown<'a>(table: &'a Table, keys: &[Key]) -> Option<&'a String>
    ensures found { option_copied result ≡ find (λ name. is_unknown keys.now (string_bytes name)) (map_keys table.now) }
    ensures ascending { IsStrictlySortedBy string_cmp (map_keys table.now) }
{
    table.keys().find(|name| !is_key(keys, name.as_str()))
}

// The least key of the table that isn't one of these: the first, since the keys ascend.
fn least_unknown<'a>(table: &'a Table, keys: &[Key]) -> Option<&'a str>
    ensures { option_copied result ≡ least (filter (is_unknown keys.now) (keys_of (table_view table.now))) }
{
    match find_unknown(table, keys) {
        Some(name) => Some(name.as_str()),
        None => None,
    }
}
