// Lists of rows.
ghost use Rattle.std.specs.Prelude.{◌≡◌, ◌==◌, ◌++◌, ◌∷◌, ◌<◌, ◌^◌, [], length, OnOk, OnErr, vec_len};

use io_ports::NoMemory;
use std::alloc::Global;
use std::marker::Model;

/// A list of fewer than 2^32 rows, in the order of the configuration.
#[derive(Drop)]
pub struct Rows<T> {
    rows: Vec<T>,
}

impl<T> Model for Rows<T> {
    ghost use Rattle.std.specs.Prelude.{List, length, ◌<◌, ◌^◌};

    ghost Value = { List T };

    ghost view = { λ a. a.rows.items };

    ghost invariant = { λ a. length a.rows.items < 2 ^ 32 };
}

impl<T> Rows<T> {
    /// No rows. Takes no memory.
    pub fn new(alloc: Global) -> Self
        ensures { result ≡ [] }
    {
        Rows {
            rows: Vec::new(alloc),
        }
    }

    /// The rows of a vector. Takes no memory.
    pub fn from_vec(rows: Vec<T>) -> Self
        requires { vec_len rows < 2 ^ 32 }
        ensures { result ≡ rows.items }
    {
        Rows { rows }
    }

    /// Appends a row. After running out of memory, to which a full list counts too, the list is as it was.
    pub fn push(&mut self, row: T) -> Result<(), NoMemory>
    where
        T: Drop,
        ensures ok { OnOk result (self.new ≡ self.old ++ row ∷ []) }
        ensures err { OnErr result (self.new ≡ self.old) }
    {
        if self.rows.len() >= u32::MAX as usize {
            return Err(NoMemory);
        }
        self.rows.push(row)?;
        Ok(())
    }

    /// The rows, in their order.
    pub fn as_slice(&self) -> &[T]
        ensures rows { result.now ≡ self.now }
        ensures bound { length self.now < 2 ^ 32 }
    {
        self.rows.as_slice()
    }

    /// The vector of these rows. Takes no memory.
    pub fn into_vec(self) -> Vec<T>
        ensures { result.items ≡ self }
    {
        self.rows
    }

    /// How many rows there are.
    pub fn len(&self) -> u32
        ensures len { result ≡ length self.now }
        ensures bound { length self.now < 2 ^ 32 }
    {
        self.rows.len() as u32
    }

    /// Whether there are no rows.
    pub fn is_empty(&self) -> bool
        ensures { result ≡ (length self.now == 0) }
    {
        self.rows.is_empty()
    }
}
