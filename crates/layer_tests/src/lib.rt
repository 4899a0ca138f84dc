//! What the layers below sessions answer, by tables with values from outside: ports, buffers, gates and notes; linked lists, timers
//! and the answers to load.
#![tactic(auto)]

#[cfg(test)]
mod buffers;
#[cfg(test)]
mod gates;
#[cfg(test)]
mod lists;
#[cfg(test)]
mod notes;
#[cfg(test)]
mod overload;
#[cfg(test)]
mod ports;
#[cfg(test)]
mod timers;

// What a test says, as calls: each is proved once, and a test that makes many of them stays short to prove.
#[cfg(test)]
mod said {
    use std::fmt::{Debug, Display};
    use std::process::Abort;

    /// Ends the test where the two differ.
    pub fn same<T: PartialEq + Debug>(rt: &impl Abort, left: &T, right: &T) {
        assert_eq!(rt; *left, *right);
    }

    /// The same in a row of a table.
    pub fn same_in<T: PartialEq + Debug>(rt: &impl Abort, row: &impl Display, left: &T, right: &T) {
        assert_eq!(rt; *left, *right, "row {row}");
    }

    /// Ends the test where this is false.
    pub fn holds(rt: &impl Abort, said: bool) {
        assert!(rt; said);
    }

    /// The same in a row of a table.
    pub fn holds_in(rt: &impl Abort, row: &impl Display, said: bool) {
        assert!(rt; said, "row {row}");
    }
}
