//! What threads share, on one thread and beside others: posts, permits and published states, and tokens.
#![tactic(auto)]

#[cfg(test)]
mod posts;
#[cfg(test)]
mod states;
#[cfg(test)]
mod tokens;

// What a test says, as calls: each is proved once, and a test that makes many of them stays short to prove.
#[cfg(test)]
mod said {
    use std::fmt::{Debug, Display};
    use std::process::Abort;

    /// Ends the test where the two differ.
    pub fn same<T: PartialEq + Debug>(rt: &impl Abort, left: &T, right: &T) {
        assert_eq!(rt; *left, *right);
    }

    /// The same in a row of a table.
    pub fn same_in<T: PartialEq + Debug>(rt: &impl Abort, row: &impl Display, left: &T, right: &T) {
        assert_eq!(rt; *left, *right, "row {row}");
    }

    /// Ends the test where this is false.
    pub fn holds(rt: &impl Abort, said: bool) {
        assert!(rt; said);
    }
}
