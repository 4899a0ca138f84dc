// A runtime whose standard error is its output.
use std::alloc::Global;
use std::fmt::Display;
use std::io::{self, Eprint};

/// A runtime that prints on the output what a program tells on standard error.
#[derive(Drop)]
pub struct Aloud<R: Drop> {
    rt: R,
}

impl<R: Drop> Aloud<R> {
    pub fn new(rt: R) -> Self {
        Aloud { rt }
    }
}

impl<R: AllocGlobal + Drop> Alloc for Aloud<R> {
    type A = Global;

    fn alloc(&self) -> Global {
        self.rt.alloc()
    }
}

impl<R: Print + Drop> Eprint for Aloud<R> {
    fn eprint<D: Display + Drop>(&self, value: D) -> io::Result<()> {
        self.rt.print(value)
    }

    fn eprintln<D: Display + Drop>(&self, value: D) -> io::Result<()> {
        self.rt.println(value)
    }
}
