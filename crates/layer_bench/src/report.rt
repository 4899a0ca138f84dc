// How figures are told.
use crate::copies::{FRAMES_A_ROUND, PIECE, ROUNDS};
use bench_parts::{Line, per_second, print_line};

/// The nanoseconds that the frames of all rounds took, and those that plain copies of their octets took.
#[derive(Clone, Copy)]
pub struct Spent {
    pub frames: u64,
    pub copies: u64,
}

impl Spent {
    pub fn none() -> Self {
        Spent {
            frames: 0,
            copies: 0,
        }
    }

    /// The nanoseconds of a round.
    pub fn add(&mut self, frames: u64, copies: u64) {
        self.frames = self.frames.saturating_add(frames);
        self.copies = self.copies.saturating_add(copies);
    }
}

/// Prints a line of numbers, each behind its words, and the words at its end.
pub fn tell(
    rt: &(impl AllocGlobal + Print),
    numbers: &[(&str, u64)],
    end: &str,
) -> anyhow::Result<()> {
    Ok(print_line(rt, numbers, end)?)
}

/// Prints how many octets in a second of processor time the frames of all rounds come to, and the plain copies, and how many hundredths
/// of the plain copies the frames are.
pub fn report_octets(
    rt: &(impl AllocGlobal + Print),
    what: &str,
    spent: Spent,
) -> anyhow::Result<()> {
    let octets = u64::from(PIECE) * FRAMES_A_ROUND * ROUNDS;
    let copied = per_second(octets, spent.copies.max(1));
    let framed = per_second(octets, spent.frames.max(1));
    let percent = framed.saturating_mul(100) / copied.max(1);
    let mut line = Line::new(rt.alloc());
    line.say_with("a plain copy: ", copied);
    line.say(" octets in a second of processor time\n");
    line.say(what);
    line.say_with(": ", framed);
    line.say_with(
        " octets in a second of processor time\nthe second is ",
        percent,
    );
    line.say(" percent of the first");
    Ok(line.print(rt)?)
}

/// Prints how many of something in a second of processor time all rounds come to.
pub fn report_count(rt: &(impl AllocGlobal + Print), what: &str, nanos: u64) -> anyhow::Result<()> {
    let rate = per_second(FRAMES_A_ROUND * ROUNDS, nanos.max(1));
    println!(rt; "{what}: {rate} in a second of processor time")?;
    Ok(())
}
