// What came of each stream of a plain session, as far as it says what may follow.
use flow_notes::PlainEvent;
use io_ports::{NoMemory, Octets};
use std::alloc::Global;
use std::collections::BTreeMap;

/// What came of one stream.
#[derive(Clone, Copy, PartialEq, Eq)]
pub struct Course {
    pub ended: bool,
    pub cut: bool,
    pub paired: bool,
}

/// The streams that began, with their courses, and the greatest of their numbers.
#[derive(Drop)]
pub struct Courses {
    greatest: u32,
    streams: BTreeMap<u32, Course>,
}

impl Courses {
    ghost use Rattle.std.specs.Prelude.{◌≡◌, ◌<◌, [], Some, None, OnOk, OnErr, is_some};
    ghost use Rattle.std.specs.BTreeMap.{get, IsUnchanged, Updates};
    ghost use Rattle.std.specs.Ordering.{nat_cmp};
    ghost use Rattle.session_lines.specs.Courses.{CoursesAre, Follows, IsNumbered, flowing_of, uncut_of, unpaired_of};

    /// Before the first event. Takes no memory.
    pub fn new(alloc: Global) -> Self
        ensures { CoursesAre result [] }
    {
        Courses {
            greatest: 0,
            streams: BTreeMap::new(alloc),
        }
    }

    /// The greatest stream that began, 0 before the first.
    pub fn greatest(&self) -> u32
        ensures { result ≡ self.now.greatest }
    {
        self.greatest
    }

    /// Whether an event may follow; where it may, it has. An event that may not, and running out of memory, leave all as it
    /// was.
    pub fn follow(&mut self, event: &PlainEvent) -> Result<bool, NoMemory>
        requires { IsNumbered event.now }
        ensures { Follows self.old event.now self.new result }
    {
        match event {
            PlainEvent::Begin { stream } => self.begin(*stream),
            PlainEvent::Pair { first, second } => self.pair(*first, *second),
            PlainEvent::Body { stream, octets } => Ok(self.takes(*stream, octets)),
            PlainEvent::Finish { stream } => self.finish(*stream),
            PlainEvent::Cut { stream } => self.cut(*stream),
            PlainEvent::Room { .. } => Ok(true),
        }
    }

    fn begin(&mut self, stream: u32) -> Result<bool, NoMemory>
        requires { 0 < stream }
        ensures { Follows self.old (PlainEvent.Begin stream) self.new result }
    {
        if stream <= self.greatest {
            return Ok(false);
        }
        let course = Course {
            ended: false,
            cut: false,
            paired: false,
        };
        self.set(stream, course)?;
        self.greatest = stream;
        Ok(true)
    }

    fn pair(&mut self, first: u32, second: u32) -> Result<bool, NoMemory>
        ensures { Follows self.old (PlainEvent.Pair first second) self.new result }
    {
        if first == second || self.course(second).is_none() {
            return Ok(false);
        }
        let Some(course) = self.unpaired(first) else {
            return Ok(false);
        };
        self.set(
            first,
            Course {
                paired: true,
                ..course
            },
        )?;
        Ok(true)
    }

    fn takes(&self, stream: u32, octets: &Octets) -> bool
        ensures { Follows self.now (PlainEvent.Body stream octets.now) self.now (Ok result) }
    {
        self.flowing(stream).is_some()
    }

    fn finish(&mut self, stream: u32) -> Result<bool, NoMemory>
        ensures { Follows self.old (PlainEvent.Finish stream) self.new result }
    {
        let Some(course) = self.flowing(stream) else {
            return Ok(false);
        };
        self.set(
            stream,
            Course {
                ended: true,
                ..course
            },
        )?;
        Ok(true)
    }

    fn cut(&mut self, stream: u32) -> Result<bool, NoMemory>
        ensures { Follows self.old (PlainEvent.Cut stream) self.new result }
    {
        let Some(course) = self.uncut(stream) else {
            return Ok(false);
        };
        self.set(
            stream,
            Course {
                cut: true,
                ..course
            },
        )?;
        Ok(true)
    }

    // The course of a stream that takes octets.
    fn flowing(&self, stream: u32) -> Option<Course>
        ensures { result ≡ flowing_of (get nat_cmp self.now.streams stream) }
    {
        let course = self.course(stream)?;
        if !course.ended && !course.cut {
            Some(course)
        } else {
            None
        }
    }

    // The course of a stream that wasn't reset.
    fn uncut(&self, stream: u32) -> Option<Course>
        ensures { result ≡ uncut_of (get nat_cmp self.now.streams stream) }
    {
        let course = self.course(stream)?;
        if !course.cut { Some(course) } else { None }
    }

    // The course of a stream that has no pair.
    fn unpaired(&self, stream: u32) -> Option<Course>
        ensures { result ≡ unpaired_of (get nat_cmp self.now.streams stream) }
    {
        let course = self.course(stream)?;
        if !course.paired { Some(course) } else { None }
    }

    /// The course of a stream, if it began.
    pub fn course(&self, stream: u32) -> Option<Course>
        ensures { result ≡ get nat_cmp self.now.streams stream }
    {
        self.streams.get(&stream).copied()
    }

    fn set(&mut self, stream: u32, course: Course) -> Result<(), NoMemory>
        ensures ok { OnOk result (Updates nat_cmp self.old.streams self.new.streams stream (Some course)) }
        ensures err { OnErr result (IsUnchanged self.old.streams self.new.streams) }
        ensures greatest { self.new.greatest ≡ self.old.greatest }
    {
        self.streams.insert(stream, course)?;
        Ok(())
    }
}
