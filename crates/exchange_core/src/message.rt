// The head, the trailers and the end of one message.
ghost use Rattle.std.specs.Prelude.{◌≡◌, None};
ghost use Rattle.std.specs.Option.{option_copied};
ghost use Rattle.exchange_core.specs.Message.{awaited, empty_message, fields_of, head_came, head_waits, headed, ended_with, list_framed, end_framed_if, trailers_wait};

use hpack_codec::FieldList;

/// What of a flow's message is still to come.
#[derive(Clone, Copy, PartialEq, Eq)]
pub enum Awaited {
    /// Its end came, or the flow isn't live.
    Nothing,
    /// Its head.
    Head,
    /// More of its body, or its end.
    Body,
}

/// What came of a message besides its body, and what of it was framed.
#[derive(Drop)]
pub(crate) struct Message {
    /// The head that came and waits to be framed.
    pub(crate) head: Option<FieldList>,
    /// Whether the flow's end came with the head.
    pub(crate) head_ends: bool,
    pub(crate) head_framed: bool,
    /// Whether the flow's end came.
    pub(crate) ended: bool,
    /// The trailers that came and wait to be framed.
    pub(crate) trailers: Option<FieldList>,
    pub(crate) end_framed: bool,
}

impl Message {
    /// Nothing came yet.
    pub(crate) fn new() -> Self
        ensures { result ≡ empty_message }
    {
        Message {
            head: None,
            head_ends: false,
            head_framed: false,
            ended: false,
            trailers: None,
            end_framed: false,
        }
    }

    /// What came is forgotten: it is as a new one.
    pub(crate) fn clear(&mut self)
        ensures { self.new ≡ empty_message }
    {
        forget(&mut self.head);
        self.head_ends = false;
        self.head_framed = false;
        self.ended = false;
        forget(&mut self.trailers);
        self.end_framed = false;
    }

    pub(crate) fn head_waits(&self) -> bool
        ensures { result ≡ head_waits self.now }
    {
        self.head.is_some()
    }

    /// Whether the head came.
    pub(crate) fn head_came(&self) -> bool
        ensures { result ≡ head_came self.now }
    {
        self.head.is_some() || self.head_framed
    }

    /// What is still to come.
    pub(crate) fn awaits(&self) -> Awaited
        ensures { result ≡ awaited self.now }
    {
        if self.ended {
            Awaited::Nothing
        } else if self.head_came() {
            Awaited::Body
        } else {
            Awaited::Head
        }
    }

    pub(crate) fn trailers_wait(&self) -> bool
        ensures { result ≡ trailers_wait self.now }
    {
        self.trailers.is_some()
    }

    /// The head came, with the flow's end where `last` holds.
    pub(crate) fn begin(&mut self, fields: FieldList, last: bool)
        ensures { self.new ≡ headed fields last self.old }
    {
        self.head = Some(fields);
        self.head_ends = last;
        self.ended = self.ended || last;
    }

    /// The flow's end came, after trailers or none.
    pub(crate) fn finish(&mut self, trailers: Option<FieldList>)
        ensures { self.new ≡ ended_with trailers self.old }
    {
        self.trailers = trailers;
        self.ended = true;
    }

    /// The list that is framed next: the head, then the trailers.
    pub(crate) fn fields(&self) -> Option<&FieldList>
        ensures { option_copied result ≡ fields_of self.now }
    {
        if self.head.is_some() {
            self.head.as_ref()
        } else {
            self.trailers.as_ref()
        }
    }

    /// That list was framed.
    pub(crate) fn list_framed(&mut self, last: bool)
        ensures { self.new ≡ list_framed last self.old }
    {
        if self.head.is_some() {
            self.head = None;
            self.head_framed = true;
        } else {
            self.trailers = None;
        }
        self.end_framed = self.end_framed || last;
    }

    /// Some body was framed.
    pub(crate) fn body_framed(&mut self, last: bool)
        ensures { self.new ≡ end_framed_if last self.old }
    {
        self.end_framed = self.end_framed || last;
    }
}

// There are no fields from now on. Mostly there are none before, and then nothing has to be dropped.
#[inline(always)]
fn forget(fields: &mut Option<FieldList>)
    ensures { fields.new ≡ None }
{
    match fields {
        Some(_) => *fields = None,
        None => {}
    }
}
