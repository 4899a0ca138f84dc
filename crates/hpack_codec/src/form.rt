// The forms of a representation.
ghost use Rattle.std.specs.Prelude.{◌≡◌};

/// A form of a representation in a block (RFC 7541 section 6).
#[derive(Clone, Copy, PartialEq, Eq)]
pub(crate) enum Form {
    /// The field is an entry of the tables.
    Indexed,
    /// A literal that becomes the newest entry of the dynamic table.
    WithIndexing,
    /// A new size of the dynamic table, and no field.
    SizeUpdate,
    /// A literal that is never to be indexed on its way.
    NeverIndexed,
    /// A literal that changes no table.
    WithoutIndexing,
}

impl Form {
    ghost use Rattle.hpack_codec.specs.Sections.{form_of};

    /// The form that begins with this octet, by its first bits.
    pub fn begun_by(first: u8) -> Self
        ensures { result ≡ form_of first }
    {
        if first >= 0x80 {
            Form::Indexed
        } else if first >= 0x40 {
            Form::WithIndexing
        } else if first >= 0x20 {
            Form::SizeUpdate
        } else if first >= 0x10 {
            Form::NeverIndexed
        } else {
            Form::WithoutIndexing
        }
    }
}
