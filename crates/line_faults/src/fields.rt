// The fields of the lines of sessions.

/// What a field of a line may be.
#[derive(Clone, Copy, PartialEq, Eq)]
pub enum Kind {
    /// A decimal number in this range.
    Number { least: u64, most: u64 },
    /// Octets in hexadecimal digits, 1 to 16,384.
    Octets,
    /// The name of a cluster.
    Cluster,
    /// What a post asks for.
    Job,
    /// The pressures, to the line's end.
    Pressures,
}

/// A field of a line: what it is called, and what it may be.
#[derive(Clone, Copy, PartialEq, Eq)]
pub struct Field {
    pub name: &'static str,
    pub kind: Kind,
}

const STREAM: Field = Field {
    name: "the stream",
    kind: Kind::Number {
        least: 1,
        most: 2_147_483_647,
    },
};

const SECOND: Field = Field {
    name: "the second stream",
    kind: Kind::Number {
        least: 1,
        most: 2_147_483_647,
    },
};

const OCTETS: Field = Field {
    name: "octets in hexadecimal digits",
    kind: Kind::Octets,
};

const ROOM: Field = Field {
    name: "the number of octets",
    kind: Kind::Number {
        least: 1,
        most: 2_147_483_647,
    },
};

const CONNECTION: Field = Field {
    name: "the connection",
    kind: Kind::Number {
        least: 1,
        most: 4_294_967_295,
    },
};

const CLUSTER: Field = Field {
    name: "the name of a cluster",
    kind: Kind::Cluster,
};

const MOMENT: Field = Field {
    name: "the moment in milliseconds",
    kind: Kind::Number {
        least: 0,
        most: 1_152_921_504_606_846_975,
    },
};

const POSTER: Field = Field {
    name: "the poster",
    kind: Kind::Number {
        least: 0,
        most: 4_294_967_295,
    },
};

const COUNT: Field = Field {
    name: "the number of the post",
    kind: Kind::Number {
        least: 0,
        most: 9_223_372_036_854_775_807,
    },
};

const JOB: Field = Field {
    name: "drain, cancel or look",
    kind: Kind::Job,
};

const VERSION: Field = Field {
    name: "the version",
    kind: Kind::Number {
        least: 1,
        most: 9_223_372_036_854_775_807,
    },
};

const PRESSURES: Field = Field {
    name: "the pressures",
    kind: Kind::Pressures,
};

/// The exchange that a post gives up.
pub const EXCHANGE: Field = Field {
    name: "the exchange",
    kind: Kind::Number {
        least: 0,
        most: 9_223_372_036_854_775_807,
    },
};

/// One of the pressures of an obeyed version.
pub const PRESSURE: Field = Field {
    name: "a pressure",
    kind: Kind::Number {
        least: 0,
        most: 4_294_967_295,
    },
};

/// The limits of a plain session in format 1, and in format 2.
pub const LIMITS: [Field; 3] = [RECV, SEND, WRITE];

pub const LIMITS_TWO: [Field; 4] = [RECV, SEND, WRITE, QUANTUM];

const RECV: Field = Field {
    name: "RECV",
    kind: Kind::Number {
        least: 1,
        most: 16_777_216,
    },
};

const SEND: Field = Field {
    name: "SEND",
    kind: Kind::Number {
        least: 0,
        most: 16_777_216,
    },
};

const WRITE: Field = Field {
    name: "WRITE",
    kind: Kind::Number {
        least: 0,
        most: 16_777_216,
    },
};

const QUANTUM: Field = Field {
    name: "QUANTUM",
    kind: Kind::Number {
        least: 16_384,
        most: 1_048_576,
    },
};

/// The fields behind the name of an event of a plain session.
pub fn plain_fields(event: &[u8]) -> Option<&'static [Field]> {
    if event == b"open".as_slice() || event == b"end".as_slice() || event == b"reset".as_slice() {
        Some(&[STREAM])
    } else if event == b"pair".as_slice() {
        Some(&[STREAM, SECOND])
    } else if event == b"in".as_slice() {
        Some(&[STREAM, OCTETS])
    } else if event == b"room".as_slice() {
        Some(&[ROOM])
    } else {
        None
    }
}

/// The fields behind the name of an event of a wire session.
pub fn wire_fields(event: &[u8]) -> Option<&'static [Field]> {
    if event == b"accept".as_slice() || event == b"gone".as_slice() {
        Some(&[CONNECTION])
    } else if event == b"join".as_slice() {
        Some(&[CONNECTION, CLUSTER])
    } else if event == b"read".as_slice() {
        Some(&[CONNECTION, OCTETS])
    } else if event == b"room".as_slice() {
        Some(&[CONNECTION, ROOM])
    } else if event == b"tick".as_slice() {
        Some(&[MOMENT])
    } else if event == b"post".as_slice() {
        Some(&[POSTER, COUNT, JOB])
    } else if event == b"obey".as_slice() {
        Some(&[VERSION, PRESSURES])
    } else {
        None
    }
}
