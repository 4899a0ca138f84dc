// Heads of requests.
use hpack_codec::{Field, FieldList};
use io_ports::{NoMemory, Octets};
use std::alloc::Global;

/// A small one.
const SMALL: [(&[u8], &[u8]); 4] = [
    (b":method", b"GET"),
    (b":scheme", b"http"),
    (b":path", b"/index.html"),
    (b":authority", b"localhost:8000"),
];

/// What browsers send besides.
const MORE: [(&[u8], &[u8]); 7] = [
    (b"accept", b"text/html,application/xhtml+xml,*/*;q=0.8"),
    (b"accept-encoding", b"gzip, deflate, br"),
    (b"accept-language", b"en-GB,en;q=0.5"),
    (b"cookie", b"session=0123456789abcdef; theme=light"),
    (b"referer", b"http://localhost:8000/"),
    (
        b"user-agent",
        b"Mozilla/5.0 (X11; Linux x86_64; rv:128.0) Gecko",
    ),
    (b"x-requested-with", b"XMLHttpRequest"),
];

/// The head of a small request.
pub fn small_request(alloc: Global) -> Result<FieldList, NoMemory> {
    let mut fields = FieldList::new(alloc);
    push_all(alloc, &mut fields, &SMALL)?;
    Ok(fields)
}

/// The head of a request as browsers send it.
pub fn large_request(alloc: Global) -> Result<FieldList, NoMemory> {
    let mut fields = small_request(alloc)?;
    push_all(alloc, &mut fields, &MORE)?;
    Ok(fields)
}

fn push_all(
    alloc: Global,
    fields: &mut FieldList,
    texts: &[(&[u8], &[u8])],
) -> Result<(), NoMemory> {
    for (name, value) in texts {
        push(alloc, fields, name, value)?;
    }
    Ok(())
}

fn push(alloc: Global, fields: &mut FieldList, name: &[u8], value: &[u8]) -> Result<(), NoMemory> {
    let name = Octets::from_slice(alloc, name)?;
    let value = Octets::from_slice(alloc, value)?;
    fields.push(Field {
        name,
        value,
        never: false,
    })
}
