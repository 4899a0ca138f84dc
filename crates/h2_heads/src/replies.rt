// The fields of a reply that the proxy makes itself.
ghost use Rattle.std.specs.Prelude.{◌≡◌, ◌≤◌, IfOk};
ghost use Rattle.h2_heads.specs.Heads.{status_of};
ghost use Rattle.h2_heads.specs.Replies.{status_list, three_digits};

use hpack_codec::{Field, FieldList};
use io_ports::{NoMemory, Octets};
use std::alloc::Global;

/// The list of a reply without a body: `:status` alone, with the last three digits of the number (RFC 9113 section 8.3.2),
/// which from 100 to 999 are all. Refused only for lack of memory.
pub fn status_fields(alloc: Global, status: u16) -> Result<FieldList, NoMemory>
    ensures list { IfOk result (λ list. list ≡ status_list status) }
    ensures says { 100 ≤ status → status ≤ 999 → IfOk result (λ list. status_of list ≡ status) }
{
    let mut list = FieldList::new(alloc);
    list.push(Field {
        name: Octets::from_slice(alloc, b":status")?,
        value: Octets::from_slice(alloc, &three_digits(status))?,
        never: false,
    })?;
    Ok(list)
}

fn three_digits(status: u16) -> [u8; 3]
    ensures { result ≡ three_digits status }
{
    let (hundreds, tens, units) = (status / 100 % 10, status / 10 % 10, status % 10);
    [b'0' + hundreds as u8, b'0' + tens as u8, b'0' + units as u8]
}
