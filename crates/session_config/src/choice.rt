// Keys of which a row has one or another.
use crate::key::place_len;

/// What is to be said behind a key that isn't known where it stands, since the row has the other key.
pub fn said_beside(key: &[u8]) -> Option<&'static [u8]> {
    let (place, name) = key.split_at(place_len(key));
    match name {
        b"prefix" if is_route(place) => Some(b" stands beside path; a route has one of the two"),
        b"value" if is_scalable(place) => {
            Some(b" stands beside scaling or saturation; a row has value, or both of these")
        }
        _ => None,
    }
}

/// What a row has to have that lacks this key, where that isn't this key alone.
pub fn needed_at(key: &[u8]) -> Option<&'static [u8]> {
    let (place, name) = key.split_at(place_len(key));
    match name {
        b"prefix" if is_route(place) => Some(b"a route has path or prefix"),
        b"value" if is_scalable(place) => Some(b"a row has value, or scaling and saturation"),
        b"scaling" | b"saturation" if is_scalable(place) => {
            Some(b"a row that has one of scaling and saturation has both")
        }
        _ => None,
    }
}

fn is_route(place: &[u8]) -> bool {
    place.starts_with(b"routes.")
}

// Whether the row's state may be in proportion to the pressure.
fn is_scalable(place: &[u8]) -> bool {
    place.starts_with(b"overload.triggers.") || place.starts_with(b"overload.shed.")
}
