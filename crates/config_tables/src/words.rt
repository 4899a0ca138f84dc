// Names, and texts among others.
ghost use Rattle.std.specs.Prelude.{◌≡◌, ◌<◌, ◌^◌, length, position, unwrap_or, IfSome};
ghost use Rattle.std.specs.List.{list_all, list_any};
ghost use Rattle.std.specs.Str.{bytes_eq};
ghost use Rattle.config_tables.specs.Texts.{is_name, is_name_octet, is_among};
ghost use Rattle.config_tables.specs.Tables.{is_taken};

use io_ports::Octets;
use proxy_config::Cluster;

fn is_name_octet(octet: u8) -> bool
    ensures { result ≡ is_name_octet octet }
{
    octet.is_ascii_lowercase() || octet.is_ascii_digit() || octet == b'-' || octet == b'_'
}

fn are_name_octets(octets: &[u8]) -> bool
    ensures { result ≡ list_all is_name_octet octets.now }
{
    octets.iter().all(|octet| is_name_octet(*octet))
}

/// Whether the text is a name: 1 to 64 octets of `a` to `z`, `0` to `9`, `-` and `_`.
pub fn is_name(text: &str) -> bool
    ensures { result ≡ is_name text.now }
{
    text.len() >= 1 && text.len() <= 64 && are_name_octets(text.as_bytes())
}

fn position_of_word(words: &[&str], text: &str) -> Option<usize>
    ensures place { result ≡ position (λ w. bytes_eq text.now w.now) words.now }
    ensures bound { IfSome result (λ place. place < length words.now) }
{
    words.iter().position(|word| text == *word)
}

fn position_of_name(names: &[Octets], text: &str) -> Option<usize>
    ensures place { result ≡ position (bytes_eq text.now) names.now }
    ensures bound { IfSome result (λ place. place < length names.now) }
{
    names
        .iter()
        .position(|name| text.as_bytes() == name.as_slice())
}

/// The number of the first of these words that is the text, from 0; 0 where there is none.
pub fn place_of_word(words: &[&str], text: &str) -> u32
    requires { length words.now < 2 ^ 32 }
    ensures { result ≡ unwrap_or (position (λ w. bytes_eq text.now w.now) words.now) 0 }
{
    match position_of_word(words, text) {
        Some(place) => place as u32,
        None => 0,
    }
}

/// The number of the first of these names that is the text, from 0; 0 where there is none.
pub fn place_of_name(names: &[Octets], text: &str) -> u32
    requires { length names.now < 2 ^ 32 }
    ensures { result ≡ unwrap_or (position (bytes_eq text.now) names.now) 0 }
{
    match position_of_name(names, text) {
        Some(place) => place as u32,
        None => 0,
    }
}

/// Whether the text is one of these words.
pub fn is_word(words: &[&str], text: &str) -> bool
    ensures { result ≡ list_any (λ w. bytes_eq text.now w.now) words.now }
{
    words.iter().any(|word| text == *word)
}

/// Whether the text is one of these names.
pub fn is_listed(names: &[Octets], text: &str) -> bool
    ensures { result ≡ is_among names.now text.now }
{
    names.iter().any(|name| text.as_bytes() == name.as_slice())
}

/// Whether the text is the name of one of these clusters.
pub fn is_cluster(clusters: &[Cluster], text: &[u8]) -> bool
    ensures { result ≡ is_taken clusters.now text.now }
{
    clusters
        .iter()
        .any(|cluster| text == cluster.name.as_slice())
}
