// Blocks, decoded and encoded. Decoders, encoders and lists are dropped by calls, since the check follows a drop without one field by
// field.
use crate::http::field_words::{block_of, list_of, say_field, say_fields};
use crate::http::words::number;
use crate::said::Said;
use hpack_codec::{Decoder, Encoder, FieldList, HpackFault};
use std::alloc::Global;

/// Greatest sizes of the table and of the lists where none are named.
const TABLE: u32 = 4096;

const LIST: u32 = 61_440;

/// How many fields of a list and entries of a table are shown.
const SHOWN: usize = 8;

// A decoder with the greatest sizes of the first two words, and the words behind them.
fn decoder_of(alloc: Global, words: &str) -> (Decoder, &str) {
    let (table, words) = words.split_once(' ').unwrap_or((words, ""));
    let (list, words) = words.split_once(' ').unwrap_or((words, ""));
    (Decoder::new(alloc, number(table), number(list)), words)
}

fn say_answer(said: &mut Said, answer: &Result<FieldList, HpackFault>) {
    match answer {
        Ok(list) => say_list(said, list),
        Err(fault) => say_fault(said, *fault),
    }
    said.say("\n");
}

fn say_list(said: &mut Said, list: &FieldList) {
    said.say_with("  list of ", list.size() as u64);
    said.say(" octets");
    if list.len() > SHOWN {
        said.say_with(" in ", list.len() as u64);
        said.say(" fields");
    } else {
        say_fields(said, list);
    }
}

fn say_fault(said: &mut Said, fault: HpackFault) {
    said.say_small("  fault ", fault as u32);
    match format!(in said.alloc(); " {fault:?}") {
        Ok(name) => said.say(name.as_str()),
        Err(_) => said.lack(),
    }
}

// How many entries a table has, and how many octets they count.
fn table_counts(decoder: &Decoder) -> (usize, usize) {
    let mut entries = 0usize;
    let mut octets = 0usize;
    for place in 0..1000 {
        let Some(line) = decoder.line(place) else {
            break;
        };
        entries = place.saturating_add(1);
        let len = line.name.len().saturating_add(line.value.len());
        octets = octets.saturating_add(len.saturating_add(32));
    }
    (entries, octets)
}

fn say_table(said: &mut Said, decoder: &Decoder) {
    let (entries, octets) = table_counts(decoder);
    said.say_small("  table of at most ", decoder.table_size());
    said.say_with(", ", octets as u64);
    said.say(" octets");
    if entries > SHOWN {
        said.say_with(" in ", entries as u64);
        said.say(" entries");
    } else {
        say_lines(said, decoder);
    }
    said.say("\n");
}

// The entries of a table, each behind a bar.
fn say_lines(said: &mut Said, decoder: &Decoder) {
    for place in 0..SHOWN {
        let Some(line) = decoder.line(place) else {
            break;
        };
        said.say(" | ");
        say_field(said, &line.name, &line.value);
    }
}

// Whether the block was read whole.
fn is_whole(answer: &Result<FieldList, HpackFault>) -> bool {
    match answer {
        Ok(_) => true,
        Err(fault) => *fault == HpackFault::ListTooLong,
    }
}

/// Decodes blocks one after another, and says the list of each and the table after it.
pub fn say_decoded(said: &mut Said, words: &str) {
    let (mut decoder, blocks) = decoder_of(said.alloc(), words);
    for word in blocks.split(' ') {
        say_next(said, &mut decoder, word);
    }
    drop(decoder);
}

fn say_next(said: &mut Said, decoder: &mut Decoder, word: &str) {
    let block = block_of(said.alloc(), word);
    let answer = decoder.decode(block.as_slice());
    say_answer(said, &answer);
    if is_whole(&answer) {
        say_table(said, decoder);
    }
    drop(answer);
}

/// Cuts a block short at each place, and says how many fields are read, or the number of the fault.
pub fn say_cuts(said: &mut Said, words: &str) {
    let (_, rest) = words.split_once(' ').unwrap_or((words, ""));
    let (_, word) = rest.split_once(' ').unwrap_or((rest, ""));
    let block = block_of(said.alloc(), word);
    said.say(" ");
    for cut in 0..block.len() {
        say_cut(said, words, &block.as_slice()[..cut]);
    }
    said.say("\n");
}

fn say_cut(said: &mut Said, words: &str, block: &[u8]) {
    let (mut decoder, _) = decoder_of(said.alloc(), words);
    let answer = decoder.decode(block);
    drop(decoder);
    match &answer {
        Ok(list) => said.say_with(" ", list.len() as u64),
        Err(fault) => said.say_small(" f", *fault as u32),
    }
    drop(answer);
}

// Encodes a list, and says the block and what a decoder reads of it.
fn say_block(said: &mut Said, encoder: &mut Encoder, list: &FieldList, decoder: &mut Decoder) {
    let Ok(block) = encoder.encode(list) else {
        said.lack();
        return;
    };
    said.say("  block ");
    said.say_hex(block.as_slice());
    said.say("\n");
    let answer = decoder.decode(block.as_slice());
    say_answer(said, &answer);
    drop(answer);
}

/// Encodes a list with a new encoder.
pub fn say_encoded(said: &mut Said, words: &str) {
    say_blocks(said, words, 1);
}

/// Encodes a list twice with a new encoder, and twice again once the peer has named a table size.
pub fn say_again(said: &mut Said, words: &str) {
    say_blocks(said, words, 4);
}

fn say_blocks(said: &mut Said, words: &str, turns: u32) {
    let list = list_of(said, words);
    let mut encoder = Encoder::new(said.alloc());
    let mut decoder = Decoder::new(said.alloc(), TABLE, LIST);
    for turn in 0..turns {
        if turn == 2 {
            encoder.table_size_named();
        }
        say_block(said, &mut encoder, &list, &mut decoder);
    }
    drop(decoder);
    drop(encoder);
    drop(list);
}
