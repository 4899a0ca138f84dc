// Whole lives of windows.
use crate::http::words::number;
use crate::said::Said;
use h2_windows::{MAX_WINDOW, RecvWindow, SendWindow};

fn fits_word(fits: bool) -> &'static str {
    if fits { "fits; " } else { "refused; " }
}

/// `SIZE WORD ..`: a receive window, what happens to it, and what is left, held and owed then.
pub fn say_receive(said: &mut Said, words: &str) {
    let (size, script) = words.split_once(' ').unwrap_or((words, ""));
    let mut window = RecvWindow::new(number(size));
    for word in script.split(' ') {
        arrive(said, &mut window, word);
    }
    said.say_small("= left ", window.left());
    said.say_small(", held ", window.held());
    said.say_small(", owed ", window.owed());
    said.say(if window.is_due() {
        ", due"
    } else {
        ", not due"
    });
}

// `came:N`, `moved:N`, `discarded:N` or `grant`.
fn arrive(said: &mut Said, window: &mut RecvWindow, word: &str) {
    if word == "grant" {
        said.say_small("", window.grant());
        said.say("; ");
        return;
    }
    let (what, n) = word.split_once(':').unwrap_or((word, "0"));
    let n = number(n);
    if what == "came" {
        said.say(fits_word(window.received(n).is_ok()));
        return;
    }
    if n > window.held() {
        said.say("not held; ");
        return;
    }
    if what == "moved" {
        window.moved(n);
    }
    if what == "discarded" {
        window.discarded(n);
    }
}

/// `INITIAL WORD ..`: a send window, what happens to it, and its room then.
pub fn say_send(said: &mut Said, words: &str) {
    let (initial, script) = words.split_once(' ').unwrap_or((words, ""));
    let mut window = SendWindow::new(number(initial));
    for word in script.split(' ') {
        change(said, &mut window, word);
    }
    said.say("= room ");
    said.say_signed(window.room());
}

// `spent:N`, `widened:N` or `initial:N`.
fn change(said: &mut Said, window: &mut SendWindow, word: &str) {
    let (what, n) = word.split_once(':').unwrap_or((word, "0"));
    let n = number(n);
    if what == "widened" {
        said.say(fits_word(window.widen(n).is_ok()));
        return;
    }
    if what == "initial" {
        shift(said, window, n);
        return;
    }
    if i64::from(n) > window.room() {
        said.say("no room; ");
        return;
    }
    if what == "spent" {
        window.spend(n);
    }
}

fn shift(said: &mut Said, window: &mut SendWindow, n: u32) {
    let old = window.initial();
    if old > MAX_WINDOW || n > MAX_WINDOW {
        said.say("not allowed; ");
        return;
    }
    said.say(fits_word(window.shift_initial(old, n).is_ok()));
}
