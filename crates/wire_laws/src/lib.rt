//! What the history of a wire session tells: which frames came and what they mean, which streams, windows and
//! waiting lists there are, and how messages are spelled.
#![tactic(auto)]
