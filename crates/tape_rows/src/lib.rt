//! Whole tapes, judged by the definitions: those that the rules allow are lawful, and those that break
//! one of them aren't.
#![tactic(auto)]
