// What words are made of: fields packed into a word, and, as definitions, the parity bit and the image that has it. The word entries
// (command_words, status_words, word_sending, word_judging) and the bus list (crate compool) build on it; its functions may ask that fields
// are within their sizes.
#![tactic(auto)]

pub mod packed;
