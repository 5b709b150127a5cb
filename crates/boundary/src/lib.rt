// What crosses to a program in another language: the state as 65 words of 64 bits, and an answer as
// document 01's number with what it reports. What each function of `skaldrift` promises stands in specs/. Nothing is assumed.

#![tactic(auto)]

pub mod reports;
pub mod state_words;
