// The region's answers, limits and chunks: the part of pmemspec_t.rs that is code.

#![tactic(auto)]

// Why a call refused, by document 01's number: "When the desk says no", but for 8, which reports a
// number and so is a case of the gate's own verdict.
#[derive(Clone, Copy, PartialEq, Eq)]
pub enum Refusal {
    // L over 4096; a record outside L or over the log's budgets; a buffer of another length.
    BadState = 1,
    // addr + len > L, in whole numbers.
    OutOfRange = 2,
    // 32 writes are outstanding.
    TooManyWrites = 3,
    // The outstanding bytes and these are more than 1024.
    TooManyBytes = 4,
    // The sheet is empty, too long, of another edition, cut short, too deep or badly filled.
    BadSheet = 5,
    // The image breaks the sheet.
    BrokenImage = 6,
    // More than 16 choice points.
    TooManyPoints = 7,
    // Rows of wrong length, or a filling bit set.
    BadRows = 9,
    // A header missing or neither 80 nor 00, or too few bytes for a row.
    BadTape = 10,
    // A flush under 00, or a cut under 80.
    NotPredicted = 11,
    // More than 1000 rounds.
    TooManyRounds = 12,
}

// The numbers of `specs/Limits.antt`, as the code has them.
pub const IMAGE_LIMIT: usize = 4096;

pub const WRITES_LIMIT: usize = 32;

pub const LOG_LIMIT: usize = 1024;

pub const CHUNK_SIZE: usize = 8;

pub const POINTS_LIMIT: usize = 16;

pub mod chunks;
pub mod numbers;
pub mod viewer;
