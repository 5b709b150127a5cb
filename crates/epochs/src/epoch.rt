// An epoch of the tape: its header, and whether its rows are there and rightly filled.
ghost use Rattle.std.specs.Prelude.{◌≡◌, ◌+◌, ◌*◌, ◌≤◌, ◌<◌, length};
ghost use Rattle.region.specs.Answer.{answer_number};
ghost use Rattle.region.specs.Limits.{image_limit, writes_limit, const_persistence_chunk_size};
ghost use Rattle.pieces.specs.AsyncSpec.{size_to_chunks};
ghost use Rattle.epochs.specs.Epoch.{flush_foretold, epoch_there, epoch_number};
ghost use Rattle.epochs.specs.End.{HeaderTells, ForetellsEnd};

use pieces::rows::{row_bytes, rows_filled};
use region::Refusal;
use region::chunks::size_to_chunks;

// Bytes of the format, each an `End` where it is read. A flush will end the epoch.
pub const FLUSH_HEADER: u8 = 0x80;

// A cut will end the epoch.
pub const CUT_HEADER: u8 = 0x00;

// What ends an epoch.
#[derive(Clone, Copy, PartialEq, Eq)]
pub enum End {
    Flush,
    Cut,
}

// By the header byte.
impl TryFrom<u8> for End {
    type Error = Refusal;

    ghost try_from_gives = { HeaderTells };

    fn try_from(header: u8) -> Result<Self, Refusal> {
        match header {
            FLUSH_HEADER => Ok(End::Flush),
            CUT_HEADER => Ok(End::Cut),
            _ => Err(Refusal::BadTape),
        }
    }
}

// A tape, and where on it the epoch starts.
#[derive(Clone, Copy)]
pub struct Tape<'a> {
    pub bytes: &'a [u8],
    pub start: usize,
}

impl Tape<'_> {
    // The end that the header foretells.
    pub fn foretold(self) -> Result<End, Refusal>
        ensures { ForetellsEnd self.entry.bytes.now self.entry.start result }
    {
        let header = self.bytes.get(self.start).ok_or(Refusal::BadTape)?;
        End::try_from(*header)
    }

    // Does the header foretell a flush?
    pub fn flush_foretold(self) -> bool
        ensures { result ≡ flush_foretold self.entry.bytes.now self.entry.start }
    {
        self.foretold() == Ok(End::Flush)
    }

    // Is there a header of the two, with the bytes of n rows behind it? No sum is made of `start`,
    // which may be any number.
    fn epoch_there(self, n: usize, chunks: usize) -> bool
        requires { (n ≤ writes_limit) × (chunks ≤ image_limit) }
        ensures { result ≡ epoch_there chunks n self.entry.bytes.now self.entry.start }
    {
        self.foretold().is_ok() && n * row_bytes(chunks) < self.bytes.len() - self.start
    }

    // Are the first n rows of the epoch there, and filled? Document 01's 10 and 9: every row is there
    // before any filling is looked at. The limits of n and `size` are clauses, as `rows_right`'s of `writelog`.
    #[tactic(auto, using(crate::proofs::EpochLaws::no_epoch, crate::proofs::EpochLaws::badly_filled, crate::proofs::EpochLaws::epoch_good))]
    pub fn epoch(self, n: usize, size: usize) -> Result<(), Refusal>
        requires { (n ≤ writes_limit) × (size ≤ image_limit) }
        ensures { answer_number result ≡ epoch_number (size_to_chunks const_persistence_chunk_size size) n self.entry.bytes.now self.entry.start }
    {
        let chunks = size_to_chunks(size);
        if !self.epoch_there(n, chunks) {
            return Err(Refusal::BadTape);
        }
        if !rows_filled(self.bytes, self.start + 1, n, chunks) {
            return Err(Refusal::BadRows);
        }
        Ok(())
    }
}
