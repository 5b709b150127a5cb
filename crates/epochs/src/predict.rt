// The predicted image, computed from image, log and rows each time, whatever the buffer held.
ghost use Rattle.std.specs.Prelude.{◌≡◌, length};
ghost use Rattle.desk.specs.Desk.{desk};
ghost use Rattle.epochs.specs.Foretold.{predicted_now};
ghost use Rattle.epochs.specs.Predictable.{Predictable};

use crate::epoch::Tape;
use desk::state::State;
use pieces::lay::copy;
use pieces::rows::row_bytes;
use region::chunks::size_to_chunks;
use walks::selected::replay_selected;
use walks::whole::replay_whole;

pub fn predict(state: &State, image: &[u8], log: &[u8], tape: Tape, predicted: &mut [u8])
    requires { Predictable (desk image.now state.now log.now) tape.bytes.now tape.start (length predicted.old) }
    ensures { predicted.new ≡ predicted_now (desk image.now state.now log.now) tape.entry.bytes.now tape.entry.start }
{
    copy(predicted, image);
    if tape.flush_foretold() {
        replay_whole(state, log, predicted);
    } else {
        let width = row_bytes(size_to_chunks(image.len()));
        replay_selected(state, log, tape.bytes, width, predicted, tape.start + 1);
    }
}
