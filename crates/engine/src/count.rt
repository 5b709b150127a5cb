// The choice points of the log.
ghost use Rattle.std.specs.Prelude.{◌≡◌};
ghost use Rattle.region.specs.Limits.{const_persistence_chunk_size};
ghost use Rattle.desk.specs.State.{log_records};
ghost use Rattle.engine.specs.Count.{record_points, Countable};

use desk::state::State;
use pieces::points::touched;

pub fn log_points(state: &State) -> usize
    requires { Countable state.now }
    ensures { result ≡ record_points const_persistence_chunk_size (log_records state.now) }
{
    let mut sum = 0;
    for r in state.outstanding() {
        sum += touched(r.addr, r.len);
    }
    sum
}
