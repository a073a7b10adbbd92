//! The machine over no store.

ghost use Rattle.std.specs.Prelude.{◌≡◌, [], IfOk};
ghost use Rattle.np_machine.specs.State.{start};

use crate::machine::Machine;
use np_config::Config;
use np_text::NoMemory;
use std::alloc::Global;

/// The machine over no store.
pub type Plain = Machine<()>;

/// The machine before the first event.
pub fn new_plain(alloc: Global, config: Config) -> Result<Plain, NoMemory>
    ensures { IfOk result (λ m. m ≡ record {
      configuration = config;
      earlier = 0;
      journal = [];
      state = start config;
      store = tt;
    }) }
{
    Machine::begin(alloc, config, ())
}
