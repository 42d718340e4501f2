// A state of a search beside its task.
ghost use Rattle.search.specs.Layout.{Kept};
ghost use Rattle.search.specs.Laws.Kept.{kept-prop};

use crate::Task;
use crate::state::State;

// What a choice and straight fill look at: a state in the search of a task.
#[derive(Clone, Copy)]
pub(crate) struct View<'a> {
    pub state: &'a State,
    pub task: &'a Task<'a>,
    ghost kept: { Kept task.now.energies.now task.now.limits.now state.now } by { kept-prop task.now.energies.now task.now.limits.now state.now },
}
