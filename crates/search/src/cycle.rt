// The search: choose, lay and cut call each other. Each try hands the state on, so backing up has nothing to put back; pieces are
// written into the table on the way back from found.
ghost use Rattle.std.specs.Prelude.{◌≡◌, ◌≤◌};
ghost use Rattle.planning.specs.Search.{lays, cuts};
ghost use Rattle.search.specs.Layout.{UnderWay, Picked, limit_of};
ghost use Rattle.search.specs.Steps.{search_in, step_in, Makes};

use crate::Task;
use crate::choice::Turn;
use crate::members::Members;
use crate::state::{Pick, State};
use crate::view::View;
use planning::Outcome;

// A search under way: its task, the table that found is written into, and the tries made.
// Two lifetimes: with one for both references, tried, the borrow checker does not cover `choose`.
#[derive(Drop)]
pub(crate) struct Run<'t, 'l> {
    pub task: &'t Task<'t>,
    pub table: &'l mut [u64],
    pub tries: u32,
}

// What a run is under way in (`UnderWay`) is asked by each of the three: the state goes by value from try to try, and no field holds it.
impl Run<'_, '_> {
    // Step B, C, E, or on to D or F.
    #[cycle(choose_cut_lay)]
    pub(crate) fn choose(&mut self, s: State) -> Outcome
        requires { UnderWay self.old s }
        ensures { Makes (search_in self.old s) self.old result self.new }
    {
        let view = View {
            state: &s,
            task: self.task,
        };
        match view.next_turn() {
            Turn::Finished => {
                // no piece anywhere
                self.table.fill(0);
                Outcome::Found
            }
            Turn::Fill => {
                view.straight(self.table);
                Outcome::Found
            }
            Turn::Lay(pick) => self.lay(s, pick),
            Turn::Cut(pick) => self.cut(s, pick),
        }
    }

    // Step D: one try for each open engine with room for the whole rest. Step F below has the same loop: both stand in the cycle with choose,
    // which gets no proof through a closure.
    #[cycle(choose_cut_lay)]
    fn lay(&mut self, s: State, pick: Pick) -> Outcome
        requires under_way { UnderWay self.old s }
        requires picked { Picked self.old.task.now.energies.now s pick }
        requires one { limit_of self.old.task.now.limits.now s pick.row ≡ 1 }
        ensures { Makes (step_in (lays pick.row) self.old s) self.old result self.new }
    {
        for i in Members(u64::from(s.open)) {
            if pick.rest <= s.amount[i] {
                if self.tries == self.task.allowance {
                    return Outcome::Stopped;
                }
                self.tries += 1;
                match self.choose(s.lay(pick, i)) {
                    Outcome::Found => {
                        let cell = pick.row * self.task.capacities.len() + i;
                        self.table[cell] = u64::from(pick.rest);
                        return Outcome::Found;
                    }
                    Outcome::Stopped => return Outcome::Stopped,
                    Outcome::None => {}
                }
            }
        }
        Outcome::None
    }

    // Step F: one try for each open engine that is smaller than the rest.
    #[cycle(choose_cut_lay)]
    fn cut(&mut self, s: State, pick: Pick) -> Outcome
        requires under_way { UnderWay self.old s }
        requires picked { Picked self.old.task.now.energies.now s pick }
        requires several { 2 ≤ limit_of self.old.task.now.limits.now s pick.row }
        ensures { Makes (step_in (cuts pick.row) self.old s) self.old result self.new }
    {
        for i in Members(u64::from(s.open)) {
            let piece = s.amount[i];
            if piece < pick.rest {
                if self.tries == self.task.allowance {
                    return Outcome::Stopped;
                }
                self.tries += 1;
                match self.choose(s.cut(pick, i)) {
                    Outcome::Found => {
                        let cell = pick.row * self.task.capacities.len() + i;
                        self.table[cell] = u64::from(piece);
                        return Outcome::Found;
                    }
                    Outcome::Stopped => return Outcome::Stopped,
                    Outcome::None => {}
                }
            }
        }
        Outcome::None
    }
}
