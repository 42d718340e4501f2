// Lists of numbers with room behind them, for what a plan is made of and what is lent to a call.

// Enough for every plan here.
const ROOM: usize = 20;

// A list of the first numbers, so many. An array and a count, since nothing is allocated here and what stands behind the list is looked at.
// Tried: a ghost bound of the count in place of `min`, but the check has no rule for a `&mut` slice of a struct with a ghost field.
// allocation_test has its own: one in `report` would promise what is left behind that slice, and the check has no rule for that of an array.
#[derive(Clone, Copy)]
pub(crate) struct List {
    pub numbers: [u64; ROOM],
    count: usize,
}

impl List {
    // A list of so many times one number, or of as many as there is room for; the number stands behind them too.
    pub(crate) fn new(number: u64, count: usize) -> List {
        List {
            numbers: [number; ROOM],
            count,
        }
    }

    pub(crate) fn items(&self) -> &[u64] {
        let end = self.count.min(ROOM);
        &self.numbers[..end]
    }

    pub(crate) fn items_mut(&mut self) -> &mut [u64] {
        let end = self.count.min(ROOM);
        &mut self.numbers[..end]
    }

    // What stands behind the list.
    pub(crate) fn behind(&self) -> &[u64] {
        let end = self.count.min(ROOM);
        &self.numbers[end..]
    }

    // Puts a number behind the others, where there is room.
    pub(crate) fn push(&mut self, number: u64) {
        if let Some(place) = self.numbers.get_mut(self.count) {
            *place = number;
            self.count += 1;
        }
    }

    // The list with each number put through a function.
    pub(crate) fn map<F: Fn(u64) -> u64>(mut self, change: F) -> List
        requires { F.IsAlwaysCallable change }
    {
        for number in self.items_mut() {
            *number = change(*number);
        }
        self
    }
}
