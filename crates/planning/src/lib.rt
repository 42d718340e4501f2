// The types that the planner's answers and contracts speak of, the bounds, a fault's number and its refusal at a place, numbers copied, and the test
// of a quiet span. Their meaning is given in specs/.
#![tactic(auto)]

ghost use Rattle.std.specs.Prelude.{◌≡◌, ◌==◌, nat_lt, ◌+◌, ◌&&◌, length, take, map, filter};
ghost use Rattle.std.specs.List.{list_all, enumerate_from};
ghost use Rattle.planning.specs.Tables.{at, over_front};
ghost use Rattle.planning.specs.Bounds.{most_spans};
ghost use Rattle.planning.specs.Numbers.{quiet_of, quiet_three};
ghost use Rattle.planning.specs.Quiet.{spans_of, clear, fits};
ghost use Rattle.planning.specs.Refusals.{fault_number};

// The counts and ranges of documents 01 and 02 under the names that specs/Bounds gives them.
pub const MOST_ENGINES: usize = 12;

pub const MOST_DELIVERIES: usize = 37;

pub const MOST_CELLS: usize = MOST_DELIVERIES * MOST_ENGINES;

pub const MOST_SPANS: usize = 8;

pub const MOST_QUIET: usize = MOST_ENGINES * MOST_SPANS;

pub const MOST_MINUTES: u64 = 10080;

pub const MOST_TRIES: u64 = 1000000000;

pub const MOST_WATTS: u64 = 5000000;

pub const MOST_FUEL: u64 = 1000000000;

pub const MOST_ENERGY: u64 = 1000000000;

pub const MOST_LIMIT: u64 = 12;

// MODE of a plan: search the minutes it gives, or look for the shortest time.
#[derive(Clone, Copy, Debug, PartialEq, Eq)]
pub enum Mode {
    Fixed,
    Shortest,
}

// An answer is one of found, none and stopped ..
#[derive(Clone, Copy, Debug, PartialEq, Eq)]
pub enum Outcome {
    Found,
    None,
    Stopped,
}

// .. carried with its minutes and tries.
#[derive(Clone, Copy, Debug, PartialEq, Eq)]
pub struct Answer {
    pub outcome: Outcome,
    pub minutes: u64,
    pub tries: u64,
}

// Why a call is turned down: the rows 1 to 9 of document 01's table, in its order, then 10 and 11 of document 02.
#[derive(Clone, Copy, Debug, PartialEq, Eq)]
pub enum Fault {
    Size,
    Grammar,
    Fields,
    Kind,
    Name,
    Value,
    Count,
    NoEngine,
    Space,
    UnknownEngine,
    QuietSpan,
}

// A refusal: the fault, and its place: the record at fault counted from 1, or 0 where none is, as document 01 numbers it.
#[derive(Clone, Copy, Debug, PartialEq, Eq)]
pub struct Refusal {
    pub fault: Fault,
    pub place: u64,
}

// A quiet span: the number of its engine, counted from 1, FROM and TO; in 64 bits as it is lent, in 16 where it stands in a plan by value.
#[derive(Clone, Copy, Debug, PartialEq, Eq)]
pub struct QuietSpan<T> {
    pub engine: T,
    pub from: T,
    pub to: T,
}

// The quiet spans of a plan's engines by value, in the order given: those counted stand at the front, zeros behind them. An array with a count,
// as in the other parts of a plan, since a library takes nothing from the heap; no generic one of both, since engines have more beside theirs, and
// deliveries two arrays to one count.
#[derive(Clone, Copy)]
pub struct Spans {
    pub count: usize,
    pub spans: [QuietSpan<u16>; MOST_QUIET],
}

// What an engine has of its own.
#[derive(Clone, Copy, Debug, PartialEq, Eq)]
pub struct EngineFigures {
    pub watts: u32,
    pub fuel: u32,
}

// The engines of a plan by value, alike, and their quiet spans.
#[derive(Clone, Copy)]
pub struct Engines {
    pub count: usize,
    pub figures: [EngineFigures; MOST_ENGINES],
    pub quiet: Spans,
}

// The deliveries of a plan by value: a column for each figure, filled from the front and 0 behind the count. They stay columns: the search takes
// energies and limits as lists, and is lent `&energy[..count]` and `&limit[..count]` as they stand.
#[derive(Clone, Copy)]
pub struct Deliveries {
    pub count: usize,
    pub energy: [u32; MOST_DELIVERIES],
    pub limit: [u8; MOST_DELIVERIES],
}

// A plan by value, as it is behind the checks.
#[derive(Clone, Copy)]
pub struct Plan {
    pub mode: Mode,
    pub minutes: u64,
    pub allowance: u32,
    pub engines: Engines,
    pub deliveries: Deliveries,
}

// A plan by its lists, as the allocation on numbers takes it: one number for each engine or delivery, and of quiet spans three numbers each. They
// stay lists side by side, as the C interface lends them.
#[derive(Clone, Copy)]
pub struct PlanLists<'a> {
    pub mode: Mode,
    pub minutes: u64,
    pub allowance: u64,
    pub watts: &'a [u64],
    pub fuels: &'a [u64],
    pub energies: &'a [u64],
    pub limits: &'a [u64],
    pub quiet: &'a [u64],
}

// A number of 32 bits where 64 are asked for.
pub fn wide(x: u32) -> u64
    ensures { result ≡ x }
{
    u64::from(x)
}

// Numbers copied to the front of a list, as many as it has room for. By a loop, of which the compiler makes a `memcpy`: `copy_from_slice` is a
// `memmove`, and the C archive would need that name from outside too.
pub fn copy(numbers: &[u64], to: &mut [u64])
    ensures { to.new ≡ over_front (take (length to.old) numbers.now) to.old }
{
    let n = to.len().min(numbers.len());
    for (i, number) in numbers[..n].iter().enumerate() {
        to[i] = *number;
    }
}

impl Fault {
    // A refusal by that fault, at a place.
    pub fn at(self, place: u64) -> Refusal
        ensures { result ≡ record { fault = self; place = place } }
    {
        Refusal { fault: self, place }
    }
}

// The documents' number of a fault. By a match: with numbers on the variants two faults of one number, a wrong answer that a fact must refuse, are
// refused by the compiler before any proof.
impl From<Fault> for u64 {
    ghost from_gives = { λ fault number. number ≡ fault_number fault };

    #[tactic(auto, unfolding(crate::specs::Refusals::fault_number))]
    fn from(fault: Fault) -> u64 {
        match fault {
            Fault::Size => 1,
            Fault::Grammar => 2,
            Fault::Fields => 3,
            Fault::Kind => 4,
            Fault::Name => 5,
            Fault::Value => 6,
            Fault::Count => 7,
            Fault::NoEngine => 8,
            Fault::Space => 9,
            Fault::UnknownEngine => 10,
            Fault::QuietSpan => 11,
        }
    }
}

impl QuietSpan<u64> {
    // Whether one of two spans ends before the other begins.
    #[tactic(auto, unfolding(crate::specs::Quiet::clear))]
    fn is_clear_of(self, from: u64, to: u64) -> bool
        ensures { result ≡ clear (record { from = self.from; to = self.to }) (record { from = from; to = to }) }
    {
        self.to <= from || to <= self.from
    }

    // Whether it is clear of those of its own engine, and these are fewer than the most. Counted as they are looked at: tried by `count` in a
    // pass of its own, which cost 25 %.
    fn fits_behind(self, threes: &[[u64; 3]]) -> bool
        ensures { result ≡ list_all (λ kth. nat_lt (kth.0 + 1) most_spans && clear (record { from = self.from; to = self.to }) (quiet_three kth.1).span)
            (enumerate_from 0 (filter (λ three. at three 0 == self.engine) threes.now)) }
    {
        threes
            .iter()
            .filter(|[engine, ..]| *engine == self.engine)
            .enumerate()
            .all(|(k, [_, from, to])| k + 1 < MOST_SPANS && self.is_clear_of(*from, *to))
    }

    // Whether it may stand behind its engine's earlier ones, among those given by three numbers each: 11, as a test.
    #[tactic(auto, using(crate::proofs::Laws::Triples::fits_threes))]
    pub fn fits_among(self, earlier: &[[u64; 3]]) -> bool
        ensures { result ≡ fits (record { from = self.from; to = self.to }) (spans_of self.engine (map quiet_three earlier.now)) }
    {
        self.from < self.to && self.fits_behind(earlier)
    }
}

// Whether a span may stand behind an engine's earlier ones, among those of a list of three numbers each: 11, as a test. What is left behind whole
// threes is not looked at.
#[tactic(auto, using(crate::proofs::Laws::Triples::quiet_threes))]
pub fn span_fits(quiet: &[u64], engine: u64, from: u64, to: u64) -> bool
    ensures { result ≡ fits (record { from = from; to = to }) (spans_of engine (quiet_of quiet.now)) }
{
    let (threes, _) = quiet.as_chunks::<3>();
    QuietSpan { engine, from, to }.fits_among(threes)
}
