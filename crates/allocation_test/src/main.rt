// Runs the plans of its standard input through the allocation on numbers, each with lent lists that are filled with a pattern, and
// prints the call, its answer and every cell.
//
// A plan is a line with its title, and the numbers: mode (0 fixed, 1 shortest), minutes, allowance, the lengths of the lists of watts,
// fuels, energies, limits and quiet spans and of the lent table and spare list, and then the five lists. Anything that is no digit stands
// between numbers, and the last one ends its line.
#![tactic(auto)]

ghost use Rattle.std.specs.Prelude.{◌≤◌, length, OnOk};

use planning::{Mode, PlanLists};
use report::{
    Scanner, answer_page, list_page, mode_name, others, plan_page, print, read_full, words_page,
};
use std::io::{self, Write};

// What the lent lists hold before a call.
const TABLE_PATTERN: u64 = 7;

const SPARE_PATTERN: u64 = 8;

// Room for a plan's numbers of its engines, of its deliveries and of its quiet spans, past what a plan may have.
const ENGINE_ROOM: usize = 16;

const DELIVERY_ROOM: usize = 80;

const QUIET_ROOM: usize = 320;

// Room for a list that is lent, and for numbers behind it.
const ROOM: usize = 1024;

// A list of which the front is lent to a call, filled with a pattern. An array and a count, since what stands behind the front is looked at.
// Tried: a ghost bound of the count in place of `min`, but the check has no rule for a `&mut` slice of a struct with a ghost field.
// exhaustive_test has its own: one in `report` would promise what is left behind that slice, and the check has no rule for that of an array.
#[derive(Clone, Copy)]
struct Lent {
    numbers: [u64; ROOM],
    lent: usize,
    pattern: u64,
}

impl Lent {
    fn new(lent: usize, pattern: u64) -> Lent {
        Lent {
            numbers: [pattern; ROOM],
            lent: lent.min(ROOM),
            pattern,
        }
    }

    fn front(&mut self) -> &mut [u64] {
        let end = self.lent.min(ROOM);
        &mut self.numbers[..end]
    }

    // Prints the front behind its name, and among words how many of the numbers behind it are not the pattern any more.
    fn print<W: Write>(&self, to: &mut W, name: &[u8], words: &[u8]) -> io::Result<()> {
        let (front, behind) = self.numbers.split_at(self.lent.min(ROOM));
        print(to, list_page(name, front))?;
        print(
            to,
            words_page(words, &[others(behind, self.pattern) as u64]),
        )
    }
}

// The lengths of a plan's lists, each no more than there is room for, and of what is lent to it.
#[derive(Clone, Copy)]
struct Lengths {
    watts: usize,
    fuels: usize,
    energies: usize,
    limits: usize,
    quiet: usize,
    table: usize,
    spare: usize,
}

fn read_lengths(numbers: &mut Scanner) -> Lengths
    ensures { length numbers.new.rest.now ≤ length numbers.old.rest.now }
{
    Lengths {
        watts: numbers.number(ENGINE_ROOM as u64) as usize,
        fuels: numbers.number(ENGINE_ROOM as u64) as usize,
        energies: numbers.number(DELIVERY_ROOM as u64) as usize,
        limits: numbers.number(DELIVERY_ROOM as u64) as usize,
        quiet: numbers.number(QUIET_ROOM as u64) as usize,
        table: numbers.number(1000) as usize,
        spare: numbers.number(20) as usize,
    }
}

// The front of a list, filled with the next numbers.
fn read_list<'a>(numbers: &mut Scanner, count: usize, list: &'a mut [u64]) -> &'a [u64]
    ensures { length numbers.new.rest.now ≤ length numbers.old.rest.now }
{
    let end = count.min(list.len());
    let front = &mut list[..end];
    for number in front.iter_mut() {
        *number = numbers.number(u64::MAX);
    }
    front
}

// Prints the lists that a call is made with, and how much is lent to it.
fn print_call<W: Write>(to: &mut W, plan: PlanLists, lengths: Lengths) -> io::Result<()> {
    to.write_all(b": ")?;
    to.write_all(mode_name(plan.mode))?;
    print(to, words_page(b" # #, ", &[plan.minutes, plan.allowance]))?;
    print(to, plan_page(plan, b", "))?;
    print(
        to,
        words_page(
            b", lent # and #\n",
            &[lengths.table as u64, lengths.spare as u64],
        ),
    )
}

// Runs a plan with the front of a table and of a spare list lent, and prints the call, the answer and what is left in them.
fn run<W: Write>(to: &mut W, plan: PlanLists, lengths: Lengths) -> io::Result<()> {
    print_call(to, plan, lengths)?;
    let mut table = Lent::new(lengths.table, TABLE_PATTERN);
    let mut spare = Lent::new(lengths.spare, SPARE_PATTERN);
    let answer = allocation::allocate(plan, table.front(), spare.front());
    to.write_all(b"  ")?;
    print(to, answer_page(answer))?;
    table.print(to, b", table", b", behind it changed #")?;
    spare.print(to, b", spare", b", behind it changed #\n")
}

// The mode that a number of the input stands for. `export` has the same for the number that a C program gives: each form has its own numbers.
fn mode_of(n: u64) -> Mode {
    if n == 0 { Mode::Fixed } else { Mode::Shortest }
}

// Reads the plan whose numbers come next, and runs it.
fn run_plan<W: Write>(to: &mut W, numbers: &mut Scanner) -> io::Result<()>
    ensures { OnOk result (length numbers.new.rest.now ≤ length numbers.old.rest.now) }
{
    let mode = mode_of(numbers.number(1));
    let minutes = numbers.number(u64::MAX);
    let allowance = numbers.number(u64::MAX);
    let lengths = read_lengths(numbers);
    let mut watts = [0; ENGINE_ROOM];
    let mut fuels = [0; ENGINE_ROOM];
    let mut energies = [0; DELIVERY_ROOM];
    let mut limits = [0; DELIVERY_ROOM];
    let mut quiet = [0; QUIET_ROOM];
    let plan = PlanLists {
        mode,
        minutes,
        allowance,
        watts: read_list(numbers, lengths.watts, &mut watts),
        fuels: read_list(numbers, lengths.fuels, &mut fuels),
        energies: read_list(numbers, lengths.energies, &mut energies),
        limits: read_list(numbers, lengths.limits, &mut limits),
        quiet: read_list(numbers, lengths.quiet, &mut quiet),
    };
    run(to, plan, lengths)
}

// The title that stands next: all up to the end of its line.
fn title<'a>(input: &mut Scanner<'a>) -> &'a [u8]
    ensures { length input.new.rest.now ≤ length input.old.rest.now }
{
    let end = input
        .rest
        .iter()
        .position(|b| *b == b'\n')
        .unwrap_or(input.rest.len());
    let (title, behind) = input.rest.split_at(end);
    input.rest = behind;
    title
}

// Runs the plans of the input, each behind its title; what ends a plan's last number ends its line.
fn run_all<W: Write>(to: &mut W, input: &[u8]) -> io::Result<()> {
    let mut input = Scanner { rest: input };
    while !input.rest.is_empty() {
        to.write_all(title(&mut input))?;
        run_plan(to, &mut input)?;
        input.rest.split_off_first();
    }
    Ok(())
}

fn main(rt: HostRuntime) -> io::Result<()> {
    // of a fixed length, since nothing is allocated here
    let mut input = [0u8; 65536];
    let n = read_full(&mut rt.stdin(), &mut input)?;
    run_all(&mut rt.stdout(), &input[..n])
}
