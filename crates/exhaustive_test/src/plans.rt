// Plans made from numbers: the digits of a number, in mixed radix, are the sizes of a plan's engines, its energies, its limits and the ways
// in which its engines are quiet.
use crate::lists::List;
use planning::{Mode, PlanLists};

// FUEL's largest value, more than any engine here can burn.
const UNLIMITED: u64 = 1000000000;

// Enough for every plan here.
const ALLOWANCE: u64 = 1000000000;

// The ways in which an engine is quiet, each by FROM and TO of its spans.
const WAYS: [&[(u64, u64)]; 9] = [
    &[],
    &[(0, 2)],
    &[(1, 3)],
    &[(2, 4)],
    // all of a plan's minutes here
    &[(0, 8)],
    // two that touch
    &[(1, 2), (2, 4)],
    &[(3, 5), (0, 1)],
    &[(4, 12)],
    &[(8, 20)],
];

// No way has more spans.
const MOST_SPANS: usize = 2;

// Plans of so many engines and deliveries: sizes of engines from 0, energies and limits from 1, each up to a largest one, and for each
// engine the first so many of the ways.
#[derive(Clone, Copy)]
pub(crate) struct Shape {
    pub engines: u8,
    pub deliveries: u8,
    pub size: u8,
    pub energy: u8,
    pub limit: u8,
    pub ways: u8,
}

// The numbers of a plan: one for each engine or delivery, and of quiet spans three numbers each.
#[derive(Clone, Copy)]
pub(crate) struct Numbers {
    watts: List,
    fuels: List,
    energies: List,
    limits: List,
    quiet: List,
}

impl Numbers {
    // The plan of these numbers.
    pub(crate) fn plan(&self, mode: Mode, minutes: u64) -> PlanLists<'_> {
        PlanLists {
            mode,
            minutes,
            allowance: ALLOWANCE,
            watts: self.watts.items(),
            fuels: self.fuels.items(),
            energies: self.energies.items(),
            limits: self.limits.items(),
            quiet: self.quiet.items(),
        }
    }
}

// The lowest digits of a number, so many, which are taken off it.
fn take_digits(number: &mut u64, radix: u64, count: u8) -> List {
    let mut digits = List::new(0, usize::from(count));
    for digit in digits.items_mut() {
        *digit = number.checked_rem(radix).unwrap_or(0);
        *number = number.checked_div(radix).unwrap_or(0);
    }
    digits
}

// The fuels of engines of some sizes: the first, the third and the fifth have unlimited fuel, the others as many Wh as their size.
fn fuels_of(sizes: List) -> List {
    let mut fuels = sizes;
    for fuel in fuels.items_mut().iter_mut().step_by(2) {
        *fuel = UNLIMITED;
    }
    fuels
}

// Puts one span of each engine, counted from 0 on, behind others; none of an engine whose way has fewer.
fn push_spans(quiet: &mut List, ways: &[u64], nth: usize) {
    for (engine, way) in ways.iter().enumerate() {
        let spans = WAYS.get(*way as usize).copied().unwrap_or(&[]);
        if let Some((from, to)) = spans.get(nth) {
            quiet.push(engine as u64 + 1);
            quiet.push(*from);
            quiet.push(*to);
        }
    }
}

// The spans of engines that are quiet in these ways: the first of each engine, and then the second ones.
fn quiet_of(ways: &[u64]) -> List {
    let mut quiet = List::new(0, 0);
    for nth in 0..MOST_SPANS {
        push_spans(&mut quiet, ways, nth);
    }
    quiet
}

impl Shape {
    // How many plans of the shape there are.
    pub(crate) fn plans(&self) -> u64 {
        let engines = (u64::from(self.size) + 1) * u64::from(self.ways);
        let deliveries = u64::from(self.energy) * u64::from(self.limit);
        let engines = engines.saturating_pow(u32::from(self.engines));
        engines.saturating_mul(deliveries.saturating_pow(u32::from(self.deliveries)))
    }

    // The plan of the shape that a number stands for. An engine of size c makes c Wh in 3 minutes; one with as many Wh of fuel has used it
    // up after them.
    pub(crate) fn numbers(&self, number: u64) -> Numbers {
        let mut rest = number;
        let sizes = take_digits(&mut rest, u64::from(self.size) + 1, self.engines);
        let energies = take_digits(&mut rest, u64::from(self.energy), self.deliveries);
        let limits = take_digits(&mut rest, u64::from(self.limit), self.deliveries);
        let ways = take_digits(&mut rest, u64::from(self.ways), self.engines);
        Numbers {
            watts: sizes.map(|size| size.saturating_mul(20)),
            fuels: fuels_of(sizes),
            energies: energies.map(|digit| digit.saturating_add(1)),
            limits: limits.map(|digit| digit.saturating_add(1)),
            quiet: quiet_of(ways.items()),
        }
    }
}
