// The capacities of engines for some minutes. Nothing else in this crate looks at an engine's figures.
ghost use Rattle.std.specs.Prelude.{◌≡◌, ◌*◌, ◌/◌, ◌≤◌, ◌<◌, min, length};
ghost use Rattle.planning.specs.Bounds.{most_engines, most_quiet};
ghost use Rattle.planning.specs.ByValue.{UsableEngines, quiet_in, engines_in};
ghost use Rattle.planning.specs.Capacity.{each_capacity};
ghost use Rattle.planning.proofs.Laws.Numbers.{QuietKept};
ghost use Rattle.planning.proofs.Laws.Quiet.{taken as taken_of};
ghost use Rattle.planning.specs.Tables.{padded};
ghost use Rattle.allocation.specs.Running.{running_each};

use planning::{EngineFigures, Engines, MOST_ENGINES, QuietSpan, Spans};

// The smaller of fuel and watts × running minutes / 60 rounded down.
fn capacity(figures: EngineFigures, running: u16) -> u32
    ensures { result ≡ min figures.fuel (figures.watts * running / 60) }
{
    let power = u64::from(figures.watts) * u64::from(running) / 60;
    u64::from(figures.fuel).min(power) as u32
}

// How many of the minutes lie in a span.
#[tactic(auto, unfolding(planning::proofs::Laws::Quiet::taken))]
fn taken(span: QuietSpan<u16>, minutes: u16) -> u16
    requires { span.from < span.to }
    ensures { result ≡ taken_of (record { from = span.from; to = span.to }) minutes }
{
    span.to.min(minutes) - span.from.min(minutes)
}

// How many of the minutes each engine runs: all, less those that each span takes off its own engine.
fn running(quiet: &Spans, minutes: u16) -> [u16; MOST_ENGINES]
    requires count { quiet.now.count ≤ most_quiet }
    requires spans { length quiet.now.spans ≡ most_quiet }
    requires kept { QuietKept most_engines (quiet_in quiet.now) }
    ensures { result ≡ running_each (quiet_in quiet.now) minutes }
{
    let mut out = [minutes; MOST_ENGINES];
    for span in &quiet.spans[..quiet.count] {
        let place = usize::from(span.engine) - 1;
        out[place] -= taken(*span, minutes);
    }
    out
}

// The capacities of the engines, and zeros behind them.
pub(crate) fn capacities(engines: &Engines, minutes: u16) -> [u32; MOST_ENGINES]
    requires { UsableEngines engines.now }
    ensures { result ≡ padded most_engines (each_capacity (engines_in engines.now) minutes) }
{
    let runs = running(&engines.quiet, minutes);
    let mut out = [0; MOST_ENGINES];
    let figures = &engines.figures[..engines.count];
    // By place: tried as `out.iter_mut().zip(..)`, and of what is written so nothing is known behind the loop.
    for (i, (figures, running)) in figures.iter().zip(&runs).enumerate() {
        out[i] = capacity(*figures, *running);
    }
    out
}
