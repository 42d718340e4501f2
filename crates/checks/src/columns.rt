// The plan by value: the lists of a call as what each engine, delivery and quiet span has. That each list fits is asked of three functions, called
// once each: a type that carried it would be made for that call alone.
ghost use Rattle.std.specs.Prelude.{◌≡◌, [], ◌*◌, ◌%◌, length};
ghost use Rattle.planning.specs.Bounds.{most_engines, most_deliveries, most_quiet};
ghost use Rattle.planning.specs.ByValue.{Usable, no_figures, figures_by, spans_by, by_value};
ghost use Rattle.planning.specs.Numbers.{call_of, quiet_of};
ghost use Rattle.planning.specs.Tables.{filled, padded};
ghost use Rattle.checks.specs.Columns.{Fits};

use planning::{
    Deliveries, EngineFigures, Engines, MOST_DELIVERIES, MOST_ENGINES, MOST_QUIET, Plan, PlanLists,
    QuietSpan, Spans,
};

// The plan of lists that pass every check.
pub(crate) fn plan_of(lists: PlanLists) -> Plan
    requires engines { length lists.watts.now ≡ length lists.fuels.now }
    requires deliveries { length lists.energies.now ≡ length lists.limits.now }
    requires threes { length lists.quiet.now % 3 ≡ 0 }
    requires usable { Usable (by_value (call_of lists [] [])) }
    ensures { result ≡ by_value (call_of lists.entry [] []) }
{
    Plan {
        mode: lists.mode,
        minutes: lists.minutes,
        allowance: lists.allowance as u32,
        engines: Engines {
            count: lists.watts.len(),
            figures: figures_of(lists.watts, lists.fuels),
            quiet: spans_of(lists.quiet),
        },
        deliveries: deliveries_of(lists.energies, lists.limits),
    }
}

// The figures of the engines, and zeros behind them.
fn figures_of(watts: &[u64], fuels: &[u64]) -> [EngineFigures; MOST_ENGINES]
    requires paired { length watts.now ≡ length fuels.now }
    requires watts { Fits most_engines 32 watts.now }
    requires fuels { Fits most_engines 32 fuels.now }
    ensures { result ≡ filled no_figures most_engines (figures_by watts.now fuels.now) }
{
    let mut figures = [EngineFigures { watts: 0, fuel: 0 }; MOST_ENGINES];
    // By place: tried as `figures.iter_mut().zip(..)`, and of what is written so nothing is known behind the loop.
    for (i, (watts, fuel)) in watts.iter().zip(fuels).enumerate() {
        figures[i] = EngineFigures {
            watts: *watts as u32,
            fuel: *fuel as u32,
        };
    }
    figures
}

// The energies and limits of the deliveries, and zeros behind them.
fn deliveries_of(energies: &[u64], limits: &[u64]) -> Deliveries
    requires paired { length energies.now ≡ length limits.now }
    requires energies { Fits most_deliveries 32 energies.now }
    requires limits { Fits most_deliveries 8 limits.now }
    ensures count { result.count ≡ length energies.now }
    ensures energies { result.energy ≡ padded most_deliveries energies.now }
    ensures limits { result.limit ≡ padded most_deliveries limits.now }
{
    let mut energy = [0; MOST_DELIVERIES];
    let mut limit = [0; MOST_DELIVERIES];
    // By place, as the figures are stored.
    for (p, (wh, most)) in energies.iter().zip(limits).enumerate() {
        energy[p] = *wh as u32;
        limit[p] = *most as u8;
    }
    Deliveries {
        count: energies.len(),
        energy,
        limit,
    }
}

// The quiet spans of a list of three numbers each, and zeros behind them.
fn spans_of(quiet: &[u64]) -> Spans
    requires { Fits (3 * most_quiet) 16 quiet.now }
    ensures { result ≡ spans_by (quiet_of quiet.now) }
{
    let none = QuietSpan {
        engine: 0,
        from: 0,
        to: 0,
    };
    let mut spans = [none; MOST_QUIET];
    let (threes, _) = quiet.as_chunks::<3>();
    // By place, as the figures are stored.
    for (k, [engine, from, to]) in threes.iter().enumerate() {
        spans[k] = QuietSpan {
            engine: *engine as u16,
            from: *from as u16,
            to: *to as u16,
        };
    }
    Spans {
        count: threes.len(),
        spans,
    }
}
