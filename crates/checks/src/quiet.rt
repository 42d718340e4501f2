// The refusals of quiet spans, span by span: 6, 10, then 11.
ghost use Rattle.std.specs.Prelude.{◌≡◌, [], map};
ghost use Rattle.planning.specs.Numbers.{quiet_of, quiet_three, quiet_fault, check_quiet};
ghost use Rattle.planning.specs.Refusals.{verdict_of};

use planning::{Fault, MOST_MINUTES, QuietSpan, Refusal};

// Three numbers each; of so many engines.
pub(crate) fn check_spans(quiet: &[u64], engines: u64) -> Result<(), Refusal>
    ensures { result ≡ verdict_of (check_quiet engines [] (quiet_of quiet.now)) }
{
    let (threes, _) = quiet.as_chunks::<3>();
    for (k, [engine, from, to]) in threes.iter().enumerate() {
        let span = QuietSpan {
            engine: *engine,
            from: *from,
            to: *to,
        };
        check_span(&threes[..k], span, engines)?;
    }
    Ok(())
}

// A span behind earlier ones.
fn check_span(earlier: &[[u64; 3]], span: QuietSpan<u64>, engines: u64) -> Result<(), Refusal>
    ensures { result ≡ verdict_of (quiet_fault engines (map quiet_three earlier.now)
        (record { engine = span.engine; span = record { from = span.from; to = span.to } })) }
{
    if MOST_MINUTES < span.from || MOST_MINUTES < span.to {
        return Err(Fault::Value.at(0));
    }
    if !(1..=engines).contains(&span.engine) {
        return Err(Fault::UnknownEngine.at(0));
    }
    if !span.fits_among(earlier) {
        return Err(Fault::QuietSpan.at(0));
    }
    Ok(())
}
