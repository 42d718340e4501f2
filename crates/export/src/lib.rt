// The allocation on numbers, the call with a file and the spare lookup for programs in other languages: the result as a struct of numbers.
// interface/fothwen.h declares them for C, interface/fothwen.rs for Rust.
#![tactic(auto)]

ghost use Rattle.std.specs.Prelude.{◌≡◌, Ok, Err};
ghost use Rattle.planning.specs.Numbers.{call_on};
ghost use Rattle.filecall.specs.Calls.{call_with};
ghost use Rattle.export.specs.Numbers.{mode_of, minutes_under};
ghost use Rattle.export.specs.Replies.{word_of, answered_by, refused_by, lookup_reply_of, Replied, FileReplied, LookupReplied};

use planning::{Answer, Mode, Outcome, PlanLists, Refusal};

// What planning comes to: the word is 0 found, 1 none, 2 stopped, 3 refused. An answer has its minutes and tries, and with a file the
// length of its print; a refusal has its number and place. The other numbers are 0.
#[repr(C)]
#[derive(Clone, Copy, Default)]
pub struct PlanReply {
    pub word: u64,
    pub minutes: u64,
    pub tries: u64,
    pub length: u64,
    pub number: u64,
    pub place: u64,
}

// What a spare lookup comes to: the word is 0 where an engine is named, 1 none, 3 refused. The engine is counted from 0. The C interface has a
// struct of its own for it.
#[repr(C)]
#[derive(Clone, Copy, Default)]
pub struct LookupReply {
    pub word: u64,
    pub engine: u64,
    pub number: u64,
    pub place: u64,
}

// 0 is fixed; 1 is shortest, and what stands for a number that is no mode. The numbers of modes and of answers are the C interface's own, so
// planning has no conversion to them.
#[tactic(auto, unfolding(crate::specs::Numbers::mode_of))]
fn mode_of(mode: u64) -> Mode
    ensures { result ≡ mode_of mode }
{
    if mode == 0 {
        Mode::Fixed
    } else {
        Mode::Shortest
    }
}

// The minutes, or 0 with a number that is no mode: both are refused by 6 at the plan's record, and minutes are the first that 6 looks at.
#[tactic(auto, unfolding(crate::specs::Numbers::is_mode, crate::specs::Numbers::minutes_under))]
fn minutes_under(mode: u64, minutes: u64) -> u64
    ensures { result ≡ minutes_under mode minutes }
{
    if mode <= 1 { minutes } else { 0 }
}

// The word of an answer; 3 is a refusal's.
#[tactic(auto, unfolding(crate::specs::Replies::word_of))]
fn word_of(outcome: Outcome) -> u64
    ensures { result ≡ word_of outcome }
{
    match outcome {
        Outcome::Found => 0,
        Outcome::None => 1,
        Outcome::Stopped => 2,
    }
}

// An answer, with the length of its print.
impl From<(Answer, usize)> for PlanReply {
    ghost from_gives = { λ answered reply. reply ≡ answered_by answered.0 answered.1 };

    #[tactic(auto, unfolding(crate::specs::Replies::answered_by))]
    fn from((answer, length): (Answer, usize)) -> PlanReply {
        PlanReply {
            word: word_of(answer.outcome),
            minutes: answer.minutes,
            tries: answer.tries,
            length: length as u64,
            ..PlanReply::default()
        }
    }
}

// A plan's refusal.
impl From<Refusal> for PlanReply {
    ghost from_gives = { λ refusal reply. reply ≡ refused_by refusal };

    #[tactic(auto, unfolding(crate::specs::Replies::refused_by))]
    fn from(refusal: Refusal) -> PlanReply {
        PlanReply {
            word: 3,
            number: refusal.fault.into(),
            place: refusal.place,
            ..PlanReply::default()
        }
    }
}

// What a lookup found: an engine, or that none has the amount.
impl From<Option<usize>> for LookupReply {
    ghost from_gives = { λ found reply. reply ≡ lookup_reply_of (Ok found) };

    #[tactic(auto, unfolding(crate::specs::Replies::lookup_reply_of))]
    fn from(found: Option<usize>) -> LookupReply {
        match found {
            Some(i) => LookupReply {
                word: 0,
                engine: i as u64,
                ..LookupReply::default()
            },
            None => LookupReply {
                word: 1,
                ..LookupReply::default()
            },
        }
    }
}

// A lookup's refusal.
impl From<Refusal> for LookupReply {
    ghost from_gives = { λ refusal reply. reply ≡ lookup_reply_of (Err refusal) };

    #[tactic(auto, unfolding(crate::specs::Replies::lookup_reply_of))]
    fn from(refusal: Refusal) -> LookupReply {
        LookupReply {
            word: 3,
            number: refusal.fault.into(),
            place: refusal.place,
            ..LookupReply::default()
        }
    }
}

// `allocation::allocate`, with the mode as a number and each list by itself, as the C interface has them.
#[unsafe(no_mangle)]
pub extern "C" fn fothwen_allocate(
    mode: u64,
    minutes: u64,
    allowance: u64,
    watts: &[u64],
    fuels: &[u64],
    energies: &[u64],
    limits: &[u64],
    quiet: &[u64],
    table: &mut [u64],
    spare: &mut [u64],
) -> PlanReply
    ensures { Replied mode
        (call_on (mode_of mode) minutes allowance watts.now fuels.now energies.now limits.now quiet.now table.old spare.old)
        result table.new spare.new }
{
    let lists = PlanLists {
        mode: mode_of(mode),
        minutes: minutes_under(mode, minutes),
        allowance,
        watts,
        fuels,
        energies,
        limits,
        quiet,
    };
    allocation::allocate(lists, table, spare).map_or_else(
        PlanReply::from,
        |answer| PlanReply::from((answer, 0)),
    )
}

// `filecall::plan_file`.
#[unsafe(no_mangle)]
pub extern "C" fn fothwen_plan_file(
    file: &[u8],
    table: &mut [u64],
    spare: &mut [u64],
    output: &mut [u8],
) -> PlanReply
    ensures { FileReplied
        (call_with file.now table.old spare.old output.old)
        result table.new spare.new output.new }
{
    filecall::plan_file(file, table, spare, output).map_or_else(PlanReply::from, PlanReply::from)
}

// `lookup::spare_lookup`. Which engine it names is the program's choice.
#[unsafe(no_mangle)]
pub extern "C" fn fothwen_spare_lookup(spare: &[u64], amount: u64) -> LookupReply
    ensures { LookupReplied spare.now amount result }
{
    lookup::spare_lookup(spare, amount).map_or_else(LookupReply::from, LookupReply::from)
}
