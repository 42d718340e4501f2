// Modes, answers and refusals as the test programs print them.
ghost use Rattle.std.specs.Prelude.{◌≡◌};
ghost use Rattle.report.specs.Answers.{mode_name, answer_words, answer_texts};
ghost use Rattle.report.specs.Page.{page_of};

use crate::page::Page;
use crate::pages::words_page;
use planning::{Answer, Mode, Outcome, Refusal};

// A mode as a plan file names it.
#[tactic(auto, unfolding(crate::specs::Answers::mode_name))]
pub fn mode_name(mode: Mode) -> &'static [u8]
    ensures { result.now ≡ mode_name mode }
{
    match mode {
        Mode::Fixed => b"fixed",
        Mode::Shortest => b"shortest",
    }
}

// What is printed of an answer before its numbers.
#[tactic(auto, unfolding(crate::specs::Answers::answer_words))]
fn answer_words(outcome: Outcome) -> &'static [u8]
    ensures { result.now ≡ answer_words outcome }
{
    match outcome {
        Outcome::Found => b"found # #",
        Outcome::None => b"none # #",
        Outcome::Stopped => b"stopped # #",
    }
}

// An answer with its minutes and its tries, or a refusal by its fault's number and its place.
#[tactic(auto, unfolding(crate::specs::Answers::answer_texts))]
pub fn answer_page(answer: Result<Answer, Refusal>) -> Page
    ensures { result ≡ page_of (answer_texts answer) }
{
    match answer {
        Ok(answer) => words_page(
            answer_words(answer.outcome),
            &[answer.minutes, answer.tries],
        ),
        Err(refusal) => words_page(b"refused # #", &[u64::from(refusal.fault), refusal.place]),
    }
}
