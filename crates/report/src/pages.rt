// Texts on a page of their own, for a program to write.
ghost use Rattle.std.specs.Prelude.{◌≡◌, [], ◌∷◌, ◌++◌};
ghost use Rattle.lines.specs.Putting.{plain, Puts};
ghost use Rattle.report.specs.Numbers.{number_texts};
ghost use Rattle.report.specs.Page.{page_of};
ghost use Rattle.report.specs.Plans.{plan_texts};
ghost use Rattle.report.specs.Shown.{shown_texts};
ghost use Rattle.report.specs.Words.{word_texts};

use crate::page::{PAGE_BYTES, Page};
use crate::plans::write_lists;
use crate::shown::write_shown;
use crate::words::{write_list, write_words};
use lines::{Output, WriteError};
use planning::PlanLists;

// Each page is lent to its own writer. A function that takes the writer as a closure would be no plainer: its contract must speak of calls.

// Words with the next number of a list in the place of each `#`.
pub fn words_page(words: &[u8], numbers: &[u64]) -> Page
    ensures { result ≡ page_of (word_texts words.now numbers.now) }
{
    let mut bytes = [0u8; PAGE_BYTES];
    let mut out = Output::new(&mut bytes);
    let next = write_words(words, numbers, &mut out).and(Ok(out.len()));
    Page { bytes, next }
}

// Words, and behind them the numbers of a list.
pub fn list_page(words: &[u8], list: &[u64]) -> Page
    ensures { result ≡ page_of (plain words.now ∷ number_texts list.now) }
{
    let mut bytes = [0u8; PAGE_BYTES];
    let mut out = Output::new(&mut bytes);
    let next = write_list(words, list, &mut out).and(Ok(out.len()));
    Page { bytes, next }
}

// Bytes in brackets between two texts, put into an output.
fn write_between(
    before: &[u8],
    bytes: &[u8],
    behind: &[u8],
    out: &mut Output<'_>,
) -> Result<(), WriteError>
    ensures { Puts (plain before.now ∷ (shown_texts bytes.now ++ plain behind.now ∷ [])) out.old result out.new }
{
    out.write_bytes(before)?;
    write_shown(bytes, out)?;
    out.write_bytes(behind)
}

// Bytes in brackets between two texts.
pub fn shown_page(before: &[u8], bytes: &[u8], behind: &[u8]) -> Page
    ensures { result ≡ page_of (plain before.now ∷ (shown_texts bytes.now ++ plain behind.now ∷ [])) }
{
    let mut page = [0u8; PAGE_BYTES];
    let mut out = Output::new(&mut page);
    let next = write_between(before, bytes, behind, &mut out).and(Ok(out.len()));
    Page { bytes: page, next }
}

// The lists of a plan, each behind its name, with a mark between them.
pub fn plan_page(plan: PlanLists, mark: &[u8]) -> Page
    ensures { result ≡ page_of (plan_texts plan.entry mark.now) }
{
    let mut bytes = [0u8; PAGE_BYTES];
    let mut out = Output::new(&mut bytes);
    let next = write_lists(plan, mark, &mut out).and(Ok(out.len()));
    Page { bytes, next }
}
