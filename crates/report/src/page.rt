// A page: an output that texts are put into and a program then writes.
ghost use Rattle.std.specs.Prelude.{◌≡◌};
ghost use Rattle.report.specs.Page.{page_text};

use lines::WriteError;

// Longer than any text that the test programs print at once.
pub const PAGE_BYTES: usize = 16384;

// A page with its texts, and the place behind them, or why one was left out. An array: a test must not end for lack of memory.
#[derive(Clone, Copy)]
pub struct Page {
    pub bytes: [u8; PAGE_BYTES],
    pub next: Result<usize, WriteError>,
}

// What of some bytes is to be written: all that was put there, or nothing where a text was left out.
#[tactic(auto, unfolding(crate::specs::Page::page_text))]
pub fn written(page: &[u8], to: Result<usize, WriteError>) -> &[u8]
    ensures { result.now ≡ page_text to page.now }
{
    match to {
        Ok(end) if end <= page.len() => &page[..end],
        _ => &page[..0],
    }
}

impl Page {
    // What of the page is to be written.
    pub fn written(&self) -> &[u8]
        ensures { result.now ≡ page_text self.now.next self.now.bytes }
    {
        written(&self.bytes, self.next)
    }
}
