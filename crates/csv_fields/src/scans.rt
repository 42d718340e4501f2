// Scans of bytes: what stands at a place, where a run of text ends, and where a byte stands outside quotes.
ghost use Rattle.std.specs.Prelude.{◌≡◌, ◌↔◌, true, ◌+◌, ◌≤◌, length, drop};
ghost use Rattle.rfc4180.specs.Bytes.{class_of};
ghost use Rattle.csv_fields.specs.Outside.{FoundOutside};
ghost use Rattle.csv_fields.specs.Reader.{begins_with};
ghost use Rattle.csv_fields.specs.Scans.{is_plain, Passed, Found};

// Whether a byte stands at a place: asked at five places, whose contracts speak of what the rest of the bytes begins with.
pub(crate) fn holds(bytes: &[u8], at: usize, b: u8) -> bool
    ensures { result ≡ begins_with b (drop at bytes.now) }
{
    bytes.get(at) == Some(&b)
}

// Whether a scan passes a byte: text and, inside quotes, a comma. It compares where `class_of` matches, so that the compiler can test
// several bytes at once; `contains` of the range was tried, and took that from it: long fields were read at half the speed.
pub(crate) fn is_plain<const QUOTED: bool>(x: u8) -> bool
    ensures { result ≡ is_plain QUOTED (class_of x) }
{
    0x20 <= x && x <= 0x7E && x != 0x22 && (QUOTED || x != 0x2C)
}

// Whether all of some bytes are plain. It looks at each of them, so that the compiler can test them at once.
fn all_plain<const QUOTED: bool>(bytes: &[u8]) -> bool
    ensures { (result ≡ true) ↔ Passed bytes.now QUOTED 0 (length bytes.now) }
{
    let mut plain = true;
    for &b in bytes {
        plain &= is_plain::<QUOTED>(b);
    }
    plain
}

// How many plain bytes stand in front of the first that is not plain.
fn plain_count<const QUOTED: bool>(bytes: &[u8]) -> usize
    ensures { Found bytes.now QUOTED 0 (length bytes.now) result }
{
    // `position` was tried, and got no proof: a closure in a function with a const parameter is not stated.
    for (i, &b) in bytes.iter().enumerate() {
        if !is_plain::<QUOTED>(b) {
            return i;
        }
    }
    bytes.len()
}

// The first place from a place on whose byte is not plain, or the end, eight at a time.
fn plain_far<const QUOTED: bool>(bytes: &[u8], from: usize) -> usize
    requires { from ≤ length bytes.now }
    ensures { Found bytes.now QUOTED from (length bytes.now) result }
{
    let mut at = from;
    // `chunks_exact(8).take_while(..).count()` was tried, and got no proof, for its closure.
    while 8 <= bytes.len() - at && all_plain::<QUOTED>(&bytes[at..at + 8]) {
        at += 8;
    }
    at + plain_count::<QUOTED>(&bytes[at..])
}

// The same, where the first bytes are looked at one by one: most fields are short.
#[tactic(auto, using(crate::specs::Laws::Scans::found_near))]
pub(crate) fn plain_end<const QUOTED: bool>(bytes: &[u8], from: usize) -> usize
    requires { from ≤ length bytes.now }
    ensures { Found bytes.now QUOTED from (length bytes.now) result }
{
    let end = bytes.len().min(from.saturating_add(8));
    let at = from + plain_count::<QUOTED>(&bytes[from..end]);
    if at < end {
        at
    } else {
        plain_far::<QUOTED>(bytes, end)
    }
}

// The first place from a place on that holds a byte outside quotes, or the end. Outside quotes means after an even number of quote bytes.
pub(crate) fn find_outside(bytes: &[u8], from: usize, b: u8) -> usize
    ensures { FoundOutside bytes.now from b result }
{
    let mut at = from;
    let mut outside = true;
    // A `for` over the places was tried, and finds the ends of records a fifth slower.
    while at < bytes.len() {
        let x = bytes[at];
        if outside && x == b {
            break;
        }
        if x == 0x22 {
            outside = !outside;
        }
        at += 1;
    }
    at
}
