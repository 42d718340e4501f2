// Runs the files of its standard input through the call with a file, each with a table, a spare list and an output that are filled with a
// pattern, and prints the file, the answer, the print, and every number and byte that is other than its pattern afterwards.
//
// A case is six decimal numbers with a byte behind each, another byte, and the title and the bytes whose lengths the first two numbers are.
// The others are the lengths of the lent table, spare list and output, and of the file: it is the bytes, and that one byte as often as it
// takes.
#![tactic(auto)]

ghost use Rattle.std.specs.Prelude.{◌≤◌, ◌<◌, length, IfSome};

use planning::{Answer, Refusal};
use report::{Scanner, answer_page, print, read_full, shown_page, words_page, written};
use std::array;
use std::io::{self, Write};

// Where the patterns of the table and the spare list begin: above any number that is written there.
const TABLE: u32 = 2000000000;

const SPARE: u32 = 3000000000;

// What a lent number is filled with: another one at every place.
fn number_pattern(base: u32, i: usize) -> u64 {
    u64::from(base) + (i % 4096) as u64
}

// What a lent byte is filled with: one that no print holds, and seldom the same at two places.
fn byte_pattern(i: usize) -> u8 {
    (128 + i % 101) as u8
}

// Prints the items of a list, from a place on, that are other than its pattern, each behind its place, and that all the others are as they
// were filled.
fn show_changed<W: Write, T: Copy, P: Fn(usize) -> u64>(
    to: &mut W,
    list: &[T],
    from: usize,
    pattern: P,
) -> io::Result<()>
where
    u64: From<T>,
    requires { P.IsAlwaysCallable pattern }
{
    let mut kept: &[u8] = b" kept";
    for (i, item) in list.iter().enumerate().skip(from) {
        let item = u64::from(*item);
        if item != pattern(i) {
            print(to, words_page(b" #:#", &[i as u64, item]))?;
            kept = b" others kept";
        }
    }
    to.write_all(kept)
}

// Writes the line of a refusal where so much of the space is lent for it, and answers its length.
fn write_line(refusal: Refusal, space: &mut [u8], room: usize) -> usize {
    space
        .get_mut(..room)
        .map_or(0, |lent| filecall::write_refusal(refusal, lent))
}

// Prints what the program `planner` prints of a refusal, with just enough space and with a byte less.
fn show_line<W: Write>(to: &mut W, refusal: Refusal) -> io::Result<()> {
    let mut space = [b'.'; 20];
    let n = filecall::write_refusal(refusal, &mut space);
    let mut line = [b'.'; 20];
    let written = write_line(refusal, &mut line, n) as u64;
    print(to, words_page(b", line #", &[written]))?;
    print(to, shown_page(b" ", &line, b""))?;
    if 0 < n {
        let less = write_line(refusal, &mut space, n - 1) as u64;
        print(to, words_page(b", with a byte less #", &[less]))?;
    }
    Ok(())
}

// Prints what the call returned, and answers the length of the print, which a refusal has none of.
fn show_answer<W: Write>(
    to: &mut W,
    answer: Result<(Answer, usize), Refusal>,
) -> io::Result<usize> {
    print(to, answer_page(answer.map(|(answer, _)| answer)))?;
    match answer {
        Ok((_, n)) => Ok(n),
        Err(refusal) => {
            show_line(to, refusal)?;
            Ok(0)
        }
    }
}

// A case: its title, its bytes, and the byte behind them; the lengths of what it lends, no more than there is room for, and of its file.
#[derive(Clone, Copy)]
struct Case<'a> {
    title: &'a [u8],
    bytes: &'a [u8],
    pad: u8,
    table: usize,
    spare: usize,
    output: usize,
    size: usize,
    ghost room: { (length bytes.now ≤ 32768) × (table ≤ 800) × (spare ≤ 20) × (output ≤ 6800) × (size ≤ 32769) },
}

// What a case is lent the fronts of, filled with patterns.
#[derive(Clone, Copy)]
struct Lent {
    table: [u64; 800],
    spare: [u64; 20],
    output: [u8; 6800],
}

impl Lent {
    fn new() -> Lent {
        Lent {
            table: array::from_fn(|i| number_pattern(TABLE, i)),
            spare: array::from_fn(|i| number_pattern(SPARE, i)),
            output: array::from_fn(byte_pattern),
        }
    }

    // Prints the print, of n bytes, and what the call left in what was lent.
    fn show<W: Write>(&self, to: &mut W, n: usize) -> io::Result<()> {
        print(to, words_page(b", print #", &[n as u64]))?;
        print(
            to,
            shown_page(b" ", written(&self.output, Ok(n)), b"\ntable"),
        )?;
        show_changed(to, &self.table, 0, |i| number_pattern(TABLE, i))?;
        to.write_all(b", spare")?;
        show_changed(to, &self.spare, 0, |i| number_pattern(SPARE, i))?;
        to.write_all(b", output behind the print")?;
        show_changed(to, &self.output, n, |i| u64::from(byte_pattern(i)))?;
        to.write_all(b"\n")
    }
}

// Prints a case's title, its file and what is lent.
fn show_given<W: Write>(to: &mut W, case: &Case) -> io::Result<()> {
    to.write_all(case.title)?;
    print(to, words_page(b"\nfile #", &[case.size as u64]))?;
    print(to, shown_page(b" ", case.bytes, b""))?;
    if case.bytes.len() < case.size {
        print(to, shown_page(b" and to its end ", &[case.pad], b""))?;
    }
    let lengths = [case.table as u64, case.spare as u64, case.output as u64];
    print(to, words_page(b", lent # # #\n", &lengths))
}

// Puts bytes over the front of a file. By itself, since its bounds do not prove among the arrays of a case.
fn put_front(bytes: &[u8], file: &mut [u8])
    requires { length bytes.now ≤ length file.old }
{
    file[..bytes.len()].copy_from_slice(bytes);
}

// Runs a case, with room behind all that it lends.
fn run_case<W: Write>(to: &mut W, case: &Case) -> io::Result<()> {
    show_given(to, case)?;
    let mut file = [case.pad; 32769];
    put_front(case.bytes, &mut file);
    let mut lent = Lent::new();
    let answer = filecall::plan_file(
        &file[..case.size],
        &mut lent.table[..case.table],
        &mut lent.spare[..case.spare],
        &mut lent.output[..case.output],
    );
    let n = show_answer(to, answer)?;
    lent.show(to, n)
}

// The next case of an input; `None` where it is cut off.
fn next_case<'a>(input: &mut Scanner<'a>) -> Option<Case<'a>>
    ensures { IfSome result (λ case. length input.new.rest.now < length input.old.rest.now) }
{
    let titled = input.number(4096) as usize;
    let sized = input.number(32768) as usize;
    let table = input.number(800) as usize;
    let spare = input.number(20) as usize;
    let output = input.number(6800) as usize;
    let size = input.number(32769) as usize;
    input.rest.split_off_first()?;
    let pad = input.rest.split_off_first()?;
    let title = input.rest.split_off(..titled)?;
    let bytes = input.rest.split_off(..sized)?;
    Some(Case {
        title,
        bytes,
        pad: *pad,
        table,
        spare,
        output,
        size,
    })
}

// Runs the cases of an input, one after the other. csv_test has this loop too: one in `report` would take two closures and could say
// nothing of what they print.
fn run_cases<W: Write>(to: &mut W, input: &[u8]) -> io::Result<()> {
    let mut input = Scanner { rest: input };
    while !input.rest.is_empty() {
        let Some(case) = next_case(&mut input) else {
            return to.write_all(b"cut off\n");
        };
        run_case(to, &case)?;
    }
    Ok(())
}

fn main(rt: HostRuntime) -> io::Result<()> {
    // of a fixed length, since nothing is allocated here
    let mut input = [0u8; 65536];
    let n = read_full(&mut rt.stdin(), &mut input)?;
    run_cases(&mut rt.stdout(), &input[..n])
}
