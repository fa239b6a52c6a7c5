// Reads the stored screens that the arguments name and prints what was read; then rows of numbers at the limits of a column.
// `tools/samples/screen_samples.py` wrote the screens and what is expected.
#![tactic(auto)]

ghost use Rattle.screen.specs.Screen.{FewLines};

use boxlist_lines::list;
use boxlist_lines::list::Row;
use geometry::{Point, Rect, Size};
use refusal::Refusal;
use screen::{LineCounts, ScreenLists};
use screen_fields::format;
use screen_program::{read_input, room};
use std::fs::File;
use std::rt::Files;
use std::{env, io};
use style_record::words::STYLE_WORDS;
use tree_record::candidate::CANDIDATE_WORDS;
use tree_record::layout;
use util::bits;

// Words in decimal.
fn print_words(rt: &impl Print, words: &[u32]) -> io::Result<()> {
    for word in words {
        print!(rt; " {word}")?;
    }
    Ok(())
}

// A sum that tells words and their order.
fn checksum(words: &[u32]) -> u64 {
    words.iter().fold(
        0,
        |sum: u64, word| (sum % 4294967291 * 31 + u64::from(*word)) % 4294967291,
    )
}

fn print_sum(rt: &impl Print, name: &str, words: &[u32]) -> io::Result<()> {
    println!(rt; "{name} {} words, sum {}", words.len(), checksum(words))
}

// Left, right, top, bottom by their words.
fn rect(words: [u32; 4]) -> Rect<f32> {
    layout::rect_at(&words, 0)
}

// The overflow line of the printed list.
fn print_overflow(rt: &impl Print, overflow: Rect<f32>) -> io::Result<()> {
    let mut last = [0u8; list::OVERFLOW];
    list::put_overflow(&mut last, 0, overflow);
    rt.write_all(&last)
}

// A row of the printed list, by the words of its place, its size and its margins.
fn print_row(
    rt: &impl Print,
    node: u32,
    location: [u32; 2],
    size: [u32; 2],
    margin: Rect<f32>,
) -> io::Result<()> {
    let [x, y] = location.map(bits::from_word);
    let [width, height] = size.map(bits::from_word);
    let mut row = [0u8; list::ROW];
    list::put_row(
        &mut row,
        0,
        Row {
            node,
            location: Point { x, y },
            size: Size { width, height },
            margin,
        },
    );
    rt.write_all(&row)
}

fn print_refusal(rt: &impl Print, refusal: Refusal) -> io::Result<()> {
    let mut line = [0u8; list::REFUSAL];
    list::put_refusal(&mut line, 0, u32::from(refusal));
    rt.write_all(&line)
}

// The header's words, the first replies and the first candidate, sums of all, and the area as a row.
fn show_words(rt: &impl Print, counts: LineCounts, lists: &ScreenLists) -> io::Result<()>
    requires { FewLines counts }
{
    print!(rt; "header")?;
    print_words(rt, &lists.header)?;
    print!(rt; "\nfirst replies")?;
    print_words(rt, &lists.replies[..format::REPLY_WORDS])?;
    print!(rt; "\nfirst candidate")?;
    print_words(rt, &lists.candidates[..CANDIDATE_WORDS])?;
    println!(rt)?;
    print_sum(rt, "styles", &lists.styles[..counts.items * STYLE_WORDS])?;
    print_sum(
        rt,
        "replies",
        &lists.replies[..counts.items * format::REPLY_WORDS],
    )?;
    print_sum(
        rt,
        "candidates",
        &lists.candidates[..counts.candidates * CANDIDATE_WORDS],
    )?;
    let [width, height, x, y, _, _, _, _, items, _] = lists.header;
    let [_, _, left, right, top, bottom, ..] = lists.replies;
    let sides = rect([left, right, top, bottom]);
    print_row(rt, items, [x, y], [width, height], sides)?;
    print_overflow(rt, sides)
}

// What is read of a text.
fn show(rt: &impl Print, text: &[u8]) -> io::Result<()> {
    let mut lists = ScreenLists::filled(7);
    match screen::read_screen(text, &mut lists) {
        Ok(counts) => show_words(rt, counts, &lists),
        Err(refusal) => print_refusal(rt, refusal),
    }
}

// The stored screen of a name. One that can't be opened is told on standard error.
fn show_file(rt: &(impl Files + Print + Eprint), name: &str) -> io::Result<()> {
    match File::open(rt, name) {
        Ok(mut file) => {
            println!(rt; "-- {name}")?;
            let mut room = room();
            show(rt, read_input(&mut file, &mut room)?)
        }
        Err(error) => eprintln!(rt; "{name}: {error}"),
    }
}

// A list's lines, with numbers at the limits of a column.
fn show_rows(rt: &impl Print) -> io::Result<()> {
    println!(rt; "-- rows")?;
    let mut header = [0u8; list::ROW];
    list::put_header(&mut header, 0);
    rt.write_all(&header)?;
    // document 01's example: at 300, 20, of 200 by 100, margins 200; overflow right 500, bottom 120
    print_row(
        rt,
        0,
        [0x4396_0000, 0x41A0_0000],
        [0x4348_0000, 0x42C8_0000],
        rect([0x4348_0000, 0x4348_0000, 0, 0]),
    )?;
    print_overflow(rt, rect([0, 0x43FA_0000, 0, 0x42F0_0000]))?;
    // 9,999,999 and 10,000,000 eighths, both signs; both zeros; a sixteenth; the smallest float
    print_row(
        rt,
        9999999,
        [0x4998_967F, 0xC998_967F],
        [0x4998_9680, 0xC998_9680],
        rect([0, 0x8000_0000, 0x3D80_0000, 1]),
    )?;
    // an eighth, both signs; infinities; NaNs; 1 and -1
    print_row(
        rt,
        10000000,
        [0x3E00_0000, 0xBE00_0000],
        [0x7F80_0000, 0xFF80_0000],
        rect([0x7FC0_0000, 0xFFFF_FFFF, 0x3F80_0000, 0xBF80_0000]),
    )?;
    print_refusal(rt, Refusal::BadArea)
}

fn main(rt: HostRuntime) -> io::Result<()> {
    for name in env::args(&rt)?.skip(1) {
        show_file(&rt, &name)?;
    }
    show_rows(&rt)
}
