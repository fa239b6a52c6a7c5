// A table of 1,024 random items is checked as it is, then with words replaced: every word of the record by every code of a
// list, each time in another item, so that every item has its turn. What the check finds is printed, and held to the file
// stdout, which a script wrote from a model of its own (tools/samples).
#![tactic(auto)]

ghost use Rattle.std.specs.Prelude.{◌<◌, length};
ghost use Rattle.style_record.specs.Record.{style_words};

use std::io;
use style_record::check::BadWord;
use style_record::table::Table;
use style_record::words::STYLE_WORDS;
use style_record::{check, words};

const ITEMS: usize = 1024;

const TABLE: usize = ITEMS * STYLE_WORDS;

// Where the last item begins.
const LAST: usize = TABLE - STYLE_WORDS;

const INSET_VALUE: usize = words::INSET + 1;

// Tags of lengths that are not the first of their field.
const INSET_RIGHT: usize = words::INSET + words::LENGTH_WORDS;

const PADDING_TOP: usize = words::PADDING + 2 * words::LENGTH_WORDS;

const CODE_COUNT: usize = 28;

// Codes that are in some lists and outside others; 257, 261 and 385 have the low bytes of tags.
const CODES: [u32; CODE_COUNT] = [
    0, 1, 2, 3, 4, 5, 6, 7, 9, 10, 11, 12, 15, 27, 59, 75, 76, 128, 129, 130, 255, 256, 257, 259,
    261, 385, 2147483653, 4294967295,
];

const TAG_COUNT: usize = 11;

// Three tags that every field takes, then auto, then those of sizes only.
const TAGS: [u32; TAG_COUNT] = [1, 5, 129, 3, 11, 15, 27, 35, 43, 59, 75];

// How many codes each word after the lengths has, in their order, as a record has them; a float has as many words as a draw tells apart.
// A list of its own: drawn by the check's own numbers, the table would agree with whatever the check says.
const COUNTS: [u32; words::CODE_WORDS] = [2, 65536, 2, 4, 2, 11, 3, 11, 3, 4, 4, 65536, 256];

// The next of a fixed sequence.
fn draw(state: u32) -> u32 {
    state.wrapping_mul(1664525).wrapping_add(1013904223)
}

// One of some tags, by a draw.
fn tag(d: u32, tags: &[u32]) -> u32
    requires { 0 < length tags.now }
{
    tags[(d / 65536) as usize % tags.len()]
}

// A word that breaks no rule as word k of a record, by a draw. The 0 in place of none is for no k of a record: with `COUNTS[..]` and `%` in place of `get` and
// `checked_rem` it would have to be proved of each count that it is not 0.
fn sample(k: usize, d: u32) -> u32 {
    if k < words::RATIO_PRESENT {
        if k % words::LENGTH_WORDS != 0 {
            return d;
        }
        if k < words::PADDING {
            return tag(d, &TAGS[..4]);
        }
        if k < words::SIZE {
            return tag(d, &TAGS[..3]);
        }
        return tag(d, &TAGS);
    }
    COUNTS
        .get(k - words::RATIO_PRESENT)
        .and_then(|n| (d / 65536).checked_rem(*n))
        .unwrap_or(0)
}

fn fill(table: &mut [u32]) {
    let mut state = 7;
    for (i, word) in table.iter_mut().enumerate() {
        state = draw(state);
        *word = sample(i % STYLE_WORDS, state);
    }
}

// Prints what the check finds: a dash, or item and word.
// `rt` goes beside the table, here and below: it is what may print, and a struct of both would borrow the table for as long as it prints.
fn report(rt: &impl Print, table: &[u32]) -> io::Result<()> {
    match check::check_styles(&Table::from(table)) {
        Ok(()) => print!(rt; " -"),
        Err(BadWord { item, word }) => print!(rt; " {item}:{word}"),
    }
}

// Exchanges words with those of the table: the place of each, and its word.
fn exchange(table: &mut [u32], words: &mut [(usize, u32)]) {
    for (place, word) in words.iter_mut() {
        if let Some(there) = table.get_mut(*place) {
            std::mem::swap(there, word);
        }
    }
}

// What the check finds in the table with some words replaced, one after another. They are put back, the last first, since two may have one place: a
// copy of the table takes longer than its check.
fn replaced(rt: &impl Print, table: &mut [u32], words: &mut [(usize, u32)]) -> io::Result<()> {
    exchange(table, words);
    let told = report(rt, table);
    words.reverse();
    exchange(table, words);
    told
}

// Word k by every code, and the item's word `other` by a code of its own. The item goes by k and the code's number.
fn row(
    rt: &impl Print,
    table: &mut [u32; TABLE],
    k: usize,
    other: usize,
    code: u32,
) -> io::Result<()>
    requires { (k < style_words) × (other < style_words) }
{
    for (j, word) in CODES.iter().enumerate() {
        let at = STYLE_WORDS * ((CODE_COUNT * k + j) * 37 % ITEMS);
        replaced(rt, table, &mut [(at + other, code), (at + k, *word)])?;
    }
    println!(rt)
}

// Every word by every code. The other word is a float, which no code breaks.
fn rows(rt: &impl Print, table: &mut [u32; TABLE]) -> io::Result<()> {
    for k in 0..STYLE_WORDS {
        row(rt, table, k, INSET_VALUE, 4290772993)?;
    }
    Ok(())
}

// Safeties under an absent keyword, then under a keyword that is none.
fn safeties(rt: &impl Print, table: &mut [u32; TABLE]) -> io::Result<()> {
    row(rt, table, words::JUSTIFY_SAFETY, words::JUSTIFY, 10)?;
    row(rt, table, words::ALIGN_SAFETY, words::ALIGN, 10)?;
    row(rt, table, words::JUSTIFY_SAFETY, words::JUSTIFY, 11)
}

// Two words of one item, and of two items: the first in record order.
fn pairs(rt: &impl Print, table: &mut [u32; TABLE]) -> io::Result<()> {
    row(rt, table, PADDING_TOP, words::CONTAIN, 256)?;
    row(rt, table, words::CONTAIN, PADDING_TOP, 3)?;
    let late = 900 * STYLE_WORDS + INSET_RIGHT;
    let early = 30 * STYLE_WORDS + words::CONTAIN;
    replaced(rt, table, &mut [(late, 0), (early, 256)])?;
    replaced(rt, table, &mut [(early, 256), (late, 0)])?;
    println!(rt)
}

// What the check finds in the first words of a table. Not by `[..n]` at the calls: of so long an array that was written to, the length isn't found.
fn part(rt: &impl Print, table: &[u32], n: usize) -> io::Result<()> {
    match table.get(..n) {
        None => Ok(()),
        Some(first) => report(rt, first),
    }
}

fn main(rt: HostRuntime) -> io::Result<()> {
    let mut table = [0; TABLE];
    fill(&mut table);
    report(&rt, &table)?;
    println!(rt)?;
    rows(&rt, &mut table)?;
    safeties(&rt, &mut table)?;
    pairs(&rt, &mut table)?;
    // item and word, not a place in the table; a safety behind keyword 9; a NaN for a ratio; the first item before the first word
    replaced(&rt, &mut table, &mut [(STYLE_WORDS, 2)])?;
    replaced(
        &rt,
        &mut table,
        &mut [(words::JUSTIFY, 9), (words::JUSTIFY_SAFETY, 3)],
    )?;
    replaced(
        &rt,
        &mut table,
        &mut [(words::RATIO, 2143289344), (words::RATIO_PRESENT, 1)],
    )?;
    replaced(
        &rt,
        &mut table,
        &mut [(STYLE_WORDS, 2), (words::CONTAIN, 256)],
    )?;
    println!(rt)?;
    // a trailing part of a record is not looked at
    let before = table[STYLE_WORDS];
    table[STYLE_WORDS] = 2;
    part(&rt, &table, STYLE_WORDS + 1)?;
    table[STYLE_WORDS] = before;
    table[LAST] = 2;
    part(&rt, &table, TABLE)?;
    part(&rt, &table, TABLE - 1)?;
    part(&rt, &table, LAST + 1)?;
    part(&rt, &table, STYLE_WORDS - 1)?;
    part(&rt, &table, 0)?;
    println!(rt)
}
