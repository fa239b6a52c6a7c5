// The screen file that `boxlist` reads.
#![tactic(auto)]

ghost use Rattle.std.specs.Prelude.{◌≡◌, ◌+◌, ◌*◌, ◌≤◌, length, take, drop, replicate, unwrap_or, IfOk};
ghost use Rattle.std.proofs.lemmas.List.Edits.{sets};
ghost use Rattle.style_record.specs.Record.{style_words};
ghost use Rattle.tree_record.specs.Candidate.{candidate_width};
ghost use Rattle.screen_fields.specs.Format.{fields_of, COLUMNS, bytes_of, FIRST_BYTES, ITEM_BYTES, CANDIDATE_BYTES, header_width, reply_width, MAX_ITEMS, MAX_CANDIDATES};
ghost use Rattle.screen_fields.specs.declared.format.Kind.TheVariants.{Code};
ghost use Rattle.screen_fields.specs.Field.{word_of};
ghost use Rattle.screen.specs.Screen.{good_fields, good_line, good_lines, words_of, rows_of, answer_of, FewLines, ScreenRead};

use refusal::Refusal;
use screen_fields::field::word_of;
use screen_fields::format::{
    CANDIDATE_BYTES, CANDIDATE_COUNT, COLUMNS, FIRST_BYTES, HEADER_WORDS, ITEM_BYTES, ITEM_COUNT,
    Kind, Line, MAX_CANDIDATES, MAX_ITEMS, REPLY_WORDS, bytes_of, kind_of, width_of,
};
use style_record::words::STYLE_WORDS;
use tree_record::candidate::CANDIDATE_WORDS;

// How many item and candidate lines a screen has.
// That they are few is a clause, here and in who reads them (`FewLines`): with it in the type, the definition `answer_of` would have to prove it of
// each record that it names.
#[derive(Clone, Copy)]
pub struct LineCounts {
    pub items: usize,
    pub candidates: usize,
}

// The words of a screen, with room for those of the largest: the header's, the style table, six reply words an item, and the candidates.
// Arrays, and the counts beside: there is no heap, and `read_screen` is lent the lists before it knows the counts.
#[derive(Drop)]
pub struct ScreenLists {
    pub header: [u32; HEADER_WORDS],
    pub styles: [u32; MAX_ITEMS * STYLE_WORDS],
    pub replies: [u32; MAX_ITEMS * REPLY_WORDS],
    pub candidates: [u32; MAX_CANDIDATES * CANDIDATE_WORDS],
}

impl ScreenLists {
    // Lists of one word throughout.
    pub fn filled(word: u32) -> ScreenLists
        ensures header { result.header ≡ replicate header_width word }
        ensures styles { result.styles ≡ replicate (MAX_ITEMS * style_words) word }
        ensures replies { result.replies ≡ replicate (MAX_ITEMS * reply_width) word }
        ensures candidates { result.candidates ≡ replicate (MAX_CANDIDATES * candidate_width) word }
    {
        ScreenLists {
            header: [word; HEADER_WORDS],
            styles: [word; MAX_ITEMS * STYLE_WORDS],
            replies: [word; MAX_ITEMS * REPLY_WORDS],
            candidates: [word; MAX_CANDIDATES * CANDIDATE_WORDS],
        }
    }
}

// Whether every field of the line that a text starts with stands for a word.
// That the text has room for it is a clause, here and below: how many bytes a line has goes by its kind, which no array type has.
// Text and line stand side by side, here and below: which line it is that a text starts with changes from part to part of one text.
#[tactic(auto, using(crate::proofs::Lines::field_cut, crate::proofs::Lines::fields_cut, crate::proofs::Lines::good_more, crate::proofs::Lines::good_none))]
fn good_fields(text: &[u8], line: Line) -> bool
    requires { COLUMNS * length (fields_of line) ≤ length text.now }
    ensures { result ≡ good_fields (fields_of line) text.now }
{
    let (fields, _) = text.as_chunks::<COLUMNS>();
    for (j, field) in fields[..width_of(line)].iter().enumerate() {
        if word_of(field, kind_of(line, j)).is_none() {
            return false;
        }
    }
    true
}

// Whether the line that a text starts with is good: its fields, and the line feed.
#[tactic(auto, using(crate::proofs::Lines::bytes_are, screen_fields::proofs::Table::width_small), unfolding(crate::specs::Screen::good_line))]
fn good_line(text: &[u8], line: Line) -> bool
    requires { bytes_of line ≤ length text.now }
    ensures { result ≡ good_line line text.now }
{
    good_fields(text, line) && text[COLUMNS * width_of(line)] == b'\n'
}

// Whether the n lines that a text starts with are good.
#[tactic(auto, using(crate::proofs::Lines::lines_left, crate::proofs::Lines::lines_more, crate::proofs::Lines::lines_none, std::proofs::lemmas::List::take_rest))]
fn good_lines(text: &[u8], line: Line, n: usize) -> bool
    requires { n * bytes_of line ≤ length text.now }
    ensures { result ≡ good_lines line n text.now }
{
    let mut rest = text;
    for _ in 0..n {
        if !good_line(rest, line) {
            return false;
        }
        rest = &rest[bytes_of(line)..];
    }
    true
}

// Field j of a text.
#[tactic(auto, using(crate::proofs::Lines::field_in))]
fn field_at(text: &[u8], j: usize) -> &[u8; COLUMNS]
    requires { COLUMNS * j + COLUMNS ≤ length text.now }
    ensures { result.now ≡ take COLUMNS (drop (COLUMNS * j) text.now) }
{
    let (fields, _) = text.as_chunks::<COLUMNS>();
    &fields[j]
}

// Reads the fields of a line from a first one on, as many as there is room for, of a text that starts with the line.
#[tactic(auto, using(crate::proofs::Lines::words_read, screen_fields::proofs::Table::width_small))]
fn read_fields(text: &[u8], line: Line, first: usize, out: &mut [u32])
    requires in_text { COLUMNS * (first + length out.old) ≤ length text.now }
    requires in_line { first + length out.old ≤ length (fields_of line) }
    ensures { out.new ≡ words_of (take (length out.old) (drop first (fields_of line))) (drop (COLUMNS * first) text.now) }
{
    for (j, word) in out.iter_mut().enumerate() {
        let field = first + j;
        *word = word_of(field_at(text, field), kind_of(line, field)).unwrap_or(0);
    }
}

// Reads n fields of each of the lines that a text starts with, one line's words after another.
// The place of each row is counted, since of `chunks_exact_mut` nothing is promised of what the slice ends as.
#[tactic(auto, using(crate::proofs::Lines::bytes_are, crate::proofs::Lines::one_more, crate::proofs::Lines::row_written, std::proofs::lemmas::List::take_rest), unfolding(crate::specs::Screen::rows_of))]
fn read_rows(text: &[u8], line: Line, first: usize, n: usize, rows: usize, out: &mut [u32])
    requires in_text { rows * bytes_of line ≤ length text.now }
    requires in_line { first + n ≤ length (fields_of line) }
    requires in_out { rows * n ≤ length out.old }
    ensures { out.new ≡ sets out.old 0 (rows_of (take n (drop first (fields_of line))) line rows (drop (COLUMNS * first) text.now)) }
{
    for i in 0..rows {
        let at = i * n;
        read_fields(
            &text[i * bytes_of(line)..],
            line,
            first,
            &mut out[at..at + n],
        );
    }
}

// A count of the first line.
fn count_at(text: &[u8], j: usize) -> usize
    requires { COLUMNS * j + COLUMNS ≤ length text.now }
    ensures { result ≡ unwrap_or (word_of Code (take COLUMNS (drop (COLUMNS * j) text.now))) 0 }
{
    word_of(field_at(text, j), Kind::Code).unwrap_or(0) as usize
}

// How many lines a screen has, or that a text is none: the whole of it is read, and no word written.
#[tactic(auto, using(crate::proofs::Whole::refused_short, crate::proofs::Whole::refused_first, crate::proofs::Whole::refused_items, crate::proofs::Whole::refused_candidates, crate::proofs::Whole::refused_length, crate::proofs::Whole::refused_item_lines, crate::proofs::Whole::refused_candidate_lines, crate::proofs::Whole::accepted_counts, screen_fields::proofs::Table::line_bytes))]
pub fn check_screen(text: &[u8]) -> Result<LineCounts, Refusal>
    ensures answer { result ≡ answer_of text.now }
    ensures few { IfOk result FewLines }
    ensures bytes { IfOk result (λ counts. length text.now ≡ FIRST_BYTES + counts.items * ITEM_BYTES + counts.candidates * CANDIDATE_BYTES) }
{
    if text.len() < FIRST_BYTES || !good_line(text, Line::First) {
        return Err(Refusal::BadScreenLine);
    }
    let items = count_at(text, ITEM_COUNT);
    let candidates = count_at(text, CANDIDATE_COUNT);
    if MAX_ITEMS < items {
        return Err(Refusal::BadScreenLine);
    }
    if MAX_CANDIDATES < candidates {
        return Err(Refusal::BadScreenLine);
    }
    let last = FIRST_BYTES + items * ITEM_BYTES;
    if text.len() != last + candidates * CANDIDATE_BYTES {
        return Err(Refusal::BadScreenLine);
    }
    if !good_lines(&text[FIRST_BYTES..], Line::Item, items) {
        return Err(Refusal::BadScreenLine);
    }
    if !good_lines(&text[last..], Line::Candidate, candidates) {
        return Err(Refusal::BadScreenLine);
    }
    Ok(LineCounts { items, candidates })
}

// Reads a screen's words to the front of each list. What is no screen writes nothing.
#[tactic(auto, using(screen_fields::proofs::Table::line_widths, screen_fields::proofs::Table::line_bytes))]
pub fn read_screen(text: &[u8], lists: &mut ScreenLists) -> Result<LineCounts, Refusal>
    ensures read { ScreenRead text.now result lists.old lists.new }
    ensures few { IfOk result FewLines }
{
    let counts = check_screen(text)?;
    read_fields(text, Line::First, 0, &mut lists.header);
    let items = &text[FIRST_BYTES..];
    read_rows(
        items,
        Line::Item,
        0,
        STYLE_WORDS,
        counts.items,
        &mut lists.styles,
    );
    read_rows(
        items,
        Line::Item,
        STYLE_WORDS,
        REPLY_WORDS,
        counts.items,
        &mut lists.replies,
    );
    let candidates = &text[FIRST_BYTES + counts.items * ITEM_BYTES..];
    read_rows(
        candidates,
        Line::Candidate,
        0,
        CANDIDATE_WORDS,
        counts.candidates,
        &mut lists.candidates,
    );
    Ok(counts)
}
