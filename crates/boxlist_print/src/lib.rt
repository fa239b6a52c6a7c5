// What `boxlist` and `boxreach` print for a screen's bytes: of the run that the screen scripts the boxes or their verdicts, or one line for a
// refusal.
#![tactic(auto)]

ghost use Rattle.std.specs.Prelude.{◌≡◌, ◌*◌, ◌≤◌, length, take};
ghost use Rattle.screen_fields.specs.Format.{MAX_CANDIDATES, reply_width};
ghost use Rattle.screen.specs.Screen.{FewLines};
ghost use Rattle.style_record.specs.Record.{style_words};
ghost use Rattle.tree_record.specs.Candidate.{candidate_width};
ghost use Rattle.run.specs.Call.{lent};
ghost use Rattle.script.specs.Script.{played_out};
ghost use Rattle.boxlist_print.specs.Rows.{Prints};
ghost use Rattle.boxlist_print.specs.Printed.{finished_text, list_of, opening_of, list_words, list_from, printed};

use boxlist_lines::list;
use geometry::{Point, Rect, Size};
use run::{Answer, Opening, Slices, State};
use screen::{LineCounts, ScreenLists};
use screen_fields::format;
use style_record::table::Table;
use style_record::words::STYLE_WORDS;
use tree::layout::OofPositioningArea;
use tree_record::candidate::CANDIDATE_WORDS;
use tree_record::layout::LAYOUT_WORDS;
use util::bits;

mod rows;
mod verdicts;

// What is listed of each box: its place, size and margins, or whether scrolling brings it up.
// A choice of two, and no closure that prints: the laws say what is printed for each, and a closure's promise would have to say it of both.
#[derive(Clone, Copy)]
pub enum Listing {
    Boxes,
    Verdicts,
}

// The bytes of the longest list: the names, a row for each candidate, the overflow rectangle.
pub const LIST_BYTES: usize = (1 + format::MAX_CANDIDATES) * list::ROW + list::OVERFLOW;

// The words of lists that hold every candidate, and of every item's layout.
const LIST_WORDS: usize = format::MAX_CANDIDATES * CANDIDATE_WORDS;

const ALL_LAYOUTS: usize = format::MAX_ITEMS * LAYOUT_WORDS;

// What the first line opens: its first eight words (`opening_in` of oof_c_words says why it reads those of a C state apart).
#[tactic(auto, unfolding(crate::specs::Printed::opening_of))]
fn opening_of(header: &[u32; format::HEADER_WORDS]) -> Opening
    ensures { result ≡ opening_of header.now }
{
    let [
        width,
        height,
        x,
        y,
        direction,
        claims,
        overflowx,
        overflowy,
        _,
        _,
    ] = *header;
    Opening {
        area: OofPositioningArea {
            size: Size {
                width: bits::from_word(width),
                height: bits::from_word(height),
            },
            offset: Point {
                x: bits::from_word(x),
                y: bits::from_word(y),
            },
        },
        direction,
        claims,
        overflowx,
        overflowy,
    }
}

// The list of a finished run. Answers how many bytes it has, here and below: at `rows::put_list` stands why, and at
// `boxlist_lines::put` why there is no `write!`.
fn put_finished(
    listing: Listing,
    out: &mut [u8; LIST_BYTES],
    s: State,
    overflow: Rect<f32>,
    lent: &Slices,
) -> usize
    requires { s.counts.filled.working ≤ MAX_CANDIDATES }
    ensures { Prints result out.old out.new (finished_text listing s overflow lent.now) }
{
    let n = s.counts.filled.working;
    match listing {
        Listing::Boxes => rows::put_list(out, lent.working, n, lent.layouts, overflow),
        Listing::Verdicts => verdicts::put_verdicts(out, s, lent),
    }
}

// Plays a run out, and prints its list or its refusal.
fn list_run(
    listing: Listing,
    o: Opening,
    replies: &[u32],
    styles: &[u32],
    candidates: &[u32],
    layouts: &mut [u32],
    working: &mut [u32],
    unclaimed: &mut [u32],
    tally: &mut [u32],
    out: &mut [u8; LIST_BYTES],
) -> usize
    requires { length working.old ≡ list_words }
    ensures { Prints result out.old out.new (list_of listing styles.now (played_out o replies.now candidates.now (lent styles.now layouts.old working.old unclaimed.old tally.old))) }
{
    let step = script::play_out(
        o, replies, styles, candidates, layouts, working, unclaimed, tally,
    );
    match step.answer {
        // a run that is played out stands at no question; for one that did, the definition prints nothing
        Ok(Answer::Ask(_)) => 0,
        Ok(Answer::Finish(finish)) => {
            let lent = Slices {
                styles: &Table::from(styles),
                layouts,
                working,
                unclaimed,
            };
            put_finished(listing, out, step.state, finish.overflow, &lent)
        }
        Err(refusal) => rows::put_refused(out, refusal),
    }
}

// Prints the list of a screen's words, with zeros to write layouts, lists and tally into. Of the largest layouts and tally each run is lent the
// part for its counts. Nothing is printed of the tally.
// Four lists of the same items: document 01 has styles and layouts lent apart, request #107 the tally, and the replies are the screen's own.
fn list_words(
    listing: Listing,
    counts: LineCounts,
    lists: &ScreenLists,
    out: &mut [u8; LIST_BYTES],
) -> usize
    requires { FewLines counts }
    ensures { Prints result out.old out.new (list_from listing lists.now.header (take (counts.items * style_words) lists.now.styles) counts.items (take (counts.items * reply_width) lists.now.replies) (take (counts.candidates * candidate_width) lists.now.candidates)) }
{
    let mut layouts = [0u32; ALL_LAYOUTS];
    let mut working = [0u32; LIST_WORDS];
    let mut unclaimed = [0u32; LIST_WORDS];
    let mut tally = [0u32; format::MAX_ITEMS];
    list_run(
        listing,
        opening_of(&lists.header),
        &lists.replies[..counts.items * format::REPLY_WORDS],
        &lists.styles[..counts.items * STYLE_WORDS],
        &lists.candidates[..counts.candidates * CANDIDATE_WORDS],
        &mut layouts[..counts.items * LAYOUT_WORDS],
        &mut working,
        &mut unclaimed,
        &mut tally[..counts.items],
        out,
    )
}

// Prints what is printed for a text, and answers how many bytes it has.
// What is listed and the buffer go down side by side: of a struct that holds a `&mut` nobody could say what the buffer ends as.
pub fn list_screen(listing: Listing, text: &[u8], out: &mut [u8; LIST_BYTES]) -> usize
    ensures { Prints result out.old out.new (printed listing text.now) }
{
    let mut lists = ScreenLists::filled(0);
    match screen::read_screen(text, &mut lists) {
        Ok(counts) => list_words(listing, counts, &lists, out),
        Err(refusal) => rows::put_refused(out, refusal),
    }
}
