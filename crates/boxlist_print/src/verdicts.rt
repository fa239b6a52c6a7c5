// The verdicts of a finished run, and the whole list of them. They go through `put_row` of `boxreach_lines`, where it stands why not through a
// `write!`, and why the place and the room stand beside the slice.
ghost use Rattle.std.specs.Prelude.{◌≡◌, ◌+◌, ◌*◌, ◌≤◌, length};
ghost use Rattle.std.proofs.lemmas.List.Edits.{sets};
ghost use Rattle.screen_fields.specs.Format.{MAX_CANDIDATES};
ghost use Rattle.boxreach_lines.specs.Lines.{VERDICT_ROW};
ghost use Rattle.boxlist_print.specs.Rows.{Prints};
ghost use Rattle.boxlist_print.specs.Verdicts.{verdict_at, verdicts_from, verdicts_text};

use crate::rows::word_at;
use boxreach_lines::VERDICT_ROW;
use run::{Slices, State};
use tree_record::candidate::CANDIDATE_WORDS;

// The row of the box at a place. The bound is a clause, here and below: the count is a state's, and a state may be any words (document 01).
#[tactic(auto, using(crate::proofs::Each::verdict_row_lem))]
fn put_verdict(out: &mut [u8], at: usize, place: usize, s: State, lent: &Slices)
    requires place_bound { place ≤ MAX_CANDIDATES }
    requires at_in_bounds { at + VERDICT_ROW ≤ length out.old }
    ensures { out.new ≡ sets out.old at (verdict_at s lent.now place) }
{
    let node = word_at(lent.working, CANDIDATE_WORDS * place);
    let reached = reach::reach(place, s, lent);
    boxreach_lines::put_row(out, at, place as u32, node, reached);
}

// The rows of the first n boxes.
#[tactic(auto, using(crate::proofs::Each::none_left, crate::proofs::Each::row_stored))]
fn put_each(out: &mut [u8], at: usize, n: usize, s: State, lent: &Slices)
    requires n_bound { n ≤ MAX_CANDIDATES }
    requires n_in_bounds { at + n * VERDICT_ROW ≤ length out.old }
    ensures { out.new ≡ sets out.old at (verdicts_from s lent.now 0 n) }
{
    for i in 0..n {
        let row = at + i * VERDICT_ROW;
        put_verdict(out, row, i, s, lent);
    }
}

// The names, and a row for each box. Answers how many bytes they have: at `rows::put_list` stands why.
#[tactic(auto, using(crate::proofs::Each::verdicts_bytes, crate::proofs::Each::verdicts_stored))]
pub(crate) fn put_verdicts(out: &mut [u8], s: State, lent: &Slices) -> usize
    requires working_bound { s.counts.filled.working ≤ MAX_CANDIDATES }
    requires working_in_bounds { (1 + s.counts.filled.working) * VERDICT_ROW ≤ length out.old }
    ensures { Prints result out.old out.new (verdicts_text s lent.now) }
{
    let n = s.counts.filled.working;
    boxreach_lines::put_names(out, 0);
    put_each(out, VERDICT_ROW, n, s, lent);
    VERDICT_ROW + n * VERDICT_ROW
}
