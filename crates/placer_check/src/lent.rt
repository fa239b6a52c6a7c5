// Conditions on the lent slices.
ghost use Rattle.std.specs.Prelude.{◌≡◌};
ghost use Rattle.tree_record.specs.Candidate.{candidate_width};
ghost use Rattle.run.specs.Refusals.{ragged, bad_table, bad_list, bad_slices, bad_lent, bad_tally, above_lists, any_above, bad_style, bad_candidate};

use run::{Extents, Lent, Slices};
use style_record::check;
use style_record::table::Table;
use style_record::words::STYLE_WORDS;
use sweep::Filled;
use tree_record::candidate;
use tree_record::candidate::CANDIDATE_WORDS;
use tree_record::layout::LAYOUT_WORDS;

pub const MOST_ITEMS: usize = 1024;

pub const MOST_RECORDS: usize = 4096;

// ---- 2: bad extent

// Styles not 79 × n words with n at most 1,024, or layouts not 23 × n: by document 01, n is known from their lengths.
#[tactic(auto, unfolding(run::specs::Refusals::bad_table))]
fn is_table_bad(styles: &Table, layouts: &[u32]) -> bool
    ensures { result ≡ bad_table styles.now layouts.now }
{
    let n = styles.items();
    styles.len() % STYLE_WORDS != 0 || MOST_ITEMS < n || layouts.len() != LAYOUT_WORDS * n
}

// Not whole records.
pub fn is_ragged(words: &[u32]) -> bool
    ensures { result ≡ ragged candidate_width words.now }
{
    words.len() % CANDIDATE_WORDS != 0
}

// A working or unclaimed list: not whole records, or above 4,096 of them.
#[tactic(auto, unfolding(run::specs::Refusals::bad_list))]
fn is_list_bad(list: &[u32]) -> bool
    ensures { result ≡ bad_list list.now }
{
    is_ragged(list) || MOST_RECORDS < list.len() / CANDIDATE_WORDS
}

// Table or lists are bad extents. A line for each list: they are two fields of what is lent.
#[tactic(auto, unfolding(run::specs::Refusals::bad_slices))]
pub fn are_slices_bad(lent: &Slices) -> bool
    ensures { result ≡ bad_slices lent.now }
{
    is_table_bad(lent.styles, lent.layouts)
        || is_list_bad(lent.working)
        || is_list_bad(lent.unclaimed)
}

// The four slices of what reads a finished run: bad ones, or one of another length than at the opening. The tally's length is the opening's,
// whatever it is: none is lent.
#[tactic(auto, unfolding(run::specs::Refusals::other_lengths))]
pub fn is_lent_bad(lent: &Slices, e: Extents) -> bool
    ensures { result ≡ bad_lent e lent.now }
{
    are_slices_bad(lent) || Extents::new(lent, e.tally) != e
}

// A tally not of one word an item.
pub fn is_tally_bad(lent: &Lent) -> bool
    ensures { result ≡ bad_tally lent.now }
{
    lent.tally.len() != lent.slices.styles.items()
}

// ---- 3: bad style

#[tactic(auto, unfolding(run::specs::Refusals::bad_style))]
pub fn is_style_bad(lent: &Lent) -> bool
    ensures { result ≡ bad_style lent.now.styles }
{
    check::check_styles(lent.slices.styles).is_err()
}

// ---- 4: bad candidate

// Some word of the first `count` records breaks a rule.
#[tactic(auto, unfolding(run::specs::Refusals::bad_candidate))]
pub fn is_candidate_bad(styles: &Table, list: &[u32], count: usize) -> bool
    ensures { result ≡ bad_candidate styles.now list.now count }
{
    !candidate::are_good(list, count, styles.items())
}

// ---- 6: wrong reply

// More filled records than the lists have places for. A line for each list, as at `are_slices_bad`: they are fields of what is lent, and
// their counts are fields of `Filled`.
pub fn are_above_lists(lent: &Slices, filled: Filled) -> bool
    ensures { result ≡ above_lists lent.now.working lent.now.unclaimed filled }
{
    lent.working.len() / CANDIDATE_WORDS < filled.working
        || lent.unclaimed.len() / CANDIDATE_WORDS < filled.unclaimed
}

// A word of the tally is above the run's count of questions answered.
pub fn is_any_above(tally: &[u32], answered: usize) -> bool
    ensures { result ≡ any_above answered tally.now }
{
    tally.iter().any(|word| answered < *word as usize)
}
