// Lists of records in lent words: a record is a run of words of a fixed width, and a list is one record after another.
#![tactic(auto)]

ghost use Rattle.std.specs.Prelude.{◌≡◌, ◌+◌, ◌*◌, ◌/◌, ◌<◌, ◌≤◌, length};
ghost use Rattle.records.specs.Records.{record_at, records, written, room};

// The whole records in a list of `len` words.
fn places(width: usize, len: usize) -> usize
    ensures { result ≡ len / width }
{
    len.checked_div(width).unwrap_or(0)
}

// Whether a list of `len` words that holds `held` records has room for `more`.
// The two come apart: a list is lent anew with each call (document 01), and how many records it holds is the state's.
// By numbers and for any width, 0 too: `whole_records` asks for one above 0, so that its length would ask more of callers.
#[tactic(auto, using(std::proofs::lemmas::Bool::Decides::nat_tests), unfolding(crate::specs::Records::room))]
pub fn has_room(width: usize, len: usize, held: usize, more: usize) -> bool
    ensures { result ≡ room width len held more }
{
    let places = places(width, len);
    held <= places && more <= places - held
}

// The whole records of a list, in order.
#[tactic(auto, using(crate::proofs::Laws::chunks_are_records))]
pub fn whole_records<const WIDTH: usize>(list: &[u32]) -> &[[u32; WIDTH]]
    requires { 0 < WIDTH }
    ensures { result.now ≡ records WIDTH (length list.now / WIDTH) list.now }
{
    list.as_chunks().0
}

// Record i of a list.
// That it is there is a clause, here and in all that reads or writes one by its number (`candidate_at`, `layout_at`, `box_at_hand` ..): a list is
// lent as words (document 01), so that no type can say how many records it has.
#[tactic(auto, unfolding(crate::specs::Records::record_at))]
pub fn record_at<const WIDTH: usize>(list: &[u32], i: usize) -> &[u32; WIDTH]
    requires { WIDTH * i + WIDTH ≤ length list.now }
    ensures { result.now ≡ record_at WIDTH list.now i }
{
    list[WIDTH * i..][..WIDTH].first_chunk().unwrap()
}

// Writes `words` over those of a list from `at` on. Word by word: `copy_from_slice` takes a candidate that is made just before twice the time.
#[tactic(auto, using(crate::proofs::Laws::written_more), unfolding(crate::specs::Records::written))]
pub fn write(list: &mut [u32], at: usize, words: &[u32])
    requires { at + length words.now ≤ length list.old }
    ensures { list.new ≡ written list.old at words.now }
{
    for (k, word) in words.iter().enumerate() {
        list[at + k] = *word;
    }
}

// Writes a record over record i of a list.
pub fn write_record<const WIDTH: usize>(list: &mut [u32], i: usize, words: &[u32; WIDTH])
    requires { WIDTH * i + WIDTH ≤ length list.old }
    ensures { list.new ≡ written list.old (WIDTH * i) words.now }
{
    write(list, WIDTH * i, words);
}
