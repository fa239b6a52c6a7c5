// A candidate's record: node, order, position, then for x and for y area start, area end, edge, safety, fallback edge; last its layer.
ghost use Rattle.std.specs.Prelude.{◌≡◌, ◌+◌, ◌*◌, ◌≤◌, length};
ghost use Rattle.records.specs.Records.{record_at, written, good, good_records};
ghost use Rattle.tree_record.specs.Candidate.{candidate_width, axis_kinds, candidate_kinds, axis_of, candidate_of, candidate_words};

use geometry::{Line, Point};
use records::{record_at, whole_records, write_record};
use style::Position;
use style::alignment::AlignmentSafety;
use tree::layout::{AxisStaticAlign, AxisStaticEdge, AxisStaticPosition, OofCandidate};
use util::bits;

// Where the layer stands: behind the words of y.
pub const LAYER: usize = 13;

pub const CANDIDATE_WORDS: usize = 14;

// Layers are 0 to 255.
pub const LAYERS: u32 = 256;

// Whether the codes of one axis, whose words begin at `at`, are in their lists: edge, safety, fallback edge. A place in the record, here and
// below: five words cut out of it as an array would cost an `unwrap` at each call.
#[tactic(auto, using(std::proofs::lemmas::Bool::Decides::nat_tests), unfolding(records::specs::Records::good, records::specs::Records::every, records::specs::Records::breaks, records::specs::Records::wrong))]
fn is_axis_good(words: &[u32; CANDIDATE_WORDS], at: usize) -> bool
    requires { at + 5 ≤ candidate_width }
    ensures { result ≡ good axis_kinds words.now at }
{
    words[at + 2] < 3 && words[at + 3] < 3 && words[at + 4] < 3
}

// Whether a record keeps to its rules: its node and its layer are below their limits, and each code is in its list.
#[tactic(auto, using(std::proofs::lemmas::Bool::Decides::nat_tests), unfolding(records::specs::Records::good, records::specs::Records::every, records::specs::Records::breaks, records::specs::Records::wrong))]
fn is_good(words: &[u32; CANDIDATE_WORDS], n: usize) -> bool
    ensures { result ≡ good (candidate_kinds n) words.now 0 }
{
    (words[0] as usize) < n
        && words[2] < 5
        && is_axis_good(words, 3)
        && is_axis_good(words, 8)
        && words[LAYER] < LAYERS
}

// Whether the first `count` records are there and keep to their rules.
// The count is a lent state's, and may be above the list: so it is handed in beside the list, and tested here.
// A call of its own: among what else an entry holds its walk takes a quarter more time.
#[inline(never)]
#[tactic(auto, using(records::proofs::Laws::good_by_records))]
pub fn are_good(words: &[u32], count: usize, n: usize) -> bool
    ensures { result ≡ good_records (candidate_kinds n) words.now count }
{
    let records = whole_records::<CANDIDATE_WORDS>(words);
    count <= records.len() && records[..count].iter().all(|words| is_good(words, n))
}

// The static position in one axis, from five words on.
#[tactic(auto, unfolding(crate::specs::Candidate::axis_of))]
fn axis_at(words: &[u32; CANDIDATE_WORDS], at: usize) -> AxisStaticPosition
    requires { at + 5 ≤ candidate_width }
    ensures { result ≡ axis_of words.now at }
{
    AxisStaticPosition {
        area: Line {
            start: bits::from_word(words[at]),
            end: bits::from_word(words[at + 1]),
        },
        align: AxisStaticAlign {
            keyword: AxisStaticEdge::from(words[at + 2]),
            safety: AlignmentSafety::from(words[at + 3]),
            fallback: AxisStaticEdge::from(words[at + 4]),
        },
    }
}

// The candidate of a record.
#[tactic(auto, unfolding(crate::specs::Candidate::candidate_of))]
#[inline(always)]
pub fn candidate_of(words: &[u32; CANDIDATE_WORDS]) -> OofCandidate
    ensures { result ≡ candidate_of words.now }
{
    OofCandidate {
        node: words[0],
        order: words[1],
        position: Position::from(words[2]),
        place: Point {
            x: axis_at(words, 3),
            y: axis_at(words, 8),
        },
        layer: words[LAYER],
    }
}

// The candidate of record i.
#[inline(always)]
pub fn candidate_at(words: &[u32], i: usize) -> OofCandidate
    requires { candidate_width * i + candidate_width ≤ length words.now }
    ensures { result ≡ candidate_of (record_at candidate_width words.now i) }
{
    candidate_of(record_at(words, i))
}

// A candidate's words: document 01's record, word by word, and no `From`, here and in `candidate_of`, since neither type is this crate's.
// x's five, then y's: an array of each axis would be taken apart again here, as arrays are not joined.
#[tactic(auto, unfolding(crate::specs::Candidate::candidate_words))]
pub fn candidate_words(c: OofCandidate) -> [u32; CANDIDATE_WORDS]
    ensures { result ≡ candidate_words c }
{
    let x = c.place.x;
    let y = c.place.y;
    [
        c.node,
        c.order,
        u32::from(c.position),
        bits::to_word(x.area.start),
        bits::to_word(x.area.end),
        u32::from(x.align.keyword),
        u32::from(x.align.safety),
        u32::from(x.align.fallback),
        bits::to_word(y.area.start),
        bits::to_word(y.area.end),
        u32::from(y.align.keyword),
        u32::from(y.align.safety),
        u32::from(y.align.fallback),
        c.layer,
    ]
}

// Writes a candidate as record i. One line, as `write_layout` has: a trait of both would have no other use.
pub fn write_candidate(words: &mut [u32], i: usize, c: OofCandidate)
    requires { candidate_width * i + candidate_width ≤ length words.old }
    ensures { words.new ≡ written words.old (candidate_width * i) (candidate_words c) }
{
    write_record(words, i, &candidate_words(c));
}
