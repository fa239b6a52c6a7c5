// Candidates swept into two lists: the claimed ones are appended to the working list, the others to the unclaimed list.
#![tactic(auto)]

ghost use Rattle.std.specs.Prelude.{◌≡◌, map, ◌+◌, ◌*◌, ◌≤◌, length};
ghost use Rattle.tree_record.specs.Candidate.{candidate_width};
ghost use Rattle.sweep.specs.Sweep.{moved, side, keep, candidates_in, appended, Leaves, swept};

use geometry::Point;
use records::whole_records;
use refusal::Refusal;
use style::{ContainingBlockClaims, Position};
use tree::layout::OofCandidate;
use tree_record::candidate;
use tree_record::candidate::CANDIDATE_WORDS;

// How many records each list holds. The lists are lent anew at each call (document 01), so that only their counts are the state's.
#[derive(Clone, Copy, Default)]
pub struct Filled {
    pub working: usize,
    pub unclaimed: usize,
}

// The candidate, its areas moved by a shift. None is not a shift of 0, which would turn -0 into +0.
#[tactic(auto, unfolding(crate::specs::Sweep::moved))]
fn moved(shift: Option<Point<f32>>, c: OofCandidate) -> OofCandidate
    ensures { result ≡ moved shift c }
{
    match shift {
        None => c,
        Some(location) => c.translate(location),
    }
}

// Whether a candidate of a position goes to the list of the claimed ones, or else to that of the others. A flag, here and below: for a closure
// in its place each contract would have to say of each position what it answers, as `side` does by the flag. Claims and flag are no struct, which
// `sweep` would make twice, and of which each contract would name both fields.
#[tactic(auto, unfolding(crate::specs::Sweep::side))]
fn goes(claims: ContainingBlockClaims, claimed: bool, position: Position) -> bool
    ensures { result ≡ side claims claimed position }
{
    claims.for_position(position) == claimed
}

// How many candidates of a slice go to a list.
fn count(claims: ContainingBlockClaims, claimed: bool, candidates: &[u32]) -> usize
    ensures { result ≡ length (keep claims claimed (candidates_in candidates.now)) }
{
    whole_records::<CANDIDATE_WORDS>(candidates)
        .iter()
        .filter(|words| goes(claims, claimed, Position::from(words[2])))
        .count()
}

// Appends the candidates of a slice that go to a list, in order, behind the `held` records that it holds.
// The whole list, and how many it holds: of the rest `&mut list[..]` the caller would have to prove again what it leaves of the front.
#[inline(always)]
fn append(
    claims: ContainingBlockClaims,
    claimed: bool,
    shift: Option<Point<f32>>,
    candidates: &[u32],
    list: &mut [u32],
    held: usize,
)
    requires { candidate_width * (held + length (keep claims claimed (candidates_in candidates.now))) ≤ length list.old }
    ensures { list.new ≡ appended list.old held (keep claims claimed (map (moved shift) (candidates_in candidates.now))) }
{
    let kept = whole_records::<CANDIDATE_WORDS>(candidates)
        .iter()
        .filter(|words| goes(claims, claimed, Position::from(words[2])));
    for (i, words) in kept.enumerate() {
        let c = candidate::candidate_of(words);
        candidate::write_candidate(list, held + i, moved(shift, c));
    }
}

// Sweeps the whole records of a slice, and says how many records each list then holds. Where either list would overflow, refusal 5, and no
// word is written. A line for each list: they are two parameters, and what is swept to one is what isn't to the other.
#[inline(always)]
pub fn sweep(
    claims: ContainingBlockClaims,
    shift: Option<Point<f32>>,
    candidates: &[u32],
    working: &mut [u32],
    unclaimed: &mut [u32],
    filled: Filled,
) -> Result<Filled, Refusal>
    ensures { Leaves result working.new unclaimed.new (swept claims (map (moved shift) (candidates_in candidates.now)) working.old unclaimed.old filled) }
{
    let inside = count(claims, true, candidates);
    let outside = count(claims, false, candidates);
    if !records::has_room(CANDIDATE_WORDS, working.len(), filled.working, inside) {
        return Err(Refusal::ListFull);
    }
    if !records::has_room(CANDIDATE_WORDS, unclaimed.len(), filled.unclaimed, outside) {
        return Err(Refusal::ListFull);
    }
    let after = Filled {
        working: filled.working + inside,
        unclaimed: filled.unclaimed + outside,
    };
    append(claims, true, shift, candidates, working, filled.working);
    append(
        claims,
        false,
        shift,
        candidates,
        unclaimed,
        filled.unclaimed,
    );
    Ok(after)
}
