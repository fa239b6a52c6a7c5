// What a run takes, keeps and answers. A host opens a run over lent words, then answers one question after another until it
// finishes (compute/oof.rs, `perform_oof_layout`); specs/Run.antt says what each call does.
#![tactic(auto)]

ghost use Rattle.std.specs.Prelude.{◌≡◌};
ghost use Rattle.run.specs.Run.{container_of, extents_beside, extents_of};

use geometry::{Point, Rect};
use oof_box::question::{Question, Replies, Stage};
use oof_resolve::ContainingBlock;
use refusal::Refusal;
use std::marker::Model;
use style::{ContainingBlockClaims, Direction, Overflow};
use style_record::table::Table;
use sweep::Filled;
use tree::layout::OofPositioningArea;

// What a run is opened with, beside the lent slices: the area, and the codes of direction, claims and overflow.
// They are words, and no `Direction` or `Overflow`: test 1 of document 01 refuses a word that is no code.
#[derive(Clone, Copy)]
pub struct Opening {
    pub area: OofPositioningArea,
    pub direction: u32,
    pub claims: u32,
    pub overflowx: u32,
    pub overflowy: u32,
}

impl From<Opening> for ContainingBlock {
    ghost from_gives = { λ o c. c ≡ container_of o };

    fn from(o: Opening) -> ContainingBlock {
        ContainingBlock {
            area: o.area,
            direction: Direction::from(o.direction),
            overflow: Point {
                x: Overflow::from(o.overflowx),
                y: Overflow::from(o.overflowy),
            },
        }
    }
}

// Filled records of the two lists, boxes begun, questions answered.
// They are the state's, and the lists are lent anew with each call (document 01): what reads a list up to a count takes both, here and in crates above.
#[derive(Clone, Copy, Default)]
pub struct Counts {
    pub filled: Filled,
    pub begun: usize,
    pub answered: usize,
}

// Four slices of a run. A part that reads a finished run is lent these.
#[derive(Drop)]
pub struct Slices<'a, 't> {
    pub styles: &'a Table<'t>,
    pub layouts: &'a [u32],
    pub working: &'a [u32],
    pub unclaimed: &'a [u32],
}

// Contracts see them by their words, here and below.
impl<'a, 't> Model for Slices<'a, 't> {
    ghost use Rattle.run.specs.Call.{Slices};

    ghost Value = { Slices };

    ghost view = { λ a. record { styles = a.styles.now; layouts = a.layouts.now; working = a.working.now; unclaimed = a.unclaimed.now } };
}

// The slices that every call is lent, of a call that writes none of them. The tally holds a word for each item: how many of the run's questions
// about it are answered.
#[derive(Drop)]
pub struct Lent<'a, 't> {
    pub slices: Slices<'a, 't>,
    pub tally: &'a [u32],
}

impl<'a, 't> Model for Lent<'a, 't> {
    ghost use Rattle.run.specs.Call.{Lent};

    ghost Value = { Lent };

    ghost view = { λ a. record { styles = a.slices.styles; layouts = a.slices.layouts; working = a.slices.working; unclaimed = a.slices.unclaimed; tally = a.tally.now } };
}

// The lengths of the slices lent at the opening, in words.
#[derive(Clone, Copy, Default, PartialEq, Eq)]
pub struct Extents {
    pub styles: usize,
    pub layouts: usize,
    pub working: usize,
    pub unclaimed: usize,
    pub tally: usize,
}

impl Extents {
    // Of these slices, beside a tally of so many words.
    pub fn new(slices: &Slices, tally: usize) -> Extents
        ensures { result ≡ extents_beside tally slices.now }
    {
        Extents {
            styles: slices.styles.len(),
            layouts: slices.layouts.len(),
            working: slices.working.len(),
            unclaimed: slices.unclaimed.len(),
            tally,
        }
    }
}

impl From<&Lent<'_, '_>> for Extents {
    ghost from_gives = { λ lent e. e ≡ extents_of lent.now };

    fn from(lent: &Lent<'_, '_>) -> Extents {
        Extents::new(&lent.slices, lent.tally.len())
    }
}

// What a run keeps from its opening.
#[derive(Clone, Copy, Default)]
pub struct Opened {
    pub container: ContainingBlock,
    pub claims: ContainingBlockClaims,
    pub extents: Extents,
}

// All that is kept between calls. `progress` is the stage of the open question: none, and the run is finished. `replies` are those of the box
// at hand, `overflow` is the union so far.
#[derive(Clone, Copy, Default)]
pub struct State {
    pub progress: Option<Stage>,
    pub replies: Replies,
    pub counts: Counts,
    pub overflow: Rect<f32>,
    pub opened: Opened,
}

// The end of a run: its scrollable overflow, and the count of questions answered.
#[derive(Clone, Copy)]
pub struct Finish {
    pub overflow: Rect<f32>,
    pub count: usize,
}

// What comes next.
#[derive(Clone, Copy)]
pub enum Answer {
    Ask(Question),
    Finish(Finish),
}

// What a call returns: a state, of a refused one too.
#[derive(Clone, Copy)]
pub struct Step {
    pub state: State,
    pub answer: Result<Answer, Refusal>,
}
