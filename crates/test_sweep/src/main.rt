// Runs alignment, sweeps, checks and layout records on small lists. What it must write was worked out apart from this code:
// the static positions by the Rust, the lists by hand from document 01, their layers from request #104.
#![tactic(auto)]

ghost use Rattle.std.specs.Prelude.{◌≡◌, length};

use geometry::{Line, Point};
use refusal::Refusal;
use std::io;
use style::ContainingBlockClaims;
use style::alignment::{AlignItems, AlignItemsKeyword, AlignmentSafety};
use sweep::Filled;
use tree::layout::AxisStaticPosition;
use tree_record::candidate::CANDIDATE_WORDS;
use tree_record::{candidate, layout};
use util::bits;

// Words in hex, 14 to a line.
fn print_words(rt: &impl Print, words: &[u32]) -> io::Result<()> {
    for (i, word) in words.iter().enumerate() {
        print!(rt; "{word:08x}")?;
        print_after(rt, i)?;
    }
    println!(rt)
}

// What stands after word i.
fn print_after(rt: &impl Print, i: usize) -> io::Result<()> {
    if i % 14 == 13 {
        return println!(rt);
    }
    print!(rt; " ")
}

fn print_aligned(rt: &impl Print, aligned: Result<AxisStaticPosition, Refusal>) -> io::Result<()> {
    match aligned {
        Err(refusal) => println!(rt; "refused {}", u32::from(refusal)),
        Ok(position) => {
            let words = [
                bits::to_word(position.area.start),
                bits::to_word(position.area.end),
                u32::from(position.align.keyword),
                u32::from(position.align.safety),
                u32::from(position.align.fallback),
            ];
            print_words(rt, &words)
        }
    }
}

// 10 to 52, right to left.
fn align(rt: &impl Print, keyword: AlignItemsKeyword, safety: AlignmentSafety) -> io::Result<()> {
    let alignment = AlignItems { keyword, safety };
    let area = Line {
        start: 10.0,
        end: 52.0,
    };
    print_aligned(
        rt,
        AxisStaticPosition::from_alignment(alignment, area, true),
    )
}

fn print_swept(rt: &impl Print, swept: Result<Filled, Refusal>) -> io::Result<()> {
    match swept {
        Err(refusal) => println!(rt; "refused {}", u32::from(refusal)),
        Ok(filled) => println!(rt; "{} {}", filled.working, filled.unclaimed),
    }
}

fn print_good(rt: &impl Print, good: bool) -> io::Result<()> {
    if good {
        return println!(rt; "good");
    }
    println!(rt; "bad")
}

// An absolute box with -0 and a NaN that has a payload, a static one with another NaN, and a fixed one. Layers 255, 7 and 1.
const ABSOLUTE: [u32; CANDIDATE_WORDS] = [
    7,
    1,
    2,
    0x8000_0000,
    0xFFC0_0001,
    0,
    1,
    2,
    0x4120_0000,
    0x4250_0000,
    1,
    2,
    0,
    255,
];

const STATIC: [u32; CANDIDATE_WORDS] = [
    8,
    2,
    0,
    0x3F80_0000,
    0x4000_0000,
    2,
    0,
    2,
    0x7F80_0001,
    0,
    0,
    0,
    0,
    7,
];

const FIXED: [u32; CANDIDATE_WORDS] = [
    9,
    3,
    3,
    0x3E80_0000,
    0xFF80_0000,
    1,
    0,
    1,
    0xC040_0000,
    0x8000_0000,
    2,
    2,
    0,
    1,
];

// The three, and a word too many.
fn candidates() -> [u32; 43]
    ensures { 43 ≡ length result }
{
    let mut list = [0xABAB_ABAB; 43];
    records::write_record(&mut list, 0, &ABSOLUTE);
    records::write_record(&mut list, 1, &STATIC);
    records::write_record(&mut list, 2, &FIXED);
    list
}

// One sweep, and both lists after it. `rt` is lent to each that prints, here and below, and of the list beside it a struct would be longer.
fn print_sweep(
    rt: &impl Print,
    fixed_only: bool,
    shift: Option<Point<f32>>,
    list: &[u32],
    working: &mut [u32],
    unclaimed: &mut [u32],
    filled: Filled,
) -> io::Result<()> {
    let claims = ContainingBlockClaims {
        absolute: !fixed_only,
        fixed: true,
    };
    print_swept(
        rt,
        sweep::sweep(claims, shift, list, working, unclaimed, filled),
    )?;
    print_words(rt, &working[..])?;
    print_words(rt, &unclaimed[..])
}

fn filled(working: usize, unclaimed: usize) -> Filled {
    Filled { working, unclaimed }
}

// The three candidates of an opening, then the same surfaced by a box at (0, -2.5) whose area claims fixed ones only; then one record too many
// for the working list, and for the unclaimed list.
fn print_sweeps(rt: &impl Print, list: &[u32]) -> io::Result<()> {
    let mut working = [0x1111_1111; 71];
    let mut unclaimed = [0x2222_2222; 57];
    let sweeps = [
        (false, None, filled(0, 0)),
        (true, Some(Point { x: 0.0, y: -2.5 }), filled(2, 1)),
        (false, None, filled(4, 3)),
        (true, None, filled(4, 3)),
    ];
    for (fixed_only, shift, filled) in sweeps {
        print_sweep(
            rt,
            fixed_only,
            shift,
            list,
            &mut working,
            &mut unclaimed,
            filled,
        )?;
    }
    Ok(())
}

// `rt` goes beside the list, here and above: it is what may print, and has no part in what is printed.
fn print_checks(rt: &impl Print, list: &[u32]) -> io::Result<()> {
    print_good(rt, candidate::are_good(list, 3, 10))?;
    print_good(rt, candidate::are_good(list, 3, 9))?;
    print_good(rt, candidate::are_good(list, 4, 10))
}

// The same with another layer of the static box, which no area claims: the highest one, and the first that is none.
fn print_layers(rt: &impl Print) -> io::Result<()> {
    let mut list = candidates();
    list[27] = 255;
    print_good(rt, candidate::are_good(&list, 3, 10))?;
    list[27] = 256;
    print_good(rt, candidate::are_good(&list, 3, 10))
}

// The first 23 words as a layout, written in the middle of three.
fn print_layout(rt: &impl Print, list: &[u32]) -> io::Result<()> {
    if list.len() < 23 {
        return Ok(());
    }
    let mut layouts = [0x3333_3333; 69];
    layout::write_layout(&mut layouts, 1, layout::layout_at(list, 0));
    print_words(rt, &layouts)
}

fn main(rt: HostRuntime) -> io::Result<()> {
    align(&rt, AlignItemsKeyword::Stretch, AlignmentSafety::Default)?;
    align(&rt, AlignItemsKeyword::End, AlignmentSafety::Unsafe)?;
    align(&rt, AlignItemsKeyword::End, AlignmentSafety::Safe)?;
    align(&rt, AlignItemsKeyword::SelfEnd, AlignmentSafety::Safe)?;
    let list = candidates();
    print_sweeps(&rt, &list)?;
    print_checks(&rt, &list)?;
    print_layers(&rt)?;
    print_layout(&rt, &list)
}
