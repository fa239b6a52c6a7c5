// Replays on the code 2,000 boxes, read from standard input: every question, the layout and the finish rectangle. The Rust laid them out
// or, where request #106 doesn't compare with the Rust, the second implementation did. Then document 01's rows 12 and 13, whose numbers it
// must write.
// tools/samples/boxes.py made the input and says how a box stands in it.
#![tactic(auto)]

ghost use Rattle.std.specs.Prelude.{◌≡◌, length};
ghost use Rattle.test_oof_box.specs.Box.{box_words};

use replay::BOX_WORDS;
use std::io;
use std::io::Read;

mod replay;
mod rows;

const BOX_BYTES: usize = 4 * BOX_WORDS;

// The words of a box, from bytes.
fn words_of(bytes: &[u8; BOX_BYTES]) -> [u32; BOX_WORDS]
    ensures { box_words ≡ length result }
{
    let mut words = [0; BOX_WORDS];
    let (fours, _) = bytes.as_chunks::<4>();
    for (word, four) in words.iter_mut().zip(fours) {
        *word = u32::from_le_bytes(*four);
    }
    words
}

// How many of n boxes there are, and how many of them agree.
fn replay_all(rt: &impl Print, input: &mut impl Read, n: u64) -> io::Result<()> {
    let mut bytes = [0; BOX_BYTES];
    let mut there: u64 = 0;
    let mut agree: u64 = 0;
    for _ in 0..n {
        if input.read_exact(&mut bytes).is_ok() {
            there = there.saturating_add(1);
            if replay::agrees(&words_of(&bytes)) {
                agree = agree.saturating_add(1);
            }
        }
    }
    println!(rt; "{there} boxes, {agree} agree")
}

fn main(rt: HostRuntime) -> io::Result<()> {
    replay_all(&rt, &mut rt.stdin(), 2000)?;
    rows::run(&rt)
}
