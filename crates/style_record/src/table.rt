// The styles of a run: the lent table. Those of a preview (request #109): a copy of it with one style written in. The copy isn't made: each
// record is read where it stands.
ghost use Rattle.std.specs.Prelude.{◌≡◌, ◌+◌, ◌*◌, ◌≤◌, length};
ghost use Rattle.records.specs.Records.{record_at};
ghost use Rattle.style_record.specs.Record.{style_words, items};
ghost use Rattle.style_record.specs.Table.{with_style};

use crate::words::STYLE_WORDS;
use records::whole_records;
use std::marker::Model;

// A style in place of a node's own.
#[derive(Clone, Copy)]
pub struct Replacement<'a> {
    pub node: usize,
    pub style: &'a [u32; STYLE_WORDS],
}

// Lent words, their whole records, and what is read in place of one.
#[derive(Drop)]
pub struct Table<'a> {
    lent: &'a [u32],
    records: &'a [[u32; STYLE_WORDS]],
    replacement: Option<Replacement<'a>>,
}

// Contracts see the words of the copy.
impl<'a> Model for Table<'a> {
    ghost use Rattle.std.specs.Prelude.{ℕ, List};
    ghost use Rattle.style_record.specs.Table.{IsTable, styles_of};

    ghost Value = { List ℕ };

    ghost view = { λ a. styles_of a.lent.now a.replacement };

    ghost invariant = { λ a. IsTable a.lent.now a.records.now a.replacement };
}

impl<'a> From<&'a [u32]> for Table<'a> {
    ghost from_gives = { λ styles table. table ≡ styles.now };

    #[tactic(auto, unfolding(crate::specs::Record::items))]
    fn from(styles: &'a [u32]) -> Table<'a> {
        Table {
            lent: styles,
            records: whole_records(styles),
            replacement: None,
        }
    }
}

impl<'a> Table<'a> {
    // A copy of lent words with this style written in at a node.
    #[tactic(auto, unfolding(crate::specs::Record::items))]
    pub fn with_style(styles: &'a [u32], node: u32, style: &'a [u32; STYLE_WORDS]) -> Table<'a>
        ensures { result ≡ with_style styles.now node style.now }
    {
        let replacement = Replacement {
            node: node as usize,
            style,
        };
        Table {
            lent: styles,
            records: whole_records(styles),
            replacement: Some(replacement),
        }
    }

    pub fn len(&self) -> usize
        ensures { result ≡ length self.now }
    {
        self.lent.len()
    }

    // How many whole records it has.
    pub fn items(&self) -> usize
        ensures { result ≡ items self.now }
    {
        self.records.len()
    }

    // The record of an item: the replacement's, or the one lent.
    pub fn record(&self, item: usize) -> &[u32; STYLE_WORDS]
        requires { style_words * item + style_words ≤ length self.now }
        ensures { result.now ≡ record_at style_words self.now item }
    {
        match self.replacement {
            Some(by) if by.node == item => by.style,
            _ => &self.records[item],
        }
    }
}
