//! The key descriptions, which decide what is empty: the classes, and the marks "end e at least once".
//!
//! Key k below 64 is class k, and key 64 + e is the mark (e, 1). Higher marks matter only to a cap, and a cap stands
//! on an arrow that no other leads to, so a class needs them there by a row of its own. What is empty is what point
//! 128 leads to in a web that goes backwards: from 128 to each key that leads to two that clash, from a key to each
//! that leads to it, and between the two ends of an arrow.
ghost use Rattle.std.specs.Prelude.{◌≡◌, ◌+◌, ◌-◌, ◌*◌, ◌/◌, ◌<◌};
ghost use Rattle.schema.specs.Keys.{Forward, Backward, EmptyKeys, KeyBuilt, Holds, AddsKey, PassesKey, NearKey, LedTo, Studied, Surveyed};
ghost use Rattle.schema.specs.Points.{Built};
ghost use Rattle.schema.specs.Verdicts.{Tells};
ghost use Rattle.std.proofs.Common.{rules};

use crate::arrows::torn_arrows;
use crate::descriptions::Descriptions;
use crate::marking::marks_from;
use crate::rivals::{list_rivals, torn_sets};
use crate::schema::Schema;
use crate::set64::Set64;
use crate::sound_sheet::SoundSheet;
use search::web::Web;

/// How many keys there are; the point of the same number leads to those that clash.
// A key is a plain number, as the search wants it: an enum would only be made from it where each test now stands.
pub(crate) const KEYS: usize = 128;

/// The links between keys, of some rows, and what clashes.
#[derive(Drop)]
pub(crate) struct KeyLinks<'a> {
    pub(crate) links: &'a Descriptions,
    // of a class: the classes whose members cannot be in it
    pub(crate) rivals: [Set64; 64],
    // the arrows that lead to two that clash
    pub(crate) broken: Set64,
}

impl Web for KeyLinks<'_> {
    ghost size = { λ _. 128 };

    ghost link = { Forward };

    ghost small = { Prim.search rules };

    fn points(&self) -> usize {
        KEYS
    }

    fn next_link(&self, from: usize, at: usize) -> Option<usize> {
        let links = self.links;
        let classes = match from {
            0..=63 => links.classes[from].supers,
            64..=127 => links.domains[from - 64],
            _ => return None,
        };
        if let Some(class) = classes.next_from(at) {
            return Some(class);
        }
        // the ends come after the 64 classes
        let low = at.saturating_sub(64);
        let end = if from < 64 {
            links.classes[from].needs.next_from(low)
        } else {
            links.arrows.overs[(from - 64) / 2].next_strided::<2>(from % 2, low, 64)
        };
        Some(64 + end?)
    }
}

impl<'a> KeyLinks<'a> {
    // The web of the keys of a sheet, over its links.
    fn of(sheet: &SoundSheet, links: &'a Descriptions) -> KeyLinks<'a>
        requires { Built sheet.now.rows.items links.now }
        ensures { KeyBuilt sheet.now.rows.items result }
    {
        let rivals = list_rivals(sheet, links);
        let broken = torn_arrows(sheet, &links.arrows);
        KeyLinks {
            links,
            rivals,
            broken,
        }
    }

    // A key and what it links to.
    fn near(&self, key: usize) -> KeySet
        requires { key < 128 }
        ensures { NearKey self.now key result }
    {
        let mut keys = KeySet::EMPTY;
        keys.insert(key);
        // a cursor, as `next_link` wants it
        let mut at = 0;
        while let Some(to) = self.next_link(key, at) {
            keys.insert(to);
            at = to + 1;
        }
        keys
    }

    // What each key leads to. Each begins with what it links to, and then each that has a key, one key after the
    // other, takes over what that one has.
    fn closed(&self) -> [KeySet; KEYS]
        ensures { LedTo self.now result }
    {
        let mut led = [KeySet::EMPTY; KEYS];
        // a loop here and in `survey`, since with array::from_fn, which proves too, the crate's statements cannot be
        // written for those above it
        for key in 0..KEYS {
            led[key] = self.near(key);
        }
        for via in 0..KEYS {
            let beyond = led[via];
            for keys in led.iter_mut() {
                keys.pass(via, &beyond);
            }
        }
        led
    }

    // What a key leads to, and whether it is torn: two of its classes clash, or it is an end of a broken arrow.
    fn study(&self, led: &[KeySet; KEYS], key: usize) -> Reach
        requires known { key < 128 }
        requires led { LedTo self.now led.now }
        ensures { Studied self.now key result }
    {
        let keys = led[key];
        let torn = torn_sets(&self.rivals, keys.classes)
            || key >= 64 && self.broken.has((key - 64) / 2);
        Reach { keys, torn }
    }
}

/// A set of keys.
#[derive(Clone, Copy)]
pub(crate) struct KeySet {
    pub(crate) classes: Set64,
    // those from 64 on, as the ends
    pub(crate) ends: Set64,
}

impl KeySet {
    const EMPTY: KeySet = KeySet {
        classes: Set64::EMPTY,
        ends: Set64::EMPTY,
    };

    // Whether a key is in the set.
    fn has(&self, key: usize) -> bool
        requires { key < 128 }
        ensures { Tells result (Holds self.now key) }
    {
        if key < 64 {
            self.classes.has(key)
        } else {
            self.ends.has(key - 64)
        }
    }

    // Adds a key.
    fn insert(&mut self, key: usize)
        requires { key < 128 }
        ensures { AddsKey self.old key self.new }
    {
        if key < 64 {
            self.classes.insert(key);
        } else {
            self.ends.insert(key - 64);
        }
    }

    // Adds what lies beyond a key, if the set has the key.
    fn pass(&mut self, via: usize, beyond: &KeySet)
        requires { via < 128 }
        ensures { PassesKey via beyond.now self.old self.new }
    {
        if self.has(via) {
            self.classes.join(beyond.classes);
            self.ends.join(beyond.ends);
        }
    }
}

/// What a key leads to.
#[derive(Clone, Copy)]
pub(crate) struct Reach {
    // the classes that it leads to, and the ends that it leads to have at least once
    pub(crate) keys: KeySet,
    // whether it leads to two that clash, or its arrow does
    pub(crate) torn: bool,
}

impl Reach {
    const BLANK: Reach = Reach {
        keys: KeySet::EMPTY,
        torn: false,
    };
}

/// What each key leads to.
#[derive(Drop)]
pub(crate) struct Keys {
    pub(crate) reaches: [Reach; 128],
}

impl Web for Keys {
    ghost size = { λ _. 129 };

    ghost link = { Backward };

    ghost small = { Prim.search rules };

    fn points(&self) -> usize {
        KEYS + 1
    }

    fn next_link(&self, from: usize, at: usize) -> Option<usize> {
        // key by key, 128 tests from each of 129 points: to turn the sets round first would take as many
        (at..KEYS).find(|to| self.linked(from, *to))
    }
}

impl Keys {
    /// What the keys of a schema lead to.
    fn survey(schema: &Schema) -> Keys
        ensures { Surveyed schema.now.sheet.rows.items 128 result }
    {
        let links = Descriptions::of(&schema.sheet);
        let web = KeyLinks::of(&schema.sheet, &links);
        let led = web.closed();
        let mut reaches = [Reach::BLANK; KEYS];
        for key in 0..KEYS {
            reaches[key] = web.study(&led, key);
        }
        Keys { reaches }
    }

    // Whether a link leads backward from one point to a key.
    fn linked(&self, from: usize, to: usize) -> bool
        requires { to < 128 }
        ensures { Tells result (Backward self.now from to) }
    {
        let reach = self.reaches[to];
        match from {
            0..=63 => reach.keys.has(from),
            64..=127 => reach.keys.has(from) || from / 2 == to / 2,
            KEYS => reach.torn,
            _ => false,
        }
    }
}

/// A byte for each key: 1 if its description is empty, and else 0.
pub(crate) fn empty_keys(schema: &Schema) -> [u8; 129]
    ensures { EmptyKeys schema.now.sheet.rows.items result }
{
    marks_from(&Keys::survey(schema), KEYS)
}
