// Loads, and the list of them.
ghost use Rattle.std.specs.Prelude.{◌≡◌};
ghost use Rattle.lists.specs.Tests.{some};
ghost use Rattle.tables.specs.Limits.{load_in, most_of};
ghost use Rattle.tables.specs.Stored.{loads_of};
ghost use Rattle.tables.specs.Kinds.{load_kinded};
ghost use Rattle.tables.specs.Changes.{with_figure, has_children, reparented};
ghost use Rattle.tables.specs.Operations.{load_appended, load_at, load_replaced, figure_set, load_removed};

use crate::refusal::Refusal;

pub const MAX_LOADS: usize = 128;

pub const MAX_POWER: u16 = 500;

pub const MAX_WORTH: u16 = 1000;

pub const MAX_KIND: u8 = 3;

// A figure of a load that a line can set.
#[derive(Clone, Copy)]
pub enum Figure {
    Power,
    Worth,
}

// A load: the number of its parent, its kind, its power in watts and its worth. Only load rules of its kind serve it.
#[repr(C)]
#[derive(Clone, Copy, PartialEq, Eq)]
pub struct Load {
    pub parent: u8,
    pub kind: u8,
    pub power: u16,
    pub worth: u16,
}

// Loads in order of entry. The first `count` places are in use.
// It stands beside `TransitionList` as a type of its own, since C takes no generic struct.
#[repr(C)]
#[derive(Clone, Copy)]
pub struct LoadList {
    pub items: [Load; MAX_LOADS],
    pub count: usize,
}

impl Figure {
    // The greatest that it may be.
    pub fn most(self) -> u16
        ensures { result ≡ most_of self }
    {
        match self {
            Figure::Power => MAX_POWER,
            Figure::Worth => MAX_WORTH,
        }
    }
}

impl Load {
    // What an unused place holds.
    pub const NONE: Load = Load {
        parent: 0,
        kind: 0,
        power: 0,
        worth: 0,
    };

    // Are the parent and the figures in range for the load of this number? The root has parent 0, a later load a smaller number.
    #[tactic(auto, using(crate::proofs::Places::parent_test), unfolding(crate::specs::Limits::load_in))]
    pub(crate) fn in_range(self, number: usize) -> bool
        ensures { result ≡ load_in number self }
    {
        let parent = usize::from(self.parent);
        let root = number == 1 && parent == 0;
        let child = (1..number).contains(&parent);
        (root || child)
            && self.power <= MAX_POWER
            && self.worth <= MAX_WORTH
            && self.kind <= MAX_KIND
    }

    // The load with another figure.
    pub(crate) fn with_figure(self, figure: Figure, value: u16) -> Load
        ensures { result ≡ with_figure figure self value }
    {
        match figure {
            Figure::Power => Load {
                power: value,
                ..self
            },
            Figure::Worth => Load {
                worth: value,
                ..self
            },
        }
    }

    // The load after the load of this number has left. The number of a parent above it falls by one.
    pub(crate) fn reparented(self, number: usize) -> Load
        ensures { result ≡ reparented number self }
    {
        if usize::from(self.parent) <= number {
            return self;
        }
        Load {
            parent: self.parent - 1,
            ..self
        }
    }
}

impl LoadList {
    pub const EMPTY: LoadList = LoadList {
        items: [Load::NONE; MAX_LOADS],
        count: 0,
    };

    // The list with l at its end, unless it is full.
    pub(crate) fn append(self, l: Load) -> Result<LoadList, Refusal>
        ensures { result ≡ load_appended self l }
    {
        if MAX_LOADS <= self.count {
            return Err(Refusal::Full);
        }
        let mut next = self;
        next.items[self.count] = l;
        next.count = self.count + 1;
        Ok(next)
    }

    // The load of this number. A number outside 1 to 128 gives what an unused place holds.
    pub fn load(self, number: usize) -> Load
        ensures { result ≡ load_at self number }
    {
        if !(1..=MAX_LOADS).contains(&number) {
            return Load::NONE;
        }
        self.items[number - 1]
    }

    // The list with another load of this number. A number outside 1 to 128 changes nothing.
    pub(crate) fn replace(self, number: usize, load: Load) -> LoadList
        ensures { result ≡ load_replaced self number load }
    {
        if !(1..=MAX_LOADS).contains(&number) {
            return self;
        }
        let mut next = self;
        next.items[number - 1] = load;
        next
    }

    pub(crate) fn set_figure(self, figure: Figure, number: usize, value: u16) -> LoadList
        ensures { result ≡ figure_set self figure number value }
    {
        let load = self.load(number);
        self.replace(number, load.with_figure(figure, value))
    }

    // Is some load a child of the load of this number?
    pub fn has_children(self, number: usize) -> bool
        ensures { result ≡ has_children number (loads_of self) }
    {
        self.items
            .iter()
            .take(self.count)
            .any(|load| usize::from(load.parent) == number)
    }

    // Has some load a kind other than 0?
    pub(crate) fn has_kinds(self) -> bool
        ensures { result ≡ some load_kinded (loads_of self) }
    {
        self.items.iter().take(self.count).any(|load| 0 < load.kind)
    }

    // The list without the load of this number. Each later load comes one place down, and the last place is free. A number of no load changes
    // nothing.
    pub(crate) fn remove(self, number: usize) -> LoadList
        ensures { result ≡ load_removed self number }
    {
        if !(1..=MAX_LOADS).contains(&number) {
            return self;
        }
        if self.count < number {
            return self;
        }
        // The loop counts by hand: each place takes the load of another, which an iterator over the places does not give.
        let mut next = self;
        for i in (number - 1)..MAX_LOADS {
            let later = self.load(i + 2);
            next.items[i] = later.reparented(number);
        }
        next.count = self.count - 1;
        next
    }
}
