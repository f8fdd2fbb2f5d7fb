// Faults: what a refused call hands back, as a layer and a cause.

#![tactic(auto)]

ghost use Rattle.std.specs.Prelude.{◌≡◌};
ghost use Rattle.faults.specs.Faults.{number_of, word_of, length_fault, digit_fault, size_fault, counts_fault, unmatched_fault};
ghost use Rattle.faults.specs.Faults.{position_fault, spent_fault, at_odds_fault, full_fault};

pub mod display;

// The part of the engine that a refusal speaks for.
#[derive(Clone, Copy, PartialEq, Eq)]
pub enum Layer {
    // rows and their digits, whichever call they were handed to
    Element,
    // making a family
    Family,
    // making a host, changing it, and asking it
    Host,
    // a session's calls, and those of a lookup from C
    Session,
}

// Why a call was refused, with what the refusal names.
#[derive(Clone, Copy, PartialEq, Eq)]
pub enum Cause {
    // a row has another length than it must: the length found
    Length(usize),
    // a digit above 5: the place of the first, from 0
    Digit(usize),
    // a number outside its limits, or unlike the one that it must equal: the number found
    Size(usize),
    // a book's two counts differ: the second
    Counts(usize),
    // a pair of positions breaks the matching rule: i and j
    Unmatched(usize, usize),
    // a position not below the count: the position
    Position(usize),
    // fewer tape digits left than a request takes: the digits left
    Spent(usize),
    // two sheets that come to no entry: the position asked for
    AtOdds(usize),
    // no room for another change: how many are held
    Full(usize),
}

// A refusal: the layer that it speaks for, and its cause.
#[derive(Clone, Copy, PartialEq, Eq)]
pub struct Fault {
    pub layer: Layer,
    pub cause: Cause,
}

impl Cause {
    // The number under which documents and programs know this cause.
    pub fn number(&self) -> u32
        ensures { result ≡ number_of self.now }
    {
        match self {
            Cause::Length(_) => 1,
            Cause::Digit(_) => 2,
            Cause::Size(_) => 3,
            Cause::Counts(_) => 4,
            Cause::Unmatched(_, _) => 5,
            Cause::Position(_) => 6,
            Cause::Spent(_) => 7,
            Cause::AtOdds(_) => 8,
            Cause::Full(_) => 9,
        }
    }

    // The word that goes with the number.
    pub fn word(&self) -> &'static str
        ensures { result.now ≡ word_of self.now }
    {
        match self {
            Cause::Length(_) => "length",
            Cause::Digit(_) => "digit",
            Cause::Size(_) => "size",
            Cause::Counts(_) => "counts",
            Cause::Unmatched(_, _) => "unmatched",
            Cause::Position(_) => "position",
            Cause::Spent(_) => "spent",
            Cause::AtOdds(_) => "at odds",
            Cause::Full(_) => "full",
        }
    }
}

impl Fault {
    // A row of another length than it must have: the element's to refuse, wherever it arises.
    pub fn length(found: usize) -> Fault
        ensures { result ≡ length_fault found }
    {
        Fault {
            layer: Layer::Element,
            cause: Cause::Length(found),
        }
    }

    // A digit above 5 at a place: the element's to refuse, wherever it arises.
    pub fn digit(place: usize) -> Fault
        ensures { result ≡ digit_fault place }
    {
        Fault {
            layer: Layer::Element,
            cause: Cause::Digit(place),
        }
    }

    // A number that the part called cannot take: that part's to refuse.
    pub fn size(layer: Layer, found: usize) -> Fault
        ensures { result ≡ size_fault layer found }
    {
        Fault {
            layer,
            cause: Cause::Size(found),
        }
    }

    // A book whose second count is not its first.
    pub fn counts(second: usize) -> Fault
        ensures { result ≡ counts_fault second }
    {
        Fault {
            layer: Layer::Family,
            cause: Cause::Counts(second),
        }
    }

    // A pair of positions that breaks the matching rule.
    pub fn unmatched(i: usize, j: usize) -> Fault
        ensures { result ≡ unmatched_fault i j }
    {
        Fault {
            layer: Layer::Family,
            cause: Cause::Unmatched(i, j),
        }
    }

    // A position not below the count: the host's or the session's to refuse.
    pub fn position(layer: Layer, found: usize) -> Fault
        ensures { result ≡ position_fault layer found }
    {
        Fault {
            layer,
            cause: Cause::Position(found),
        }
    }

    // A tape with fewer digits left than a request takes.
    pub fn spent(left: usize) -> Fault
        ensures { result ≡ spent_fault left }
    {
        Fault {
            layer: Layer::Session,
            cause: Cause::Spent(left),
        }
    }

    // Two sheets that come to no entry, for the position asked for.
    pub fn at_odds(position: usize) -> Fault
        ensures { result ≡ at_odds_fault position }
    {
        Fault {
            layer: Layer::Session,
            cause: Cause::AtOdds(position),
        }
    }

    // A change host that holds all the changes it can.
    pub fn full() -> Fault
        ensures { result ≡ full_fault }
    {
        Fault {
            layer: Layer::Host,
            cause: Cause::Full(64),
        }
    }
}
