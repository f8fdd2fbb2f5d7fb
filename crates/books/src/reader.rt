// A book read front to back, part by part.
ghost use Rattle.std.specs.Prelude.{◌≡◌, ◌*◌, ◌≤◌, length, take, IfOk, OnOk};
ghost use Rattle.std.specs.Result.{result_err};
ghost use Rattle.books.specs.Numbers.{big_endian};
ghost use Rattle.books.specs.Layout.{short_fault, second_fault, section_fault, end_fault, sections_fault};

use digits::first_above;
use faults::Fault;

// What is left of a book, and the length of the whole book, which refusals name. After a refusal it is open what is left.
#[derive(Drop)]
pub(crate) struct Reader<'a> {
    whole: usize,
    rest: &'a [u8],
    ghost within: { length rest.now ≤ whole },
}

impl<'a> Reader<'a> {
    ghost use Rattle.books.specs.Advanced.{Advanced};

    pub(crate) fn new(bytes: &'a [u8]) -> Reader<'a>
        ensures whole { result.whole ≡ length bytes.now }
        ensures rest { result.rest.now ≡ bytes.now }
    {
        Reader {
            whole: bytes.len(),
            rest: bytes,
        }
    }

    // Takes so many bytes off the front of what is left.
    fn take(&mut self, len: usize) -> Result<&'a [u8], Fault>
        ensures fault { result_err result ≡ short_fault len self.old.whole self.old.rest.now }
        ensures part { IfOk result (λ part. part.now ≡ take len self.old.rest.now) }
        ensures length { IfOk result (λ part. length part.now ≡ len) }
        ensures left { OnOk result (Advanced len self.old self.new) }
    {
        let (part, rest) = self
            .rest
            .split_at_checked(len)
            .ok_or(Fault::length(self.whole))?;
        self.rest = rest;
        Ok(part)
    }

    // Takes the dimension: two bytes, the most significant first. Dimension and counts have a method each, and no loop serves
    // both: so the bytes are named one by one, as the format lists them.
    #[tactic(auto, unfolding(crate::specs::Numbers::big_endian))]
    pub(crate) fn dimension(&mut self) -> Result<usize, Fault>
        ensures fault { result_err result ≡ short_fault 2 self.old.whole self.old.rest.now }
        ensures value { IfOk result (λ n. n ≡ big_endian 2 self.old.rest.now) }
        ensures left { OnOk result (Advanced 2 self.old self.new) }
    {
        let [high, low, rest @ ..] = self.rest else {
            return Err(Fault::length(self.whole));
        };
        self.rest = rest;
        Ok(usize::from(u16::from_be_bytes([*high, *low])))
    }

    // Takes a count: four bytes, likewise.
    #[tactic(auto, unfolding(crate::specs::Numbers::big_endian))]
    pub(crate) fn count(&mut self) -> Result<usize, Fault>
        ensures fault { result_err result ≡ short_fault 4 self.old.whole self.old.rest.now }
        ensures value { IfOk result (λ n. n ≡ big_endian 4 self.old.rest.now) }
        ensures left { OnOk result (Advanced 4 self.old self.new) }
    {
        let [first, second, third, fourth, rest @ ..] = self.rest else {
            return Err(Fault::length(self.whole));
        };
        self.rest = rest;
        Ok(u32::from_be_bytes([*first, *second, *third, *fourth]) as usize)
    }

    // Takes so many digits. The first byte above 5 is refused with its place in the whole book.
    fn digits(&mut self, len: usize) -> Result<(), Fault>
        ensures fault { result_err result ≡ section_fault len self.old.whole self.old.rest.now }
        ensures left { OnOk result (Advanced len self.old self.new) }
    {
        let start = self.whole - self.rest.len();
        match first_above(self.take(len)?) {
            None => Ok(()),
            Some(place) => Err(Fault::digit(start + place)),
        }
    }

    // Takes the second count, which has to be the first.
    fn second_count(&mut self, first: usize) -> Result<(), Fault>
        ensures fault { result_err result ≡ second_fault first self.old.whole self.old.rest.now }
        ensures left { OnOk result (Advanced 4 self.old self.new) }
    {
        let second = self.count()?;
        if second == first {
            Ok(())
        } else {
            Err(Fault::counts(second))
        }
    }

    // Nothing may be left.
    fn end(&self) -> Result<(), Fault>
        ensures { result_err result ≡ end_fault self.now.whole self.now.rest.now }
    {
        if self.rest.is_empty() {
            Ok(())
        } else {
            Err(Fault::length(self.whole))
        }
    }

    // Takes what stands behind the first count: digits, a count and digits again, and no more.
    #[tactic(auto, using(crate::proofs::Sections::second_section))]
    pub(crate) fn sections(&mut self, count: usize, dimension: usize) -> Result<(), Fault>
        requires count_bound { count ≤ 1024 }
        requires dimension_bound { dimension ≤ 4096 }
        ensures { result_err result ≡ sections_fault count (count * dimension) self.old.whole self.old.rest.now }
    {
        let size = count * dimension;
        self.digits(size)?;
        self.second_count(count)?;
        self.digits(size)?;
        self.end()
    }
}
