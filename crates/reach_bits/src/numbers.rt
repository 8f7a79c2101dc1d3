//! The numbers of a row one by one.
ghost use Rattle.std.specs.Prelude.{◌≡◌};
ghost use Rattle.std.specs.Iterator.{YieldsFirst, item_count};
ghost use Rattle.reach_bits.specs.Numbers.{numbers_from, numbers_left};

use crate::row::Row;

/// The numbers of a row one by one, in their order.
#[derive(Drop)]
pub struct Numbers<'a> {
    row: &'a Row,
    // The least number that may still come.
    from: usize,
}

impl Row {
    /// The numbers of the set one by one, in their order.
    pub fn iter(&self) -> Numbers<'_>
        ensures { numbers_left result ≡ numbers_from self.now 0 }
    {
        Numbers { row: self, from: 0 }
    }
}

impl<'a> Iterator for Numbers<'a> {
    type Item = usize;

    ghost next_gives = { YieldsFirst numbers_left };

    ghost remaining = { item_count numbers_left };

    fn next(&mut self) -> Option<usize> {
        match self.row.next(self.from) {
            Some(number) => {
                self.from = number + 1;
                Some(number)
            }
            None => None,
        }
    }
}
