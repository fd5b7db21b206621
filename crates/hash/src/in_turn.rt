ghost use Rattle.hash.specs.Streams.{Four};

use crate::{FourReaders, Reader};

// Four readers, read one after the other: what an implementation takes that has nothing faster for four streams.
#[derive(Drop)]
pub struct InTurn<R: Reader + Drop> {
    pub first: R,
    pub second: R,
    pub third: R,
    pub fourth: R,
}

impl<R: Reader + Drop> FourReaders for InTurn<R> {
    ghost rests = { λ s. record { first = R.rest s.first; second = R.rest s.second; third = R.rest s.third; fourth = R.rest s.fourth } };

    fn squeeze(&mut self, a: &mut [u8], b: &mut [u8], c: &mut [u8], d: &mut [u8]) {
        self.first.squeeze(a);
        self.second.squeeze(b);
        self.third.squeeze(c);
        self.fourth.squeeze(d);
    }
}
