ghost use Rattle.std.specs.Prelude.{◌≡◌, length};
ghost use Rattle.ad_io.specs.Sink.{Puts, PutCause};

use ad_edition::Receipt;
use ad_io::{Sink, Wrote, put_each};
use ad_lines::Decimal;
use std::marker::Model;

// How many bytes the words between the counts have, with the spaces and the line feed.
const WORDS: u64 = 33;

// The body of an accepted edit's reply, which contracts see as its four counts.
#[derive(Drop)]
pub(crate) struct CountsText {
    added: Decimal,
    already: Decimal,
    removed: Decimal,
    absent: Decimal,
}

impl Model for CountsText {
    ghost use Rattle.ad_reply.specs.Counted.{Counted};

    ghost Value = { Counted };

    ghost view = { λ c. record { added = c.added; already = c.already; removed = c.removed; absent = c.absent } };
}

impl CountsText {
    ghost use Rattle.ad_reply.specs.Counted.{counted_in, counted_text};

    pub(crate) fn of(receipt: Receipt) -> CountsText
        ensures { result ≡ counted_in receipt }
    {
        CountsText {
            added: Decimal::of(u64::from(receipt.added)),
            already: Decimal::of(u64::from(receipt.already)),
            removed: Decimal::of(u64::from(receipt.removed)),
            absent: Decimal::of(u64::from(receipt.absent)),
        }
    }

    pub(crate) fn len(&self) -> u64
        ensures { result ≡ length (counted_text self.now) }
    {
        WORDS + self.added.len() + self.already.len() + self.removed.len() + self.absent.len()
    }

    pub(crate) fn put<K: Sink>(&self, sink: &mut K) -> Wrote
        ensures bytes { Puts (K.written sink.old) (K.written sink.new) result (counted_text self.now) }
        ensures cause { PutCause (K.faults sink.old) (K.faults sink.new) result }
    {
        put_each(
            sink,
            &[
                b"added ",
                self.added.as_bytes(),
                b" already ",
                self.already.as_bytes(),
                b" removed ",
                self.removed.as_bytes(),
                b" absent ",
                self.absent.as_bytes(),
                b"\n",
            ],
        )
    }
}
