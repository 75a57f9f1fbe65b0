ghost use Rattle.std.specs.Prelude.{◌≡◌, ℕ, List, Option, ◌++◌, [], refl};
ghost use Rattle.std.proofs.Common.{◌∙◌};
ghost use Rattle.ad_io.specs.declared.writes.Wrote.TheVariants.{All};
ghost use Rattle.ad_io.specs.Sink.{Puts, PutCause};
ghost use Rattle.ad_lines.specs.Pen.{Goes, Counts};
ghost use Rattle.ad_lines.specs.PenLaws.{goes_begins, goes_joins, counts_begins, counts_joins};

use crate::page::Page;
use crate::pen::Pen;
use ad_io::{Sink, Wrote, put_all};

/// A pen that writes to a sink, and stops at the sink's first failure: it then writes no more. It gathers what it is
/// given, so that the sink has few calls; what still waits is written at the end.
#[derive(Drop)]
pub struct Inked<'a, K> {
    sink: &'a mut K,
    page: Page,
    wrote: Wrote,
}

impl<'a, K: Sink> Pen for Inked<'a, K> {
    ghost writes = { λ old new text.
        (new.sink.ghost_name ≡ old.sink.ghost_name)
        × Goes (K.written old.sink.now) (K.written new.sink.now) old.page new.page old.wrote new.wrote text
        × Counts (K.faults old.sink.now) (K.faults new.sink.now) old.wrote new.wrote };

    ghost begins = { λ pen. (refl, goes_begins (K.written pen.sink.now) pen.page pen.wrote, counts_begins (K.faults pen.sink.now) pen.wrote) };

    ghost joins = { λ old mid new xs ys first then_. (
      then_.0 ∙ first.0,
      goes_joins (K.written old.sink.now) (K.written mid.sink.now) (K.written new.sink.now) old.page mid.page new.page old.wrote mid.wrote new.wrote xs ys first.1 then_.1,
      counts_joins (K.faults old.sink.now) (K.faults mid.sink.now) (K.faults new.sink.now) old.wrote mid.wrote new.wrote first.2 then_.2,
    ) };

    fn put(&mut self, piece: &[u8]) {
        if self.page.has_room(piece.len()) {
            self.page.add(piece);
        } else {
            self.write_out();
            self.begin_with(piece);
        }
    }
}

impl<'a, K: Sink> Inked<'a, K> {
    /// A pen that has written nothing yet.
    pub fn over(sink: &'a mut K) -> Inked<'a, K>
        ensures same_sink { result.sink.ghost_name ≡ sink.entry.ghost_name }
        ensures sink { result.sink.now ≡ sink.old }
        ensures page { result.page ≡ [] }
        ensures wrote { result.wrote ≡ All }
    {
        Inked {
            sink,
            page: Page::new(),
            wrote: Wrote::All,
        }
    }

    /// Writes what still waits, and tells whether all was written since the pen was fresh.
    pub fn end(&mut self) -> Wrote
        ensures same_sink { self.new.sink.ghost_name ≡ self.old.sink.ghost_name }
        ensures bytes { (written : Option (List ℕ)) (text : List ℕ) →
            Goes written (K.written self.old.sink.now) [] self.old.page All self.old.wrote text →
            Puts written (K.written self.new.sink.now) result text }
        ensures cause { (faults : ℕ) → Counts faults (K.faults self.old.sink.now) All self.old.wrote →
            PutCause faults (K.faults self.new.sink.now) result }
    {
        self.write_out();
        self.wrote
    }

    // Writes what waits.
    fn write_out(&mut self)
        ensures written { ⟦<Inked<'a, K> as Pen>⟧.writes self.old self.new [] }
        ensures page { self.new.page ≡ [] }
    {
        match self.wrote {
            Wrote::All => self.wrote = put_all(self.sink, self.page.as_bytes()),
            Wrote::Failed => {}
        }
        self.page.clear();
    }

    // Writes a piece before which nothing waits.
    fn begin_with(&mut self, piece: &[u8])
        requires { self.old.page ≡ [] }
        ensures { ⟦<Inked<'a, K> as Pen>⟧.writes self.old self.new piece.now }
    {
        if self.page.has_room(piece.len()) {
            self.page.add(piece);
        } else {
            self.write_through(piece);
        }
    }

    // Writes a piece that has no room in the page, before which nothing waits.
    fn write_through(&mut self, piece: &[u8])
        requires { self.old.page ≡ [] }
        ensures { ⟦<Inked<'a, K> as Pen>⟧.writes self.old self.new piece.now }
    {
        match self.wrote {
            Wrote::All => self.wrote = put_all(self.sink, piece),
            Wrote::Failed => {}
        }
    }
}
