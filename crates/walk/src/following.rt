// Following a pair that is listed: the pairs that its moves lead to are put down behind the listed ones.
ghost use Rattle.std.specs.Prelude.{◌≡◌, ◌<◌, ◌≤◌, IfNone, IfSome, length};
ghost use Rattle.runs.specs.Walks.{at, followed, has, moves_below, put};
ghost use Rattle.walk.specs.Listings.{Grew, listed};
ghost use Rattle.walk.specs.Records.{listed_of, pair_of};

use crate::fault::WalkFault;
use crate::listing::Listing;
use crate::pair::CodePair;
use crate::record::PairRecord;
use crate::sides::Sides;
use flows::Flow;
use keys::find;

impl Listing<'_> {
    // The pair of this number, if so many are listed.
    pub(crate) fn pair(&self, i: usize) -> Option<CodePair>
        ensures listed { IfSome result (λ pair. (i < self.now.used) × (pair_of pair ≡ at (listed self.now) i)) }
        ensures behind { IfNone result (self.now.used ≤ i) }
    {
        self.table[..self.used].get(i).map(|entry| entry.pair)
    }

    // Whether the pair is listed.
    fn has(&self, pair: CodePair) -> bool
        ensures found { result ≡ has (pair_of pair) (listed self.now) }
    {
        find(&self.table[..self.used], &pair).is_some()
    }

    // Puts a pair down behind the listed ones, unless it is listed; refused where the table is full.
    pub(crate) fn put_down(&mut self, entry: PairRecord) -> Result<(), WalkFault>
        ensures name { self.new.table.ghost_name ≡ self.old.table.ghost_name }
        ensures grew { Grew (put (listed self.old) (listed_of entry)) self.old self.new result }
    {
        if self.has(entry.pair) {
            return Ok(());
        }
        if self.used == self.table.len() {
            return Err(WalkFault::TableFull);
        }
        self.table[self.used] = entry;
        self.used += 1;
        Ok(())
    }

    // Follows pair number `from` along the situations, upward, and in each along the actions, upward.
    pub(crate) fn follow<F: Flow, G: Flow>(
        &mut self,
        sides: &Sides<'_, F, G>,
        from: usize,
        pair: CodePair,
    ) -> Result<(), WalkFault>
        ensures name { self.new.table.ghost_name ≡ self.old.table.ghost_name }
        ensures grew { Grew (followed (F.Flow.meaning sides.now.left.now) (G.Flow.meaning sides.now.right.now) (listed self.old) from (pair_of pair) (moves_below (F.Flow.meaning sides.now.left.now).situations (F.Flow.meaning sides.now.left.now).actions)) self.old self.new result }
    {
        for situation in 0..sides.left.situations() {
            for action in 0..sides.left.actions() {
                self.put_down(PairRecord {
                    pair: sides.next_pair(pair, situation, action),
                    from,
                    situation,
                    action,
                })?;
            }
        }
        Ok(())
    }
}
