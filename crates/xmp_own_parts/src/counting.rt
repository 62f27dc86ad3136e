// How many turns a node makes.
ghost use Rattle.std.specs.Prelude.{◌≡◌, ◌<◌, ◌+◌, ◌-◌, ◌^◌, ◌++◌, [], ◌∷◌, length, drop, min, slice_get, Some, IfOk, OnOk};
ghost use Rattle.xmp_own_parts.specs.Nests.{own_from, own_turns};

use crate::nest::Nest;
use sqlite_items::{Items, at};
use xmp_base::NoMemory;
use xmp_prog::LoopHead;

impl Nest<'_> {
    /// How many tuples the node has that begin with the chosen values, up to the greatest number of 64 bits.
    #[cycle(count)]
    pub fn count(&self, chosen: &mut Items<i32>) -> Result<u64, NoMemory>
        ensures chosen { OnOk result (chosen.new ≡ chosen.old) }
        ensures count { IfOk result (λ n. n ≡ min (length (own_from self.now chosen.old (drop (length chosen.old) self.now.heads.now))) (2 ^ 64 - 1)) }
    {
        match at(self.heads, chosen.len()) {
            Some(head) => self.count_turns(head, chosen),
            None => Ok(u64::from(self.owns(chosen.as_slice()))),
        }
    }

    /// The same from the turns of the next loop.
    #[cycle(count)]
    fn count_turns(&self, head: &LoopHead, chosen: &mut Items<i32>) -> Result<u64, NoMemory>
        requires { slice_get self.now.heads.now (length chosen.old) ≡ Some head.now }
        ensures chosen { OnOk result (chosen.new ≡ chosen.old) }
        ensures count { IfOk result (λ n. n ≡ min (length (own_from self.now chosen.old (drop (length chosen.old) self.now.heads.now))) (2 ^ 64 - 1)) }
    {
        let own = self.own_turns(head, chosen.as_slice());
        let mut count: u64 = 0;
        let mut k = own.next(0);
        'turns: while k < own.turns.count {
            let more = self.count_turn(own.turns.index(k), chosen)?;
            count = count.saturating_add(more);
            k = own.next(k + 1);
        }
        Ok(count)
    }

    /// The same in a turn with this value of the index.
    #[cycle(count)]
    fn count_turn(&self, value: i32, chosen: &mut Items<i32>) -> Result<u64, NoMemory>
        requires { length chosen.old < length self.now.heads.now }
        ensures chosen { OnOk result (chosen.new ≡ chosen.old) }
        ensures count { IfOk result (λ n. n ≡ min (length (own_from self.now (chosen.old ++ value ∷ []) (drop (length chosen.old + 1) self.now.heads.now))) (2 ^ 64 - 1)) }
    {
        chosen.push(value)?;
        let count = self.count(chosen)?;
        chosen.pop();
        Ok(count)
    }
}
