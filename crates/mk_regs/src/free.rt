ghost use Rattle.std.specs.Prelude.{◌≡◌, ℕ, ◌+◌, ◌^◌, ◌≤◌, ◌<◌, ◌∷◌, [], OnOk, IfOk, nat_eq};
ghost use Rattle.std.specs.BinaryHeap.{IsHeap, heap_items};
ghost use Rattle.std.specs.Ordering.{nat_cmp};
ghost use Rattle.std.proofs.Props.{props};
ghost use Rattle.mk_regs.specs.Tables.{times_free, IsTaken, one_where};

use mk_base::Memory;
use std::alloc::Global;
use std::cmp::Reverse;
use std::collections::BinaryHeap;

/// The registers that hold nothing that is still wanted: some of those below `next`, and all others.
#[derive(Drop)]
pub(crate) struct FreeRegisters {
    pub(crate) heap: BinaryHeap<Reverse<u32>>,
    pub(crate) next: u32,
    ghost ordered: { IsHeap (λ x y. nat_cmp y.0 x.0) (heap_items heap) } by { Prim.hlevel props },
}

impl FreeRegisters {
    /// No register below `next` is free. There is room for so many below it to come free.
    pub(crate) fn new(alloc: Global, next: u32, room: usize) -> Result<FreeRegisters, Memory>
        ensures { IfOk result (λ free. (heap_items free.heap ≡ []) × (free.next ≡ next)) }
    {
        let heap = BinaryHeap::with_capacity(alloc, room)?;
        Ok(FreeRegisters { heap, next })
    }

    /// A register below `next` comes free.
    pub(crate) fn put(&mut self, register: u32) -> Result<(), Memory>
        ensures next { OnOk result (self.new.next ≡ self.old.next) }
        ensures free { OnOk result ((r : ℕ) → times_free (heap_items self.new.heap) r ≡ times_free (heap_items self.old.heap) r + one_where (nat_eq register r)) }
    {
        self.heap.push(Reverse(register))?;
        Ok(())
    }

    /// Takes the least free register.
    pub(crate) fn take(&mut self) -> u32
        requires { self.old.next + 1 < 2 ^ 32 }
        ensures { IsTaken (heap_items self.old.heap) (heap_items self.new.heap) self.old.next self.new.next result }
    {
        match self.heap.pop() {
            Some(Reverse(register)) => register,
            None => {
                let register = self.next;
                self.next += 1;
                register
            }
        }
    }
}
