//! The [`Marks`] of a renewal: a flag for each row, which says whether the row is kept, and the new
//! numbers of the kept rows.

ghost use Rattle.std.specs.Prelude.{◌≡◌, ◌<◌, ◌≤◌, ◌^◌, ℕ, IfOk, IfErr, Some, length, slice_get};
ghost use Rattle.run_model.specs.declared.faults.Fault.TheVariants.{Memory};
ghost use Rattle.run_model.specs.Scopes.{AreOrdered, is_root};
ghost use Rattle.state_renewal.specs.Marks.{is_above_flagged, is_flagged};
ghost use Rattle.state_renewal.specs.Renewed.{new_number};

use run_model::{Fault, Kind, Scope};
use std::alloc::{Allocator, Global};
use std::marker::Model;

/// Which rows of one kind are kept, and the new number of each row.
#[derive(Drop)]
pub struct Marks<A: Allocator = Global> {
    flags: Vec<bool, A>,
    /// The new number of each row, and after them the number of kept rows.
    numbers: Vec<u16, A>,
}

impl<A: Allocator> Model for Marks<A> {
    ghost use Rattle.std.specs.Prelude.{Bool, List};
    ghost use Rattle.state_renewal.specs.Marks.{AreNewNumbers};

    ghost Value = { List Bool };

    ghost view = { λ m. m.flags.items };

    ghost invariant = { λ m. AreNewNumbers m.flags.items m.numbers.items };
}

impl<A: Allocator + Copy> Marks<A> {
    /// Returns the marks that these flags give. `Memory` if the memory for the numbers is refused.
    pub fn new(alloc: A, flags: Vec<bool, A>) -> Result<Marks<A>, Fault>
        requires few { length flags.items < 2 ^ 16 }
        ensures flags { IfOk result (λ marks. marks ≡ flags.items) }
        ensures fault { IfErr result (λ fault. fault ≡ Memory) }
    {
        let numbers = new_numbers(alloc, &flags)?;
        Ok(Marks { flags, numbers })
    }
}

impl<A: Allocator> Marks<A> {
    /// Returns the flags, one for each row.
    pub fn flags(&self) -> &[bool]
        ensures { result.now ≡ self.now }
    {
        self.flags.as_slice()
    }

    /// Returns the new number of a row: how many earlier rows are kept. After the last row it is
    /// the number of all kept rows.
    pub fn number(&self, n: u16) -> u16
        requires known { n ≤ length self.now }
        ensures value { result ≡ new_number (is_flagged self.now) n }
    {
        self.numbers[n as usize]
    }
}

/// Also flags each scope above a flagged one. There is a flag for each scope. If exactly the needed
/// scopes were flagged, exactly the kept ones are afterwards. Takes no memory.
pub fn flag_above(scopes: &[Scope], flags: &mut [bool])
    requires ordered { AreOrdered scopes.now }
    requires each { length flags.old ≡ length scopes.now }
    ensures flags { (s : ℕ) → is_flagged flags.new s ≡ is_above_flagged scopes.now flags.old s }
    ensures each { length flags.new ≡ length scopes.now }
{
    for back in 0..scopes.len() {
        let s = scopes.len() - 1 - back;
        let row = &scopes[s];
        if flags[s] && !is_root(&row.kind) {
            flags[row.parent as usize] = true;
        }
    }
}

/// Returns the new number of each row, given flags that say which rows are kept, and after them the
/// number of kept rows. `Memory` if memory is refused.
pub fn new_numbers<A: Allocator>(alloc: A, flags: &[bool]) -> Result<Vec<u16, A>, Fault>
    requires few { length flags.now < 2 ^ 16 }
    ensures numbers { IfOk result (λ numbers. (n : ℕ) → n ≤ length flags.now
        → slice_get numbers.items n
        ≡ Some (new_number (is_flagged flags.now) n)) }
    ensures fault { IfErr result (λ fault. fault ≡ Memory) }
{
    let Ok(mut numbers) = Vec::with_capacity(alloc, flags.len() + 1) else {
        return Err(Fault::Memory);
    };
    let mut next = 0;
    for n in 0..flags.len() {
        numbers.push_reserved(next);
        if flags[n] {
            next += 1;
        }
    }
    numbers.push_reserved(next);
    Ok(numbers)
}

fn is_root(kind: &Kind) -> bool
    ensures { result ≡ is_root kind.now }
{
    matches!(kind, Kind::Root)
}
