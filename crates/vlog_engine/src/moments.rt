// The values of inputs and registers at two moments, between which waves have their edges.
ghost use Rattle.std.specs.Prelude.{◌≡◌, ◌≤◌, IfOk, length, take, vec_len};

use crate::reading::part;
use crate::value::Value;
use std::alloc::{AllocError, Global};
use std::mem;

/// The values of inputs and registers before the last step, and room for those before the next one. There are none if no register is a
/// clock.
#[derive(Drop)]
pub(crate) struct Moments<V: Value> {
    /// The values before the last step.
    pub(crate) earlier: Vec<V>,
    /// The values before the step that is run.
    pub(crate) next: Vec<V>,
}

impl<V: Value> Moments<V> {
    /// Room for the values of so many inputs and registers.
    pub(crate) fn new(alloc: Global, count: usize) -> Result<Moments<V>, AllocError>
        ensures earlier { IfOk result (λ moments. vec_len moments.earlier ≡ count) }
        ensures next { IfOk result (λ moments. vec_len moments.next ≡ count) }
    {
        Ok(Moments {
            earlier: vec![in alloc; V::every(false); count]?,
            next: vec![in alloc; V::every(false); count]?,
        })
    }

    /// Keeps the values before a step: those of the first cells.
    pub(crate) fn keep(&mut self, cells: &[V])
        requires { vec_len self.old.next ≤ length cells.now }
        ensures earlier { self.new.earlier ≡ self.old.earlier }
        ensures next { self.new.next.items ≡ take (vec_len self.old.next) cells.now }
        ensures count { vec_len self.new.next ≡ vec_len self.old.next }
    {
        let count = self.next.len();
        self.next.copy_from_slice(part(cells, 0, count));
    }

    /// The step is done: the values before it are those before the last step.
    pub(crate) fn turn(&mut self)
        ensures earlier { self.new.earlier ≡ self.old.next }
        ensures next { self.new.next ≡ self.old.earlier }
    {
        mem::swap(&mut self.earlier, &mut self.next);
    }
}
