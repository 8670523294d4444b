//! For each node the list of the arcs that have it at one end.
//!
//!     first[node] -> arc -> next[arc] -> arc -> .. -> none
//!
//! An arc is named by one more than its place, so that 0 is none. The newest arc comes first, so
//! an arc is added in constant time and a list goes down in the places.
ghost use Rattle.std.specs.Prelude.{◌≡◌, ◌≤◌, ◌<◌, ◌+◌, [], ◌∷◌, ◌++◌, IfOk, replicate};
ghost use Rattle.std.specs.Prelude.{slice_index, slice_set, vec_len, vec_capacity};

use std::alloc::{AllocError, Global};

#[derive(Drop)]
pub struct Lists {
    pub first: Vec<u32>,
    pub next: Vec<u32>,
}

impl Lists {
    /// One empty list for each node, with room for so many arcs.
    pub fn new(alloc: Global, nodes: u16, room: usize) -> Result<Lists, AllocError>
        ensures empty { IfOk result (λ lists. lists.first.items ≡ replicate nodes 0) }
        ensures no_arc { IfOk result (λ lists. lists.next.items ≡ []) }
        ensures room { IfOk result (λ lists. room ≤ vec_capacity lists.next) }
    {
        let next = Vec::with_capacity(alloc, room)?;
        let first = vec![in alloc; 0; nodes as usize]?;
        Ok(Lists { first, next })
    }

    /// Puts the next arc at the head of the node's list.
    pub fn add(&mut self, node: u16)
        requires node_in_range { node < vec_len self.old.first }
        requires room { vec_len self.old.next < vec_capacity self.old.next }
        requires small { vec_len self.old.next < 4_294_967_295 }
        ensures first { let name = vec_len self.old.next + 1 in
            self.new.first.items ≡ slice_set self.old.first.items node name }
        ensures next { let older = slice_index self.old.first.items node in
            self.new.next.items ≡ self.old.next.items ++ older ∷ [] }
        ensures room { vec_capacity self.old.next ≤ vec_capacity self.new.next }
    {
        let node = node as usize;
        let arc = self.next.len() as u32 + 1;
        self.next.push(self.first[node]).unwrap();
        self.first[node] = arc;
    }
}
