ghost use Rattle.std.specs.Prelude.{◌++◌, ◌+◌, ◌-◌, ◌<◌, ◌∷◌, ◌≡◌, ◌≤◌};
ghost use Rattle.proc_api.specs.Names.{IfErr, IsBlank, IsFirstPlace, OnErr, OnOk, TakesFirst, [], count_by, is_of, length, map, option_map, same_kind, vec_capacity};

use crate::processor::Processor;
use query_model::processor_spec::Kind;
use std::alloc::Global;

/// Blank boxes of processors, in order. Its room beyond the boxes that lie in it is its spare.
#[derive(Drop)]
pub struct Rack {
    pub boxes: Vec<Box<dyn Processor + Send>>,
}

impl Rack {
    pub fn new(alloc: Global) -> Rack
        ensures { result.boxes.items ≡ [] }
    {
        Rack {
            boxes: Vec::new(alloc),
        }
    }

    /// Puts a blank box behind the others; the box is handed back where there is no memory.
    pub fn add(&mut self, b: Box<dyn Processor + Send>) -> Result<(), Box<dyn Processor + Send>>
        requires { IsBlank (seen b) }
        ensures ok { OnOk result (self.new.boxes.items ≡ self.old.boxes.items ++ b ∷ []) }
        ensures unchanged { OnErr result (self.new.boxes.items ≡ self.old.boxes.items) }
        ensures handed_back { IfErr result (λ back. back ≡ b) }
    {
        if self.boxes.reserve(1).is_err() {
            return Err(b);
        }
        let _ = self.boxes.push(b);
        Ok(())
    }

    /// How many blank boxes of the kind lie in it.
    pub fn count(&self, kind: Kind) -> usize
        ensures { result ≡ count_by (is_of kind) (map (λ b. seen b) self.now.boxes.items) }
    {
        let mut count = 0;
        for b in self.boxes.as_slice() {
            if is_of(b, kind) {
                count += 1;
            }
        }
        count
    }

    /// Takes the first box of the kind. Its room stays, so that a box can be given back.
    pub fn take(&mut self, kind: Kind) -> Option<Box<dyn Processor + Send>>
        ensures taken { TakesFirst kind (map (λ b. seen b) self.old.boxes.items)
            (map (λ b. seen b) self.new.boxes.items) (option_map (λ b. seen b) result) }
        ensures room { vec_capacity self.old.boxes ≤ vec_capacity self.new.boxes }
    {
        match self.place_of(kind) {
            Some(place) => Some(self.boxes.remove(place)),
            None => None,
        }
    }

    // The place of the first box of the kind.
    fn place_of(&self, kind: Kind) -> Option<usize>
        ensures { IsFirstPlace kind (map (λ b. seen b) self.now.boxes.items) result }
    {
        for i in 0..self.boxes.len() {
            if is_of(&self.boxes[i], kind) {
                return Some(i);
            }
        }
        None
    }

    /// Puts a blank box back, in the room of one that was taken.
    pub fn give_back(&mut self, b: Box<dyn Processor + Send>)
        requires blank { IsBlank (seen b) }
        requires spare { length self.old.boxes.items < vec_capacity self.old.boxes }
        ensures last { self.new.boxes.items ≡ self.old.boxes.items ++ b ∷ [] }
        ensures room { vec_capacity self.old.boxes ≤ vec_capacity self.new.boxes }
    {
        let _ = self.boxes.push(b);
    }
}

fn is_of(b: &Box<dyn Processor + Send>, kind: Kind) -> bool
    ensures { result ≡ same_kind (seen b.now).kind kind }
{
    b.kind() == kind
}
