ghost use Rattle.std.specs.Prelude.{◌≡◌, ◌≤◌, length, map, IfErr, IfOk};
ghost use Rattle.proc_api.specs.Reserves.{AreStarting};
ghost use Rattle.node_cells.specs.NewCells.{AreNewCells, AreNewReserves, sizes_of};

use crate::graph::Graph;
use node_cells::{Cells, make_cells};
use proc_api::Processor;

impl Graph {
    /// The execution table of the graph, for so many workers and their caller, and the cells of its
    /// nodes in order of their numbers. For want of memory the boxes are handed back in that order.
    pub fn into_cells(
        self,
        workers: u32,
    ) -> Result<Cells<Box<dyn Processor + Send>>, Vec<Box<dyn Processor + Send>>>
        requires some_workers { 1 ≤ workers }
        requires few_workers { workers ≤ 16 }
        requires starting { AreStarting self.reserves (map (λ b. seen b) self.boxes.items) }
        ensures cells { IfOk result (λ c. AreNewCells (λ b. seen b)
            (sizes_of (length self.boxes.items) self.wires self.reserves workers)
            self.boxes.items c) }
        ensures reserves { IfOk result (λ c. AreNewReserves self.ranks self.reserves
            (map (λ b. seen b) self.boxes.items) c.cells.items) }
        ensures handed_back { IfErr result (λ b. b.items ≡ self.boxes.items) }
    {
        let Graph {
            boxes,
            ranks,
            wires,
            reserves,
        } = self;
        let alloc = *boxes.allocator();
        make_cells(alloc, boxes, &ranks, &wires, &reserves, workers)
    }
}
