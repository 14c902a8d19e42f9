// The words that the program lends to its heap.
ghost use Rattle.promises.specs.Slices.{slices};
ghost use Rattle.lines.specs.Lines.{Lent};

// They are as long as 32 pages and 1,024 remember entries want them, and no longer.
#[derive(Drop)]
pub struct Memory<'a> {
    pub cells: &'a mut [u32],
    pub remember: &'a mut [u32],
    pub tables: &'a mut [u32],
    pub chains: &'a mut [u32],
    ghost lent: { Lent (slices cells.now remember.now tables.now chains.now) },
}
