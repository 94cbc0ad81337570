// The size of the memory.
ghost use Rattle.std.specs.Prelude.{◌≡◌, IfOk};
ghost use Rattle.cc_line.specs.BlockView.{block_items};
ghost use Rattle.cc_line.specs.View.{site_view};
ghost use Rattle.cc_mem.specs.Size.{memory_site, size_items};

use cc_line::{Act, Block, Key, Scratch, Site, Step, Store};
use mc_nbt::Memory;
use std::alloc::Global;

/// The items that put the number of the memory's pages into a place.
///
/// # Errors
///
/// `Memory` where there is no room for them.
pub fn size(alloc: Global, to: u32) -> Result<Block, Memory>
    ensures { IfOk result (λ b. block_items b ≡ size_items to) }
{
    let steps = [
        Step::Run(Act::LoadSite {
            to: Scratch::A,
            site: pages(),
        }),
        Step::Run(Act::KeepPlace {
            place: to,
            from: Scratch::A,
        }),
    ];
    Block::of_steps(alloc, &steps)
}

/// The memory's pages.
pub fn pages() -> Site
    ensures { site_view result ≡ memory_site }
{
    Site::at(Store::Memory, Key::Memory)
}
